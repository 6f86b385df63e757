//! A changed version.
use row_model::Reply;
use table_version::TableVersion;
use version_shelf::Held;

/// A version that is to stand under a number of a catalog, the place of the one that it follows, and the reply.
#[derive(Drop)]
pub struct Changed {
    pub held: Held,
    pub number: u32,
    pub version: TableVersion,
    pub origin: Option<usize>,
    pub reply: Reply,
}
