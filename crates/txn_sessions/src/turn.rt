//! What a request comes to in memory.
use row_model::Reply;
use version_shelf::Held;

/// A reply; or a catalog that is to be committed, the reply where that is done, and the place of the session whose transaction ends with it.
#[derive(Drop)]
pub enum Turn {
    Answered(Reply),
    Commits(Held, Reply, Option<usize>),
}
