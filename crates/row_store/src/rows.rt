//! What gives the rows of a store.
use crate::RowPlace;
use crate::part::Part;
use row_index::RowIndex;
use shared_leaves::{Leaves, Shared};
use slot_alloc::Places;

/// Chunks by their numbers, the places that are used, and the entries of rowids.
#[derive(Drop)]
pub struct Rows {
    pub parts: Leaves<Shared<Part>>,
    pub places: Places,
    pub index: RowIndex,
    /// What a change that found no memory has left behind.
    pub claim: Option<RowPlace>,
}
