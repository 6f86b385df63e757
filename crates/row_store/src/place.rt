//! Places of rows.

/// A rowid, and the place of its row: the number of a chunk, and a slot of it.
#[derive(Clone, Copy, Debug)]
pub struct RowPlace {
    pub rowid: i64,
    pub chunk: u32,
    pub slot: u16,
}
