//! Places of rows.

/// Where a row is put.
#[derive(Clone, Copy, Debug, PartialEq, Eq)]
pub enum Place {
    /// A slot of a chunk that is there: the number of the chunk, and the slot.
    Slot(u32, u16),
    /// Slot 0 of a new chunk: the number of the chunk.
    NewChunk(u32),
}
