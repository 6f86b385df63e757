//! Why no catalog is built.

/// Why no catalog is built.
#[derive(Clone, Copy, Debug, PartialEq, Eq)]
pub enum ShelfFault {
    /// The records with table numbers up to this one stand for no catalog, and this is the least such number.
    Damaged(u32),
    /// There is no memory.
    Memory,
}
