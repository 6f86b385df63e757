//! Why no table is built.

/// Why no table is built.
#[derive(Clone, Copy, Debug, PartialEq, Eq)]
pub enum AttachFault {
    /// The records are those of no table of the number.
    Damaged,
    /// There is no memory.
    Memory,
}
