//! Versions of tables that several catalogs name.
#![tactic(auto)]

mod changes;
mod held;
mod lookups;
mod shelf;
mod slots;

pub use held::Held;
pub use shelf::Shelf;
pub use slots::Kept;
