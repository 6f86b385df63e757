//! Transactions, savepoints and cursors of sessions, over a shelf of table versions.
#![tactic(auto)]

mod change;
mod cursors;
mod few;
mod machine;
mod savepoints;
mod session;
mod sessions;
mod sweep;
mod transactions;
mod turn;
mod writes;

pub use change::Changed;
pub use few::Few;
pub use machine::Machine;
pub use session::{Mark, OpenCursor, OpenSession, Origin, Phase};
pub use turn::Turn;
