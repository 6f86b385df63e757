//! What one connection asks for, from its bytes in any pieces.
#![tactic(auto)]

mod asked;
mod body;
mod exchange;
mod laws;

pub use exchange::{Exchange, read_exchange};
pub use laws::one_exchange;
