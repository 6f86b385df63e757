//! One batch more where a journal goes on, and the tables that a stop leaves.
#![tactic(auto)]

mod places;

pub use places::{Place, add_batch};
