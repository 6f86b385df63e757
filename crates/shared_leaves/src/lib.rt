//! Lists and items that several holders share until one of them changes them.
#![tactic(auto)]

mod copied;
mod edit;
mod leaf;
mod leaves;
mod shared;

pub use copied::Copied;
pub use edit::{Edit, Within};
pub use leaves::Leaves;
pub use shared::Shared;
