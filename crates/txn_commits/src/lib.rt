//! Commits of a machine's turns to a keeper.
#![tactic(auto)]

mod batch;
mod turns;

pub use batch::versions_known;
pub use turns::finish;
