//! The changes that turn the records of one table into those of another.
#![tactic(auto)]

mod changes;
mod group;
mod patch;
mod record;
mod touched;
mod turn;

pub use changes::{changes_over, changes_since, removal};
