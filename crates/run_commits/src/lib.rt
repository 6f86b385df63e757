//! The commits of a run, and what is known of them.
#![tactic(auto)]

mod laws;

pub use laws::{answers_without_fault, catalogs_follow};
