//! The rows of a scan over a table, as a source for cursors.
#![tactic(auto)]

mod source;

pub use source::{TableRows, open_scan};
