//! A keeper of records whose tables stand in a journal on a disk.
#![tactic(auto)]

mod keeper;

pub use keeper::{JournalKeeper, JournalStart};
