//! Where the row of each rowid lies, and which rowid a text id has.
#![tactic(auto)]

mod entries;
mod entry;
mod index;
mod pairs;
mod search;

pub use entry::Entry;
pub use index::RowIndex;
