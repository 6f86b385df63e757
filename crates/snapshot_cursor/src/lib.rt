//! Cursors: rows that are kept, or a place in a scan.
#![tactic(auto)]

mod cursor;
mod kept;
mod scan;
mod source;

pub use cursor::Cursor;
pub use scan::ScanPlace;
pub use source::{NoRows, RowSource};
