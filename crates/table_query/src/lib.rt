//! What a plan finds in a table: the row of a rowid or key, the rows of a scan one after another, and the items of a row.
#![tactic(auto)]

mod field;
mod items;
mod lookup;
mod rows;
mod scan;

pub use field::field_passes;
pub use items::project;
pub use lookup::point;
pub use scan::scan_next;
