//! The answer of a SELECT over a table in chunks, by its plan.
#![tactic(auto)]

mod nearest;
mod point;
mod scan;
mod select;

pub use nearest::nearest_rows;
pub use point::point_rows;
pub use scan::scan_rows;
pub use select::select_rows;
