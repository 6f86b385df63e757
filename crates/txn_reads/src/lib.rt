//! What sessions read: SELECT, EXPLAIN and cursors.
#![tactic(auto)]

mod opening;
mod pages;
mod reading;
mod seen;

pub use opening::open_cursor;
pub use pages::{advance, fetch, page};
pub use reading::{explain, select};
pub use seen::schema_seen;
