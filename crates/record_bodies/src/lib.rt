//! Reading the bodies of records, and rows back from them.
#![tactic(auto)]

mod bytes;
mod partitions;
mod places;
mod reading;
mod search;
mod sources;

pub use partitions::{read_partition, write_partition};
pub use places::{read_place, write_place};
pub use reading::{ReadRow, row};
pub use search::body;
