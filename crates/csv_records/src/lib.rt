//! Texts of comma-separated fields: the records of a text up to the first that is refused, and the text of a record.
//!
//! The first record names the columns, and every record has as many fields as it. A record is refused that has another
//! number of fields or a field that is no UTF-8, and a first record that is missing is refused too. Records are numbered
//! from 0, so that records of data count from 1, and those before a refused one are good and are used first.
#![tactic(auto)]

mod reading;
mod writing;

pub use reading::{Records, read_records};
pub use writing::{reads_back, write_record};
