//! The fields of records of comma-separated values: the value that a field stands for in a column, and the field of a value.
//!
//! Numbers are decimal, a truth value is 0 or 1, and a text is itself. A vector of numbers is its literal in brackets, and
//! one of bits two hexadecimal digits for each byte. In an auxiliary column NULL is the empty field, so a text has `'` in
//! front there, and a blob, in hexadecimal digits, `x`.
#![tactic(auto)]

mod fault;
mod number;
mod reading;
mod writing;

pub use fault::FieldFault;
pub use reading::value_of;
pub use writing::{reads_back, write_field};
