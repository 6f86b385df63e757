//! The JSON bodies of requests.
#![tactic(auto)]

mod body;
mod param;

pub use body::{BodyFault, StatementBody, read_count, read_statement};
