//! The head of a request, from a connection that gives its bytes in any pieces.
#![tactic(auto)]

mod head;

pub use head::{HEAD_ROOM, Head, MOST_FIELDS, read_head};
