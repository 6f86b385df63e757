//! The answers of the HTTP server: the bytes that are sent for a reply, and for what is no request.
#![tactic(auto)]

mod answer;
mod body;
mod escape;
mod head;
mod room;
mod rows;
mod short;
mod status;

pub use answer::{bad_bytes, reply_bytes, small_reply};
