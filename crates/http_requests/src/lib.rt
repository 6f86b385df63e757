//! What the heads and bodies of HTTP requests ask for.
#![tactic(auto)]

mod framing;
mod number;
mod path;
mod request;
mod route;

pub use framing::Framing;
pub use path::{Path, path_of};
pub use request::{MOST_BODY_BYTES, RequestFault, WireRequest, answer_head, request_of};
pub use route::{Route, route_of};
