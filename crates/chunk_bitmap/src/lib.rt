//! Truth values of the slots of a chunk, eight in each byte.
#![tactic(auto)]

mod bitmap;
mod bits;

pub use bitmap::Bitmap;
