//! The table that kept records are those of.
#![tactic(auto)]

mod build;
mod fault;
mod fill;
mod info;
mod laws;
mod name;
mod open;

pub use build::{attach, attach_slice};
pub use fault::AttachFault;
pub use laws::one_catalog;
