//! A shelf of the tables that kept records are those of.
#![tactic(auto)]

mod attach;
mod built;
mod fault;

pub use attach::{Attached, attach_all};
pub use fault::ShelfFault;
