//! Grammars as data, and a reader of tokens with one of them at hand.
#![tactic(auto)]

mod list;
mod numbers;
mod quoted;
mod reader;
mod words;

pub use list::{Item, listed};
pub use quoted::Quoted;
pub use reader::{Reader, Stop};
