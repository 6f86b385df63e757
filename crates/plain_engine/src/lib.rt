//! The machine of plain row lists: an engine over lists with copies, which keeps nothing beside the rows.
#![tactic(auto)]

mod answer;
mod catalog;
mod changes;
mod copies;
mod cursors;
mod direct;
mod engine;
mod grow;
mod insert;
mod items;
mod machine;
mod marks;
mod meet;
mod nearest;
mod reads;
mod sessions;
mod totals;
mod transactions;
mod update;
mod writes;

pub use direct::is_direct;
pub use engine::PlainEngine;
