//! The writes of the machine: CREATE, DROP, INSERT, UPDATE and DELETE, in a session.
#![tactic(auto)]

mod bytes;
mod creates;
mod deletes;
mod drops;
mod inserts;
mod tables;
mod updates;

pub use creates::create;
pub use deletes::delete;
pub use drops::drop_table;
pub use inserts::insert;
pub use updates::update;
