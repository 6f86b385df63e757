//! The shell: statements are read from a source, one after another, and their replies are written to a sink.
#![tactic(auto)]

mod cutter;
mod engine_session;
mod lines;
mod output;
mod printer;
mod shell;
mod sure_keeper;
mod tally;
mod top;

pub use shell::Ending;
pub use top::run;
