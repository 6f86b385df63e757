//! The words of the command line: what the program is to do, where its tables are kept, and how many workers search them.
#![tactic(auto)]

mod command;
mod config;
mod fault;
mod given;
mod hyphens;
mod mode;
mod name;
mod number;
mod reading;
mod store;

pub use config::{
    Config, DEFAULT_LISTEN, MOST_EXCHANGES, MOST_SAMPLE_ROWS, MOST_WORKERS, Mode, Store,
};
pub use fault::WordsFault;
pub use reading::read_words;
