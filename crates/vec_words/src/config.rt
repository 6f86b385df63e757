//! What the words of the command line say.
use vec_base::Txt;

/// The address and port at which exchanges are awaited where none is given.
pub const DEFAULT_LISTEN: &str = "127.0.0.1:8080";

/// The most connections of one run.
pub const MOST_EXCHANGES: u32 = u32::MAX;

/// The most workers of one search.
pub const MOST_WORKERS: u8 = 64;

/// The most rows of a sample.
pub const MOST_SAMPLE_ROWS: u32 = 100_000;

/// What the program does.
#[derive(Debug, Drop)]
pub enum Mode {
    /// It answers exchanges of at most that many connections.
    Serve(u32),
    /// It reads statements and writes their replies.
    Shell,
    /// It reads records into the table of this name.
    Load(Txt),
    /// It writes the records of the table of this name.
    Dump(Txt),
    /// It builds a table from a seed, with that many rows, and searches it.
    Sample(u64, u32),
}

/// Where the tables are kept.
#[derive(Debug, Drop)]
pub enum Store {
    /// In memory alone.
    InMemory,
    /// In a journal, a file at this path.
    Journal(Txt),
    /// In a database of SQLite, a file at this path.
    Sqlite(Txt),
}

/// What the program is to do, where the tables are kept, how many workers a search has (1 to 64), and the address and port
/// at which exchanges are awaited. The address is the text that was given.
#[derive(Debug, Drop)]
pub struct Config {
    pub mode: Mode,
    pub store: Store,
    pub workers: u8,
    pub listen: Txt,
}
