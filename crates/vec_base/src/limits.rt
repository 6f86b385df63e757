//! Limits of tables, statements and runs, by the names under which code, clauses and definitions cite them.

/// The most tables of a catalog.
pub const MOST_TABLES: u32 = 64;

/// The most rows of a table.
pub const MOST_ROWS: usize = 200_000;

/// The most bytes of one text or blob that is stored.
pub const MOST_VALUE_BYTES: usize = 1 << 20;

/// The most bytes of all vectors of all rows of a catalog.
pub const MOST_VECTOR_BYTES: u64 = 256 << 20;

/// The most bytes of all stored texts and blobs of all rows of a catalog.
pub const MOST_SIDE_BYTES: u64 = 256 << 20;

/// The most sessions that are open.
pub const MOST_SESSIONS: usize = 256;

/// The most cursors that are open in a session.
pub const MOST_CURSORS: usize = 16;

/// The most savepoints of a session.
pub const MOST_SAVEPOINTS: usize = 64;

/// The last id that a session gets in a run.
pub const LAST_SESSION: u32 = u32::MAX;

/// The last number that a cursor gets in its session.
pub const LAST_CURSOR: u32 = u32::MAX;

/// The most commits of a run.
pub const MOST_COMMITS: u64 = i64::MAX as u64;

/// The most items that a SELECT names, and the most terms of a WHERE.
pub const MOST_TERMS: usize = 64;

/// The most bytes of a statement's text, and of the text of a table's columns.
pub const MOST_TEXT_BYTES: usize = 4 << 20;

/// The most bytes of a name.
pub const MOST_NAME_BYTES: usize = 64;

/// The greatest number of a parameter.
pub const MOST_PARAMETERS: u16 = 999;

/// The most vector columns of a table.
pub const MOST_VECTOR_COLUMNS: usize = 16;

/// The most partition columns of a table.
pub const MOST_PARTITION_COLUMNS: usize = 4;

/// The most metadata columns of a table.
pub const MOST_METADATA_COLUMNS: usize = 16;

/// The most auxiliary columns of a table.
pub const MOST_AUXILIARY_COLUMNS: usize = 16;

/// The most dimensions of a vector: elements of an int8 vector, bits of a bit vector.
pub const MOST_DIMENSIONS: u16 = 8_192;

/// The most rows of a chunk.
pub const MOST_CHUNK_SIZE: u16 = 4_096;

/// The rows of a chunk where a table's columns do not say how many.
pub const DEFAULT_CHUNK_SIZE: u16 = 1_024;

/// The most rows that one reply has; the greatest `k`.
pub const MOST_REPLY_ROWS: usize = 4_096;

/// The most bytes that a source gives.
pub const MOST_SOURCE_BYTES: usize = 1 << 40;

/// The greatest rowid.
pub const LAST_ROWID: i64 = i64::MAX;

/// The number by which a refusal names `k` and LIMIT.
pub const COUNT_COLUMN: u8 = 254;

/// The number by which a refusal names `distance`.
pub const DISTANCE_COLUMN: u8 = u8::MAX;

/// The index that stands for every later name of a statement too.
pub const LAST_NAME_INDEX: u16 = u16::MAX;

/// The number of dimensions that stands for every greater one too.
pub const LAST_DIMENSIONS: u32 = u32::MAX;

/// The count that stands for every greater one too.
pub const LAST_COUNT: u64 = u64::MAX;
