//! The limits on tables, rows and runs: their numbers, and the refusal of a count that is over one.
ghost use Rattle.std.specs.Prelude.{◌≡◌};
ghost use Rattle.row_model.specs.Limits.{over, over_tables, over_rows, over_value, over_vectors, over_sides, over_sessions, over_cursors, over_savepoints, over_session_ids, over_cursor_numbers, over_commits};
ghost use Rattle.row_model.specs.RefusalOrder.{first};

use vec_base::{
    LAST_CURSOR, LAST_SESSION, MOST_COMMITS, MOST_CURSORS, MOST_ROWS, MOST_SAVEPOINTS,
    MOST_SESSIONS, MOST_SIDE_BYTES, MOST_TABLES, MOST_VALUE_BYTES, MOST_VECTOR_BYTES, Refusal,
};

/// Tables of a catalog.
pub const TABLES_LIMIT: u8 = 1;

/// Rows of a table.
pub const ROWS_LIMIT: u8 = 2;

/// Bytes of one text or blob.
pub const VALUE_BYTES_LIMIT: u8 = 3;

/// Bytes of all vectors of a catalog.
pub const VECTOR_BYTES_LIMIT: u8 = 4;

/// Bytes of all texts and blobs of a catalog.
pub const SIDE_BYTES_LIMIT: u8 = 5;

/// Open sessions.
pub const SESSIONS_LIMIT: u8 = 6;

/// Open cursors of a session.
pub const CURSORS_LIMIT: u8 = 7;

/// Savepoints of a session.
pub const SAVEPOINTS_LIMIT: u8 = 8;

/// Ids of sessions in a run.
pub const SESSION_IDS_LIMIT: u8 = 9;

/// Numbers of cursors in a session.
pub const CURSOR_NUMBERS_LIMIT: u8 = 10;

/// Commits in a run.
pub const COMMITS_LIMIT: u8 = 11;

/// Items of a SELECT, and terms of a WHERE.
pub const TERMS_LIMIT: u8 = 12;

/// The refusal of a count that is over the limit of the number.
fn over(limit: u8, most: u64, count: u64) -> Option<Refusal>
    ensures { result ≡ first (over limit most count) }
{
    if most < count {
        Some(Refusal::Full(limit, count))
    } else {
        None
    }
}

/// The refusal of so many tables.
pub fn over_tables(count: u64) -> Option<Refusal>
    ensures { result ≡ first (over_tables count) }
{
    over(TABLES_LIMIT, u64::from(MOST_TABLES), count)
}

/// The refusal of so many rows of a table.
pub fn over_rows(count: u64) -> Option<Refusal>
    ensures { result ≡ first (over_rows count) }
{
    over(ROWS_LIMIT, MOST_ROWS as u64, count)
}

/// The refusal of a text or blob of so many bytes.
pub fn over_value(count: u64) -> Option<Refusal>
    ensures { result ≡ first (over_value count) }
{
    over(VALUE_BYTES_LIMIT, MOST_VALUE_BYTES as u64, count)
}

/// The refusal of so many bytes of vectors.
pub fn over_vectors(count: u64) -> Option<Refusal>
    ensures { result ≡ first (over_vectors count) }
{
    over(VECTOR_BYTES_LIMIT, MOST_VECTOR_BYTES, count)
}

/// The refusal of so many bytes of texts and blobs.
pub fn over_sides(count: u64) -> Option<Refusal>
    ensures { result ≡ first (over_sides count) }
{
    over(SIDE_BYTES_LIMIT, MOST_SIDE_BYTES, count)
}

/// The refusal of so many open sessions.
pub fn over_sessions(count: u64) -> Option<Refusal>
    ensures { result ≡ first (over_sessions count) }
{
    over(SESSIONS_LIMIT, MOST_SESSIONS as u64, count)
}

/// The refusal of so many open cursors of a session.
pub fn over_cursors(count: u64) -> Option<Refusal>
    ensures { result ≡ first (over_cursors count) }
{
    over(CURSORS_LIMIT, MOST_CURSORS as u64, count)
}

/// The refusal of so many savepoints of a session.
pub fn over_savepoints(count: u64) -> Option<Refusal>
    ensures { result ≡ first (over_savepoints count) }
{
    over(SAVEPOINTS_LIMIT, MOST_SAVEPOINTS as u64, count)
}

/// The refusal of the id for one more session.
pub fn over_session_ids(count: u64) -> Option<Refusal>
    ensures { result ≡ first (over_session_ids count) }
{
    over(SESSION_IDS_LIMIT, u64::from(LAST_SESSION), count)
}

/// The refusal of the number for one more cursor of a session.
pub fn over_cursor_numbers(count: u64) -> Option<Refusal>
    ensures { result ≡ first (over_cursor_numbers count) }
{
    over(CURSOR_NUMBERS_LIMIT, u64::from(LAST_CURSOR), count)
}

/// The refusal of so many commits.
pub fn over_commits(count: u64) -> Option<Refusal>
    ensures { result ≡ first (over_commits count) }
{
    over(COMMITS_LIMIT, MOST_COMMITS, count)
}
