//! The paths that are served.
ghost use Rattle.std.specs.Prelude.{◌≡◌, IfOk};
ghost use Rattle.http_requests.specs.Paths.{all_patterns, piece_len, piece_before, behind_piece, session_in, cursor_in, path_with, path_of};

use crate::number::id_in;
use matchit::{InsertError, Router};
use std::alloc::Global;
use vec_base::{LAST_CURSOR, LAST_SESSION, Memory};

/// A pattern of paths, in which a session and a cursor may be any text.
#[derive(Clone, Copy, Debug, PartialEq, Eq)]
pub enum Pattern {
    Sessions,
    Session,
    Statements,
    Cursors,
    Cursor,
    Rows,
    Shutdown,
}

/// A path, with the numbers of its session and its cursor.
#[derive(Clone, Copy, Debug, PartialEq, Eq)]
pub enum Path {
    Sessions,
    Session(u32),
    Statements(u32),
    Cursors(u32),
    Cursor(u32, u32),
    Rows(u32, u32),
    Shutdown,
}

/// The router of all patterns.
fn router(alloc: Global) -> Result<Router<Pattern>, InsertError>
    ensures { IfOk result (λ rows. rows ≡ all_patterns) }
{
    let mut router = Router::new(alloc);
    router.insert("/sessions", Pattern::Sessions)?;
    router.insert("/sessions/{s}", Pattern::Session)?;
    router.insert("/sessions/{s}/statements", Pattern::Statements)?;
    router.insert("/sessions/{s}/cursors", Pattern::Cursors)?;
    router.insert("/sessions/{s}/cursors/{c}", Pattern::Cursor)?;
    router.insert("/sessions/{s}/cursors/{c}/rows", Pattern::Rows)?;
    router.insert("/shutdown", Pattern::Shutdown)?;
    Ok(router)
}

/// How many bytes there are before the first slash.
fn piece_len(bytes: &[u8]) -> usize
    ensures { result ≡ piece_len bytes.now }
{
    bytes.iter().take_while(|byte| **byte != b'/').count()
}

/// The bytes before the first slash.
fn piece_before(bytes: &[u8]) -> &[u8]
    ensures { result.now ≡ piece_before bytes.now }
{
    bytes.get(..piece_len(bytes)).unwrap_or(bytes)
}

/// The bytes behind the first slash, none where there is no slash.
fn behind_piece(bytes: &[u8]) -> &[u8]
    ensures { result.now ≡ behind_piece bytes.now }
{
    let end = piece_len(bytes);
    if end < bytes.len() {
        &bytes[end + 1..]
    } else {
        &[]
    }
}

/// The number of the session of a target.
fn session_in(target: &[u8]) -> Option<u32>
    ensures { result ≡ session_in target.now }
{
    id_in(
        piece_before(behind_piece(behind_piece(target))),
        LAST_SESSION,
    )
}

/// The number of the cursor of a target.
fn cursor_in(target: &[u8]) -> Option<u32>
    ensures { result ≡ cursor_in target.now }
{
    let behind_session = behind_piece(behind_piece(behind_piece(target)));
    id_in(piece_before(behind_piece(behind_session)), LAST_CURSOR)
}

/// The path of a target in a pattern, where its parameters are numbers.
fn path_with(target: &[u8], pattern: Pattern) -> Option<Path>
    ensures { result ≡ path_with target.now pattern }
{
    match pattern {
        Pattern::Sessions => Some(Path::Sessions),
        Pattern::Session => Some(Path::Session(session_in(target)?)),
        Pattern::Statements => Some(Path::Statements(session_in(target)?)),
        Pattern::Cursors => Some(Path::Cursors(session_in(target)?)),
        Pattern::Cursor => Some(Path::Cursor(session_in(target)?, cursor_in(target)?)),
        Pattern::Rows => Some(Path::Rows(session_in(target)?, cursor_in(target)?)),
        Pattern::Shutdown => Some(Path::Shutdown),
    }
}

/// The path that a target names, if it names one.
pub fn path_of(alloc: Global, target: &str) -> Result<Option<Path>, Memory>
    ensures exact { IfOk result (λ path. path ≡ path_of target.now) }
{
    let Ok(router) = router(alloc) else {
        return Err(Memory);
    };
    match router.at(target) {
        Ok(found) => Ok(path_with(target.as_bytes(), *found.value)),
        Err(_) => Ok(None),
    }
}
