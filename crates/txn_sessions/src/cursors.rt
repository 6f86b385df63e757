//! Cursors of a session.
ghost use Rattle.std.specs.Prelude.{◌≡◌, ◌<◌, ◌+◌, ◌++◌, None, MatchOption, map, length};
ghost use Rattle.row_model.specs.Limits.{over_cursor_numbers, over_cursors};
ghost use Rattle.row_model.specs.Machine.{cursor_of};
ghost use Rattle.row_model.specs.RefusalOrder.{first};
ghost use Rattle.row_model.specs.Step.{cursor_closed};
ghost use Rattle.snapshot_cursor.specs.Left.{rows_left};
ghost use Rattle.txn_sessions.specs.Exchanges.{Exchanges};
ghost use Rattle.txn_sessions.specs.Lookups.{IsAt, IsCursor};
ghost use Rattle.txn_sessions.specs.Seen.{Versions, cursor_seen, cursors_at, rows_over, session_at, state_of};
ghost use Rattle.txn_sessions.specs.Sound.{IsOrigin, IsSound};
ghost use Rattle.txn_sessions.specs.Takes.{cursor_added, cursor_refusals, Takes};

use crate::machine::Machine;
use crate::session::{OpenCursor, Origin};
use row_model::{Reply, over_cursor_numbers, over_cursors};
use snapshot_cursor::Cursor;
use vec_base::Refusal;

/// Where the cursor of the number stands.
#[tactic(auto, using(crate::proofs::CursorLaws::cursor_first, crate::proofs::CursorLaws::cursor_later))]
fn cursor_in(cursors: &[OpenCursor], number: u32) -> Option<usize>
    ensures { MatchOption result ((shelf : Versions) → cursor_of number (map (cursor_seen shelf) cursors.now) ≡ None) (λ at. IsCursor number cursors.now at) }
{
    let (cursor, others) = cursors.split_first()?;
    if cursor.number == number {
        return Some(0);
    }
    match cursor_in(others, number) {
        Some(at) => Some(at + 1),
        None => None,
    }
}

/// The refusal of one more cursor, where there are these and that was the last number.
fn one_more_refusal(cursors: &[OpenCursor], last_cursor: u32) -> Option<Refusal>
    ensures { result ≡ first (over_cursors (length cursors.now + 1) ++ over_cursor_numbers (last_cursor + 1)) }
{
    over_cursors((cursors.len() as u64).saturating_add(1)).or(over_cursor_numbers(
        u64::from(last_cursor) + 1,
    ))
}

impl Machine {
    /// Where the cursor of the number stands in its session.
    pub fn cursor_place(&self, at: usize, number: u32) -> Option<usize>
        requires { at < length self.now.sessions.items }
        ensures { MatchOption result (cursor_of number (session_at self.now at).cursors ≡ None) (λ place. IsCursor number (cursors_at self.now at) place) }
    {
        cursor_in(self.sessions[at].cursors.as_slice(), number)
    }

    /// The refusal of one more cursor of a session.
    pub fn cursor_refusal(&self, at: usize) -> Option<Refusal>
        requires { at < length self.now.sessions.items }
        ensures { result ≡ first (cursor_refusals (session_at self.now at)) }
    {
        let session = &self.sessions[at];
        one_more_refusal(session.cursors.as_slice(), session.last_cursor)
    }

    /// Opens a cursor with the session's last number plus one. It takes no memory.
    pub fn open_cursor(&mut self, at: usize, cursor: Cursor, origin: Origin) -> Reply
        requires sound { IsSound self.old }
        requires at { IsAt self.old.sessions.items at }
        requires origin { IsOrigin self.old.shelf origin }
        requires room { first (cursor_refusals (session_at self.old at)) ≡ None }
        ensures { Takes self.old (cursor_added self.old at (rows_left cursor (rows_over self.old.shelf origin))) result self.new }
    {
        Reply::Cursor(self.sessions[at].add_cursor(cursor, origin))
    }

    /// Puts another cursor in the place of one, which is answered.
    pub fn exchange_cursor(&mut self, at: usize, place: usize, cursor: OpenCursor) -> OpenCursor
        requires at { at < length self.old.sessions.items }
        requires place { place < length (cursors_at self.old at) }
        ensures { Exchanges self.old at place cursor result self.new }
    {
        self.sessions[at].exchange_cursor(place, cursor)
    }

    /// Closes a cursor.
    pub fn close_cursor(&mut self, at: usize, number: u32) -> Reply
        requires sound { IsSound self.old }
        requires at { IsAt self.old.sessions.items at }
        ensures { Takes self.old (cursor_closed number (state_of self.old) (session_at self.old at) (cursor_of number (session_at self.old at).cursors)) result self.new }
    {
        match self.cursor_place(at, number) {
            Some(place) => {
                self.sessions[at].close_cursor(place);
                Reply::Done
            }
            None => Reply::Refused(Refusal::NoCursor),
        }
    }
}
