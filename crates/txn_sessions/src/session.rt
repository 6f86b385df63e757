//! What is kept of an open session.
ghost use Rattle.std.specs.Prelude.{◌≡◌, ◌<◌, ◌+◌, length, IfOk};
ghost use Rattle.txn_sessions.specs.Sessions.{cursor_at, cut_to, entered, exchanged, gone_back, is_idle_phase, is_writing_phase, left_idle, mark_at, saved_session, session_new, with_added, with_held, with_phase, without_place};
ghost use Rattle.vec_base.specs.declared.limits.TheConstants.{LAST_CURSOR, MOST_CURSORS, MOST_SAVEPOINTS};

use crate::few::Few;
use knn_plan::Plan;
use snapshot_cursor::Cursor;
use std::alloc::Global;
use vec_base::{MOST_CURSORS, MOST_SAVEPOINTS, Memory, Txt};
use version_shelf::Held;

/// What a session is doing, with the catalog that it sees. Making and copying one takes no memory.
#[derive(Clone, Copy, Debug)]
pub enum Phase {
    Idle,
    /// It has a snapshot of the committed tables, and the number of the commit that made them.
    Reading(Held, u64),
    /// The number of the commit that it began with, and its own tables, which are not committed yet.
    Writing(u64, Held),
}

/// A savepoint: its name in lower case, and the tables of the moment.
#[derive(Drop)]
pub struct Mark {
    pub name: Txt,
    pub held: Held,
}

/// Over what a cursor goes: rows that it keeps, or the table under a number of a catalog, by a plan.
#[derive(Drop)]
pub enum Origin {
    Kept,
    Table(Held, u32, Plan),
}

/// An open cursor: its number in its session, its place, and over what it goes.
#[derive(Drop)]
pub struct OpenCursor {
    pub number: u32,
    pub cursor: Cursor,
    pub origin: Origin,
}

/// An open session. The room for its marks and cursors is taken when it is opened.
#[derive(Drop)]
pub struct OpenSession {
    pub id: u32,
    pub phase: Phase,
    /// SAVEPOINT began the transaction.
    pub by_savepoint: bool,
    pub marks: Few<Mark, MOST_SAVEPOINTS>,
    pub cursors: Few<OpenCursor, MOST_CURSORS>,
    /// The number of the last cursor that was opened; 0 where none was.
    pub last_cursor: u32,
}

impl Phase {
    /// Whether the session is in no transaction.
    pub fn is_idle(self) -> bool
        ensures { result ≡ is_idle_phase self }
    {
        matches!(self, Phase::Idle)
    }

    /// Whether the session has tables of its own.
    pub fn is_writing(self) -> bool
        ensures { result ≡ is_writing_phase self }
    {
        matches!(self, Phase::Writing(_, _))
    }

    /// The phase with another catalog in place of its own.
    pub fn with_held(self, held: Held) -> Phase
        ensures { result ≡ with_held held self }
    {
        match self {
            Phase::Idle => Phase::Idle,
            Phase::Reading(_, number) => Phase::Reading(held, number),
            Phase::Writing(base, _) => Phase::Writing(base, held),
        }
    }
}

/// The catalog of the mark at the place.
fn mark_held(marks: &[Mark], place: usize) -> Held
    requires { place < length marks.now }
    ensures { result ≡ (mark_at marks.now place).held }
{
    marks[place].held
}

impl OpenSession {
    /// An idle session, with the room for all marks and cursors.
    pub fn new(alloc: Global, id: u32) -> Result<OpenSession, Memory>
        ensures { IfOk result (λ session. session ≡ session_new id) }
    {
        Ok(OpenSession {
            id,
            phase: Phase::Idle,
            by_savepoint: false,
            marks: Few::new(alloc)?,
            cursors: Few::new(alloc)?,
            last_cursor: 0,
        })
    }

    /// A transaction begins, or ends where the phase is idle. The marks go.
    pub fn enter(&mut self, phase: Phase)
        ensures { self.new ≡ entered phase self.old }
    {
        self.phase = phase;
        self.marks.clear();
        self.by_savepoint = false;
    }

    /// The transaction and the cursors go.
    pub fn leave(&mut self)
        ensures { self.new ≡ left_idle self.old }
    {
        self.enter(Phase::Idle);
        self.cursors.clear();
    }

    /// Another phase, with the same marks.
    pub fn set_phase(&mut self, phase: Phase)
        ensures { self.new ≡ with_phase phase self.old }
    {
        self.phase = phase;
    }

    /// One mark more. An idle session begins a transaction with it.
    pub fn save(&mut self, name: Txt, held: Held, phase: Phase)
        requires { length self.old.marks < MOST_SAVEPOINTS }
        ensures { self.new ≡ saved_session name held phase self.old }
    {
        self.by_savepoint = self.by_savepoint || self.phase.is_idle();
        self.phase = phase;
        self.marks.push(Mark { name, held });
    }

    /// The phase gets the catalog of the mark at the place; the marks up to it stay, and the cursors go.
    pub fn go_back(&mut self, place: usize)
        requires { place < length self.old.marks }
        ensures { self.new ≡ gone_back place self.old }
    {
        let held = mark_held(self.marks.as_slice(), place);
        self.phase = self.phase.with_held(held);
        self.marks.truncate(place + 1);
        self.cursors.clear();
    }

    /// The first marks stay.
    pub fn cut(&mut self, most: usize)
        ensures { self.new ≡ cut_to most self.old }
    {
        self.marks.truncate(most);
    }

    /// One cursor more. Its number, which is answered, is the last one plus one.
    pub fn add_cursor(&mut self, cursor: Cursor, origin: Origin) -> u32
        requires room { length self.old.cursors < MOST_CURSORS }
        requires number { self.old.last_cursor < LAST_CURSOR }
        ensures number { result ≡ self.old.last_cursor + 1 }
        ensures session { self.new ≡ with_added cursor origin self.old }
    {
        let number = self.last_cursor + 1;
        self.last_cursor = number;
        self.cursors.push(OpenCursor {
            number,
            cursor,
            origin,
        });
        number
    }

    /// Another cursor at the place; the one that stood there is answered.
    pub fn exchange_cursor(&mut self, place: usize, cursor: OpenCursor) -> OpenCursor
        requires { place < length self.old.cursors }
        ensures given { result ≡ cursor_at self.old.cursors place }
        ensures session { self.new ≡ exchanged place cursor self.old }
    {
        self.cursors.exchange(place, cursor)
    }

    /// The cursor at the place goes.
    pub fn close_cursor(&mut self, place: usize)
        requires { place < length self.old.cursors }
        ensures { self.new ≡ without_place place self.old }
    {
        let _ = self.cursors.remove(place);
    }
}
