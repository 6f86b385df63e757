//! What refuses a write, and how a changed catalog is taken in.
ghost use Rattle.std.specs.Prelude.{◌≡◌, ◌≤◌, ◌<◌, ◌-◌, ◌++◌, length, slice_set, Some, None, IfOk};
ghost use Rattle.row_model.specs.RefusalOrder.{first};
ghost use Rattle.row_model.specs.Step.{busy_beside, old_snapshot, spent_at_once};
ghost use Rattle.txn_sessions.specs.Changes.{IsPut, changed_catalog, older_than, taken_at, wrote_at};
ghost use Rattle.txn_sessions.specs.Lookups.{IsAt};
ghost use Rattle.txn_sessions.specs.Moves.{Moved};
ghost use Rattle.txn_sessions.specs.Seen.{catalog_at, session_at, state_of};
ghost use Rattle.txn_sessions.specs.Sound.{IsOn, IsSound};
ghost use Rattle.txn_sessions.specs.Turns.{TurnsTo, TurnsToOrWants};
ghost use Rattle.vec_base.specs.declared.limits.TheConstants.{MOST_TABLES};
ghost use Rattle.version_shelf.specs.OnShelf.{shown};
ghost use Rattle.version_shelf.specs.Shares.{ComesFrom};

use crate::change::Changed;
use crate::machine::Machine;
use crate::session::Phase;
use crate::turn::Turn;
use row_model::Reply;
use table_version::TableVersion;
use vec_base::{Memory, Refusal};
use version_shelf::Held;

impl Machine {
    /// The refusal of a snapshot that is older than the last commit.
    fn newer_than(&self, number: u64) -> Option<Refusal>
        ensures { result ≡ first (older_than number self.now.commits) }
    {
        if number < self.commits {
            Some(Refusal::OldSnapshot(number, self.commits))
        } else {
            None
        }
    }

    /// The refusal where the session's snapshot is older than the last commit.
    pub fn old_snapshot(&self, at: usize) -> Option<Refusal>
        requires { at < length self.now.sessions.items }
        ensures { result ≡ first (old_snapshot (state_of self.now) (session_at self.now at).phase) }
    {
        match self.sessions[at].phase {
            Phase::Reading(_, number) => self.newer_than(number),
            _ => None,
        }
    }

    /// What refuses a write that the statement's own checks let through: another writer, or an old snapshot.
    pub fn write_refusal(&self, at: usize) -> Option<Refusal>
        requires { at < length self.now.sessions.items }
        ensures { result ≡ first (busy_beside (state_of self.now) (session_at self.now at) ++ old_snapshot (state_of self.now) (session_at self.now at).phase) }
    {
        self.busy_beside(at).or(self.old_snapshot(at))
    }

    /// The refusal of one more commit, where a session is in no transaction.
    pub fn spent_at_once(&self, at: usize) -> Option<Refusal>
        requires { at < length self.now.sessions.items }
        ensures { result ≡ first (spent_at_once (state_of self.now) (session_at self.now at).phase) }
    {
        match self.sessions[at].phase {
            Phase::Idle => self.commits_spent(),
            _ => None,
        }
    }

    /// Puts a version on the shelf, under a number of a catalog. All that is seen stays.
    pub fn put(
        &mut self,
        held: &Held,
        number: u32,
        version: TableVersion,
        origin: Option<usize>,
    ) -> Result<Held, Memory>
        requires sound { IsSound self.old }
        requires low { 1 ≤ number }
        requires high { number ≤ MOST_TABLES }
        requires held { IsOn self.old.shelf held.now }
        requires origin { ComesFrom self.old.shelf origin (Some version) }
        ensures moved { Moved self.old self.new }
        ensures on { IfOk result (λ new. IsOn self.new.shelf new) }
        ensures shown { IfOk result (λ new. shown self.new.shelf new.places ≡ slice_set (shown self.old.shelf held.now.places) (number - 1) (Some version)) }
    {
        self.shelf.put_from(held, number, version, origin)
    }

    /// A changed catalog takes its place: it is to be committed, or the session works on it.
    pub fn install(&mut self, at: usize, held: Held, reply: Reply) -> Turn
        requires sound { IsSound self.old }
        requires at { IsAt self.old.sessions.items at }
        requires on { IsOn self.old.shelf held }
        requires room { first (spent_at_once (state_of self.old) (session_at self.old at).phase) ≡ None }
        ensures { TurnsTo self.old (taken_at self.old at reply (catalog_at self.old.shelf held)) result self.new }
    {
        match self.sessions[at].phase {
            Phase::Idle => Turn::Commits(held, reply, None),
            Phase::Reading(_, number) => {
                self.sessions[at].set_phase(Phase::Writing(number, held));
                Turn::Answered(reply)
            }
            Phase::Writing(base, _) => {
                self.sessions[at].set_phase(Phase::Writing(base, held));
                Turn::Answered(reply)
            }
        }
    }

    /// Takes a changed catalog in, whose versions are all on the shelf, if one more commit can be counted where one is needed.
    pub fn take_catalog(&mut self, at: usize, held: Held, reply: Reply) -> Turn
        requires sound { IsSound self.old }
        requires at { IsAt self.old.sessions.items at }
        requires on { IsOn self.old.shelf held }
        ensures { TurnsTo self.old (wrote_at self.old at reply (catalog_at self.old.shelf held)) result self.new }
    {
        match self.spent_at_once(at) {
            Some(refusal) => Turn::Answered(Reply::Refused(refusal)),
            None => self.install(at, held, reply),
        }
    }

    /// Puts a changed version on the shelf, and takes the catalog with it in.
    fn put_in(&mut self, at: usize, changed: Changed) -> Turn
        requires sound { IsSound self.old }
        requires at { IsAt self.old.sessions.items at }
        requires put { IsPut self.old.shelf changed }
        requires room { first (spent_at_once (state_of self.old) (session_at self.old at).phase) ≡ None }
        ensures { TurnsToOrWants self.old (wrote_at self.old at changed.reply (changed_catalog self.old.shelf changed)) result self.new }
    {
        let Changed {
            held,
            number,
            version,
            origin,
            reply,
        } = changed;
        match self.put(&held, number, version, origin) {
            Ok(held) => self.install(at, held, reply),
            Err(Memory) => Turn::Answered(Reply::Refused(Refusal::WantOfMemory)),
        }
    }

    /// Takes a changed version in: it goes on the shelf, and the catalog with it is to be committed, or the session works on it.
    pub fn take_version(&mut self, at: usize, changed: Changed) -> Turn
        requires sound { IsSound self.old }
        requires at { IsAt self.old.sessions.items at }
        requires put { IsPut self.old.shelf changed }
        ensures { TurnsToOrWants self.old (wrote_at self.old at changed.reply (changed_catalog self.old.shelf changed)) result self.new }
    {
        match self.spent_at_once(at) {
            Some(refusal) => Turn::Answered(Reply::Refused(refusal)),
            None => self.put_in(at, changed),
        }
    }
}
