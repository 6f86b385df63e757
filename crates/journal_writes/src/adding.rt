//! One block more behind the gate of a journal.
//!
//! A gate is a byte: 1 where it is open, anything else where it is closed. What stands behind a closed gate means nothing. So a block is written
//! behind the closed gate, with a closed gate of its own at its end, and synced; then the gate before it is opened, and that is synced. A gate whose
//! opening failed is uncertain, and is closed before anything else.
ghost use Rattle.std.specs.Prelude.{◌≡◌, ◌⊎◌, ◌≤◌, ◌<◌, ◌+◌, ◌^◌, ◌++◌, ◌∷◌, [], List, ℕ, false, IsTrue, length, ⊤};
ghost use Rattle.vec_base.specs.Streams.{Rose};
ghost use Rattle.journal_disk.specs.Disk.{Only, Follows, Torn};
ghost use Rattle.journal_disk.specs.History.{put};
ghost use Rattle.journal_writes.specs.Moments.{LeavesOnly, TornFrom, AllAre};
ghost use Rattle.journal_writes.specs.Gates.{Stands, Gated, Rests, MayShow, AddedAs};

use crate::transfers::write_synced;
use journal_disk::Disk;

/// How far the adding of a block came.
#[derive(Clone, Copy, Debug, PartialEq, Eq)]
pub enum Added {
    /// The block stands behind an open gate.
    Done,
    /// The uncertain gate could not be closed.
    Closing,
    /// The block could not be written. The gate is closed.
    Staging,
    /// The gate could not be opened for certain: it may be open or closed.
    Opening,
}

/// Closes the gate where it is uncertain.
fn close<D: Disk>(disk: &mut D, gate: u64, uncertain: bool) -> bool
    requires fits { gate + 1 < 2 ^ 64 }
    requires place { IsTrue (D.tells disk.old) → gate < length (D.reads disk.old) }
    ensures tells { D.tells disk.new ≡ D.tells disk.old }
    ensures longer { IsTrue (D.tells disk.old) → IsTrue result → gate < length (D.reads disk.new) }
    ensures closed { IsTrue (D.tells disk.old) → IsTrue result → (front tail : List ℕ) → gate ≡ length front → AllAre (Rests uncertain front tail) (D.may_leave disk.old)
        → AllAre (Stands front) (D.may_leave disk.new) }
    ensures failed { IsTrue (D.tells disk.old) → result ≡ false → (front tail : List ℕ) → gate ≡ length front → AllAre (Rests uncertain front tail) (D.may_leave disk.old)
        → AllAre (Rests uncertain front tail) (D.may_leave disk.new) }
    ensures was { result ≡ false → IsTrue uncertain }
    ensures during { IsTrue (D.tells disk.old) → (front tail : List ℕ) → gate ≡ length front → AllAre (Rests uncertain front tail) (D.may_leave disk.old)
        → LeavesOnly D.moment D.left_since disk.old disk.new (Rests uncertain front tail) }
    ensures clock { D.moment disk.old ≤ D.moment disk.new }
    ensures count { D.faults disk.old ≤ D.faults disk.new }
    ensures cause { result ≡ false → Rose (D.faults disk.old) (D.faults disk.new) }
{
    if uncertain {
        return write_synced(disk, gate, &[0]);
    }
    true
}

/// Writes a block with a closed gate at its end, and syncs: only then the gate before it may be opened.
fn stage<D: Disk>(disk: &mut D, at: u64, staged: &[u8]) -> bool
    requires fits { at + length staged.now < 2 ^ 64 }
    requires start { IsTrue (D.tells disk.old) → at ≤ length (D.reads disk.old) }
    ensures end { IsTrue result → 0 < length staged.now → at + length staged.now ≤ 2 ^ 40 }
    ensures tells { D.tells disk.new ≡ D.tells disk.old }
    ensures longer { IsTrue (D.tells disk.old) → IsTrue result → length (D.reads disk.old) ≤ length (D.reads disk.new) }
    ensures only { IsTrue (D.tells disk.old) → IsTrue result → Only (put (D.reads disk.old) at staged.now) (D.may_leave disk.new) }
    ensures torn { IsTrue (D.tells disk.old) → Follows (Torn at (length staged.now)) (D.may_leave disk.old) (D.may_leave disk.new) }
    ensures time { IsTrue (D.tells disk.old) → LeavesOnly D.moment D.left_since disk.old disk.new (TornFrom (D.may_leave disk.old) at (length staged.now)) }
    ensures clock { D.moment disk.old ≤ D.moment disk.new }
    ensures count { D.faults disk.old ≤ D.faults disk.new }
    ensures cause { result ≡ false → Rose (D.faults disk.old) (D.faults disk.new) }
{
    write_synced(disk, at, staged)
}

/// Adds a block behind the gate at this place. `staged` is the block with a closed gate at its end.
pub fn add<D: Disk>(disk: &mut D, gate: u64, uncertain: bool, staged: &[u8]) -> Added
    requires fits { gate + 1 + length staged.now < 2 ^ 64 }
    requires some { 0 < length staged.now }
    requires place { IsTrue (D.tells disk.old) → gate < length (D.reads disk.old) }
    ensures end { AddedAs (gate + 1 + length staged.now ≤ 2 ^ 40) ⊤ ⊤ ⊤ result }
    ensures tells { D.tells disk.new ≡ D.tells disk.old }
    // What a stop after each answer leaves.
    ensures now { IsTrue (D.tells disk.old) → (front tail block : List ℕ) → gate ≡ length front → staged.now ≡ block ++ 0 ∷ [] → AllAre (Rests uncertain front tail) (D.may_leave disk.old)
        → AddedAs (AllAre (Stands (front ++ 1 ∷ block)) (D.may_leave disk.new)) (AllAre (Rests uncertain front tail) (D.may_leave disk.new) × IsTrue uncertain)
        (AllAre (Stands front) (D.may_leave disk.new)) ((rest : List ℕ) × AllAre (Gated front (staged.now ++ rest)) (D.may_leave disk.new)) result }
    // What a stop during the call leaves.
    ensures during { IsTrue (D.tells disk.old) → (front tail : List ℕ) → gate ≡ length front → AllAre (Rests uncertain front tail) (D.may_leave disk.old)
        → LeavesOnly D.moment D.left_since disk.old disk.new (MayShow uncertain front tail staged.now) }
    ensures clock { D.moment disk.old ≤ D.moment disk.new }
    ensures count { D.faults disk.old ≤ D.faults disk.new }
    ensures cause { AddedAs ⊤ (Rose (D.faults disk.old) (D.faults disk.new)) (Rose (D.faults disk.old) (D.faults disk.new)) (Rose (D.faults disk.old) (D.faults disk.new)) result }
{
    if !close(disk, gate, uncertain) {
        return Added::Closing;
    }
    if !stage(disk, gate + 1, staged) {
        return Added::Staging;
    }
    if !write_synced(disk, gate, &[1]) {
        return Added::Opening;
    }
    Added::Done
}
