//! Whole writes, over calls of a disk that may take less.
ghost use Rattle.std.specs.Prelude.{◌≡◌, ◌⊎◌, ◌≤◌, ◌<◌, ◌+◌, ◌^◌, List, ℕ, false, IsTrue, length, take, ⊤};
ghost use Rattle.vec_base.specs.Streams.{Rose};
ghost use Rattle.journal_disk.specs.Disk.{Follows, Torn, Only, Elapses};
ghost use Rattle.journal_disk.specs.History.{put};
ghost use Rattle.journal_writes.specs.Moments.{LeavesOnly, TornFrom};

use journal_disk::{Disk, Synced};
use vec_base::WriteOutcome;

/// Writes some of the first bytes, and answers how many. None is a fault.
fn write_some<D: Disk>(disk: &mut D, at: u64, bytes: &[u8]) -> usize
    requires some { 0 < length bytes.now }
    requires start { IsTrue (D.tells disk.old) → at ≤ length (D.reads disk.old) }
    ensures within { result ≤ length bytes.now }
    ensures end { 0 < result → at + result ≤ 2 ^ 40 }
    ensures tells { D.tells disk.new ≡ D.tells disk.old }
    ensures written { IsTrue (D.tells disk.old) → 0 < result → D.reads disk.new ≡ put (D.reads disk.old) at (take result bytes.now) }
    ensures torn { IsTrue (D.tells disk.old) → Follows (Torn at (length bytes.now)) (D.may_leave disk.old) (D.may_leave disk.new) }
    ensures time { Elapses (D.moment disk.old) (D.moment disk.new) (D.left_since disk.old) (D.left_since disk.new) (D.may_leave disk.new) }
    ensures clock { D.moment disk.old ≤ D.moment disk.new }
    ensures count { D.faults disk.old ≤ D.faults disk.new }
    ensures cause { result ≡ 0 → Rose (D.faults disk.old) (D.faults disk.new) }
{
    match disk.write_at(at, bytes) {
        WriteOutcome::Took(count) => count,
        WriteOutcome::Failed => 0,
    }
}

/// Writes all the bytes, or fails.
fn write_all<D: Disk>(disk: &mut D, at: u64, bytes: &[u8]) -> bool
    requires fits { at + length bytes.now < 2 ^ 64 }
    requires start { IsTrue (D.tells disk.old) → at ≤ length (D.reads disk.old) }
    ensures end { IsTrue result → 0 < length bytes.now → at + length bytes.now ≤ 2 ^ 40 }
    ensures tells { D.tells disk.new ≡ D.tells disk.old }
    ensures written { IsTrue (D.tells disk.old) → IsTrue result → D.reads disk.new ≡ put (D.reads disk.old) at bytes.now }
    ensures torn { IsTrue (D.tells disk.old) → Follows (Torn at (length bytes.now)) (D.may_leave disk.old) (D.may_leave disk.new) }
    ensures time { IsTrue (D.tells disk.old) → LeavesOnly D.moment D.left_since disk.old disk.new (TornFrom (D.may_leave disk.old) at (length bytes.now)) }
    ensures clock { D.moment disk.old ≤ D.moment disk.new }
    ensures count { D.faults disk.old ≤ D.faults disk.new }
    ensures cause { result ≡ false → Rose (D.faults disk.old) (D.faults disk.new) }
{
    let mut done = 0usize;
    while done < bytes.len() {
        let n = write_some(disk, at + done as u64, &bytes[done..]);
        if n == 0 {
            return false;
        }
        done += n;
    }
    true
}

/// Writes all the bytes at a place, which is at most the end of the file, and syncs. `false` where the disk fails; then any part of the bytes may be
/// there.
pub fn write_synced<D: Disk>(disk: &mut D, at: u64, bytes: &[u8]) -> bool
    requires fits { at + length bytes.now < 2 ^ 64 }
    requires start { IsTrue (D.tells disk.old) → at ≤ length (D.reads disk.old) }
    ensures end { IsTrue result → 0 < length bytes.now → at + length bytes.now ≤ 2 ^ 40 }
    ensures tells { D.tells disk.new ≡ D.tells disk.old }
    ensures written { IsTrue (D.tells disk.old) → IsTrue result → D.reads disk.new ≡ put (D.reads disk.old) at bytes.now }
    ensures longer { IsTrue (D.tells disk.old) → IsTrue result → length (D.reads disk.old) ≤ length (D.reads disk.new) }
    // A stop then leaves the file with these bytes.
    ensures only { IsTrue (D.tells disk.old) → IsTrue result → Only (put (D.reads disk.old) at bytes.now) (D.may_leave disk.new) }
    // Whatever is answered, a stop then leaves a file from before in which at most this range is another.
    ensures torn { IsTrue (D.tells disk.old) → Follows (Torn at (length bytes.now)) (D.may_leave disk.old) (D.may_leave disk.new) }
    // So does a stop in between.
    ensures time { IsTrue (D.tells disk.old) → LeavesOnly D.moment D.left_since disk.old disk.new (TornFrom (D.may_leave disk.old) at (length bytes.now)) }
    ensures clock { D.moment disk.old ≤ D.moment disk.new }
    ensures count { D.faults disk.old ≤ D.faults disk.new }
    ensures cause { result ≡ false → Rose (D.faults disk.old) (D.faults disk.new) }
{
    write_all(disk, at, bytes) && disk.sync() == Synced::Done
}
