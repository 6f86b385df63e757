//! A disk: one file of bytes.
ghost use Rattle.std.specs.Prelude.{◌≡◌, ◌≤◌, ◌<◌, ◌+◌, ◌^◌, List, ℕ, Bool, IsTrue, length, take, drop, ⊤};
ghost use Rattle.vec_base.specs.Streams.{Rose, WroteCause};
ghost use Rattle.journal_disk.specs.Disk.{Holds, Torn, Follows, Only, Within, Elapses, GotWell, WroteWell, LengthIs, SyncedWell, reach};

use vec_base::{ReadOutcome, WriteOutcome};

/// The most bytes that a disk has.
pub const MOST_DISK_BYTES: u64 = 1 << 40;

/// What asking for the length answers.
#[derive(Clone, Copy, Debug, PartialEq, Eq)]
pub enum Length {
    /// So many bytes.
    Is(u64),
    Failed,
}

/// What a sync answers.
#[derive(Clone, Copy, Debug, PartialEq, Eq)]
pub enum Synced {
    Done,
    Failed,
}

/// A disk with one file of bytes, and what is left of the file where the machine stops.
///
/// A disk has at most `MOST_DISK_BYTES` bytes, and a write past that fails. Between two syncs each range that was written, and all that is past the
/// old end, may hold any bytes after a stop; the other bytes stay. The length after a stop lies between the length at the last sync that succeeded
/// and the greatest one since. After a sync that succeeds a stop leaves what a read gives. A write that fails counts as a range that was
/// written, with its end, and a read may then give any bytes there. A call that asks for the length, a read and a sync leave what a read gives,
/// and but for a sync that succeeds they leave what a stop may leave. A stop during one of the four calls leaves only what it could leave before the call or
/// after it.
pub trait Disk {
    /// Whether it tells what a read gives and what a stop leaves.
    ghost tells: { Self → Bool };

    /// What a read gives.
    ghost reads: { Self → List ℕ };

    /// The files that a stop now may leave.
    ghost may_leave: { Self → List ℕ → Type 0 };

    /// The reading of a clock.
    ghost moment: { Self → ℕ };

    /// The files that a stop since a moment of the clock may have left.
    ghost left_since: { Self → ℕ → List ℕ → Type 0 };

    /// How often a call has failed. A count at the last number of 64 bits stays there.
    ghost faults: { Self → ℕ };

    /// How many bytes the file has.
    fn length(&mut self) -> Length
        ensures is { LengthIs (λ n. (n ≤ 2 ^ 40) × (IsTrue (tells self.old) → n ≡ length (reads self.old))) ⊤ result }
        ensures tells { tells self.new ≡ tells self.old }
        ensures reads { reads self.new ≡ reads self.old }
        ensures kept { Within (may_leave self.new) (may_leave self.old) }
        ensures still { Within (may_leave self.old) (may_leave self.new) }
        ensures time { Elapses (moment self.old) (moment self.new) (left_since self.old) (left_since self.new) (may_leave self.new) }
        ensures count { faults self.old ≤ faults self.new }
        ensures cause { LengthIs (λ _. ⊤) (Rose (faults self.old) (faults self.new)) result };

    /// Puts bytes of the file from a place on at the beginning of the room: at least one, but at its end none.
    fn read(&mut self, at: u64, room: &mut [u8]) -> ReadOutcome
        requires { 0 < length room.old }
        ensures took { GotWell (λ n. (0 < n) × (n ≤ length room.new) × (IsTrue (tells self.old) → take n room.new ≡ take n (drop at (reads self.old)))) (IsTrue (tells self.old) → length (reads self.old) ≤ at) ⊤ result }
        ensures tells { tells self.new ≡ tells self.old }
        ensures reads { reads self.new ≡ reads self.old }
        ensures kept { Within (may_leave self.new) (may_leave self.old) }
        ensures still { Within (may_leave self.old) (may_leave self.new) }
        ensures time { Elapses (moment self.old) (moment self.new) (left_since self.old) (left_since self.new) (may_leave self.new) }
        ensures count { faults self.old ≤ faults self.new }
        ensures cause { GotWell (λ _. ⊤) ⊤ (Rose (faults self.old) (faults self.new)) result };

    /// Writes some of the first bytes at a place, which is at most the end.
    fn write_at(&mut self, at: u64, bytes: &[u8]) -> WriteOutcome
        requires some { 0 < length bytes.now }
        requires start { IsTrue (tells self.old) → at ≤ length (reads self.old) }
        ensures took { WroteWell (λ n. (n ≤ length bytes.now) × (at + n ≤ 2 ^ 40) × (IsTrue (tells self.old) → Holds (reads self.old) at (take n bytes.now) (reads self.new)))
            (IsTrue (tells self.old) → Torn at (length bytes.now) (reads self.old) (reads self.new)) result }
        ensures tells { tells self.new ≡ tells self.old }
        ensures torn { IsTrue (tells self.old) → Follows (Torn at (reach result (length bytes.now))) (may_leave self.old) (may_leave self.new) }
        ensures time { Elapses (moment self.old) (moment self.new) (left_since self.old) (left_since self.new) (may_leave self.new) }
        ensures count { faults self.old ≤ faults self.new }
        ensures cause { WroteCause result (faults self.old) (faults self.new) };

    /// Waits until all that was written stays after a stop.
    fn sync(&mut self) -> Synced
        ensures done { IsTrue (tells self.old) → SyncedWell (Only (reads self.old) (may_leave self.new)) ⊤ result }
        ensures tells { tells self.new ≡ tells self.old }
        ensures reads { reads self.new ≡ reads self.old }
        ensures kept { Within (may_leave self.new) (may_leave self.old) }
        ensures still { SyncedWell ⊤ (Within (may_leave self.old) (may_leave self.new)) result }
        ensures time { Elapses (moment self.old) (moment self.new) (left_since self.old) (left_since self.new) (may_leave self.new) }
        ensures count { faults self.old ≤ faults self.new }
        ensures cause { SyncedWell ⊤ (Rose (faults self.old) (faults self.new)) result };

    /// A stop now is one of those since an earlier moment.
    ghost counts_now: { (d : Self) (t : ℕ) (c : List ℕ) → t ≤ moment d → may_leave d c → left_since d t c };

    /// Since this moment there is no other.
    ghost only_now: { (d : Self) (c : List ℕ) → left_since d (moment d) c → may_leave d c };

    /// What a read gives is one of what a stop may leave.
    ghost reads_now: { (d : Self) → IsTrue (tells d) → may_leave d (reads d) };
}
