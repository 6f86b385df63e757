//! Reading a room full of a disk's bytes, over calls that may give less.
ghost use Rattle.std.specs.Prelude.{◌≡◌, ◌≤◌, ◌<◌, ◌+◌, ◌^◌, IsTrue, length, take, drop, ⊤};
ghost use Rattle.journal_disk.specs.Disk.{Within, Elapses, GotWell};
ghost use Rattle.vec_base.specs.Streams.{Rose};
ghost use Rattle.journal_writes.specs.Moments.{LeavesOnly};
ghost use Rattle.journal_replay.specs.Opening.{FilledAs};

use journal_disk::Disk;
use vec_base::ReadOutcome;

/// What filling a room answers.
#[derive(Clone, Copy, Debug, PartialEq, Eq)]
pub(crate) enum Filled {
    /// The room is full.
    Whole,
    /// The file ends before.
    Short,
    /// The disk failed.
    Failed,
}

/// Reads more of the file behind the bytes that are there.
fn read_more<D: Disk>(disk: &mut D, place: u64, room: &mut [u8], done: usize) -> ReadOutcome
    requires rest { done < length room.old }
    requires reach { place + length room.old < 2 ^ 64 }
    ensures took { GotWell (λ n. (0 < n) × (done + n ≤ length room.old) × (IsTrue (D.tells disk.old)
        → take done room.old ≡ take done (drop place (D.reads disk.old)) → take (done + n) room.new ≡ take (done + n) (drop place (D.reads disk.old))))
        (IsTrue (D.tells disk.old) → length (D.reads disk.old) ≤ place + done) ⊤ result }
    ensures tells { D.tells disk.new ≡ D.tells disk.old }
    ensures reads { D.reads disk.new ≡ D.reads disk.old }
    ensures kept { Within (D.may_leave disk.new) (D.may_leave disk.old) }
    ensures time { Elapses (D.moment disk.old) (D.moment disk.new) (D.left_since disk.old) (D.left_since disk.new) (D.may_leave disk.new) }
    ensures count { D.faults disk.old ≤ D.faults disk.new }
    ensures cause { GotWell (λ _. ⊤) ⊤ (Rose (D.faults disk.old) (D.faults disk.new)) result }
{
    disk.read(place + done as u64, &mut room[done..])
}

/// Fills the room with the bytes from a place on.
pub(crate) fn fill<D: Disk>(disk: &mut D, place: u64, room: &mut [u8]) -> Filled
    requires reach { place + length room.old < 2 ^ 64 }
    ensures bytes { FilledAs (IsTrue (D.tells disk.old) → room.new ≡ take (length room.old) (drop place (D.reads disk.old)))
        (IsTrue (D.tells disk.old) → length (D.reads disk.old) < place + length room.old) ⊤ result }
    ensures tells { D.tells disk.new ≡ D.tells disk.old }
    ensures reads { D.reads disk.new ≡ D.reads disk.old }
    ensures kept { Within (D.may_leave disk.new) (D.may_leave disk.old) }
    ensures time { LeavesOnly D.moment D.left_since disk.old disk.new (D.may_leave disk.old) }
    ensures count { D.faults disk.old ≤ D.faults disk.new }
    ensures cause { FilledAs ⊤ ⊤ (Rose (D.faults disk.old) (D.faults disk.new)) result }
{
    let mut done = 0usize;
    while done < room.len() {
        match read_more(disk, place, room, done) {
            ReadOutcome::Took(n) => done += n,
            ReadOutcome::End => return Filled::Short,
            ReadOutcome::Failed => return Filled::Failed,
        }
    }
    Filled::Whole
}
