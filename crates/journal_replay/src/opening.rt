//! Opening a journal on a disk.
ghost use Rattle.std.specs.Prelude.{◌≡◌, ◌≢◌, ◌≤◌, ◌<◌, ◌^◌, IsTrue, Ok, Err, length, take, slice_index, ⊤};
ghost use Rattle.shadow_keeper.specs.Keeping.{tables_of as map_of};
ghost use Rattle.journal_format.specs.Fronts.{Leads};
ghost use Rattle.journal_format.specs.Reading.{commits_of, tables_of};
ghost use Rattle.journal_disk.specs.Disk.{Only, Within};
ghost use Rattle.vec_base.specs.Streams.{Rose};
ghost use Rattle.journal_writes.specs.Moments.{LeavesOnly};
ghost use Rattle.journal_replay.specs.Opening.{OpenedAs};

use crate::fill::{Filled, fill};
use crate::follow::{Opened, follow};
use journal_disk::{Disk, Length, Synced};
use journal_format::{EMPTY_JOURNAL, has_header};
use journal_writes::write_synced;
use std::alloc::Global;
use std::collections::BTreeMap;

/// Reads a journal of so many bytes, which are more than those of a journal without batches.
fn read_journal<D: Disk>(alloc: Global, disk: &mut D, len: u64) -> Opened
    requires long { 17 < len }
    requires most { len ≤ 2 ^ 40 }
    requires length { IsTrue (D.tells disk.old) → len ≡ length (D.reads disk.old) }
    ensures read { IsTrue (D.tells disk.old)
        → OpenedAs (λ gate number entries. tables_of (D.reads disk.old) ≡ Ok (map_of entries)) (λ place. commits_of (D.reads disk.old) ≡ Err place) ⊤ ⊤ result }
    ensures shut { IsTrue (D.tells disk.old) → OpenedAs (λ gate number entries. slice_index (D.reads disk.old) gate ≢ 1) (λ _. ⊤) ⊤ ⊤ result }
    ensures leads { IsTrue (D.tells disk.old) → OpenedAs (λ gate number entries. Leads (take gate (D.reads disk.old)) number (map_of entries)) (λ _. ⊤) ⊤ ⊤ result }
    ensures bounds { OpenedAs (λ gate number entries. (gate < len) × (number ≤ gate)) (λ _. ⊤) ⊤ ⊤ result }
    ensures tells { D.tells disk.new ≡ D.tells disk.old }
    ensures reads { D.reads disk.new ≡ D.reads disk.old }
    ensures kept { Within (D.may_leave disk.new) (D.may_leave disk.old) }
    ensures time { LeavesOnly D.moment D.left_since disk.old disk.new (D.may_leave disk.old) }
    ensures count { D.faults disk.old ≤ D.faults disk.new }
    ensures cause { OpenedAs (λ _ _ _. ⊤) (λ _. ⊤) (Rose (D.faults disk.old) (D.faults disk.new)) ⊤ result }
{
    let mut front = [0u8; 16];
    match fill(disk, 0, &mut front) {
        Filled::Whole => {}
        Filled::Short => return Opened::Damaged(0),
        Filled::Failed => return Opened::Failed,
    }
    if !has_header(&front) {
        return Opened::Damaged(0);
    }
    follow(alloc, disk, len)
}

/// Syncs, and then reads the journal. Where at most 17 bytes are there, it has no batches: the header and a closed gate are written. Files of other formats
/// are damaged at 0.
pub fn open_journal<D: Disk>(alloc: Global, disk: &mut D) -> Opened
    // The tables are those that the file gave, and it was damaged where that is answered.
    ensures read { IsTrue (D.tells disk.old)
        → OpenedAs (λ gate number entries. tables_of (D.reads disk.old) ≡ Ok (map_of entries)) (λ place. commits_of (D.reads disk.old) ≡ Err place) ⊤ ⊤ result }
    // The gate is there and closed, and batches go on there.
    ensures within { IsTrue (D.tells disk.old) → OpenedAs (λ gate number entries. gate < length (D.reads disk.new)) (λ _. ⊤) ⊤ ⊤ result }
    ensures shut { IsTrue (D.tells disk.old) → OpenedAs (λ gate number entries. slice_index (D.reads disk.new) gate ≢ 1) (λ _. ⊤) ⊤ ⊤ result }
    ensures leads { IsTrue (D.tells disk.old) → OpenedAs (λ gate number entries. Leads (take gate (D.reads disk.new)) number (map_of entries)) (λ _. ⊤) ⊤ ⊤ result }
    // A stop leaves what a read gives.
    ensures synced { IsTrue (D.tells disk.old) → OpenedAs (λ _ _ _. Only (D.reads disk.new) (D.may_leave disk.new)) (λ _. ⊤) ⊤ ⊤ result }
    ensures bounds { OpenedAs (λ gate number entries. (gate ≤ 2 ^ 40) × (number ≤ gate)) (λ _. ⊤) ⊤ ⊤ result }
    // Where nothing waits for a sync, a stop at any moment leaves the batches, or the damage, from before.
    ensures during { IsTrue (D.tells disk.old) → Only (D.reads disk.old) (D.may_leave disk.old)
        → LeavesOnly D.moment D.left_since disk.old disk.new (λ left. commits_of left ≡ commits_of (D.reads disk.old)) }
    ensures tells { D.tells disk.new ≡ D.tells disk.old }
    ensures count { D.faults disk.old ≤ D.faults disk.new }
    ensures cause { OpenedAs (λ _ _ _. ⊤) (λ _. ⊤) (Rose (D.faults disk.old) (D.faults disk.new)) ⊤ result }
{
    if disk.sync() != Synced::Done {
        return Opened::Failed;
    }
    let Length::Is(len) = disk.length() else {
        return Opened::Failed;
    };
    if len > EMPTY_JOURNAL.len() as u64 {
        return read_journal(alloc, disk, len);
    }
    if !write_synced(disk, 0, &EMPTY_JOURNAL) {
        return Opened::Failed;
    }
    Opened::Ready(16, 1, BTreeMap::new(alloc))
}
