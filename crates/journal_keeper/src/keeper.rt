//! A keeper over a journal.
ghost use Rattle.std.specs.Prelude.{◌≡◌, ◌⊎◌, ◌≤◌, ◌^◌, List as Seq, ℕ, false, IsTrue, Ok, Err, Option, Some, None, ⊤};
ghost use Rattle.vec_base.specs.Streams.{Rose};
ghost use Rattle.shadow_records.specs.Keys.{Tables};
ghost use Rattle.shadow_keeper.specs.Keeping.{tables_of as map_of};
ghost use Rattle.journal_disk.specs.Disk.{Only};
ghost use Rattle.journal_writes.specs.Moments.{LeavesOnly};
ghost use Rattle.journal_format.specs.Reading.{commits_of, tables_of, shown};
ghost use Rattle.journal_replay.specs.Opening.{OpenedAs};
ghost use Rattle.journal_batches.specs.Stopping.{IsKept};
ghost use Rattle.journal_keeper.specs.States.{keeper_disk, keeper_tables, keeper_stopped, keeper_since};
ghost use Rattle.journal_keeper.specs.Starting.{StartedAs, disk_of};

use journal_batches::{Place, add_batch};
use journal_disk::Disk;
use journal_replay::{Opened, open_journal};
use shadow_keeper::{Batch, Keeper, Kept, Loaded};
use std::alloc::Global;
use std::collections::BTreeMap;
use std::marker::Model;
use vec_base::{Bytes, List, ShadowKey};

/// A keeper whose tables stand in a journal on a disk. Each batch is one write with a sync, and one byte with a sync.
#[derive(Drop)]
pub struct JournalKeeper<D: Disk> {
    disk: D,
    place: Place,
    // the records not yet given
    left: BTreeMap<ShadowKey, List<u8>>,
    last: Option<ShadowKey>,
    ended: bool,
    // the bytes of a batch, kept for their memory
    room: Vec<u8>,
}

impl<D: Disk> Model for JournalKeeper<D> {
    ghost use Rattle.std.specs.Prelude.{IsTrue};
    ghost use Rattle.journal_keeper.specs.States.{State, coded_state, IsGood};

    ghost Value = { State D };

    ghost coded = { coded_state D.code };

    ghost view = { λ k. record { disk = k.disk; place = k.place; left = k.left.entries; last = k.last; ended = k.ended } };

    ghost invariant = { λ k. IsGood (IsTrue (D.tells k.disk)) (D.may_leave k.disk) k.place k.left.entries k.last k.ended };
}

/// What opening a journal answers. The disk comes back unless the keeper has it.
#[derive(Drop)]
pub enum JournalStart<D: Disk> {
    Ready(JournalKeeper<D>),
    /// The disk failed.
    Failed(D),
    /// The journal is damaged at this place.
    Damaged(u64, D),
    /// Want of memory.
    Memory(D),
}

/// Opens the journal of a disk.
fn open_kept<D: Disk>(alloc: Global, disk: &mut D) -> Opened
    ensures read { IsTrue (D.tells disk.old)
        → OpenedAs (λ gate number entries. tables_of (D.reads disk.old) ≡ Ok (map_of entries)) (λ place. commits_of (D.reads disk.old) ≡ Err place) ⊤ ⊤ result }
    ensures stands { IsTrue (D.tells disk.old)
        → OpenedAs (λ gate number entries. (kept : IsKept (D.may_leave disk.new) gate number false) × (kept.tables ≡ map_of entries)) (λ _. ⊤) ⊤ ⊤ result }
    ensures bounds { OpenedAs (λ gate number entries. (gate ≤ 2 ^ 40) × (number ≤ gate)) (λ _. ⊤) ⊤ ⊤ result }
    ensures during { IsTrue (D.tells disk.old) → Only (D.reads disk.old) (D.may_leave disk.old)
        → LeavesOnly D.moment D.left_since disk.old disk.new (λ left. commits_of left ≡ commits_of (D.reads disk.old)) }
    ensures tells { D.tells disk.new ≡ D.tells disk.old }
    ensures count { D.faults disk.old ≤ D.faults disk.new }
    ensures cause { OpenedAs (λ _ _ _. ⊤) (λ _. ⊤) (Rose (D.faults disk.old) (D.faults disk.new)) ⊤ result }
{
    open_journal(alloc, disk)
}

impl<D: Disk + Drop> JournalKeeper<D> {
    /// Syncs the disk and reads its journal. A file of at most 17 bytes has no batches, and a journal without batches is written. The keeper has given no
    /// record and not told the end.
    pub fn start(alloc: Global, disk: D) -> JournalStart<D>
        // The keeper has the tables that the file gave, and their records are to come; or the file is damaged at the place that is answered.
        ensures found { IsTrue (D.tells disk) → StartedAs (λ keeper. (tables_of (D.reads disk) ≡ Ok (keeper_tables D.reads keeper)) × (map_of keeper.left ≡ keeper_tables D.reads keeper)) ⊤
            (λ place. commits_of (D.reads disk) ≡ Err place) ⊤ result }
        ensures new { StartedAs (λ keeper. (keeper.last ≡ None) × (keeper.ended ≡ false)) ⊤ (λ _. ⊤) ⊤ result }
        // A stop now leaves the keeper's tables.
        ensures alone { IsTrue (D.tells disk) → StartedAs (λ keeper. (left : Option Tables) → keeper_stopped D.may_leave D.reads keeper left → left ≡ Some (keeper_tables D.reads keeper)) ⊤ (λ _. ⊤) ⊤ result }
        // Where nothing waits for a sync, a stop during the opening leaves the batches, or the damage, from before.
        ensures during { IsTrue (D.tells disk) → Only (D.reads disk) (D.may_leave disk)
            → LeavesOnly D.moment D.left_since disk (disk_of result) (λ left. commits_of left ≡ commits_of (D.reads disk)) }
        // Then a stop since the opening began leaves the keeper's tables.
        ensures since { IsTrue (D.tells disk) → Only (D.reads disk) (D.may_leave disk)
            → StartedAs (λ keeper. (left : Option Tables) → keeper_since D.left_since D.may_leave D.reads keeper (D.moment disk) left → left ≡ Some (keeper_tables D.reads keeper)) ⊤ (λ _. ⊤) ⊤ result }
        ensures tells { D.tells (disk_of result) ≡ D.tells disk }
        ensures count { D.faults disk ≤ D.faults (disk_of result) }
        ensures cause { StartedAs (λ _. ⊤) (Rose (D.faults disk) (D.faults (disk_of result))) (λ _. ⊤) ⊤ result }
    {
        let mut disk = disk;
        match open_kept(alloc, &mut disk) {
            Opened::Ready(gate, number, left) => JournalStart::Ready(JournalKeeper {
                disk,
                place: Place {
                    gate,
                    number,
                    uncertain: false,
                },
                left,
                last: None,
                ended: false,
                room: Vec::new(alloc),
            }),
            Opened::Damaged(place) => JournalStart::Damaged(place, disk),
            Opened::Failed => JournalStart::Failed(disk),
            Opened::Memory => JournalStart::Memory(disk),
        }
    }

    /// Gives the disk back. What a stop may leave on it gives tables of which the keeper spoke.
    pub fn into_disk(self) -> D
        ensures same { result ≡ keeper_disk self }
        ensures now { (left : Seq ℕ) → D.may_leave result left → keeper_stopped D.may_leave D.reads self (shown left) }
        ensures since { (moment : ℕ) (left : Seq ℕ) → D.left_since result moment left → keeper_since D.left_since D.may_leave D.reads self moment (shown left) }
    {
        let JournalKeeper { disk, .. } = self;
        disk
    }
}

impl<D: Disk + Drop> Keeper for JournalKeeper<D> {
    ghost tells = { λ k. D.tells k.disk };

    ghost tables = { λ k. keeper_tables D.reads k };

    ghost left = { λ k. k.left };

    ghost last = { λ k. k.last };

    ghost ended = { λ k. k.ended };

    ghost faults = { λ k. D.faults k.disk };

    ghost stopped = { λ k left. keeper_stopped D.may_leave D.reads k left };

    ghost moment = { λ k. D.moment k.disk };

    ghost stopped_since = { λ k moment left. keeper_since D.left_since D.may_leave D.reads k moment left };

    fn next_record(&mut self) -> Loaded {
        match self.left.pop_first() {
            None => {
                self.ended = true;
                Loaded::End
            }
            Some((key, body)) => {
                self.last = Some(key);
                Loaded::One(key, Bytes::from_vec(body.into_vec()))
            }
        }
    }

    fn commit(&mut self, batch: &Batch) -> Kept {
        let changes = batch.changes.as_slice();
        add_batch(&mut self.disk, &mut self.place, &mut self.room, changes)
    }
}
