//! Following the gates of a journal.
ghost use Rattle.std.specs.Prelude.{◌≡◌, ◌≢◌, ◌≤◌, ◌<◌, ◌+◌, ◌^◌, IsTrue, Ok, Err, length, take, drop, slice_index, ⊤, OnOk};
ghost use Rattle.shadow_keeper.specs.Keeping.{tables_of as map_of};
ghost use Rattle.journal_format.specs.Format.{header};
ghost use Rattle.journal_format.specs.Fronts.{Leads};
ghost use Rattle.journal_format.specs.Reading.{commits_of, tables_of};
ghost use Rattle.journal_disk.specs.Disk.{Within};
ghost use Rattle.vec_base.specs.Streams.{Rose};
ghost use Rattle.journal_writes.specs.Moments.{LeavesOnly};
ghost use Rattle.journal_replay.specs.Opening.{OpenedAs};

use crate::fill::{Filled, fill};
use journal_disk::Disk;
use journal_tables::{Stop, make_blocks};
use std::alloc::Global;
use std::collections::BTreeMap;
use vec_base::{List, Memory, ShadowKey};

/// How many bytes of a journal are read at once, where so many are there. A batch that is longer is read as a whole.
pub const PIECE_BYTES: u64 = 1 << 20;

/// What opening a journal answers.
#[derive(Drop)]
pub enum Opened {
    /// The place of the closed gate that ends the batches, the number of the next batch, and the tables.
    Ready(u64, u64, BTreeMap<ShadowKey, List<u8>>),
    /// The journal is damaged at this place.
    Damaged(u64),
    /// The disk failed.
    Failed,
    /// Want of memory.
    Memory,
}

/// Gives the room this length. What it then holds is not told.
fn set_length(room: &mut Vec<u8>, len: usize) -> Result<(), Memory>
    ensures { OnOk result (length room.new.items ≡ len) }
{
    room.resize(len, 0)?;
    Ok(())
}

/// Follows the gates of a journal of so many bytes that begins with the header.
pub(crate) fn follow<D: Disk>(alloc: Global, disk: &mut D, len: u64) -> Opened
    requires long { 17 < len }
    requires most { len ≤ 2 ^ 40 }
    requires length { IsTrue (D.tells disk.old) → len ≡ length (D.reads disk.old) }
    requires begins { IsTrue (D.tells disk.old) → take 16 (D.reads disk.old) ≡ header }
    ensures read { IsTrue (D.tells disk.old) → OpenedAs (λ gate number entries. tables_of (D.reads disk.old) ≡ Ok (map_of entries)) (λ place. commits_of (D.reads disk.old) ≡ Err place) ⊤ ⊤ result }
    ensures gate { IsTrue (D.tells disk.old) → OpenedAs (λ gate number entries. slice_index (D.reads disk.old) gate ≢ 1) (λ _. ⊤) ⊤ ⊤ result }
    ensures leads { IsTrue (D.tells disk.old) → OpenedAs (λ gate number entries. Leads (take gate (D.reads disk.old)) number (map_of entries)) (λ _. ⊤) ⊤ ⊤ result }
    ensures bounds { OpenedAs (λ gate number entries. (gate < len) × (number ≤ gate)) (λ _. ⊤) ⊤ ⊤ result }
    ensures tells { D.tells disk.new ≡ D.tells disk.old }
    ensures reads { D.reads disk.new ≡ D.reads disk.old }
    ensures kept { Within (D.may_leave disk.new) (D.may_leave disk.old) }
    ensures time { LeavesOnly D.moment D.left_since disk.old disk.new (D.may_leave disk.old) }
    ensures count { D.faults disk.old ≤ D.faults disk.new }
    ensures cause { OpenedAs (λ _ _ _. ⊤) (λ _. ⊤) (Rose (D.faults disk.old) (D.faults disk.new)) ⊤ result }
{
    let mut tables = BTreeMap::new(alloc);
    let mut room = Vec::new(alloc);
    let mut gate = 16u64;
    let mut number = 1u64;
    let mut wanted = 1u64;
    while wanted <= len - gate {
        let size = wanted.max(PIECE_BYTES).min(len - gate);
        if set_length(&mut room, size as usize).is_err() {
            return Opened::Memory;
        }
        match fill(disk, gate, &mut room) {
            Filled::Whole => {}
            Filled::Short => return Opened::Damaged(gate),
            Filled::Failed => return Opened::Failed,
        }
        let Ok(step) = make_blocks(alloc, &mut tables, &room, number) else {
            return Opened::Memory;
        };
        gate += step.at as u64;
        number = step.number;
        match step.stop {
            Stop::Closed => return Opened::Ready(gate, number, tables),
            Stop::Damaged => return Opened::Damaged(gate),
            Stop::Short(needed) => wanted = needed.saturating_add(1),
        }
    }
    Opened::Damaged(gate)
}
