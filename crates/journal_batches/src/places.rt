//! Where a journal goes on, and one batch more there.
ghost use Rattle.std.specs.Prelude.{◌≡◌, ◌⊎◌, ◌≤◌, ◌<◌, ◌+◌, ◌^◌, ◌++◌, ◌∷◌, [], ℕ, IsTrue, Option, Some, length, ⊤};
ghost use Rattle.vec_base.specs.Streams.{Rose};
ghost use Rattle.shadow_records.specs.Batches.{applied, AllApply};
ghost use Rattle.shadow_records.specs.Keys.{Tables};
ghost use Rattle.shadow_keeper.specs.Keeping.{AreShort, Makes, LeftAfter};
ghost use Rattle.shadow_keeper.specs.declared.keeper.Kept.TheVariants as kept;
ghost use Rattle.journal_format.specs.Format.{block, body_bytes, AreWhole};
ghost use Rattle.journal_writes.specs.Gates.{AddedAs};
ghost use Rattle.journal_batches.specs.Stopping.{tables_up_to, Shows, ShowsSince, IsKept};
ghost use Rattle.journal_batches.specs.Places.{place_after, kept_after};

use journal_disk::Disk;
use journal_format::put_batch;
use journal_writes::{Added, add};
use shadow_keeper::Kept;
use vec_base::Change;

/// Where a journal goes on.
#[derive(Clone, Copy, Debug, PartialEq, Eq)]
pub struct Place {
    /// Where the gate stands that ends the batches.
    pub gate: u64,
    /// The number of the next batch.
    pub number: u64,
    /// The gate may be open or closed.
    pub uncertain: bool,
}

impl Place {
    /// Where the journal goes on after so many bytes were added, or not.
    fn after(self, len: usize, added: Added) -> Place
        requires gate { self.gate ≤ 2 ^ 40 }
        requires number { self.number ≤ self.gate }
        requires end { AddedAs (self.gate + 1 + len ≤ 2 ^ 40) ⊤ ⊤ ⊤ added }
        ensures { result ≡ place_after self len added }
    {
        match added {
            Added::Done => Place {
                gate: self.gate + len as u64,
                number: self.number + 1,
                uncertain: false,
            },
            Added::Closing => self,
            Added::Staging => Place {
                gate: self.gate,
                number: self.number,
                uncertain: false,
            },
            Added::Opening => Place {
                gate: self.gate,
                number: self.number,
                uncertain: true,
            },
        }
    }
}

/// What a commit answers where so much was added.
fn kept_after(added: Added) -> Kept
    ensures { result ≡ kept_after added }
{
    match added {
        Added::Done => Kept::Done,
        Added::Closing | Added::Staging | Added::Opening => Kept::Failed,
    }
}

/// Spells the block of a batch with a closed gate at its end. `false` for want of memory.
fn spell(room: &mut Vec<u8>, number: u64, changes: &[Change]) -> bool
    requires { AreShort changes.now }
    ensures spelled { IsTrue result → room.new.items ≡ block number changes.now ++ 0 ∷ [] }
    ensures whole { IsTrue result → AreWhole changes.now }
    ensures small { IsTrue result → length (body_bytes number changes.now) < 2 ^ 64 }
{
    room.clear();
    match put_batch(room, number, changes) {
        Ok(()) => true,
        Err(_) => false,
    }
}

/// Adds a batch where the journal goes on. `room` is used for its bytes, whatever it holds.
pub fn add_batch<D: Disk>(
    disk: &mut D,
    place: &mut Place,
    room: &mut Vec<u8>,
    changes: &[Change],
) -> Kept
    requires gate { place.old.gate ≤ 2 ^ 40 }
    requires number { place.old.number ≤ place.old.gate }
    requires stands { IsTrue (D.tells disk.old) → IsKept (D.may_leave disk.old) place.old.gate place.old.number place.old.uncertain }
    requires short { AreShort changes.now }
    requires fits { IsTrue (D.tells disk.old) → AllApply changes.now (tables_up_to (D.reads disk.old) place.old.gate) }
    ensures gate { place.new.gate ≤ 2 ^ 40 }
    ensures number { place.new.number ≤ place.new.gate }
    ensures stands { IsTrue (D.tells disk.old) → IsKept (D.may_leave disk.new) place.new.gate place.new.number place.new.uncertain }
    ensures made { IsTrue (D.tells disk.old) → Makes (tables_up_to (D.reads disk.old) place.old.gate) (applied changes.now (tables_up_to (D.reads disk.old) place.old.gate))
        (tables_up_to (D.reads disk.new) place.new.gate) result }
    ensures stopped { IsTrue (D.tells disk.old) → LeftAfter (Shows (D.may_leave disk.old) (D.reads disk.old) place.old.gate place.old.uncertain) (tables_up_to (D.reads disk.old) place.old.gate)
        (applied changes.now (tables_up_to (D.reads disk.old) place.old.gate)) (Shows (D.may_leave disk.new) (D.reads disk.new) place.new.gate place.new.uncertain) result }
    ensures during { IsTrue (D.tells disk.old) → (moment : ℕ) (left : Option Tables) → moment ≤ D.moment disk.old
        → ShowsSince (D.left_since disk.new) (D.may_leave disk.new) (D.reads disk.new) place.new.gate place.new.uncertain moment left
        → ShowsSince (D.left_since disk.old) (D.may_leave disk.old) (D.reads disk.old) place.old.gate place.old.uncertain moment left
        ⊎ (Shows (D.may_leave disk.old) (D.reads disk.old) place.old.gate place.old.uncertain left ⊎ (left ≡ Some (applied changes.now (tables_up_to (D.reads disk.old) place.old.gate)))) }
    ensures tells { D.tells disk.new ≡ D.tells disk.old }
    ensures clock { D.moment disk.old ≤ D.moment disk.new }
    ensures count { D.faults disk.old ≤ D.faults disk.new }
    ensures failed { result ≡ kept.Failed → Rose (D.faults disk.old) (D.faults disk.new) }
{
    if !spell(room, place.number, changes) {
        return Kept::Memory;
    }
    let staged = room.as_slice();
    let added = add(disk, place.gate, place.uncertain, staged);
    *place = place.after(staged.len(), added);
    kept_after(added)
}
