//! Keepers of records, and the batches that they take.
ghost use Rattle.std.specs.Prelude.{◌≡◌, ◌⊎◌, ◌≤◌, ℕ, Bool, IsTrue, List as Seq, Option, Some};
ghost use Rattle.vec_base.specs.Streams.{Rose};
ghost use Rattle.vec_base.specs.declared.shadow.ShadowKey.{ShadowKey as Key};
ghost use Rattle.shadow_records.specs.Batches.{applied, AllApply};
ghost use Rattle.shadow_records.specs.Keys.{Tables};
ghost use Rattle.shadow_keeper.specs.Keeping.{AreShort, GivesFirst, GivesKey, TellsEnd, Makes, Within, stops, Adds, LeftAfter};
ghost use Rattle.shadow_keeper.specs.declared.keeper.Loaded.TheVariants as loaded;
ghost use Rattle.shadow_keeper.specs.declared.keeper.Kept.TheVariants as kept;

use vec_base::{Bytes, Change, List, ShadowKey};

/// The most bytes that one Put or Patch of a batch holds.
pub const MOST_CHANGE_BYTES: usize = u32::MAX as usize;

/// Changes that are made together, one after another.
#[derive(Debug, Drop)]
pub struct Batch {
    pub changes: List<Change>,
}

/// What the next record is.
#[derive(Debug, Drop)]
pub enum Loaded {
    /// The record with this key has this body.
    One(ShadowKey, Bytes),
    /// All records were given.
    End,
    /// The store failed. The same record comes next.
    Failed,
    /// Want of memory. The same record comes next.
    Memory,
}

/// What became of a commit.
#[derive(Clone, Copy, Debug, PartialEq, Eq)]
pub enum Kept {
    /// The batch was made.
    Done,
    /// The store failed. The tables are as before.
    Failed,
    /// Want of memory. The tables are as before.
    Memory,
}

/// What keeps records. Its tables are a finite map from keys to bodies. What it tells before a call it tells after it, and the reverse.
pub trait Keeper {
    /// Whether it tells its tables, the records not yet given, and what a stop leaves.
    ghost tells: { Self → Bool };

    /// The tables.
    ghost tables: { Self → Tables };

    /// The records not yet given.
    ghost left: { Self → Seq (Key × Seq ℕ) };

    /// The key given last.
    ghost last: { Self → Option Key };

    /// Whether the end was told.
    ghost ended: { Self → Bool };

    /// How often a call has failed. A count at the last number of 64 bits stays there.
    ghost faults: { Self → ℕ };

    /// The tables that a stop now may leave, or none where it may leave what can't be opened.
    ghost stopped: { Self → Option Tables → Type 0 };

    /// The reading of a clock.
    ghost moment: { Self → ℕ };

    /// The tables that a stop since a moment of the clock may have left.
    ghost stopped_since: { Self → ℕ → Option Tables → Type 0 };

    /// Gives the next record of the tables at opening: each once, with rising keys, then the end for good.
    fn next_record(&mut self) -> Loaded
        ensures left { IsTrue (tells self.old) → GivesFirst (left self.old) (left self.new) result }
        ensures key { GivesKey (last self.old) (last self.new) result }
        ensures ended { TellsEnd (ended self.old) (ended self.new) result }
        ensures tables { IsTrue (tells self.old) → tables self.new ≡ tables self.old }
        ensures tells { tells self.new ≡ tells self.old }
        ensures stopped { Within (stopped self.new) (stopped self.old) }
        ensures during { Adds (stops stopped moment stopped_since) self.old self.new (stopped self.old) }
        ensures clock { moment self.old ≤ moment self.new }
        ensures count { faults self.old ≤ faults self.new }
        ensures failed { result ≡ loaded.Failed → Rose (faults self.old) (faults self.new) };

    /// Makes the changes of the batch, all or none. After any answer the keeper may be used again. Where it tells what a stop
    /// leaves: after Done a stop leaves the changed tables alone, after Failed what it could leave before, or only the
    /// tables before the batch and with it, and after Memory what it could leave before.
    fn commit(&mut self, batch: &Batch) -> Kept
        requires ended { IsTrue (ended self.old) }
        requires short { AreShort batch.now.changes }
        requires fits { IsTrue (tells self.old) → AllApply batch.now.changes (tables self.old) }
        ensures made { IsTrue (tells self.old) → Makes (tables self.old) (applied batch.now.changes (tables self.old)) (tables self.new) result }
        ensures left { IsTrue (tells self.old) → left self.new ≡ left self.old }
        ensures last { last self.new ≡ last self.old }
        ensures ended { ended self.new ≡ ended self.old }
        ensures tells { tells self.new ≡ tells self.old }
        ensures stopped { IsTrue (tells self.old) → LeftAfter (stopped self.old) (tables self.old) (applied batch.now.changes (tables self.old)) (stopped self.new) result }
        ensures during { IsTrue (tells self.old) → Adds (stops stopped moment stopped_since) self.old self.new
            (λ left. stopped self.old left ⊎ (left ≡ Some (applied batch.now.changes (tables self.old)))) }
        ensures clock { moment self.old ≤ moment self.new }
        ensures count { faults self.old ≤ faults self.new }
        ensures failed { result ≡ kept.Failed → Rose (faults self.old) (faults self.new) };
}
