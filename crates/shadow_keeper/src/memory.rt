//! A keeper in memory.
ghost use Rattle.std.specs.Prelude.{◌≡◌, ◌≤◌, true, false, None, Some, ⊤, IfOk};
ghost use Rattle.std.specs.FinMap.{entries, is_sorted};
ghost use Rattle.std.specs.Vec.Iter.{into_iter_items};
ghost use Rattle.vec_base.specs.Counts.{raised};
ghost use Rattle.vec_base.specs.Forms.{next_call, is_listed};
ghost use Rattle.vec_base.specs.Streams.{Rose};
ghost use Rattle.shadow_records.specs.Batches.{applied, AllApply};
ghost use Rattle.shadow_records.specs.Keys.{key_cmp};
ghost use Rattle.shadow_keeper.specs.Keeping.{GivesFirst, GivesKey, TellsEnd, Makes, tables_of};
ghost use Rattle.shadow_keeper.specs.inner.Order.{is_in_order, faults_after};

use crate::body::Body;
use crate::slots::{change_all, copied, listed};
use crate::{Batch, Keeper, Kept, Loaded};
use std::alloc::Global;
use std::collections::BTreeMap;
use std::vec::IntoIter;
use vec_base::{Bytes, List, Memory, ShadowKey};

/// Which calls fail, by their numbers from 1.
#[derive(Debug, Drop)]
pub(crate) struct Faults {
    fails: List<u64>,
    calls: u64,
    count: u64,
}

impl Faults {
    /// Counts a call, and answers whether it fails.
    fn next(&mut self) -> bool
        ensures listed { result ≡ is_listed self.old.fails (next_call self.old.calls) }
        ensures fails { self.new.fails ≡ self.old.fails }
        ensures calls { self.new.calls ≡ next_call self.old.calls }
        ensures count { self.new.count ≡ faults_after (is_listed self.old.fails (next_call self.old.calls)) self.old.count }
        ensures later { self.old.count ≤ self.new.count }
    {
        self.calls = self.calls.saturating_add(1);
        if !self.fails.as_slice().contains(&self.calls) {
            return false;
        }
        self.count = self.count.saturating_add(1);
        true
    }
}

/// A keeper in memory. The calls that are listed, counted from 1 over both methods, fail, and no others. It tells its tables
/// and the records not yet given, and of stops nothing.
#[derive(Drop)]
pub struct MemoryKeeper {
    alloc: Global,
    slots: BTreeMap<ShadowKey, Option<Body>>,
    left: IntoIter<(ShadowKey, Bytes), Global>,
    last: Option<ShadowKey>,
    ended: bool,
    faults: Faults,
    ghost order: { is_in_order last ended (into_iter_items left) ≡ true },
}

impl MemoryKeeper {
    ghost use Rattle.std.specs.Prelude.{[], ◌∷◌};
    ghost use Rattle.shadow_keeper.specs.Memory.{memory_tables, memory_left, memory_last, memory_ended, memory_fails, memory_calls, memory_faults, next_fails, next_answer, is_failed};

    /// A keeper of these records, whose keys rise. The calls of these numbers fail.
    pub fn new(
        alloc: Global,
        tables: List<(ShadowKey, Bytes)>,
        fails: List<u64>,
    ) -> Result<MemoryKeeper, Memory>
        requires { is_sorted key_cmp tables ≡ true }
        ensures tables { IfOk result (λ keeper. memory_tables keeper ≡ tables_of tables) }
        ensures left { IfOk result (λ keeper. memory_left keeper ≡ tables) }
        ensures last { IfOk result (λ keeper. memory_last keeper ≡ None) }
        ensures ended { IfOk result (λ keeper. memory_ended keeper ≡ false) }
        ensures fails { IfOk result (λ keeper. memory_fails keeper ≡ fails) }
        ensures calls { IfOk result (λ keeper. memory_calls keeper ≡ 0) }
        ensures faults { IfOk result (λ keeper. memory_faults keeper ≡ 0) }
    {
        Ok(MemoryKeeper {
            alloc,
            slots: copied(alloc, tables.as_slice())?,
            left: tables.into_vec().into_iter(),
            last: None,
            ended: false,
            faults: Faults {
                fails,
                calls: 0,
                count: 0,
            },
        })
    }

    /// Copies of the records of the tables, with rising keys.
    pub fn tables(&self, alloc: Global) -> Result<List<(ShadowKey, Bytes)>, Memory>
        ensures { IfOk result (λ records. records ≡ entries (memory_tables self.now)) }
    {
        listed(alloc, &self.slots)
    }

    /// The next record, which is exactly `next_answer`. It takes no memory.
    pub fn give(&mut self) -> Loaded
        ensures gives { result ≡ next_answer self.old }
        ensures left { GivesFirst (memory_left self.old) (memory_left self.new) result }
        ensures key { GivesKey (memory_last self.old) (memory_last self.new) result }
        ensures ended { TellsEnd (memory_ended self.old) (memory_ended self.new) result }
        ensures tables { memory_tables self.new ≡ memory_tables self.old }
        ensures fails { memory_fails self.new ≡ memory_fails self.old }
        ensures calls { memory_calls self.new ≡ next_call (memory_calls self.old) }
        ensures count { memory_faults self.new ≡ faults_after (next_fails self.old) (memory_faults self.old) }
        ensures later { memory_faults self.old ≤ memory_faults self.new }
    {
        if self.faults.next() {
            return Loaded::Failed;
        }
        match self.left.next() {
            None => {
                self.ended = true;
                Loaded::End
            }
            Some((key, body)) => {
                self.last = Some(key);
                Loaded::One(key, body)
            }
        }
    }

    /// Makes the changes of the batch, all or none, in time that goes with the batch. It fails exactly where the call is listed.
    pub fn keep(&mut self, batch: &Batch) -> Kept
        requires { AllApply batch.now.changes (memory_tables self.old) }
        ensures fails_as_listed { is_failed result ≡ next_fails self.old }
        ensures made { Makes (memory_tables self.old) (applied batch.now.changes (memory_tables self.old)) (memory_tables self.new) result }
        ensures left { memory_left self.new ≡ memory_left self.old }
        ensures last { memory_last self.new ≡ memory_last self.old }
        ensures ended { memory_ended self.new ≡ memory_ended self.old }
        ensures fails { memory_fails self.new ≡ memory_fails self.old }
        ensures calls { memory_calls self.new ≡ next_call (memory_calls self.old) }
        ensures count { memory_faults self.new ≡ faults_after (next_fails self.old) (memory_faults self.old) }
        ensures later { memory_faults self.old ≤ memory_faults self.new }
    {
        if self.faults.next() {
            return Kept::Failed;
        }
        match change_all(self.alloc, &mut self.slots, batch.changes.as_slice()) {
            Ok(()) => Kept::Done,
            Err(Memory) => Kept::Memory,
        }
    }
}

impl Keeper for MemoryKeeper {
    ghost use Rattle.shadow_keeper.specs.Memory.{memory_tables, memory_left, memory_last, memory_ended, memory_faults};

    ghost tells = { λ _. true };

    ghost tables = { memory_tables };

    ghost left = { memory_left };

    ghost last = { memory_last };

    ghost ended = { memory_ended };

    ghost faults = { memory_faults };

    ghost stopped = { λ _ _. ⊥ };

    ghost moment = { λ _. 0 };

    ghost stopped_since = { λ _ _ _. ⊥ };

    fn next_record(&mut self) -> Loaded {
        self.give()
    }

    fn commit(&mut self, batch: &Batch) -> Kept {
        self.keep(batch)
    }
}
