//! The index of the chunks that may have a free slot.
ghost use Rattle.std.specs.Prelude.{◌≡◌, ℕ, ◌+◌, ◌<◌, ◌≤◌, [], length, slice_index_or, MatchOption, IfOk, OnOk, OnErr, ◌⊎◌};
ghost use Rattle.std.specs.List.{Contains};
ghost use Rattle.std.specs.Ordering.{is_lt};
ghost use Rattle.slot_alloc.specs.declared.spare.Spare.{Spare};
ghost use Rattle.slot_alloc.specs.inner.Kept.{spare_cmp};

use crate::chunk::Partition;
use crate::order::{order, same_values};
use crate::search::{Front, front_len};
use shared_leaves::{Copied, Leaves, Shared};
use std::alloc::Global;
use std::cmp::Ordering;
use std::marker::Model;
use vec_base::{List, Memory, Value};

/// A chunk that may have a free slot.
#[derive(Drop)]
pub struct Spare {
    pub partition: Shared<Partition>,
    pub number: u32,
}

impl Copied for Spare {
    fn copied(&self, _alloc: Global) -> Result<Spare, Memory> {
        Ok(Spare {
            partition: self.partition.share()?,
            number: self.number,
        })
    }
}

impl Spare {
    /// How the entry stands to that of some partition values and a number.
    fn order(&self, partition: &List<Value>, number: u32) -> Ordering
        ensures { result ≡ spare_cmp self.now (record { partition = partition.now; number = number }) }
    {
        order(self.partition.get().values(), partition).then(self.number.cmp(&number))
    }
}

/// Entries before that of some partition values and a number.
#[derive(Clone, Copy)]
struct Before<'a> {
    partition: &'a List<Value>,
    number: u32,
}

impl Front<Spare> for Before<'_> {
    ghost use Rattle.std.specs.Ordering.{is_lt};
    ghost use Rattle.slot_alloc.specs.inner.Kept.{spare_cmp};

    ghost in_front = { λ before _ entry. is_lt (spare_cmp entry (record { partition = before.partition.now; number = before.number })) };

    fn is_in_front(&self, _at: usize, entry: &Spare) -> bool {
        entry.order(self.partition, self.number).is_lt()
    }
}

/// Entries in order.
#[derive(Drop)]
pub struct SpareIndex {
    entries: Leaves<Spare>,
}

impl Model for SpareIndex {
    ghost use Rattle.std.specs.Prelude.{List as Seq};
    ghost use Rattle.slot_alloc.specs.declared.spare.Spare.{Spare};
    ghost use Rattle.slot_alloc.specs.inner.Kept.{IsInOrder};

    ghost Value = { Seq Spare };

    ghost view = { λ index. index.entries };

    ghost invariant = { λ index. IsInOrder index.entries };
}

impl SpareIndex {
    /// No entries.
    pub(crate) fn new(alloc: Global) -> SpareIndex
        ensures { result ≡ [] }
    {
        SpareIndex {
            entries: Leaves::new(alloc),
        }
    }

    /// An equal index.
    pub(crate) fn share(&self) -> Result<SpareIndex, Memory>
        ensures { IfOk result (λ other. other ≡ self.now) }
    {
        Ok(SpareIndex {
            entries: self.entries.share()?,
        })
    }

    /// The place of the first entry of some partition values, and its number.
    pub(crate) fn first(&self, partition: &List<Value>) -> Option<(usize, u32)>
        ensures { MatchOption result
            ((d : ℕ) → Contains self.now (record { partition = partition.now; number = d }) → ⊥)
            (λ first. (first.0 < length self.now) × ((e : Spare) → slice_index_or self.now first.0 e ≡ record { partition = partition.now; number = first.1 }) × ((d : ℕ) → Contains self.now (record { partition = partition.now; number = d }) → first.1 ≤ d)) }
    {
        let at = front_len(
            &self.entries,
            &Before {
                partition,
                number: 0,
            },
        );
        if at == self.entries.len() {
            return None;
        }
        let entry = self.entries.get(at);
        if same_values(entry.partition.get().values(), partition) {
            Some((at, entry.number))
        } else {
            None
        }
    }

    /// Takes out the entry at a place.
    pub(crate) fn remove(&mut self, at: usize) -> Result<(), Memory>
        requires { at < length self.old }
        ensures kept { OnErr result (self.new ≡ self.old) }
        ensures less { OnOk result (length self.new < length self.old) }
        ensures others { (e : Spare) → Contains self.old e → (e ≡ slice_index_or self.old at e) ⊎ Contains self.new e }
    {
        self.entries.remove(at)?;
        Ok(())
    }

    /// Puts in an entry, where it is not there.
    pub(crate) fn add(&mut self, partition: Shared<Partition>, number: u32) -> Result<(), Memory>
        ensures others { (e : Spare) → Contains self.old e → Contains self.new e }
        ensures added { OnOk result (Contains self.new (record { partition = partition; number = number })) }
    {
        let values = partition.get().values();
        let at = front_len(
            &self.entries,
            &Before {
                partition: values,
                number,
            },
        );
        if at < self.entries.len() && self.entries.get(at).order(values, number).is_eq() {
            return Ok(());
        }
        self.entries.insert(at, Spare { partition, number })?;
        Ok(())
    }

    /// Takes out an entry, where it is there.
    pub(crate) fn take_out(&mut self, partition: &List<Value>, number: u32) -> Result<(), Memory>
        ensures { (e : Spare) → Contains self.old e → (e ≡ record { partition = partition.now; number = number }) ⊎ Contains self.new e }
    {
        let at = front_len(&self.entries, &Before { partition, number });
        if at < self.entries.len() && self.entries.get(at).order(partition, number).is_eq() {
            self.entries.remove(at)?;
        }
        Ok(())
    }
}
