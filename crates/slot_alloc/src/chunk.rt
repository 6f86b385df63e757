//! A chunk: its number, the partition values of its rows, and which of its slots are used.
ghost use Rattle.std.specs.Prelude.{◌≡◌, ℕ, ◌+◌, ◌<◌, ◌≤◌, Bool, true, false, length, slice_index_or, slice_set, replicate, MatchOption, IfOk};
ghost use Rattle.slot_alloc.specs.Places.{IsChunkSize};

use chunk_bitmap::Bitmap;
use shared_leaves::{Copied, Edit, Shared};
use std::alloc::Global;
use std::marker::Model;
use vec_base::{List, MOST_CHUNK_SIZE, Memory, Value};

/// Partition values that chunks share.
#[derive(Drop)]
pub struct Partition {
    values: List<Value>,
}

impl Model for Partition {
    ghost use Rattle.std.specs.Prelude.{List as Seq};
    ghost use Rattle.vec_base.specs.declared.value.Value.{Value as OneValue};

    ghost Value = { Seq OneValue };

    ghost view = { λ partition. partition.values };
}

impl Partition {
    /// A copy of the values.
    fn of(alloc: Global, values: &List<Value>) -> Result<Partition, Memory>
        ensures { IfOk result (λ partition. partition ≡ values.now) }
    {
        let mut copies = List::new(alloc);
        for value in values.as_slice() {
            copies.push(value.copy(alloc)?)?;
        }
        Ok(Partition { values: copies })
    }

    /// A copy of the values that holders can share.
    pub(crate) fn shared(alloc: Global, values: &List<Value>) -> Result<Shared<Partition>, Memory>
        ensures { IfOk result (λ partition. partition ≡ values.now) }
    {
        Shared::new(alloc, Partition::of(alloc, values)?)
    }

    #[inline]
    pub(crate) fn values(&self) -> &List<Value>
        ensures { result.now ≡ self.now }
    {
        &self.values
    }
}

impl Copied for Partition {
    fn copied(&self, alloc: Global) -> Result<Partition, Memory> {
        Partition::of(alloc, &self.values)
    }
}

/// Which slots of a chunk are used.
#[derive(Drop)]
pub struct Slots {
    used: Bitmap,
}

impl Model for Slots {
    ghost use Rattle.std.specs.Prelude.{Bool, List as Seq};

    ghost Value = { Seq Bool };

    ghost view = { λ slots. slots.used };
}

impl Copied for Slots {
    fn copied(&self, alloc: Global) -> Result<Slots, Memory> {
        Ok(Slots {
            used: self.used.copy(alloc)?,
        })
    }
}

impl Slots {
    /// Whether the slot is there and used.
    pub(crate) fn is_used(&self, slot: u16) -> bool
        ensures { result ≡ slice_index_or self.now slot false }
    {
        usize::from(slot) < self.used.len() && self.used.get(slot)
    }

    /// The least slot that is not used.
    pub(crate) fn first_free(&self) -> Option<u16>
        ensures { MatchOption result
            ((t : ℕ) → t < length self.now → slice_index_or self.now t false ≡ true)
            (λ free. (free < length self.now) × (slice_index_or self.now free false ≡ false) × ((t : ℕ) → t < free → slice_index_or self.now t false ≡ true)) }
    {
        self.used.first_clear()
    }

    /// A used slot other than this one.
    pub(crate) fn used_beside(&self, slot: u16) -> Option<u16>
        requires short { slot < MOST_CHUNK_SIZE }
        requires within { slot < length self.now }
        ensures { MatchOption result
            ((t : ℕ) → slice_index_or self.now t false ≡ true → t ≡ slot)
            (λ other. (other ≡ slot → ⊥) × (slice_index_or self.now other false ≡ true)) }
    {
        let first = self.used.next_set(0)?;
        if first == slot {
            self.used.next_set(slot + 1)
        } else {
            Some(first)
        }
    }
}

/// A slot becomes used or free.
#[derive(Clone, Copy)]
pub(crate) struct Mark {
    pub(crate) slot: u16,
    pub(crate) used: bool,
}

impl Edit<Slots> for Mark {
    ghost takes = { λ mark slots. mark.slot < length slots };

    ghost edited = { λ mark slots. slice_set slots mark.slot mark.used };

    fn edit(&self, _alloc: Global, slots: &mut Slots) -> Result<(), Memory> {
        if self.used {
            slots.used.set(self.slot);
        } else {
            slots.used.clear(self.slot);
        }
        Ok(())
    }
}

/// A chunk of a table.
#[derive(Drop)]
pub struct Chunk {
    pub number: u32,
    pub partition: Shared<Partition>,
    pub used: Shared<Slots>,
}

impl Copied for Chunk {
    fn copied(&self, _alloc: Global) -> Result<Chunk, Memory> {
        Ok(Chunk {
            number: self.number,
            partition: self.partition.share()?,
            used: self.used.share()?,
        })
    }
}

impl Edit<Chunk> for Mark {
    ghost takes = { λ mark chunk. mark.slot < length chunk.used };

    ghost edited = { λ mark chunk. record { number = chunk.number; partition = chunk.partition; used = slice_set chunk.used mark.slot mark.used } };

    fn edit(&self, alloc: Global, chunk: &mut Chunk) -> Result<(), Memory> {
        chunk.used.edit(alloc, self)
    }
}

impl Chunk {
    /// A chunk of which one slot is used.
    pub(crate) fn with_slot(
        alloc: Global,
        number: u32,
        partition: Shared<Partition>,
        size: u16,
        slot: u16,
    ) -> Result<Chunk, Memory>
        requires size { IsChunkSize size }
        requires slot { slot < size }
        ensures number { IfOk result (λ chunk. chunk.number ≡ number) }
        ensures partition { IfOk result (λ chunk. chunk.partition ≡ partition) }
        ensures used { IfOk result (λ chunk. chunk.used ≡ slice_set (replicate size false) slot true) }
    {
        let mut used = Bitmap::with_size(alloc, size)?;
        used.set(slot);
        Ok(Chunk {
            number,
            partition,
            used: Shared::new(alloc, Slots { used })?,
        })
    }
}
