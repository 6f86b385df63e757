//! The used places of a table.
ghost use Rattle.std.specs.Prelude.{◌≡◌, ℕ, ◌+◌, ◌-◌, ◌<◌, ◌≤◌, ◌^◌, Bool, true, false, List as Seq, [], length, option_copied, Some, None, IsTrue, ◌↔◌, IfOk, OnOk, OnErr, IfSome};
ghost use Rattle.vec_base.specs.declared.value.Value.{Value};
ghost use Rattle.slot_alloc.specs.Places.{PlaceMap, IsChunkSize, IsFull, IsNextChunk, IsPlaceMap, partition_at, partition_of_chunk, has_chunk, is_used};
ghost use Rattle.slot_alloc.specs.Changes.{UsesAlso, UsesNoMore};
ghost use Rattle.slot_alloc.specs.SlotRule.{IsPlaceFor, IsLowestFree, chunk_of, slot_of};
ghost use Rattle.slot_alloc.specs.inner.Kept.{ListsSpare};

use crate::Place;
use crate::chunk::Partition;
use crate::chunks::Chunks;
use crate::spare::SpareIndex;
use std::alloc::Global;
use std::marker::Model;
use vec_base::{List, Memory, Value};

/// Which places of a table are used, and with which partition values.
#[derive(Drop)]
pub struct Places {
    chunks: Chunks,
    /// Each chunk with a free slot has an entry here. There may be others: after want of memory, and of full chunks.
    spare: SpareIndex,
}

impl Model for Places {
    ghost use Rattle.slot_alloc.specs.Places.{PlaceMap};
    ghost use Rattle.slot_alloc.specs.inner.Kept.{ListsSpare};

    ghost Value = { PlaceMap };

    ghost view = { λ places. places.chunks };

    ghost invariant = { λ places. ListsSpare places.chunks places.spare };
}

/// The lowest free slot of the lowest chunk of some partition values that has one. Entries of other chunks are taken out.
fn free_place(
    chunks: &Chunks,
    spare: &mut SpareIndex,
    partition: &List<Value>,
) -> Result<Option<(u32, u16)>, Memory>
    requires { ListsSpare chunks.now spare.old }
    ensures listed { ListsSpare chunks.now spare.new }
    ensures place { IfOk result (λ o. IfSome o (λ p. IsLowestFree chunks.now partition.now p.0 p.1)) }
    ensures full { IfOk result (λ o. o ≡ None → (d : ℕ) → partition_of_chunk chunks.now d ≡ Some partition.now → IsFull chunks.now d) }
{
    while let Some((at, number)) = spare.first(partition) {
        if let Some(slot) = chunks.free_slot(number, partition) {
            return Ok(Some((number, slot)));
        }
        spare.remove(at)?;
    }
    Ok(None)
}

impl Places {
    /// No used places.
    pub fn with_chunk_size(alloc: Global, size: u16) -> Result<Places, Memory>
        requires { IsChunkSize size }
        ensures { IfOk result (λ places. places ≡ record { size = size; chunks = [] }) }
    {
        Ok(Places {
            chunks: Chunks::with_size(alloc, size),
            spare: SpareIndex::new(alloc),
        })
    }

    /// An equal value. A later change of one leaves the other.
    pub fn share(&self) -> Result<Places, Memory>
        ensures { IfOk result (λ other. other ≡ self.now) }
    {
        Ok(Places {
            chunks: self.chunks.share()?,
            spare: self.spare.share()?,
        })
    }

    /// What is so of every table. The call does nothing: its clause is all that it gives.
    pub fn known(&self)
        ensures { IsPlaceMap self.now }
    {
        self.chunks.known();
    }

    /// How many slots a chunk has.
    pub fn size(&self) -> u16
        ensures { result ≡ self.now.size }
    {
        self.chunks.size()
    }

    /// The least number of a chunk above another number.
    pub fn next_chunk(&self, after: u32) -> Option<u32>
        ensures { IsNextChunk self.now after result }
    {
        self.chunks.next(after)
    }

    /// The partition values of a chunk, where there is one of this number.
    pub fn partition(&self, chunk: u32) -> Option<&List<Value>>
        ensures { option_copied result ≡ partition_of_chunk self.now chunk }
    {
        self.chunks.partition(chunk)
    }

    /// The partition values of a place, where it is used.
    pub fn partition_at(&self, chunk: u32, slot: u16) -> Option<&List<Value>>
        ensures { option_copied result ≡ partition_at self.now chunk slot }
    {
        self.chunks.partition_at(chunk, slot)
    }

    /// Takes the place that a new row with these partition values has.
    pub fn take(&mut self, alloc: Global, partition: &List<Value>) -> Result<Place, Memory>
        ensures kept { OnErr result (self.new ≡ self.old) }
        ensures place { IfOk result (λ place. IsPlaceFor self.old partition.now place) }
        ensures used { IfOk result (λ place. UsesAlso self.old (chunk_of place) (slot_of place) partition.now self.new) }
    {
        match free_place(&self.chunks, &mut self.spare, partition)? {
            Some((chunk, slot)) => {
                self.chunks.use_slot(chunk, slot)?;
                Ok(Place::Slot(chunk, slot))
            }
            None => {
                self.chunks.known();
                let chunk = self.chunks.least_unused().ok_or(Memory)?;
                self.add_chunk(alloc, chunk, 0, partition)?;
                Ok(Place::NewChunk(chunk))
            }
        }
    }

    /// Makes a place used with some partition values.
    pub fn occupy(
        &mut self,
        alloc: Global,
        chunk: u32,
        slot: u16,
        partition: &List<Value>,
    ) -> Result<(), Memory>
        requires chunk { 0 < chunk }
        requires slot { slot < self.old.size }
        requires free { is_used self.old chunk slot ≡ false }
        requires values { (t : ℕ) (other : Seq Value) → partition_at self.old chunk t ≡ Some other → other ≡ partition.now }
        ensures kept { OnErr result (self.new ≡ self.old) }
        ensures used { OnOk result (UsesAlso self.old chunk slot partition.now self.new) }
    {
        if self.chunks.partition(chunk).is_none() {
            return self.add_chunk(alloc, chunk, slot, partition);
        }
        self.chunks.known();
        self.chunks.use_slot(chunk, slot)?;
        Ok(())
    }

    /// Puts in a chunk of which one slot is used.
    fn add_chunk(
        &mut self,
        alloc: Global,
        chunk: u32,
        slot: u16,
        partition: &List<Value>,
    ) -> Result<(), Memory>
        requires chunk { 0 < chunk }
        requires slot { slot < self.old.size }
        requires fresh { has_chunk self.old chunk ≡ false }
        ensures kept { OnErr result (self.new ≡ self.old) }
        ensures used { OnOk result (UsesAlso self.old chunk slot partition.now self.new) }
    {
        let partition = Partition::shared(alloc, partition)?;
        self.spare.add(partition.share()?, chunk)?;
        self.chunks.add(alloc, chunk, partition, slot)?;
        Ok(())
    }

    /// Gives back a used place. Answers whether its chunk was emptied, and so removed.
    pub fn give_back(&mut self, chunk: u32, slot: u16) -> Result<bool, Memory>
        requires { is_used self.old chunk slot ≡ true }
        ensures kept { OnErr result (self.new ≡ self.old) }
        ensures freed { IfOk result (λ emptied. UsesNoMore self.old chunk slot emptied self.new) }
        ensures emptied { IfOk result (λ emptied. IsTrue emptied ↔ ((t : ℕ) → is_used self.old chunk t ≡ true → t ≡ slot)) }
    {
        let partition = self.chunks.share_partition(chunk)?;
        self.spare.add(partition.share()?, chunk)?;
        let emptied = self.chunks.free(chunk, slot)?;
        if emptied {
            let _ = self.spare.take_out(partition.get().values(), chunk);
        }
        Ok(emptied)
    }
}
