//! The chunks of a table by their numbers.
ghost use Rattle.std.specs.Prelude.{◌≡◌, ℕ, ◌+◌, ◌-◌, ◌<◌, ◌≤◌, ◌^◌, Bool, true, false, ◌&&◌, ◌==◌, nat_lt, is_some, List as Seq, [], length, slice_index_or, option_copied, Some, None, IsTrue, ◌↔◌, MatchOption, IfOk, IfSome, OnOk, OnErr};
ghost use Rattle.vec_base.specs.declared.value.Value.{Value};
ghost use Rattle.slot_alloc.specs.declared.chunk.Chunk.{Chunk};
ghost use Rattle.slot_alloc.specs.Places.{PlaceMap, IsChunkSize, IsFull, IsNextChunk, IsPlaceMap, chunk_with, partition_at, partition_of_chunk, has_chunk, is_used};
ghost use Rattle.slot_alloc.specs.Changes.{UsesAlso, UsesNoMore};
ghost use Rattle.slot_alloc.specs.inner.Kept.{NumbersRise};
ghost use Rattle.slot_alloc.specs.inner.Searches.{IsSplitPlace};

use crate::chunk::{Chunk, Mark, Partition};
use crate::order::same_values;
use crate::search::{Front, front_len};
use shared_leaves::{Leaves, Shared};
use std::alloc::Global;
use std::marker::Model;
use vec_base::{List, Memory, Value};

/// Chunks whose numbers are below one.
#[derive(Clone, Copy)]
struct Below(u32);

impl Front<Chunk> for Below {
    ghost use Rattle.std.specs.Prelude.{nat_lt};

    ghost in_front = { λ below _ chunk. nat_lt chunk.number below.0 };

    fn is_in_front(&self, _at: usize, chunk: &Chunk) -> bool {
        chunk.number < self.0
    }
}

/// Chunks whose numbers are at most one.
#[derive(Clone, Copy)]
struct UpTo(u32);

impl Front<Chunk> for UpTo {
    ghost use Rattle.std.specs.Prelude.{nat_le};

    ghost in_front = { λ up_to _ chunk. nat_le chunk.number up_to.0 };

    fn is_in_front(&self, _at: usize, chunk: &Chunk) -> bool {
        chunk.number <= self.0
    }
}

/// Chunks before which each positive number is that of a chunk.
#[derive(Clone, Copy)]
struct Unbroken;

impl Front<Chunk> for Unbroken {
    ghost use Rattle.std.specs.Prelude.{nat_le, ◌-◌};

    ghost in_front = { λ _ at chunk. nat_le (chunk.number - 1) at };

    fn is_in_front(&self, at: usize, chunk: &Chunk) -> bool {
        chunk.number.saturating_sub(1) as usize <= at
    }
}

/// The place of the first chunk whose number is at least this one.
fn first_from(chunks: &Leaves<Chunk>, number: u32) -> usize
    requires { NumbersRise chunks.now }
    ensures { IsSplitPlace (λ _ x. nat_lt x.number number) chunks.now result }
{
    front_len(chunks, &Below(number))
}

/// The place of the chunk with this number.
fn find(chunks: &Leaves<Chunk>, number: u32) -> Option<usize>
    requires { NumbersRise chunks.now }
    ensures { MatchOption result
        (chunk_with chunks.now number ≡ None)
        (λ at. (at < length chunks.now) × ((d : Chunk) → (slice_index_or chunks.now at d).number ≡ number)) }
{
    let at = first_from(chunks, number);
    if at < chunks.len() && chunks.get(at).number == number {
        Some(at)
    } else {
        None
    }
}

/// The place of the chunk with this number, which is there.
fn place_of(chunks: &Leaves<Chunk>, number: u32) -> usize
    requires rise { NumbersRise chunks.now }
    requires there { is_some (chunk_with chunks.now number) ≡ true }
    ensures within { result < length chunks.now }
    ensures number { (d : Chunk) → (slice_index_or chunks.now result d).number ≡ number }
{
    first_from(chunks, number)
}

/// How many slots each chunk has, and the chunks by rising numbers.
#[derive(Drop)]
pub struct Chunks {
    size: u16,
    chunks: Leaves<Chunk>,
}

impl Model for Chunks {
    ghost use Rattle.slot_alloc.specs.Places.{PlaceMap};
    ghost use Rattle.slot_alloc.specs.inner.Kept.{AreChunks};

    ghost Value = { PlaceMap };

    ghost view = { λ c. record { size = c.size; chunks = c.chunks } };

    ghost invariant = { λ c. AreChunks c.size c.chunks };
}

impl Chunks {
    /// No chunks.
    pub(crate) fn with_size(alloc: Global, size: u16) -> Chunks
        requires { IsChunkSize size }
        ensures { result ≡ record { size = size; chunks = [] } }
    {
        Chunks {
            size,
            chunks: Leaves::new(alloc),
        }
    }

    /// An equal value.
    pub(crate) fn share(&self) -> Result<Chunks, Memory>
        ensures { IfOk result (λ other. other ≡ self.now) }
    {
        Ok(Chunks {
            size: self.size,
            chunks: self.chunks.share()?,
        })
    }

    /// What is so of every table. The call does nothing: its clause is all that it gives.
    pub(crate) fn known(&self)
        ensures { IsPlaceMap self.now }
    {
        let _size = self.size;
    }

    pub(crate) fn size(&self) -> u16
        ensures { result ≡ self.now.size }
    {
        self.size
    }

    /// The least number of a chunk above another number.
    pub(crate) fn next(&self, after: u32) -> Option<u32>
        ensures { IsNextChunk self.now after result }
    {
        let at = front_len(&self.chunks, &UpTo(after));
        if at < self.chunks.len() {
            Some(self.chunks.get(at).number)
        } else {
            None
        }
    }

    /// The least positive number that no chunk has. `None` where chunks have all numbers.
    pub(crate) fn least_unused(&self) -> Option<u32>
        ensures positive { IfSome result (λ c. 0 < c) }
        ensures unused { IfSome result (λ c. has_chunk self.now c ≡ false) }
        ensures lower { IfSome result (λ c. (d : ℕ) → 0 < d → d < c → has_chunk self.now d ≡ true) }
    {
        let at = front_len(&self.chunks, &Unbroken);
        if at < u32::MAX as usize {
            Some(at as u32 + 1)
        } else {
            None
        }
    }

    /// The partition values of a chunk.
    pub(crate) fn partition(&self, number: u32) -> Option<&List<Value>>
        ensures { option_copied result ≡ partition_of_chunk self.now number }
    {
        let at = find(&self.chunks, number)?;
        Some(self.chunks.get(at).partition.get().values())
    }

    /// The partition values of a used place.
    pub(crate) fn partition_at(&self, number: u32, slot: u16) -> Option<&List<Value>>
        ensures { option_copied result ≡ partition_at self.now number slot }
    {
        let at = find(&self.chunks, number)?;
        let chunk = self.chunks.get(at);
        if chunk.used.get().is_used(slot) {
            Some(chunk.partition.get().values())
        } else {
            None
        }
    }

    /// A holder of the partition values of a chunk that is there.
    pub(crate) fn share_partition(&self, number: u32) -> Result<Shared<Partition>, Memory>
        requires { has_chunk self.now number ≡ true }
        ensures { IfOk result (λ partition. partition_of_chunk self.now number ≡ Some partition) }
    {
        let at = place_of(&self.chunks, number);
        self.chunks.get(at).partition.share()
    }

    /// The least free slot of a chunk, where the chunk is there with these partition values.
    pub(crate) fn free_slot(&self, number: u32, partition: &List<Value>) -> Option<u16>
        ensures { MatchOption result
            (partition_of_chunk self.now number ≡ Some partition.now → IsFull self.now number)
            (λ slot. (partition_of_chunk self.now number ≡ Some partition.now) × (slot < self.now.size) × (is_used self.now number slot ≡ false) × ((t : ℕ) → t < slot → is_used self.now number t ≡ true)) }
    {
        let at = find(&self.chunks, number)?;
        let chunk = self.chunks.get(at);
        if same_values(chunk.partition.get().values(), partition) {
            chunk.used.get().first_free()
        } else {
            None
        }
    }

    /// Puts in a chunk of which one slot is used.
    pub(crate) fn add(
        &mut self,
        alloc: Global,
        number: u32,
        partition: Shared<Partition>,
        slot: u16,
    ) -> Result<(), Memory>
        requires positive { 0 < number }
        requires fresh { has_chunk self.old number ≡ false }
        requires slot { slot < self.old.size }
        ensures kept { OnErr result (self.new ≡ self.old) }
        ensures used { OnOk result (UsesAlso self.old number slot partition self.new) }
    {
        let at = first_from(&self.chunks, number);
        let chunk = Chunk::with_slot(alloc, number, partition, self.size, slot)?;
        self.chunks.insert(at, chunk)?;
        Ok(())
    }

    /// Uses one more slot of a chunk.
    pub(crate) fn use_slot(&mut self, number: u32, slot: u16) -> Result<(), Memory>
        requires there { has_chunk self.old number ≡ true }
        requires slot { slot < self.old.size }
        ensures kept { OnErr result (self.new ≡ self.old) }
        ensures used { OnOk result ((partition : Seq Value) → partition_of_chunk self.old number ≡ Some partition → UsesAlso self.old number slot partition self.new) }
    {
        let at = place_of(&self.chunks, number);
        self.chunks.edit(at, &Mark { slot, used: true })?;
        Ok(())
    }

    /// Frees a used slot, and takes its chunk out where it was the only one. Answers whether the chunk was taken out.
    pub(crate) fn free(&mut self, number: u32, slot: u16) -> Result<bool, Memory>
        requires { is_used self.old number slot ≡ true }
        ensures kept { OnErr result (self.new ≡ self.old) }
        ensures freed { IfOk result (λ emptied. UsesNoMore self.old number slot emptied self.new) }
        ensures emptied { IfOk result (λ emptied. IsTrue emptied ↔ ((t : ℕ) → is_used self.old number t ≡ true → t ≡ slot)) }
    {
        let at = place_of(&self.chunks, number);
        match self.chunks.get(at).used.get().used_beside(slot) {
            None => {
                self.chunks.remove(at)?;
                Ok(true)
            }
            Some(_) => {
                self.chunks.edit(at, &Mark { slot, used: false })?;
                Ok(false)
            }
        }
    }
}
