//! A list whose copies share their items until one of them is changed.
ghost use Rattle.std.specs.Prelude.{◌≡◌, ℕ, ◌+◌, ◌<◌, ◌≤◌, ◌^◌, ◌==◌, [], length, slice_index, slice_index_or, slice_set, take, vec_len, IfOk, OnErr, is_ok, if◌then◌else◌};
ghost use Rattle.std.specs.List.{insert, remove};
ghost use Rattle.std.specs.Vec.{vec_capacity};
ghost use Rattle.shared_leaves.specs.Edits.{edited_at, HoldsAt};
ghost use Rattle.shared_leaves.specs.inner.Joined.{joined, ends_of};

use crate::leaf::{LEAF_ROOM, Leaf};
use crate::{Copied, Edit};
use std::alloc::Global;
use std::marker::Model;
use vec_base::Memory;

/// A list of items in leaves, each of which several lists may hold together. A change copies at most two leaves.
#[derive(Drop)]
pub struct Leaves<T: Copied> {
    leaves: Vec<Leaf<T>>,
    /// For each leaf the number of items up to its end.
    ends: Vec<usize>,
    len: usize,
}

impl<T: Copied> Model for Leaves<T> {
    ghost use Rattle.std.specs.Prelude.{◌≡◌, List as Seq, length};
    ghost use Rattle.shared_leaves.specs.inner.Joined.{joined, ends_of};

    ghost Value = { Seq T };

    ghost view = { λ list. joined list.leaves.items };

    ghost invariant = { λ list. (list.len ≡ length (joined list.leaves.items)) × (list.ends.items ≡ ends_of 0 list.leaves.items) };
}

/// The first place whose end is above the index.
fn first_above(ends: &[usize], index: usize) -> usize
    requires rising { (k l : ℕ) → k ≤ l → l < length ends.now → slice_index ends.now k ≤ slice_index ends.now l }
    ensures bound { result ≤ length ends.now }
    ensures front { (k : ℕ) → k < result → slice_index ends.now k ≤ index }
    ensures back { result < length ends.now → index < slice_index ends.now result }
{
    let mut low = 0;
    let mut high = ends.len();
    while low < high {
        let middle = low + (high - low) / 2;
        if ends[middle] <= index {
            low = middle + 1;
        } else {
            high = middle;
        }
    }
    low
}

/// The first place whose end is above the index, found at once where the leaves before it are full.
fn leaf_of(ends: &[usize], index: usize) -> usize
    requires rising { (k l : ℕ) → k ≤ l → l < length ends.now → slice_index ends.now k ≤ slice_index ends.now l }
    ensures bound { result ≤ length ends.now }
    ensures front { (k : ℕ) → k < result → slice_index ends.now k ≤ index }
    ensures back { result < length ends.now → index < slice_index ends.now result }
{
    let guess = index / LEAF_ROOM;
    if guess < ends.len() && index < ends[guess] && (guess == 0 || ends[guess - 1] <= index) {
        return guess;
    }
    first_above(ends, index)
}

/// The leaf of the item, and its place there.
fn find<T: Copied>(leaves: &[Leaf<T>], ends: &[usize], index: usize) -> (usize, usize)
    requires item { index < length (joined leaves.now) }
    requires ends { ends.now ≡ ends_of 0 leaves.now }
    ensures leaf { result.0 < length leaves.now }
    ensures place { result.1 < length (slice_index_or leaves.now result.0 []) }
    ensures item { length (joined (take result.0 leaves.now)) + result.1 ≡ index }
{
    let leaf = leaf_of(ends, index);
    if leaf == 0 {
        return (0, index);
    }
    (leaf, index - ends[leaf - 1])
}

/// The first leaf that the place lies in or at the end of, and the place there.
fn find_gap<T: Copied>(leaves: &[Leaf<T>], ends: &[usize], index: usize) -> (usize, usize)
    requires item { index ≤ length (joined leaves.now) }
    requires ends { ends.now ≡ ends_of 0 leaves.now }
    ensures leaf { result.0 ≤ length leaves.now }
    ensures place { result.1 ≤ length (slice_index_or leaves.now result.0 []) }
    ensures item { length (joined (take result.0 leaves.now)) + result.1 ≡ index }
{
    if index == 0 {
        return (0, 0);
    }
    let (leaf, at) = find(leaves, ends, index - 1);
    (leaf, at + 1)
}

/// The number of items of some leaves, whose ends these are.
fn last_end<T: Copied>(leaves: &[Leaf<T>], ends: &[usize]) -> usize
    requires { ends.now ≡ ends_of 0 leaves.now }
    ensures { result ≡ length (joined leaves.now) }
{
    match leaves.len().checked_sub(1) {
        Some(last) => ends[last],
        None => 0,
    }
}

/// Counts the ends anew, from a leaf on.
fn count_ends<T: Copied>(leaves: &[Leaf<T>], ends: &mut Vec<usize>, from: usize)
    requires within { from ≤ length leaves.now }
    requires front { take from ends.old.items ≡ ends_of 0 (take from leaves.now) }
    requires fits { length (joined leaves.now) < 2 ^ 64 }
    requires room { length leaves.now ≤ vec_capacity ends.old }
    ensures { ends.new.items ≡ ends_of 0 leaves.now }
{
    ends.truncate(from);
    let mut end = last_end(&leaves[..from], ends.as_slice());
    for index in from..leaves.len() {
        end += leaves[index].as_slice().len();
        let _ = ends.push(end);
    }
}

/// Makes room for one more item at a place of a leaf: a leaf with room, and the place there. No item moves in the list.
fn make_room<T: Copied>(
    alloc: Global,
    leaves: &mut Vec<Leaf<T>>,
    leaf: usize,
    at: usize,
) -> Result<(usize, usize), Memory>
    requires leaf { leaf ≤ vec_len leaves.old }
    requires place { at ≤ length (slice_index_or leaves.old.items leaf []) }
    ensures kept { OnErr result (leaves.new.items ≡ leaves.old.items) }
    ensures count { length leaves.new.items ≤ length leaves.old.items + 1 }
    ensures front { take leaf leaves.new.items ≡ take leaf leaves.old.items }
    ensures same { joined leaves.new.items ≡ joined leaves.old.items }
    ensures later { IfOk result (λ p. leaf ≤ p.0) }
    ensures leaf { IfOk result (λ p. p.0 < vec_len leaves.new) }
    ensures place { IfOk result (λ p. p.1 ≤ length (slice_index_or leaves.new.items p.0 [])) }
    ensures item { IfOk result (λ p. length (joined (take p.0 leaves.new.items)) + p.1 ≡ length (joined (take leaf leaves.old.items)) + at) }
{
    if leaf == leaves.len() {
        leaves.push(Leaf::new(alloc)?)?;
        return Ok((leaf, at));
    }
    let count = leaves[leaf].as_slice().len();
    if count < LEAF_ROOM {
        return Ok((leaf, at));
    }
    if at == count {
        leaves.insert(leaf + 1, Leaf::new(alloc)?)?;
        return Ok((leaf + 1, 0));
    }
    split(alloc, leaves, leaf, at)
}

/// Splits a leaf into halves. Answers the half that a place of the leaf lies in, and the place there.
fn split<T: Copied>(
    alloc: Global,
    leaves: &mut Vec<Leaf<T>>,
    leaf: usize,
    at: usize,
) -> Result<(usize, usize), Memory>
    requires leaf { leaf < vec_len leaves.old }
    requires place { at ≤ length (slice_index_or leaves.old.items leaf []) }
    ensures kept { OnErr result (leaves.new.items ≡ leaves.old.items) }
    ensures count { length leaves.new.items ≤ length leaves.old.items + 1 }
    ensures front { take leaf leaves.new.items ≡ take leaf leaves.old.items }
    ensures same { joined leaves.new.items ≡ joined leaves.old.items }
    ensures later { IfOk result (λ p. leaf ≤ p.0) }
    ensures leaf { IfOk result (λ p. p.0 < vec_len leaves.new) }
    ensures place { IfOk result (λ p. p.1 ≤ length (slice_index_or leaves.new.items p.0 [])) }
    ensures item { IfOk result (λ p. length (joined (take p.0 leaves.new.items)) + p.1 ≡ length (joined (take leaf leaves.old.items)) + at) }
{
    let half = leaves[leaf].as_slice().len() / 2;
    let (front, back) = leaves[leaf].halves(alloc, half)?;
    leaves.insert(leaf + 1, back)?;
    leaves[leaf] = front;
    if at <= half {
        Ok((leaf, at))
    } else {
        Ok((leaf + 1, at - half))
    }
}

/// Takes an item out of its leaf, and the leaf out where that was its only item.
fn take_out<T: Copied>(
    alloc: Global,
    leaves: &mut Vec<Leaf<T>>,
    leaf: usize,
    at: usize,
) -> Result<(), Memory>
    requires leaf { leaf < vec_len leaves.old }
    requires place { at < length (slice_index_or leaves.old.items leaf []) }
    ensures kept { OnErr result (leaves.new.items ≡ leaves.old.items) }
    ensures count { length leaves.new.items ≤ length leaves.old.items }
    ensures within { leaf ≤ length leaves.new.items }
    ensures front { take leaf leaves.new.items ≡ take leaf leaves.old.items }
    ensures items { joined leaves.new.items ≡ (if is_ok result then remove (joined leaves.old.items) (length (joined (take leaf leaves.old.items)) + at) else joined leaves.old.items) }
{
    if leaves[leaf].as_slice().len() == 1 {
        drop(leaves.remove(leaf));
        return Ok(());
    }
    leaves[leaf].remove(alloc, at)?;
    Ok(())
}

impl<T: Copied> Leaves<T> {
    /// No items. It takes no memory yet.
    pub fn new(alloc: Global) -> Leaves<T>
        ensures { result ≡ [] }
    {
        Leaves {
            leaves: Vec::new(alloc),
            ends: Vec::new(alloc),
            len: 0,
        }
    }

    #[inline]
    pub fn len(&self) -> usize
        ensures { result ≡ length self.now }
    {
        self.len
    }

    pub fn is_empty(&self) -> bool
        ensures { result ≡ (length self.now == 0) }
    {
        self.len == 0
    }

    /// The item at the place.
    #[inline]
    pub fn get(&self, at: usize) -> &T
        requires { at < length self.now }
        ensures { result.now ≡ slice_index_or self.now at result.now }
    {
        let (leaf, at) = find(self.leaves.as_slice(), self.ends.as_slice(), at);
        &self.leaves[leaf].as_slice()[at]
    }

    /// Puts another item at the place. After want of memory the list is as before.
    pub fn set(&mut self, at: usize, item: T) -> Result<(), Memory>
        requires { at < length self.old }
        ensures { self.new ≡ (if is_ok result then slice_set self.old at item else self.old) }
    {
        let (leaf, at) = find(self.leaves.as_slice(), self.ends.as_slice(), at);
        let alloc = *self.leaves.allocator();
        self.leaves[leaf].set(alloc, at, item)?;
        Ok(())
    }

    /// Changes the item at the place; in its place where no other list holds it. After want of memory the list is as before.
    pub fn edit<E: Edit<T>>(&mut self, at: usize, change: &E) -> Result<(), Memory>
        requires place { at < length self.old }
        requires takes { HoldsAt (E.takes change.now) at self.old }
        ensures { self.new ≡ (if is_ok result then edited_at (E.edited change.now) at self.old else self.old) }
    {
        let (leaf, at) = find(self.leaves.as_slice(), self.ends.as_slice(), at);
        let alloc = *self.leaves.allocator();
        self.leaves[leaf].edit(alloc, at, change)?;
        Ok(())
    }

    /// Puts an item before the one at the place, or at the end. After want of memory the list is as before.
    pub fn insert(&mut self, at: usize, item: T) -> Result<(), Memory>
        requires { at ≤ length self.old }
        ensures { self.new ≡ (if is_ok result then insert self.old at item else self.old) }
    {
        if self.len == usize::MAX {
            return Err(Memory);
        }
        let alloc = *self.leaves.allocator();
        self.ends.reserve(1)?;
        let (gap, at) = find_gap(self.leaves.as_slice(), self.ends.as_slice(), at);
        let (leaf, at) = make_room(alloc, &mut self.leaves, gap, at)?;
        let inserted = self.leaves[leaf].insert(alloc, at, item);
        count_ends(self.leaves.as_slice(), &mut self.ends, gap);
        inserted?;
        self.len += 1;
        Ok(())
    }

    /// Removes the item at the place. After want of memory the list is as before.
    pub fn remove(&mut self, at: usize) -> Result<(), Memory>
        requires { at < length self.old }
        ensures { self.new ≡ (if is_ok result then remove self.old at else self.old) }
    {
        let (leaf, at) = find(self.leaves.as_slice(), self.ends.as_slice(), at);
        let alloc = *self.leaves.allocator();
        take_out(alloc, &mut self.leaves, leaf, at)?;
        count_ends(self.leaves.as_slice(), &mut self.ends, leaf);
        self.len -= 1;
        Ok(())
    }

    /// An equal list. A later change of one leaves the other.
    pub fn share(&self) -> Result<Leaves<T>, Memory>
        ensures { IfOk result (λ other. other ≡ self.now) }
    {
        let alloc = *self.leaves.allocator();
        let mut leaves = Vec::with_capacity(alloc, self.leaves.len())?;
        for leaf in &self.leaves {
            leaves.push(leaf.share()?)?;
        }
        let ends = Vec::from_slice(alloc, self.ends.as_slice())?;
        Ok(Leaves {
            leaves,
            ends,
            len: self.len,
        })
    }
}
