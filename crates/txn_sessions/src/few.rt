//! Short lists whose room is taken when they are made.
ghost use Rattle.std.specs.Prelude.{◌≡◌, ◌<◌, [], ◌∷◌, ◌++◌, length, take, IfOk, slice_index_or, slice_set};
ghost use Rattle.std.specs.List.{remove};

use std::alloc::Global;
use std::marker::Model;
use std::mem;
use vec_base::Memory;

/// A list that has the room for so many items. Contracts see the list of its items.
#[derive(Drop)]
pub struct Few<T, const MOST: usize> {
    items: Vec<T>,
}

impl<T, const MOST: usize> Model for Few<T, MOST> {
    ghost use Rattle.std.specs.Prelude.{◌≤◌, List as Seq};
    ghost use Rattle.std.specs.Coded.{coded_list};
    ghost use Rattle.std.specs.Vec.{vec_capacity};

    ghost Value = { Seq T };

    ghost coded = { coded_list T.code };

    ghost view = { λ few. few.items.items };

    ghost invariant = { λ few. MOST ≤ vec_capacity few.items };
}

impl<T, const MOST: usize> Few<T, MOST> {
    /// No items, and the room for all.
    pub fn new(alloc: Global) -> Result<Few<T, MOST>, Memory>
        ensures { IfOk result (λ few. few ≡ []) }
    {
        Ok(Few {
            items: Vec::with_capacity(alloc, MOST)?,
        })
    }

    pub fn as_slice(&self) -> &[T]
        ensures { result.now ≡ self.now }
    {
        self.items.as_slice()
    }

    pub fn len(&self) -> usize
        ensures { result ≡ length self.now }
    {
        self.items.len()
    }
}

impl<T: Drop, const MOST: usize> Few<T, MOST> {
    /// Adds an item at the end. It takes no memory.
    pub fn push(&mut self, item: T)
        requires { length self.old < MOST }
        ensures { self.new ≡ self.old ++ item ∷ [] }
    {
        let _ = self.items.push(item);
    }

    /// Puts an item in the place of another, which is answered.
    pub fn exchange(&mut self, at: usize, item: T) -> T
        requires { at < length self.old }
        ensures given { result ≡ slice_index_or self.old at result }
        ensures items { self.new ≡ slice_set self.old at item }
    {
        mem::replace(&mut self.items[at], item)
    }

    /// Takes the item at the place out; those behind it move up.
    pub fn remove(&mut self, at: usize) -> T
        requires { at < length self.old }
        ensures given { result ≡ slice_index_or self.old at result }
        ensures items { self.new ≡ remove self.old at }
    {
        self.items.remove(at)
    }

    /// Keeps the first items.
    pub fn truncate(&mut self, most: usize)
        ensures { self.new ≡ take most self.old }
    {
        self.items.truncate(most);
    }

    /// Removes all items and keeps the room.
    pub fn clear(&mut self)
        ensures { self.new ≡ [] }
    {
        self.items.clear();
    }
}
