//! A few items that several lists may hold together.
ghost use Rattle.std.specs.Prelude.{◌≡◌, ◌<◌, ◌≤◌, [], ◌∷◌, length, slice_set, take, drop, IfOk, is_ok, if◌then◌else◌};
ghost use Rattle.std.specs.List.{insert, remove};
ghost use Rattle.shared_leaves.specs.Edits.{edited_at, HoldsAt};

use crate::{Copied, Edit};
use std::alloc::Global;
use std::marker::Model;
use std::sync::Arc;
use vec_base::Memory;

/// The most items of a leaf.
pub(crate) const LEAF_ROOM: usize = 64;

/// Items in their order. A change is made in place where this leaf is their only holder, and else on a copy.
#[derive(Drop)]
pub(crate) struct Leaf<T: Copied> {
    items: Arc<Vec<T>>,
}

impl<T: Copied> Model for Leaf<T> {
    ghost use Rattle.std.specs.Prelude.{List as Seq};
    ghost use Rattle.std.specs.Arc.{arc_value};

    ghost Value = { Seq T };

    ghost view = { λ leaf. (arc_value leaf.items).items };
}

/// Equal items, with the room of a leaf.
fn copies<T: Copied>(alloc: Global, items: &[T]) -> Result<Vec<T>, Memory>
    ensures { IfOk result (λ copies. copies.items ≡ items.now) }
{
    let mut copies = Vec::with_capacity(alloc, LEAF_ROOM)?;
    for item in items {
        copies.push(item.copied(alloc)?)?;
    }
    Ok(copies)
}

impl<T: Copied> Leaf<T> {
    /// A leaf without items, with room for those of a leaf.
    pub(crate) fn new(alloc: Global) -> Result<Leaf<T>, Memory>
        ensures { IfOk result (λ leaf. leaf ≡ []) }
    {
        Leaf::of(alloc, Vec::with_capacity(alloc, LEAF_ROOM)?)
    }

    /// A leaf of the items.
    fn of(alloc: Global, items: Vec<T>) -> Result<Leaf<T>, Memory>
        ensures { IfOk result (λ leaf. leaf ≡ items.items) }
    {
        Ok(Leaf {
            items: Arc::new(alloc, items)?,
        })
    }

    #[inline]
    pub(crate) fn as_slice(&self) -> &[T]
        ensures { result.now ≡ self.now }
    {
        self.items.as_slice()
    }

    /// Two leaves of copies: of the first items up to the place, and of the others.
    pub(crate) fn halves(&self, alloc: Global, at: usize) -> Result<(Leaf<T>, Leaf<T>), Memory>
        requires { at ≤ length self.now }
        ensures { IfOk result (λ halves. (halves.0 ≡ take at self.now) × (halves.1 ≡ drop at self.now)) }
    {
        let (front, back) = self.items.as_slice().split_at(at);
        let front = Leaf::of(alloc, copies(alloc, front)?)?;
        let back = Leaf::of(alloc, copies(alloc, back)?)?;
        Ok((front, back))
    }

    /// Another holder of the items.
    pub(crate) fn share(&self) -> Result<Leaf<T>, Memory>
        ensures { IfOk result (λ leaf. leaf ≡ self.now) }
    {
        Ok(Leaf {
            items: Arc::try_clone(&self.items)?,
        })
    }

    /// Puts the item in the place of another one.
    pub(crate) fn set(&mut self, alloc: Global, at: usize, item: T) -> Result<(), Memory>
        requires { at < length self.old }
        ensures { self.new ≡ (if is_ok result then slice_set self.old at item else self.old) }
    {
        match Arc::get_mut(&mut self.items) {
            Some(items) => items[at] = item,
            None => {
                let mut items = copies(alloc, self.items.as_slice())?;
                items[at] = item;
                self.items = Arc::new(alloc, items)?;
            }
        }
        Ok(())
    }

    /// Changes the item at the place.
    pub(crate) fn edit<E: Edit<T>>(
        &mut self,
        alloc: Global,
        at: usize,
        change: &E,
    ) -> Result<(), Memory>
        requires place { at < length self.old }
        requires takes { HoldsAt (E.takes change.now) at self.old }
        ensures { self.new ≡ (if is_ok result then edited_at (E.edited change.now) at self.old else self.old) }
    {
        match Arc::get_mut(&mut self.items) {
            Some(items) => change.edit(alloc, &mut items[at])?,
            None => {
                let mut items = copies(alloc, self.items.as_slice())?;
                change.edit(alloc, &mut items[at])?;
                self.items = Arc::new(alloc, items)?;
            }
        }
        Ok(())
    }

    /// Puts the item before the one at the place, or at the end.
    pub(crate) fn insert(&mut self, alloc: Global, at: usize, item: T) -> Result<(), Memory>
        requires { at ≤ length self.old }
        ensures { self.new ≡ (if is_ok result then insert self.old at item else self.old) }
    {
        match Arc::get_mut(&mut self.items) {
            Some(items) => items.insert(at, item)?,
            None => {
                let mut items = copies(alloc, self.items.as_slice())?;
                items.insert(at, item)?;
                self.items = Arc::new(alloc, items)?;
            }
        }
        Ok(())
    }

    /// Removes the item at the place.
    pub(crate) fn remove(&mut self, alloc: Global, at: usize) -> Result<(), Memory>
        requires { at < length self.old }
        ensures { self.new ≡ (if is_ok result then remove self.old at else self.old) }
    {
        match Arc::get_mut(&mut self.items) {
            Some(items) => drop(items.remove(at)),
            None => {
                let mut items = copies(alloc, self.items.as_slice())?;
                drop(items.remove(at));
                self.items = Arc::new(alloc, items)?;
            }
        }
        Ok(())
    }
}
