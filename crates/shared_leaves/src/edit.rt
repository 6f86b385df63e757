//! Changes of an item in its place.
ghost use Rattle.std.specs.Prelude.{◌≡◌, is_ok, if◌then◌else◌};

use crate::{Copied, Shared};
use std::alloc::Global;
use vec_base::Memory;

/// A change that an item can be given in its place.
pub trait Edit<T> {
    /// What has to hold of an item.
    ghost takes: { Self → T → Type 0 };

    /// The item after the change.
    ghost edited: { Self → T → T };

    /// Changes the item. After want of memory it is as before.
    fn edit(&self, alloc: Global, item: &mut T) -> Result<(), Memory>
        requires { takes self.now item.old }
        ensures { item.new ≡ (if is_ok result then edited self.now item.old else item.old) };
}

/// The change of a shared item that another change makes of the item.
#[derive(Drop)]
pub struct Within<'a, E>(pub &'a E);

impl<T: Copied, E: Edit<T>> Edit<Shared<T>> for Within<'_, E> {
    ghost takes = { λ within item. E.takes within.0.now item };

    ghost edited = { λ within item. E.edited within.0.now item };

    fn edit(&self, alloc: Global, item: &mut Shared<T>) -> Result<(), Memory> {
        item.edit(alloc, self.0)
    }
}
