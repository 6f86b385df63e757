//! An item that several holders share.
ghost use Rattle.std.specs.Prelude.{◌≡◌, IfOk, is_ok, if◌then◌else◌};

use crate::{Copied, Edit};
use std::alloc::Global;
use std::marker::Model;
use std::sync::Arc;
use vec_base::Memory;

/// An item, seen as the item itself. A copy is another holder of it; a change is made in place by its only holder, and else on
/// a copy of the item.
#[derive(Drop)]
pub struct Shared<T: Copied> {
    item: Arc<T>,
}

impl<T: Copied> Model for Shared<T> {
    ghost use Rattle.std.specs.Arc.{arc_value};

    ghost Value = { T };

    ghost view = { λ shared. arc_value shared.item };
}

impl<T: Copied> Shared<T> {
    /// The one holder of an item.
    pub fn new(alloc: Global, item: T) -> Result<Shared<T>, Memory>
        ensures { IfOk result (λ shared. shared ≡ item) }
    {
        Ok(Shared {
            item: Arc::new(alloc, item)?,
        })
    }

    #[inline]
    pub fn get(&self) -> &T
        ensures { result.now ≡ self.now }
    {
        &self.item
    }

    /// Another holder of the item.
    pub fn share(&self) -> Result<Shared<T>, Memory>
        ensures { IfOk result (λ shared. shared ≡ self.now) }
    {
        Ok(Shared {
            item: Arc::try_clone(&self.item)?,
        })
    }

    /// Changes the item for this holder. After want of memory it is as before.
    pub fn edit<E: Edit<T>>(&mut self, alloc: Global, change: &E) -> Result<(), Memory>
        requires { E.takes change.now self.old }
        ensures { self.new ≡ (if is_ok result then E.edited change.now self.old else self.old) }
    {
        match Arc::get_mut(&mut self.item) {
            Some(item) => change.edit(alloc, item)?,
            None => {
                let mut item = self.item.copied(alloc)?;
                change.edit(alloc, &mut item)?;
                self.item = Arc::new(alloc, item)?;
            }
        }
        Ok(())
    }
}

impl<T: Copied> Copied for Shared<T> {
    fn copied(&self, _alloc: Global) -> Result<Shared<T>, Memory> {
        self.share()
    }
}
