//! The changes between two catalogs.
ghost use Rattle.std.specs.Prelude.{◌≡◌, ◌++◌, true, IfOk, OnOk};
ghost use Rattle.shadow_keeper.specs.Keeping.{AreShort};
ghost use Rattle.table_changes.specs.Turning.{Turns};
ghost use Rattle.version_shelf.specs.OnShelf.{at_place, shown};
ghost use Rattle.version_shelf.specs.Records.{TurnsAll, table_in};
ghost use Rattle.version_shelf.specs.Shares.{FollowsIn};
ghost use Rattle.version_shelf.specs.inner.Origins.{AllFollow, versions};

use crate::slots::{Kept, named_at, origin_at};
use crate::{Held, Shelf};
use shadow_keeper::Batch;
use std::alloc::Global;
use table_changes::{changes_over, changes_since, removal};
use vec_base::{Change, List, MOST_TABLES, Memory};

/// Whether the version at one place is known to follow the one at another.
fn is_followed(slots: &[Option<Kept>], older: Option<usize>, newer: Option<usize>) -> bool
    requires follow { AllFollow slots.now }
    ensures { result ≡ true → FollowsIn (at_place (versions slots.now) older) (at_place (versions slots.now) newer) }
{
    let Some(older) = older else {
        return false;
    };
    let Some(newer) = newer else {
        return false;
    };
    origin_at(slots, newer) == Some(older)
}

/// The changes from the version at one place to the one at another, of the table with the number.
fn changes_of(
    alloc: Global,
    slots: &[Option<Kept>],
    older: Option<usize>,
    newer: Option<usize>,
    number: u32,
) -> Result<List<Change>, Memory>
    requires follow { AllFollow slots.now }
    ensures turns { IfOk result (λ changes. Turns number (table_in (at_place (versions slots.now) older)) (table_in (at_place (versions slots.now) newer)) changes) }
    ensures short { IfOk result (λ changes. AreShort changes) }
{
    if older == newer {
        return Ok(List::new(alloc));
    }
    let old = named_at(slots, older);
    let Some(new) = named_at(slots, newer) else {
        return match old {
            Some(old) => removal(alloc, old, number),
            None => Ok(List::new(alloc)),
        };
    };
    if is_followed(slots, older, newer) {
        match old {
            Some(old) => changes_over(alloc, old, new, number),
            None => unreachable!(),
        }
    } else {
        changes_since(alloc, new, old, number)
    }
}

impl Shelf {
    /// A batch that turns the records of one catalog into those of another. A table that follows the older one is written where it was touched
    /// alone.
    pub fn changes(&self, alloc: Global, older: &Held, newer: &Held) -> Result<Batch, Memory>
        ensures turns { IfOk result (λ batch. TurnsAll (shown self.now older.now.places) (shown self.now newer.now.places) batch.changes) }
        ensures short { IfOk result (λ batch. AreShort batch.changes) }
    {
        let mut changes = Vec::new(alloc);
        for at in 0..MOST_TABLES as usize {
            let more = changes_of(
                alloc,
                self.slots.as_slice(),
                older.places[at],
                newer.places[at],
                at as u32 + 1,
            )?;
            changes.append(&mut more.into_vec())?;
        }
        Ok(Batch {
            changes: List::from_vec(changes),
        })
    }
}
