//! A shelf of versions.
ghost use Rattle.std.specs.Prelude.{◌≡◌, ◌-◌, ◌≤◌, [], None, Some, length, slice_index_or, slice_set, option_copied, IfOk, IfNone, IfSome, IsSome};
ghost use Rattle.row_model.specs.Change.{table_named};
ghost use Rattle.vec_base.specs.declared.limits.TheConstants.{MOST_TABLES};
ghost use Rattle.table_version.specs.Versions.{VersionState};
ghost use Rattle.version_shelf.specs.Numbers.{catalog_of, IsFree, IsNumber};
ghost use Rattle.version_shelf.specs.OnShelf.{at_place, Keeps, OnShelf, shown};
ghost use Rattle.version_shelf.specs.Shares.{ComesFrom, IsShared};
ghost use Rattle.version_shelf.specs.inner.Origins.{AllFollow, version_in, versions};

use crate::Held;
use crate::lookups::{count_in, free_in, number_in};
use crate::slots::{Kept, empty, origin_at, room, set, version_at};
use std::alloc::Global;
use std::marker::Model;
use table_version::TableVersion;
use vec_base::{Memory, Txt};

/// Versions of tables by their places. Contracts see the list of the places.
#[derive(Drop)]
pub struct Shelf {
    pub(crate) slots: Vec<Option<Kept>>,
}

impl Model for Shelf {
    ghost use Rattle.std.specs.Prelude.{List as Seq, Option};
    ghost use Rattle.table_version.specs.Versions.{VersionState};
    ghost use Rattle.version_shelf.specs.inner.Origins.{AllFollow, versions};

    ghost Value = { Seq (Option VersionState) };

    ghost view = { λ shelf. versions shelf.slots.items };

    ghost invariant = { λ shelf. AllFollow shelf.slots.items };
}

/// An equal version of the one at a place. A fresh one follows that one; another follows what that one follows.
fn shared_at(
    alloc: Global,
    slots: &[Option<Kept>],
    place: usize,
    fresh: bool,
) -> Result<Kept, Memory>
    requires there { IsSome (slice_index_or slots.now place None) }
    requires follow { AllFollow slots.now }
    ensures { (old : VersionState) → version_in (slice_index_or slots.now place None) ≡ Some old → IfOk result (λ kept. IsShared (versions slots.now) old kept.version kept.origin) }
{
    let Some(version) = version_at(slots, place) else {
        unreachable!();
    };
    if fresh {
        Ok(Kept {
            version: version.share(alloc)?,
            origin: Some(place),
        })
    } else {
        Ok(Kept {
            version: version.share_touched(alloc)?,
            origin: origin_at(slots, place),
        })
    }
}

impl Shelf {
    /// A shelf without versions.
    pub fn new(alloc: Global) -> Shelf
        ensures { result ≡ [] }
    {
        Shelf {
            slots: Vec::new(alloc),
        }
    }

    /// A number above every place in use.
    pub fn places(&self) -> usize
        ensures { result ≡ length self.now }
    {
        self.slots.len()
    }

    /// The version under a number of the catalog.
    pub fn version(&self, held: &Held, number: u32) -> Option<&TableVersion>
        requires low { 1 ≤ number }
        requires high { number ≤ MOST_TABLES }
        ensures { option_copied result ≡ at_place self.now (slice_index_or held.now.places (number - 1) None) }
    {
        version_at(self.slots.as_slice(), held.places[number as usize - 1]?)
    }

    /// The number of the catalog's table of the name.
    pub fn number(&self, held: &Held, name: &Txt) -> Option<u32>
        ensures low { IfSome result (λ number. 1 ≤ number) }
        ensures high { IfSome result (λ number. number ≤ MOST_TABLES) }
        ensures none { IfNone result (table_named name.now (catalog_of (shown self.now held.now.places)).tables ≡ None) }
        ensures some { IfSome result (λ number. IsNumber name.now (shown self.now held.now.places) number) }
    {
        match number_in(self.slots.as_slice(), &held.places, name) {
            Some(at) => Some(at as u32 + 1),
            None => None,
        }
    }

    /// The least number that no table of the catalog has.
    pub fn free_number(&self, held: &Held) -> Option<u32>
        ensures low { IfSome result (λ number. 1 ≤ number) }
        ensures high { IfSome result (λ number. number ≤ MOST_TABLES) }
        ensures free { IfSome result (λ number. IsFree (shown self.now held.now.places) number) }
    {
        match free_in(self.slots.as_slice(), &held.places) {
            Some(at) => Some(at as u32 + 1),
            None => None,
        }
    }

    /// How many tables the catalog has.
    pub fn tables(&self, held: &Held) -> usize
        ensures { result ≡ length (catalog_of (shown self.now held.now.places)).tables }
    {
        count_in(self.slots.as_slice(), &held.places)
    }

    /// The place of the version that the one at a place follows.
    pub fn origin(&self, place: usize) -> Option<usize>
        ensures { ComesFrom self.now result (slice_index_or self.now place None) }
    {
        origin_at(self.slots.as_slice(), place)
    }

    /// An equal version of the one under a number, to be changed, with the place of the one that it follows: the committed one where the catalog
    /// has it, and else the one that the catalog's version follows.
    pub fn share(
        &self,
        alloc: Global,
        held: &Held,
        committed: &Held,
        number: u32,
    ) -> Result<Kept, Memory>
        requires low { 1 ≤ number }
        requires high { number ≤ MOST_TABLES }
        requires there { IsSome (at_place self.now (slice_index_or held.now.places (number - 1) None)) }
        ensures { (old : VersionState) → at_place self.now (slice_index_or held.now.places (number - 1) None) ≡ Some old → IfOk result (λ kept. IsShared self.now old kept.version kept.origin) }
    {
        let at = number as usize - 1;
        let Some(place) = held.places[at] else {
            unreachable!();
        };
        let fresh = committed.places[at] == Some(place);
        shared_at(alloc, self.slots.as_slice(), place, fresh)
    }

    /// Puts a version, which follows the one at the origin, at a place without one, and answers the catalog with it under the number. Each other place
    /// keeps its version.
    pub fn put_from(
        &mut self,
        held: &Held,
        number: u32,
        version: TableVersion,
        origin: Option<usize>,
    ) -> Result<Held, Memory>
        requires low { 1 ≤ number }
        requires high { number ≤ MOST_TABLES }
        requires held { OnShelf self.old held.now.places }
        requires origin { ComesFrom self.old origin (Some version) }
        ensures kept { Keeps self.old self.new }
        ensures on { IfOk result (λ held. OnShelf self.new held.places) }
        ensures shown { IfOk result (λ new. shown self.new new.places ≡ slice_set (shown self.old held.now.places) (number - 1) (Some version)) }
    {
        let place = room(&mut self.slots)?;
        set(&mut self.slots, place, Some(Kept { version, origin }));
        let mut places = held.places;
        places[number as usize - 1] = Some(place);
        Ok(Held { places })
    }

    /// Empties a place.
    pub fn free(&mut self, place: usize)
        ensures { self.new ≡ slice_set self.old place None }
    {
        empty(&mut self.slots, place);
    }
}
