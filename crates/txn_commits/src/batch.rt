//! One commit to a keeper.
ghost use Rattle.std.specs.Prelude.{◌≡◌, ◌-◌, ◌≤◌, IsTrue, None, slice_index_or};
ghost use Rattle.vec_base.specs.Streams.{Rose};
ghost use Rattle.vec_base.specs.declared.limits.TheConstants.{MOST_TABLES};
ghost use Rattle.row_model.specs.Valid.{IsValidCatalog};
ghost use Rattle.shadow_keeper.specs.declared.keeper.Kept.TheVariants.{Failed};
ghost use Rattle.txn_commits.specs.Keeping.{KeepsNext, meanings};
ghost use Rattle.txn_commits.specs.Standing.{ArePlaced, IsPlacedIn};
ghost use Rattle.version_shelf.specs.Numbers.{catalog_of};
ghost use Rattle.version_shelf.specs.OnShelf.{shown};
ghost use Rattle.version_shelf.specs.Records.{HoldsRecords};

use shadow_keeper::{Keeper, Kept};
use std::alloc::Global;
use vec_base::{MOST_TABLES, Memory};
use version_shelf::{Held, Shelf};

/// The version under a number, if there is one, is a valid table whose rows have sound places.
fn number_known(shelf: &Shelf, held: &Held, number: u32)
    requires low { 1 ≤ number }
    requires high { number ≤ MOST_TABLES }
    ensures { IsPlacedIn (slice_index_or (shown shelf.now held.now.places) (number - 1) None) }
{
    if let Some(version) = shelf.version(held, number) {
        version.known();
    }
}

/// The versions of a catalog are valid tables whose rows have sound places. The call does nothing: its clause is all that it gives.
pub fn versions_known(shelf: &Shelf, held: &Held)
    ensures { ArePlaced (shown shelf.now held.now.places) }
{
    let _first = held.places[0];
    for at in 0..MOST_TABLES {
        number_known(shelf, held, at + 1);
    }
}

/// Commits the versions of the next catalog to a keeper that has the records of the old one.
pub(crate) fn keep<K: Keeper>(
    alloc: Global,
    shelf: &Shelf,
    keeper: &mut K,
    old: &Held,
    next: &Held,
) -> Kept
    requires ended { IsTrue (K.ended keeper.old) }
    requires older { IsValidCatalog (catalog_of (shown shelf.now old.now.places)) }
    requires newer { IsValidCatalog (catalog_of (shown shelf.now next.now.places)) }
    requires holds { IsTrue (K.tells keeper.old) → HoldsRecords (K.tables keeper.old) (shown shelf.now old.now.places) }
    ensures next { KeepsNext (meanings K.ended K.tells K.tables K.faults K.stopped K.moment K.stopped_since) (shown shelf.now old.now.places) (shown shelf.now next.now.places) keeper.old keeper.new result }
    ensures ended { K.ended keeper.new ≡ K.ended keeper.old }
    ensures count { K.faults keeper.old ≤ K.faults keeper.new }
    ensures failed { result ≡ Failed → Rose (K.faults keeper.old) (K.faults keeper.new) }
{
    versions_known(shelf, old);
    versions_known(shelf, next);
    match shelf.changes(alloc, old, next) {
        Ok(batch) => keeper.commit(&batch),
        Err(Memory) => Kept::Memory,
    }
}
