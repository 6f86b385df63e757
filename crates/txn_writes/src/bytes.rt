//! The bytes of all tables of a catalog but one.
ghost use Rattle.std.specs.Prelude.{◌≡◌, ◌≤◌, ◌<◌, ◌-◌, ℕ, List as Seq, None, length, min, slice_index_or};
ghost use Rattle.row_model.specs.Change.{elsewhere};
ghost use Rattle.row_model.specs.Valid.{IsValidCatalog};
ghost use Rattle.table_writes.specs.Writing.{elsewhere_of};
ghost use Rattle.txn_writes.specs.inner.Makes.{catalog_seen, versions_seen};
ghost use Rattle.txn_writes.specs.inner.VersionBytes.{all_sides, all_vectors, sides_in, vectors_in};
ghost use Rattle.vec_base.specs.declared.limits.TheConstants.{LAST_COUNT, MOST_TABLES};
ghost use Rattle.version_shelf.specs.Numbers.{IsNumber};
ghost use Rattle.version_shelf.specs.OnShelf.{at_place, shown};

use table_writes::Beside;
use txn_sessions::Machine;
use vec_base::MOST_TABLES;
use version_shelf::{Held, Shelf};

/// The bytes of the version under a number.
fn version_bytes(shelf: &Shelf, held: &Held, number: u32) -> Beside
    requires low { 1 ≤ number }
    requires high { number ≤ MOST_TABLES }
    ensures vectors { result.vectors ≡ vectors_in (at_place shelf.now (slice_index_or held.now.places (number - 1) None)) }
    ensures sides { result.sides ≡ sides_in (at_place shelf.now (slice_index_or held.now.places (number - 1) None)) }
{
    match shelf.version(held, number) {
        Some(version) => Beside {
            vectors: version.vector_bytes(),
            sides: version.side_bytes(),
        },
        None => Beside {
            vectors: 0,
            sides: 0,
        },
    }
}

/// The bytes of all versions of a catalog.
fn catalog_bytes(shelf: &Shelf, held: &Held) -> Beside
    ensures vectors { result.vectors ≡ min (all_vectors (shown shelf.now held.now.places)) LAST_COUNT }
    ensures sides { result.sides ≡ min (all_sides (shown shelf.now held.now.places)) LAST_COUNT }
{
    // What reads one place knows how many there are.
    let _first = held.places[0];
    let mut vectors = 0u64;
    let mut sides = 0u64;
    for at in 0..MOST_TABLES {
        let bytes = version_bytes(shelf, held, at + 1);
        vectors = vectors.saturating_add(bytes.vectors);
        sides = sides.saturating_add(bytes.sides);
    }
    Beside { vectors, sides }
}

/// The bytes of all tables that a session sees but the one under a number.
pub(crate) fn beside(machine: &Machine, at: usize, number: u32) -> Beside
    requires within { at < length machine.now.sessions.items }
    requires low { 1 ≤ number }
    requires high { number ≤ MOST_TABLES }
    requires valid { IsValidCatalog (catalog_seen machine.now at) }
    ensures { (name : Seq ℕ) → IsNumber name (versions_seen machine.now at) number → elsewhere_of result ≡ elsewhere name (catalog_seen machine.now at) }
{
    let others = machine.seen(at).without(number);
    catalog_bytes(&machine.shelf, &others)
}
