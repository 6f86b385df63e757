//! What catalogs show.
ghost use Rattle.std.specs.Prelude.{◌≤◌};
ghost use Rattle.vec_base.specs.declared.limits.TheConstants.{MOST_TABLES};

use crate::catalogs::{one_table, two_catalogs};
use std::alloc::Global;
use std::test::Fail;
use vec_base::{Memory, Txt};
use version_shelf::{Held, Shelf};

/// How many rows the table of the number has.
pub fn rows(shelf: &Shelf, held: &Held, number: u32) -> Option<u64>
    requires low { 1 ≤ number }
    requires high { number ≤ MOST_TABLES }
{
    Some(shelf.version(held, number)?.rows())
}

/// The least free number without tables, the number of the table by its name, and the least free one beside it.
fn numbers(alloc: Global) -> Result<[Option<u32>; 3], Memory> {
    let one = one_table(alloc)?;
    let name = Txt::from_text(alloc, "v")?;
    Ok([
        one.shelf.free_number(&Held::none()),
        one.shelf.number(&one.held, &name),
        one.shelf.free_number(&one.held),
    ])
}

/// How many rows the table has in the older catalog, and in the newer one.
fn rows_of_both(alloc: Global) -> Result<[Option<u64>; 2], Memory> {
    let two = two_catalogs(alloc)?;
    Ok([
        rows(&two.shelf, &two.older, two.number),
        rows(&two.shelf, &two.newer, two.number),
    ])
}

/// How many tables the newer catalog has, and how many without the table of the number.
fn tables_left(alloc: Global) -> Result<[usize; 2], Memory> {
    let two = two_catalogs(alloc)?;
    let without = two.newer.without(two.number);
    Ok([two.shelf.tables(&two.newer), two.shelf.tables(&without)])
}

/// How many changes there are from the older catalog to the newer one, and from that to itself.
fn changes_counted(alloc: Global) -> Result<[usize; 2], Memory> {
    let two = two_catalogs(alloc)?;
    let batch = two.shelf.changes(alloc, &two.older, &two.newer)?;
    let none = two.shelf.changes(alloc, &two.newer, &two.newer)?;
    Ok([batch.changes.len(), none.changes.len()])
}

#[test]
fn a_table_is_found_by_its_name(rt: HostRuntime) -> Result<(), Fail> {
    assert_eq!(rt; numbers(rt.alloc()), Ok([Some(1), Some(1), Some(2)]));
    Ok(())
}

#[test]
fn an_older_catalog_shows_the_older_version(rt: HostRuntime) -> Result<(), Fail> {
    assert_eq!(rt; rows_of_both(rt.alloc()), Ok([Some(0), Some(1)]));
    Ok(())
}

#[test]
fn a_table_goes_from_a_catalog(rt: HostRuntime) -> Result<(), Fail> {
    assert_eq!(rt; tables_left(rt.alloc()), Ok([1, 0]));
    Ok(())
}

#[test]
fn changes_are_of_what_differs(rt: HostRuntime) -> Result<(), Fail> {
    assert_eq!(rt; changes_counted(rt.alloc()), Ok([9, 0]));
    Ok(())
}
