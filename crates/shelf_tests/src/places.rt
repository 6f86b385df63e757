//! Places on a shelf.
use crate::catalogs::two_catalogs;
use crate::versions::rows;
use std::alloc::Global;
use std::test::Fail;
use vec_base::Memory;

/// Whether the older catalog names the first place, and whether the newer one names the first and the second one.
fn named(alloc: Global) -> Result<[bool; 3], Memory> {
    let two = two_catalogs(alloc)?;
    Ok([two.older.names(0), two.newer.names(0), two.newer.names(1)])
}

/// The place that the version at the second place follows, before the first place is freed and after.
fn origins(alloc: Global) -> Result<[Option<usize>; 2], Memory> {
    let mut two = two_catalogs(alloc)?;
    let before = two.shelf.origin(1);
    two.shelf.free(0);
    Ok([before, two.shelf.origin(1)])
}

/// How many rows the two catalogs show when the first place is freed, and how many places there are.
fn freed(alloc: Global) -> Result<([Option<u64>; 2], usize), Memory> {
    let mut two = two_catalogs(alloc)?;
    two.shelf.free(0);
    let older = rows(&two.shelf, &two.older, two.number);
    let newer = rows(&two.shelf, &two.newer, two.number);
    Ok(([older, newer], two.shelf.places()))
}

#[test]
fn each_catalog_names_its_place(rt: HostRuntime) -> Result<(), Fail> {
    assert_eq!(rt; named(rt.alloc()), Ok([true, false, true]));
    Ok(())
}

#[test]
fn a_freed_place_is_followed_no_more(rt: HostRuntime) -> Result<(), Fail> {
    assert_eq!(rt; origins(rt.alloc()), Ok([Some(0), None]));
    Ok(())
}

#[test]
fn a_freed_place_shows_nothing(rt: HostRuntime) -> Result<(), Fail> {
    assert_eq!(rt; freed(rt.alloc()), Ok(([None, Some(1)], 2)));
    Ok(())
}
