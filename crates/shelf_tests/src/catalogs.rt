//! Catalogs on a shelf.
ghost use Rattle.std.specs.Prelude.{◌≤◌, IfOk};
ghost use Rattle.vec_base.specs.declared.limits.TheConstants.{MOST_TABLES};
ghost use Rattle.shelf_tests.specs.OneTable.{HasTable};

use crate::tables::{insert, table};
use std::alloc::Global;
use vec_base::Memory;
use version_shelf::{Held, Shelf};

/// A shelf, a catalog on it, and the number of the catalog's one table, which has no rows.
#[derive(Drop)]
pub struct OneTable {
    pub shelf: Shelf,
    pub held: Held,
    pub number: u32,
}

/// A shelf, an older catalog whose one table has no rows, a newer one in which it has a row, and the table's number.
#[derive(Drop)]
pub struct TwoCatalogs {
    pub shelf: Shelf,
    pub older: Held,
    pub newer: Held,
    pub number: u32,
}

/// A catalog with one table.
pub fn one_table(alloc: Global) -> Result<OneTable, Memory>
    ensures { IfOk result (λ one. HasTable one.shelf one.held.places one.number) }
{
    let mut shelf = Shelf::new(alloc);
    let none = Held::none();
    let Some(number) = shelf.free_number(&none) else {
        return Err(Memory);
    };
    let version = table(alloc)?;
    let held = shelf.put_from(&none, number, version, None)?;
    Ok(OneTable {
        shelf,
        held,
        number,
    })
}

/// The catalog in which the table of the number has a row more.
fn with_row(alloc: Global, shelf: &mut Shelf, held: &Held, number: u32) -> Result<Held, Memory>
    requires { HasTable shelf.old held.now.places number }
{
    let mut kept = shelf.share(alloc, held, held, number)?;
    insert(alloc, &mut kept.version)?;
    shelf.put_from(held, number, kept.version, kept.origin)
}

/// Two catalogs.
pub fn two_catalogs(alloc: Global) -> Result<TwoCatalogs, Memory>
    ensures low { IfOk result (λ two. 1 ≤ two.number) }
    ensures high { IfOk result (λ two. two.number ≤ MOST_TABLES) }
{
    let mut one = one_table(alloc)?;
    let newer = with_row(alloc, &mut one.shelf, &one.held, one.number)?;
    Ok(TwoCatalogs {
        shelf: one.shelf,
        older: one.held,
        newer,
        number: one.number,
    })
}
