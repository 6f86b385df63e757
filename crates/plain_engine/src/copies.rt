//! Equal catalogs and rows that stand apart.
ghost use Rattle.std.specs.Prelude.{◌≡◌, ◌<◌, ◌++◌, ℕ, length, slice_set, IfOk, List as Seq};
ghost use Rattle.plain_engine.specs.inner.TablePlaces.{IsTableAt};
ghost use Rattle.row_model.specs.Change.{with_table};
ghost use Rattle.row_model.specs.Step.{with_tables};

use row_model::{Catalog, Named, Table, copied_values};
use std::alloc::Global;
use vec_base::{List, Memory, Value};

/// Equal rows of values.
pub(crate) fn copied_rows(alloc: Global, rows: &[List<Value>]) -> Result<List<List<Value>>, Memory>
    ensures { IfOk result (λ copies. copies ≡ rows.now) }
{
    let mut copies = Vec::with_capacity(alloc, rows.len())?;
    for values in rows {
        copies.push(copied_values(alloc, values.as_slice())?)?;
    }
    Ok(List::from_vec(copies))
}

/// An equal table under the same number and name.
fn copied_named(alloc: Global, named: &Named) -> Result<Named, Memory>
    ensures { IfOk result (λ copy. copy ≡ named.now) }
{
    Ok(Named {
        number: named.number,
        name: named.name.copy(alloc)?,
        table: named.table.copy(alloc)?,
    })
}

/// Puts equal tables behind those that are there.
fn push_copies(alloc: Global, copies: &mut Vec<Named>, tables: &[Named]) -> Result<(), Memory>
    ensures { IfOk result (λ pushed. copies.new.items ≡ copies.old.items ++ tables.now) }
{
    for named in tables {
        copies.push(copied_named(alloc, named)?)?;
    }
    Ok(())
}

/// An equal catalog.
pub(crate) fn copied_catalog(alloc: Global, catalog: &Catalog) -> Result<Catalog, Memory>
    ensures { IfOk result (λ copy. copy ≡ catalog.now) }
{
    let mut copies = Vec::with_capacity(alloc, catalog.tables.len())?;
    push_copies(alloc, &mut copies, catalog.tables.as_slice())?;
    Ok(Catalog {
        tables: List::from_vec(copies),
    })
}

/// Copies of the tables with another one at the place.
#[tactic(auto, using(crate::proofs::CopyLaws::set_pieces))]
fn with_named(
    alloc: Global,
    tables: &[Named],
    at: usize,
    named: Named,
) -> Result<List<Named>, Memory>
    requires there { at < length tables.now }
    ensures { IfOk result (λ new. new ≡ slice_set tables.now at named) }
{
    let mut copies = Vec::with_capacity(alloc, tables.len())?;
    push_copies(alloc, &mut copies, &tables[..at])?;
    copies.push(named)?;
    push_copies(alloc, &mut copies, &tables[at + 1..])?;
    Ok(List::from_vec(copies))
}

/// A copy of the catalog with another table under the number and name at the place.
pub(crate) fn with_table(
    alloc: Global,
    tables: &[Named],
    at: usize,
    table: Table,
) -> Result<Catalog, Memory>
    requires there { at < length tables.now }
    ensures { (name : Seq ℕ) → IsTableAt name tables.now at → IfOk result (λ catalog. catalog ≡ with_tables (with_table name table tables.now)) }
{
    let named = &tables[at];
    let number = named.number;
    let name = named.name.copy(alloc)?;
    let new = Named {
        number,
        name,
        table,
    };
    Ok(Catalog {
        tables: with_named(alloc, tables, at, new)?,
    })
}
