//! What writes make of a catalog: the reply and the changed catalog, or what refuses the write.
ghost use Rattle.std.specs.Prelude.{◌≡◌, ◌≤◌, ◌+◌, length, map, Ok as ok, Err as err, IfOk, IfErr};
ghost use Rattle.row_model.specs.declared.row.Catalog.{Catalog as CatalogOf};
ghost use Rattle.row_model.specs.declared.request.Reply.TheVariants.{Changed, Inserted};
ghost use Rattle.plain_engine.specs.inner.CatalogChanges.{create_in, delete_in, drop_in, insert_in, update_in};
ghost use Rattle.row_model.specs.Change.{with_rows, with_table};
ghost use Rattle.row_model.specs.ColumnNames.{place_of};
ghost use Rattle.row_model.specs.Limits.{over_tables};
ghost use Rattle.row_model.specs.RefusalOrder.{first};
ghost use Rattle.row_model.specs.Step.{inserted_catalog, kept_catalog, updated_catalog, with_tables};
ghost use Rattle.row_model.specs.Valid.{IsValidCatalog, IsValidTable};
ghost use Rattle.row_model.specs.declared.schema.TheConstants.{MOST_COLUMNS};

use crate::catalog::{find_table, free_number, number_place, table_at};
use crate::copies::{copied_catalog, with_table};
use crate::grow::{Grown, grow};
use crate::totals::Totals;
use crate::update::{kept, met_count, update_refusal, updated};
use row_model::{
    Catalog, Column, Delete, Insert, Named, Place, Reply, Row, Schema, Table, Update, check_delete,
    check_insert, check_update, over_tables,
};
use std::alloc::Global;
use vec_base::{List, Memory, Refusal, Txt};

/// The refusal of one table more.
fn one_table_more(tables: &[Named]) -> Option<Refusal>
    ensures { result ≡ first (over_tables (length tables.now + 1)) }
{
    over_tables((tables.len() as u64).saturating_add(1))
}

/// What the names mean.
fn places_of(alloc: Global, columns: &[Column], names: &[Txt]) -> Result<Vec<Place>, Memory>
    requires narrow { length columns.now ≤ MOST_COLUMNS }
    ensures { IfOk result (λ places. places.items ≡ map (place_of columns.now) names.now) }
{
    let mut places = Vec::with_capacity(alloc, names.len())?;
    for name in names {
        places.push(Place::of(columns, name))?;
    }
    Ok(places)
}

/// A copy of the table with the rows of an INSERT, or what refuses one of them.
fn insert_all(
    alloc: Global,
    tables: &[Named],
    table: &Table,
    insert: &Insert,
) -> Result<Result<Grown, Refusal>, Memory>
    requires valid { IsValidTable table.now }
    ensures refused { IfOk result (λ grew. IfErr grew (λ refusal. inserted_catalog insert.now (with_tables tables.now) table.now ≡ err refusal)) }
    ensures grown { IfOk result (λ grew. IfOk grew (λ g. inserted_catalog insert.now (with_tables tables.now) table.now
        ≡ ok (Inserted (length insert.now.rows) g.last, with_tables (with_table insert.now.table g.table tables.now)))) }
{
    let places = places_of(
        alloc,
        table.schema.columns.as_slice(),
        insert.columns.as_slice(),
    )?;
    let totals = Totals::beside(tables, &insert.table, table.rows.as_slice());
    let copy = table.copy(alloc)?;
    grow(
        alloc,
        places.as_slice(),
        copy,
        totals,
        insert.rows.as_slice(),
    )
}

/// The table with other rows.
fn with_rows(alloc: Global, table: &Table, rows: List<Row>) -> Result<Table, Memory>
    ensures { IfOk result (λ new. new ≡ with_rows table.now rows) }
{
    Ok(Table {
        schema: table.schema.copy(alloc)?,
        rows,
        top: table.top,
    })
}

/// A table after an UPDATE or a DELETE, and the number of rows that were changed.
#[derive(Drop)]
struct Edited {
    table: Table,
    count: u64,
}

/// A copy of the table with the new values of an UPDATE, or what refuses it.
fn update_all(
    alloc: Global,
    tables: &[Named],
    table: &Table,
    update: &Update,
) -> Result<Result<Edited, Refusal>, Memory>
    requires valid { IsValidTable table.now }
    ensures refused { IfOk result (λ edited. IfErr edited (λ refusal. updated_catalog update.now (with_tables tables.now) table.now ≡ err refusal)) }
    ensures edited { IfOk result (λ edited. IfOk edited (λ e. updated_catalog update.now (with_tables tables.now) table.now
        ≡ ok (Changed e.count, with_tables (with_table update.now.table e.table tables.now)))) }
{
    let columns = table.schema.columns.as_slice();
    let rows = updated(alloc, columns, update, table.rows.as_slice())?;
    let count = met_count(
        columns,
        update.where_terms.as_slice(),
        table.rows.as_slice(),
    );
    let totals = Totals::beside(tables, &update.table, rows.as_slice());
    if let Some(refusal) = update_refusal(totals, count, update) {
        return Ok(Err(refusal));
    }
    let table = with_rows(alloc, table, rows)?;
    Ok(Ok(Edited {
        table,
        count: count as u64,
    }))
}

/// A copy of the table without the rows of a DELETE.
fn delete_all(alloc: Global, table: &Table, delete: &Delete) -> Result<Edited, Memory>
    requires valid { IsValidTable table.now }
    ensures { (catalog : CatalogOf) → IfOk result (λ e. kept_catalog delete.now catalog table.now ≡ (Changed e.count, with_tables (with_table delete.now.table e.table catalog.tables))) }
{
    let columns = table.schema.columns.as_slice();
    let rows = kept(alloc, columns, delete, table.rows.as_slice())?;
    let count = met_count(
        columns,
        delete.where_terms.as_slice(),
        table.rows.as_slice(),
    );
    let table = with_rows(alloc, table, rows)?;
    Ok(Edited {
        table,
        count: count as u64,
    })
}

/// Makes an empty table.
pub(crate) fn create(
    alloc: Global,
    catalog: &Catalog,
    bar: Option<Refusal>,
    name: Txt,
    schema: Schema,
) -> Result<Result<(Reply, Catalog), Refusal>, Memory>
    ensures { IfOk result (λ made. made ≡ create_in name schema catalog.now bar) }
{
    let tables = catalog.tables.as_slice();
    if table_at(tables, &name).is_some() {
        return Ok(Err(Refusal::TableExists));
    }
    if let Some(refusal) = bar {
        return Ok(Err(refusal));
    }
    if let Some(refusal) = one_table_more(tables) {
        return Ok(Err(refusal));
    }
    let number = free_number(1, tables);
    let at = number_place(tables, number);
    let table = Table {
        schema,
        rows: List::new(alloc),
        top: 0,
    };
    let mut new = copied_catalog(alloc, catalog)?;
    new.tables.insert(
        at,
        Named {
            number,
            name,
            table,
        },
    )?;
    Ok(Ok((Reply::Done, new)))
}

/// Removes a table.
pub(crate) fn drop_table(
    alloc: Global,
    catalog: &Catalog,
    bar: Option<Refusal>,
    name: &Txt,
) -> Result<Result<(Reply, Catalog), Refusal>, Memory>
    requires valid { IsValidCatalog catalog.now }
    ensures { IfOk result (λ made. made ≡ drop_in name.now catalog.now bar) }
{
    let Some(at) = table_at(catalog.tables.as_slice(), name) else {
        return Ok(Err(Refusal::NoTable));
    };
    if let Some(refusal) = bar {
        return Ok(Err(refusal));
    }
    let mut new = copied_catalog(alloc, catalog)?;
    new.tables.remove(at);
    Ok(Ok((Reply::Done, new)))
}

/// Adds rows to a table.
pub(crate) fn insert(
    alloc: Global,
    catalog: &Catalog,
    bar: Option<Refusal>,
    insert: &Insert,
) -> Result<Result<(Reply, Catalog), Refusal>, Memory>
    requires valid { IsValidCatalog catalog.now }
    ensures { IfOk result (λ made. made ≡ insert_in insert.now catalog.now bar) }
{
    let tables = catalog.tables.as_slice();
    let Some(found) = find_table(tables, &insert.table) else {
        return Ok(Err(Refusal::NoTable));
    };
    if let Some(refusal) = check_insert(found.table.schema.columns.as_slice(), insert) {
        return Ok(Err(refusal));
    }
    if let Some(refusal) = bar {
        return Ok(Err(refusal));
    }
    match insert_all(alloc, tables, found.table, insert)? {
        Ok(grown) => {
            let new = with_table(alloc, tables, found.at, grown.table)?;
            Ok(Ok((Reply::Inserted(insert.rows.len() as u64, grown.last), new)))
        }
        Err(refusal) => Ok(Err(refusal)),
    }
}

/// Gives columns new values in the rows that meet the terms.
pub(crate) fn update(
    alloc: Global,
    catalog: &Catalog,
    bar: Option<Refusal>,
    update: &Update,
) -> Result<Result<(Reply, Catalog), Refusal>, Memory>
    requires valid { IsValidCatalog catalog.now }
    ensures { IfOk result (λ made. made ≡ update_in update.now catalog.now bar) }
{
    let tables = catalog.tables.as_slice();
    let Some(found) = find_table(tables, &update.table) else {
        return Ok(Err(Refusal::NoTable));
    };
    if let Some(refusal) = check_update(found.table.schema.columns.as_slice(), update) {
        return Ok(Err(refusal));
    }
    if let Some(refusal) = bar {
        return Ok(Err(refusal));
    }
    match update_all(alloc, tables, found.table, update)? {
        Ok(edited) => {
            let new = with_table(alloc, tables, found.at, edited.table)?;
            Ok(Ok((Reply::Changed(edited.count), new)))
        }
        Err(refusal) => Ok(Err(refusal)),
    }
}

/// Removes the rows that meet the terms.
pub(crate) fn delete(
    alloc: Global,
    catalog: &Catalog,
    bar: Option<Refusal>,
    delete: &Delete,
) -> Result<Result<(Reply, Catalog), Refusal>, Memory>
    requires valid { IsValidCatalog catalog.now }
    ensures { IfOk result (λ made. made ≡ delete_in delete.now catalog.now bar) }
{
    let tables = catalog.tables.as_slice();
    let Some(found) = find_table(tables, &delete.table) else {
        return Ok(Err(Refusal::NoTable));
    };
    if let Some(refusal) = check_delete(found.table.schema.columns.as_slice(), delete) {
        return Ok(Err(refusal));
    }
    if let Some(refusal) = bar {
        return Ok(Err(refusal));
    }
    let edited = delete_all(alloc, found.table, delete)?;
    let new = with_table(alloc, tables, found.at, edited.table)?;
    Ok(Ok((Reply::Changed(edited.count), new)))
}
