//! SELECT and EXPLAIN.
ghost use Rattle.std.specs.Prelude.{◌≡◌, ◌⊎◌, IfOk, IfErr, None, Ok as ok, Err as err};
ghost use Rattle.vec_base.specs.declared.refusal.Refusal.TheVariants.{WantOfMemory};
ghost use Rattle.row_model.specs.declared.request.Reply.TheVariants.{Refused};
ghost use Rattle.row_model.specs.declared.state.State.{State as StateOf};
ghost use Rattle.row_model.specs.Change.{table_named};
ghost use Rattle.row_model.specs.RefusalOrder.{first};
ghost use Rattle.row_model.specs.Step.{explained, selected, too_many};
ghost use Rattle.row_model.specs.Valid.{IsValidCatalog};

use crate::answer::answer;
use crate::catalog::find_table;
use row_model::{Catalog, Reply, Select, check_select, is_nearest, shape_of};
use std::alloc::Global;
use vec_base::{MOST_REPLY_ROWS, Refusal};

/// The refusal of an answer that has too many rows.
fn too_many(select: &Select, count: usize) -> Option<Refusal>
    ensures { result ≡ first (too_many select.now count) }
{
    if !is_nearest(select.where_terms.as_slice()) && count > MOST_REPLY_ROWS {
        Some(Refusal::TooManyRows(count as u64))
    } else {
        None
    }
}

/// Answers the rows that a SELECT asks for; at most 4,096 where they are not the nearest to a vector.
pub(crate) fn select(alloc: Global, catalog: &Catalog, select: &Select) -> Reply
    requires valid { IsValidCatalog catalog.now }
    ensures { (state : StateOf) → (selected select.now state (table_named select.now.table catalog.now.tables) ≡ (result, state)) ⊎ (result ≡ Refused WantOfMemory) }
{
    let Some(found) = find_table(catalog.tables.as_slice(), &select.table) else {
        return Reply::Refused(Refusal::NoTable);
    };
    if let Some(refusal) = check_select(found.table.schema.columns.as_slice(), select) {
        return Reply::Refused(refusal);
    }
    let Ok(rows) = answer(alloc, found.table, select) else {
        return Reply::Refused(Refusal::WantOfMemory);
    };
    if let Some(refusal) = too_many(select, rows.len()) {
        return Reply::Refused(refusal);
    }
    Reply::Rows(rows)
}

/// Answers how a SELECT is carried out.
pub(crate) fn explain(catalog: &Catalog, select: &Select) -> Reply
    requires valid { IsValidCatalog catalog.now }
    ensures { (state : StateOf) → explained select.now state (table_named select.now.table catalog.now.tables) ≡ (result, state) }
{
    let Some(found) = find_table(catalog.tables.as_slice(), &select.table) else {
        return Reply::Refused(Refusal::NoTable);
    };
    let columns = found.table.schema.columns.as_slice();
    match check_select(columns, select) {
        Some(refusal) => Reply::Refused(refusal),
        None => Reply::Planned(shape_of(columns, select)),
    }
}
