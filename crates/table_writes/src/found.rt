//! The rowids of the rows that a plan finds.
ghost use Rattle.std.specs.Prelude.{◌≡◌, [], ◌∷◌, map, IfOk};
ghost use Rattle.row_model.specs.Values.{met};
ghost use Rattle.row_model.specs.declared.request.Shape.TheVariants.{Point};
ghost use Rattle.knn_plan.specs.Plans.{IsPlanFor};
ghost use Rattle.shadow_records.specs.PlacedTables.{plain_rows};
ghost use Rattle.table_query.specs.Met.{rowid_of};

use knn_plan::Plan;
use row_model::Shape;
use std::alloc::Global;
use table_query::{point, scan_next};
use table_version::TableVersion;
use vec_base::{List, Memory, Steps};

/// A list of one rowid.
fn only(alloc: Global, rowid: &i64) -> Result<List<i64>, Memory>
    ensures { IfOk result (λ rowids. rowids ≡ rowid.now ∷ []) }
{
    let mut rowids = List::new(alloc);
    rowids.push(*rowid)?;
    Ok(rowids)
}

/// The rowid of the row that meets all terms, where one of them says which rowid or key is wanted.
fn pointed(alloc: Global, table: &TableVersion, plan: &Plan) -> Result<List<i64>, Memory>
    requires plan { IsPlanFor table.now.table.schema.columns plan.now }
    requires point { plan.now.shape ≡ Point }
    ensures { IfOk result (λ rowids. rowids ≡ map rowid_of (met table.now.table.schema.columns plan.now.select.where_terms (plain_rows table.now.table.rows))) }
{
    table.known();
    let mut steps = Steps::new();
    match point(table, plan, &mut steps) {
        Some(rowid) => only(alloc, &rowid),
        None => Ok(List::new(alloc)),
    }
}

/// The rowids of all rows that meet all terms, row by row.
fn scanned(alloc: Global, table: &TableVersion, plan: &Plan) -> Result<List<i64>, Memory>
    requires plan { IsPlanFor table.now.table.schema.columns plan.now }
    ensures { IfOk result (λ rowids. rowids ≡ map rowid_of (met table.now.table.schema.columns plan.now.select.where_terms (plain_rows table.now.table.rows))) }
{
    table.known();
    let mut rowids = List::new(alloc);
    let mut after = None;
    while let Some(rowid) = scan_next(table, plan, after) {
        rowids.push(rowid)?;
        after = Some(rowid);
    }
    Ok(rowids)
}

/// The rowids of the rows that meet all terms, in their order.
pub(crate) fn met_rowids(
    alloc: Global,
    table: &TableVersion,
    plan: &Plan,
) -> Result<List<i64>, Memory>
    requires plan { IsPlanFor table.now.table.schema.columns plan.now }
    ensures { IfOk result (λ rowids. rowids ≡ map rowid_of (met table.now.table.schema.columns plan.now.select.where_terms (plain_rows table.now.table.rows))) }
{
    match plan.shape() {
        Shape::Point => pointed(alloc, table, plan),
        _ => scanned(alloc, table, plan),
    }
}
