//! The row that an equality on the rowid or the key is for.
ghost use Rattle.std.specs.Prelude.{◌≡◌, None};
ghost use Rattle.std.specs.Option.{option_map};
ghost use Rattle.knn_plan.specs.Plans.{IsPlanFor};
ghost use Rattle.row_model.specs.declared.request.Shape.TheVariants.{Point};
ghost use Rattle.shadow_records.specs.PlacedTables.{plain_rows};
ghost use Rattle.table_query.specs.Met.{next_met, rowid_of};
ghost use Rattle.table_query.specs.Said.{rowid_said};

use crate::rows::is_met;
use knn_plan::Plan;
use row_model::Test;
use table_version::TableVersion;
use vec_base::{Steps, Value};

/// The rowid that a test for a rowid or key is for: the number itself, or that of the row whose key the text is.
fn rowid_said(table: &TableVersion, test: &Test) -> Option<i64>
    ensures { result ≡ rowid_said table.now.table.schema.columns table.now.table.rows test.now }
{
    match test {
        Test::Compare(_, Value::Int(number)) => Some(*number),
        Test::Compare(_, Value::Text(text)) => table.rowid_of(text.as_text()),
        _ => None,
    }
}

/// The rowid of the first row that meets all terms, where one of them says which rowid or key is wanted. One row is looked up, and no vector
/// is read.
pub fn point(table: &TableVersion, plan: &Plan, steps: &mut Steps) -> Option<i64>
    requires plan { IsPlanFor table.now.table.schema.columns plan.now }
    requires point { plan.now.shape ≡ Point }
    ensures rowid { result ≡ option_map rowid_of (next_met table.now.table.schema.columns plan.now.select.where_terms None (plain_rows table.now.table.rows)) }
    ensures reads { steps.new ≡ steps.old }
{
    table.known();
    let index = plan.point()?;
    let term = plan.select().where_terms.get(index)?;
    let rowid = rowid_said(table, &term.test)?;
    if is_met(table, plan, &rowid) {
        Some(rowid)
    } else {
        None
    }
}
