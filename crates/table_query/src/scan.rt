//! The rows of a scan, one after another.
ghost use Rattle.std.specs.Prelude.{◌≡◌, None};
ghost use Rattle.std.specs.Option.{option_map};
ghost use Rattle.knn_plan.specs.Plans.{IsPlanFor};
ghost use Rattle.shadow_records.specs.PlacedTables.{plain_rows};
ghost use Rattle.table_query.specs.Met.{next_met, rowid_of};

use crate::rows::is_met;
use knn_plan::Plan;
use table_version::TableVersion;

/// The rowid of the first row above a rowid that meets all terms, or of the first of all.
pub fn scan_next(table: &TableVersion, plan: &Plan, after: Option<i64>) -> Option<i64>
    requires plan { IsPlanFor table.now.table.schema.columns plan.now }
    ensures { result ≡ option_map rowid_of (next_met table.now.table.schema.columns plan.now.select.where_terms after (plain_rows table.now.table.rows)) }
{
    table.known();
    let mut at = after;
    while let Some(rowid) = table.next_rowid(at) {
        if is_met(table, plan, &rowid) {
            return Some(rowid);
        }
        at = Some(rowid);
    }
    None
}
