//! Which rows of a table meet the terms of a plan.
ghost use Rattle.std.specs.Prelude.{◌≡◌, Some, false, map};
ghost use Rattle.knn_plan.specs.PlannedColumns.{term_column};
ghost use Rattle.knn_plan.specs.Plans.{IsPlanFor};
ghost use Rattle.row_chunks.specs.Fields.{value_shown};
ghost use Rattle.row_model.specs.Check.{compares_vector, is_match, some_term};
ghost use Rattle.row_model.specs.ColumnNames.{is_of, place_of};
ghost use Rattle.row_model.specs.Schemas.{is_vector};
ghost use Rattle.row_model.specs.Values.{column_value, meets, meets_all, value_at};
ghost use Rattle.shadow_records.specs.PlacedTables.{row_of};
ghost use Rattle.table_query.specs.Met.{is_met};
ghost use Rattle.table_query.specs.Read.{IsThere};
ghost use Rattle.table_version.specs.Viewed.{kind_numbered};

use crate::field::field_passes;
use knn_plan::{Plan, PlannedColumn};
use row_model::{Constraint, Kind, Place, Test};
use table_version::{Field, RowView, TableVersion};

/// The value in a column that is not one of vectors.
#[tactic(auto, using(crate::proofs::ReadLaws::key_shown, crate::proofs::ReadLaws::column_shown, crate::proofs::ReadLaws::plain_column))]
pub(crate) fn column_value<'a>(view: &'a RowView<'_>, number: u8, kind: Kind) -> Field<'a>
    requires there { kind_numbered view.now.columns number ≡ Some kind }
    requires other { is_vector kind ≡ false }
    ensures { value_shown result ≡ column_value number kind view.entry.now.placed.row }
{
    match kind {
        Kind::IntKey => view.field(0),
        _ => view.field(number),
    }
}

/// The value at a place that is not in a column of vectors.
pub(crate) fn value_at<'a>(view: &'a RowView<'_>, place: Place) -> Field<'a>
    requires there { IsThere view.now.columns place }
    requires other { is_of is_vector place ≡ false }
    ensures { value_shown result ≡ value_at place view.entry.now.placed.row }
{
    match place {
        Place::Rowid => view.field(0),
        Place::Declared(number, kind) => column_value(view, number, kind),
        _ => Field::Null,
    }
}

fn is_match(test: &Test) -> bool
    ensures { result ≡ is_match test.now }
{
    matches!(test, Test::Match(_))
}

/// Whether a row meets a term on a place.
#[tactic(auto, using(crate::proofs::ReadLaws::match_met, crate::proofs::ReadLaws::no_vector, crate::proofs::ReadLaws::place_there))]
fn meets(view: &RowView<'_>, term: &Constraint, place: Place) -> bool
    requires place { place ≡ place_of view.now.columns term.now.column }
    requires vectors { compares_vector place term.now.test ≡ false }
    ensures { result ≡ meets view.now.columns view.now.placed.row term.now }
{
    if is_match(&term.test) {
        return true;
    }
    place.is_count() || field_passes(&term.test, value_at(view, place))
}

/// Whether a row meets all terms, where these are their columns.
fn meets_all(view: &RowView<'_>, terms: &[Constraint], columns: &[PlannedColumn]) -> bool
    requires columns { columns.now ≡ map (term_column view.now.columns) terms.now }
    requires vectors { some_term view.now.columns compares_vector terms.now ≡ false }
    ensures { result ≡ meets_all view.now.columns terms.now view.now.placed.row }
{
    let Some((term, terms)) = terms.split_first() else {
        return true;
    };
    let Some((column, columns)) = columns.split_first() else {
        return true;
    };
    meets(view, term, column.place) && meets_all(view, terms, columns)
}

/// Whether a row is there and meets the terms of a plan.
pub(crate) fn is_met(table: &TableVersion, plan: &Plan, rowid: &i64) -> bool
    requires plan { IsPlanFor table.now.table.schema.columns plan.now }
    ensures { result ≡ is_met table.now.table.schema.columns plan.now.select.where_terms (row_of table.now.table.rows rowid.now) }
{
    match table.row(rowid) {
        Some(view) => meets_all(&view, plan.select().where_terms.as_slice(), plan.terms()),
        None => false,
    }
}
