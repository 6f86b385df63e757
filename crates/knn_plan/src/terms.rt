//! For what the terms of a WHERE are good.
ghost use Rattle.std.specs.Prelude.{◌≡◌, ◌&&◌, ◌||◌, ◌<◌, ◌≤◌, length, position};
ghost use Rattle.row_model.specs.Answer.{count_in, count_wanted, is_equality, is_point_term, limit_in, number_in};
ghost use Rattle.row_model.specs.Check.{is_match, is_member, is_on_distance, some_term};
ghost use Rattle.row_model.specs.ColumnNames.{is_count, is_distance, is_of, is_rowid_or_key, place_of};
ghost use Rattle.row_model.specs.Schemas.{has_role};
ghost use Rattle.row_model.specs.declared.schema.TheConstants.{MOST_COLUMNS};
ghost use Rattle.knn_plan.specs.TermUses.{begins_rows, is_lower, is_on_chunks, is_on_rows, is_rowid, lists_rows};

use crate::column::has_role;
use row_model::{Column, Constraint, Kind, Place, Role, Test};
use vec_base::{Op, Value};

/// Whether it is a partition column or a metadata column.
fn is_on_chunks(place: Place) -> bool
    ensures { result ≡ is_on_chunks place }
{
    has_role(place, Role::Partition) || has_role(place, Role::Metadata)
}

/// Whether the term says something of a row, and neither of a chunk nor of a distance.
fn is_on_rows(place: Place, test: &Test) -> bool
    ensures { result ≡ is_on_rows place test.now }
{
    let elsewhere = is_on_chunks(place);
    !(matches!(test, Test::Match(_)) || place.is_count() || place.is_distance() || elsewhere)
}

/// Whether some term has to be tested row by row.
pub(crate) fn some_on_rows(columns: &[Column], terms: &[Constraint]) -> bool
    requires narrow { length columns.now ≤ MOST_COLUMNS }
    ensures { result ≡ some_term columns.now is_on_rows terms.now }
{
    terms.iter().any(|term| is_on_rows(Place::of(columns, &term.column), &term.test))
}

/// Whether some term is on `distance`.
pub(crate) fn some_on_distance(columns: &[Column], terms: &[Constraint]) -> bool
    requires narrow { length columns.now ≤ MOST_COLUMNS }
    ensures { result ≡ some_term columns.now is_on_distance terms.now }
{
    terms
        .iter()
        .any(|term| Place::of(columns, &term.column).is_distance())
}

/// Whether the term says which rowid or key is wanted.
fn is_point_term(columns: &[Column], term: &Constraint) -> bool
    requires narrow { length columns.now ≤ MOST_COLUMNS }
    ensures { result ≡ is_point_term columns.now term.now }
{
    Place::of(columns, &term.column).is_rowid_or_key() && term.test.is_equal()
}

/// The first term that says which rowid or key is wanted.
pub(crate) fn point_term(columns: &[Column], terms: &[Constraint]) -> Option<usize>
    requires narrow { length columns.now ≤ MOST_COLUMNS }
    ensures { result ≡ position (is_point_term columns.now) terms.now }
{
    terms.iter().position(|term| is_point_term(columns, term))
}

/// Whether the term lists the rowids or keys that are wanted.
fn lists_rows(columns: &[Column], term: &Constraint) -> bool
    requires narrow { length columns.now ≤ MOST_COLUMNS }
    ensures { result ≡ lists_rows (place_of columns.now term.now.column) term.now.test }
{
    Place::of(columns, &term.column).is_rowid_or_key() && matches!(term.test, Test::Member(_))
}

/// The first term that lists the rowids or keys that are wanted.
pub(crate) fn list_term(columns: &[Column], terms: &[Constraint]) -> Option<usize>
    requires narrow { length columns.now ≤ MOST_COLUMNS }
    ensures { result ≡ position (λ term. lists_rows (place_of columns.now term.column) term.test) terms.now }
{
    terms.iter().position(|term| lists_rows(columns, term))
}

fn is_rowid(place: Place) -> bool
    ensures { result ≡ is_rowid place }
{
    matches!(place, Place::Rowid | Place::Declared(_, Kind::IntKey))
}

fn is_lower(test: &Test) -> bool
    ensures { result ≡ is_lower test.now }
{
    matches!(test, Test::Compare(Op::Gt | Op::Ge, _))
}

/// Whether no row below the term's value is wanted.
fn begins_rows(columns: &[Column], term: &Constraint) -> bool
    requires narrow { length columns.now ≤ MOST_COLUMNS }
    ensures { result ≡ begins_rows (place_of columns.now term.now.column) term.now.test }
{
    is_rowid(Place::of(columns, &term.column)) && is_lower(&term.test)
}

/// The first term that says from which rowid on rows are wanted.
pub(crate) fn start_term(columns: &[Column], terms: &[Constraint]) -> Option<usize>
    requires narrow { length columns.now ≤ MOST_COLUMNS }
    ensures { result ≡ position (λ term. begins_rows (place_of columns.now term.column) term.test) terms.now }
{
    terms.iter().position(|term| begins_rows(columns, term))
}

/// The number of rows that a value gives.
pub(crate) fn number_in(value: &Value) -> usize
    ensures { result ≡ number_in value.now }
{
    match value {
        Value::Int(number) => number.unsigned_abs() as usize,
        _ => 0,
    }
}

/// The number of rows that LIMIT gives.
fn limit_in(limit: &Option<Value>) -> usize
    ensures { result ≡ limit_in limit.now }
{
    match limit {
        None => 0,
        Some(value) => number_in(value),
    }
}

/// The number of rows that a term on `k` gives.
fn count_in(test: &Test) -> usize
    ensures { result ≡ count_in test.now }
{
    match test {
        Test::Compare(_, value) => number_in(value),
        _ => 0,
    }
}

/// The number of nearest rows: that of the first term on `k`, or else that of LIMIT.
pub(crate) fn count_wanted(columns: &[Column], terms: &[Constraint], limit: &Option<Value>) -> usize
    requires narrow { length columns.now ≤ MOST_COLUMNS }
    ensures { result ≡ count_wanted columns.now terms.now limit.now }
{
    let Some((term, more)) = terms.split_first() else {
        return limit_in(limit);
    };
    if Place::of(columns, &term.column).is_count() {
        count_in(&term.test)
    } else {
        count_wanted(columns, more, limit)
    }
}
