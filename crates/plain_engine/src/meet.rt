//! Which rows meet terms.
ghost use Rattle.std.specs.Prelude.{◌≡◌, ◌<◌, ◌≤◌, ◌-◌, length, slice_index_or, if◌then◌else◌};
ghost use Rattle.std.specs.List.{list_any};
ghost use Rattle.vec_base.specs.declared.value.Op.TheVariants.{Eq};
ghost use Rattle.vec_base.specs.declared.value.Value.TheVariants.{Null, Int};
ghost use Rattle.vec_base.specs.Comparison.{satisfies};
ghost use Rattle.plain_engine.specs.inner.Bounds.{meets_row_terms, meets_bounds};
ghost use Rattle.row_model.specs.Answer.{is_bounded};
ghost use Rattle.row_model.specs.Values.{passes, value_at, column_value, meets, meets_all};
ghost use Rattle.row_model.specs.declared.schema.TheConstants.{MOST_COLUMNS};

use row_model::{Column, Constraint, Kind, Place, Row, Test};
use vec_base::{Op, Value};

/// Whether the value is one of the constants.
fn is_member(value: &Value, constants: &[Value]) -> bool
    ensures { result ≡ list_any (satisfies Eq value.now) constants.now }
{
    constants
        .iter()
        .any(|constant| value.satisfies(Op::Eq, constant))
}

fn passes(test: &Test, value: &Value) -> bool
    ensures { result ≡ passes test.now value.now }
{
    match test {
        Test::Compare(op, constant) => value.satisfies(*op, constant),
        Test::Member(constants) => is_member(value, constants.as_slice()),
        Test::Match(_) => true,
    }
}

/// Whether the row's value of this number passes the test.
fn stored_passes(test: &Test, number: u8, row: &Row) -> bool
    ensures { result ≡ passes test.now (slice_index_or row.now.values (number - 1) Null) }
{
    let values = row.values.as_slice();
    let at = number.saturating_sub(1) as usize;
    if at < values.len() {
        passes(test, &values[at])
    } else {
        passes(test, &Value::Null)
    }
}

/// Whether the row's value in a declared column passes the test.
fn column_passes(test: &Test, number: u8, kind: Kind, row: &Row) -> bool
    ensures { result ≡ passes test.now (column_value number kind row.now) }
{
    match kind {
        Kind::IntKey => passes(test, &Value::Int(row.rowid)),
        _ => stored_passes(test, number, row),
    }
}

/// Whether the row's value at the place passes the test.
fn passes_at(test: &Test, place: Place, row: &Row) -> bool
    ensures { result ≡ passes test.now (value_at place row.now) }
{
    match place {
        Place::Rowid => passes(test, &Value::Int(row.rowid)),
        Place::Declared(number, kind) => column_passes(test, number, kind, row),
        _ => passes(test, &Value::Null),
    }
}

fn meets(columns: &[Column], row: &Row, term: &Constraint) -> bool
    requires narrow { length columns.now ≤ MOST_COLUMNS }
    ensures { result ≡ meets columns.now row.now term.now }
{
    let place = Place::of(columns, &term.column);
    place.is_count() || passes_at(&term.test, place, row)
}

/// Whether the row meets all terms.
pub(crate) fn meets_all(columns: &[Column], terms: &[Constraint], row: &Row) -> bool
    requires narrow { length columns.now ≤ MOST_COLUMNS }
    ensures { result ≡ meets_all columns.now terms.now row.now }
{
    terms.iter().all(|term| meets(columns, row, term))
}

/// Whether the distance stands to the bound of the test.
fn is_bounded(distance: u32, test: &Test) -> bool
    ensures { result ≡ is_bounded distance test.now }
{
    match test {
        Test::Compare(op, bound) => Value::Int(i64::from(distance)).satisfies(*op, bound),
        _ => true,
    }
}

/// Whether the row meets the terms that look at it. Terms on `distance` leave no row out.
pub(crate) fn meets_row_terms(columns: &[Column], terms: &[Constraint], row: &Row) -> bool
    requires narrow { length columns.now ≤ MOST_COLUMNS }
    ensures { result ≡ meets_row_terms columns.now terms.now row.now }
{
    terms.iter().all(|term| Place::of(columns, &term.column).is_distance()
        || meets(columns, row, term))
}

/// Whether the distance meets the terms on `distance`.
pub(crate) fn meets_bounds(columns: &[Column], terms: &[Constraint], distance: u32) -> bool
    requires narrow { length columns.now ≤ MOST_COLUMNS }
    ensures { result ≡ meets_bounds columns.now terms.now distance }
{
    terms.iter().all(|term| !Place::of(columns, &term.column).is_distance()
        || is_bounded(distance, &term.test))
}
