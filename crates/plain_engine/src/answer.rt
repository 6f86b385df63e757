//! The answer of a SELECT.
ghost use Rattle.std.specs.Prelude.{◌≡◌, ◌<◌, ◌≤◌, ℕ, length, IfOk, map, take, true, nat_lt, None, Some};
ghost use Rattle.std.specs.List.{AllByRecursion};
ghost use Rattle.row_model.specs.Answer.{Target as TargetValue, at_zero, counted, counts, limited, number_in, limit_in, count_in, count_wanted, chosen, answer, target_of};
ghost use Rattle.row_model.specs.Check.{check_select};
ghost use Rattle.row_model.specs.ColumnNames.{place_of, is_count};
ghost use Rattle.row_model.specs.inner.ComparableVectors.{IsComparable};
ghost use Rattle.row_model.specs.Rows.{is_rising};
ghost use Rattle.row_model.specs.Valid.{IsValidTable};
ghost use Rattle.vec_base.specs.declared.limits.TheConstants.{MOST_REPLY_ROWS};
ghost use Rattle.row_model.specs.declared.schema.TheConstants.{MOST_COLUMNS};

use crate::items::{item_places, project};
use crate::meet::{meets_bounds, meets_row_terms};
use crate::nearest::{Near, nearest, target_of};
use row_model::{Column, Constraint, Place, Row, Select, Table, Test};
use std::alloc::Global;
use vec_base::{List, Memory, Value};

/// The number of rows that a value gives.
fn number_in(value: &Value) -> usize
    ensures { result ≡ number_in value.now }
{
    match value {
        Value::Int(number) => number.unsigned_abs() as usize,
        _ => 0,
    }
}

/// The number of rows that LIMIT gives.
fn limit_in(limit: &Option<Value>) -> usize
    ensures { result ≡ limit_in limit.now }
{
    match limit {
        None => 0,
        Some(value) => number_in(value),
    }
}

/// The number of rows that a term on `k` gives.
fn count_in(test: &Test) -> usize
    ensures { result ≡ count_in test.now }
{
    match test {
        Test::Compare(_, value) => number_in(value),
        _ => 0,
    }
}

/// The number of nearest rows: that of the first term on `k`, or else that of LIMIT.
fn count_wanted(columns: &[Column], terms: &[Constraint], limit: &Option<Value>) -> usize
    requires narrow { length columns.now ≤ MOST_COLUMNS }
    ensures { result ≡ count_wanted columns.now terms.now limit.now }
{
    let Some((term, more)) = terms.split_first() else {
        return limit_in(limit);
    };
    if Place::of(columns, &term.column).is_count() {
        count_in(&term.test)
    } else {
        count_wanted(columns, more, limit)
    }
}

/// Whether the row counts where no distance is asked for.
#[tactic(auto, using(crate::proofs::BoundLaws::counts_split))]
fn counts_at_zero(columns: &[Column], terms: &[Constraint], row: &Row) -> bool
    requires narrow { length columns.now ≤ MOST_COLUMNS }
    ensures { result ≡ counts columns.now terms.now (at_zero row.now) }
{
    meets_row_terms(columns, terms, row) && meets_bounds(columns, terms, 0)
}

/// The first of the rows that count, at most so many. Behind the last of them no row is looked at.
fn scanned<'a>(
    alloc: Global,
    columns: &[Column],
    terms: &[Constraint],
    most: usize,
    rows: &'a [Row],
) -> Result<Vec<Near<'a>>, Memory>
    requires narrow { length columns.now ≤ MOST_COLUMNS }
    ensures { IfOk result (λ nears. nears.items ≡ map at_zero (take most (counted columns.now terms.now None rows.now))) }
{
    let mut nears = Vec::new(alloc);
    for row in rows {
        if most <= nears.len() {
            return Ok(nears);
        }
        if counts_at_zero(columns, terms, row) {
            nears.push(Near { distance: 0, row })?;
        }
    }
    Ok(nears)
}

/// The first LIMIT of the rows that count, or all of them where there is no LIMIT.
fn limited<'a>(
    alloc: Global,
    columns: &[Column],
    select: &Select,
    rows: &'a [Row],
) -> Result<Vec<Near<'a>>, Memory>
    requires narrow { length columns.now ≤ MOST_COLUMNS }
    ensures { IfOk result (λ nears. nears.items ≡ map at_zero (limited select.now.limit (counted columns.now select.now.where_terms None rows.now))) }
{
    let terms = select.where_terms.as_slice();
    match &select.limit {
        None => scanned(alloc, columns, terms, rows.len(), rows),
        Some(value) => scanned(alloc, columns, terms, number_in(value), rows),
    }
}

/// The rows of the answer.
fn chosen<'a>(
    alloc: Global,
    columns: &[Column],
    select: &Select,
    rows: &'a [Row],
) -> Result<Vec<Near<'a>>, Memory>
    requires narrow { length columns.now ≤ MOST_COLUMNS }
    requires rising { is_rising rows.now ≡ true }
    requires comparable { (target : TargetValue) → target_of columns.now select.now.where_terms ≡ Some target → AllByRecursion (IsComparable target) rows.now }
    requires few { (target : TargetValue) → target_of columns.now select.now.where_terms ≡ Some target → count_wanted columns.now select.now.where_terms select.now.limit ≤ MOST_REPLY_ROWS }
    ensures { IfOk result (λ nears. nears.items ≡ chosen (target_of columns.now select.now.where_terms) columns.now select.now (counted columns.now select.now.where_terms (target_of columns.now select.now.where_terms) rows.now)) }
{
    let terms = select.where_terms.as_slice();
    match target_of(columns, terms) {
        Some(target) => {
            let count = count_wanted(columns, terms, &select.limit);
            nearest(alloc, columns, terms, &target, count as u16, rows)
        }
        None => limited(alloc, columns, select, rows),
    }
}

/// The rows that a SELECT answers, each as the list of its items. What the checks refuse is not answered.
pub(crate) fn answer(
    alloc: Global,
    table: &Table,
    select: &Select,
) -> Result<List<List<Value>>, Memory>
    requires valid { IsValidTable table.now }
    requires checked { check_select table.now.schema.columns select.now ≡ None }
    ensures { IfOk result (λ rows. rows ≡ answer table.now select.now) }
{
    let columns = table.schema.columns.as_slice();
    let places = item_places(alloc, columns, &select.items)?;
    let nears = chosen(alloc, columns, select, table.rows.as_slice())?;
    project(alloc, places.as_slice(), nears.as_slice())
}
