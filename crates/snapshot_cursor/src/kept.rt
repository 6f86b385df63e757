//! Rows that are kept.
ghost use Rattle.std.specs.Prelude.{◌≡◌, ◌≤◌, take, drop, length, map, ◌==◌, IfOk, List as Seq, ℕ};
ghost use Rattle.vec_base.specs.declared.value.Value.{Value as ValueOf};

use row_model::copied_values;
use std::alloc::Global;
use vec_base::{List, Memory, Value};

/// Equal rows.
fn all_copied(alloc: Global, rows: &[List<Value>]) -> Result<List<List<Value>>, Memory>
    ensures { IfOk result (λ copies. copies ≡ rows.now) }
{
    let mut copies = Vec::with_capacity(alloc, rows.len())?;
    for row in rows {
        copies.push(copied_values(alloc, row.as_slice())?)?;
    }
    Ok(List::from_vec(copies))
}

/// The rows behind those that were passed.
fn behind(rows: &[List<Value>], passed: usize) -> &[List<Value>]
    ensures { result.now ≡ drop passed rows.now }
{
    if passed <= rows.len() {
        &rows[passed..]
    } else {
        &[]
    }
}

/// The first rows, so many or all.
fn front(rows: &[List<Value>], count: u16) -> &[List<Value>]
    ensures { result.now ≡ take count rows.now }
{
    if usize::from(count) <= rows.len() {
        &rows[..usize::from(count)]
    } else {
        rows
    }
}

/// Copies of the next rows, so many or all.
pub(crate) fn next_copied(
    alloc: Global,
    rows: &List<List<Value>>,
    passed: usize,
    count: u16,
) -> Result<List<List<Value>>, Memory>
    ensures { IfOk result (λ copies. copies ≡ take count (drop passed rows.now)) }
{
    all_copied(alloc, front(behind(rows.as_slice(), passed), count))
}

/// Whether no row is left behind the next ones.
pub(crate) fn is_end_after(rows: &List<List<Value>>, passed: usize, count: u16) -> bool
    ensures { result ≡ (length (drop count (drop passed rows.now)) == 0) }
{
    behind(rows.as_slice(), passed).len() <= usize::from(count)
}

/// How many rows are passed with the next ones.
pub(crate) fn passed_with(rows: &List<List<Value>>, passed: usize, count: u16) -> usize
    ensures { drop result rows.now ≡ drop count (drop passed rows.now) }
{
    let left = behind(rows.as_slice(), passed).len();
    if usize::from(count) < left {
        passed + usize::from(count)
    } else {
        rows.len()
    }
}
