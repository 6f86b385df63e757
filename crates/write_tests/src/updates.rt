//! New values in rows.
ghost use Rattle.std.specs.Prelude.{◌≡◌, ◌≤◌, IfOk, length};
ghost use Rattle.vec_base.specs.declared.limits.TheConstants.{MOST_TERMS};

use crate::tables::{alone, equal, one_term, set, three_rows, two_terms};
use row_model::{CHANGE_BY_MATCH, Constraint, Test};
use std::alloc::Global;
use std::test::Fail;
use table_version::TableVersion;
use table_writes::Beside;
use vec_base::{Bytes, List, MOST_SIDE_BYTES, Memory, Refusal, Txt, Value};

/// Gives the row of rowid 2 the number 10.
fn set_second(alloc: Global, version: &mut TableVersion) -> Result<Result<u64, Refusal>, Memory> {
    let terms = one_term(alloc, equal(alloc, "rowid", 2)?)?;
    set(alloc, version, alone(), "m", Value::Int(10), terms)
}

/// Gives all rows of the number 10 another one.
fn set_tens(alloc: Global, version: &mut TableVersion) -> Result<Result<u64, Refusal>, Memory> {
    let terms = one_term(alloc, equal(alloc, "m", 10)?)?;
    set(alloc, version, alone(), "m", Value::Int(7), terms)
}

/// How many rows change.
fn changed(count: Result<u64, Refusal>) -> Option<u64> {
    match count {
        Ok(count) => Some(count),
        Err(_) => None,
    }
}

/// The row of rowid 2 gets the number 10, and then all three rows have it and get another.
fn by_rowid_and_number(alloc: Global) -> Result<(Option<u64>, Option<u64>), Memory> {
    let mut version = three_rows(alloc)?;
    let first = changed(set_second(alloc, &mut version)?);
    let second = changed(set_tens(alloc, &mut version)?);
    Ok((first, second))
}

#[test]
fn rows_are_found_by_rowid_and_by_number(rt: HostRuntime) -> Result<(), Fail> {
    let counts = by_rowid_and_number(rt.alloc())?;
    assert_eq!(rt; counts, (Some(1), Some(3)));
    Ok(())
}

/// Two rows get notes of three bytes, where there is room for five.
fn without_room(alloc: Global) -> Result<Result<u64, Refusal>, Memory> {
    let mut version = three_rows(alloc)?;
    let note = Value::Blob(Bytes::from_slice(alloc, &[1, 2, 3])?);
    let beside = Beside {
        vectors: 0,
        sides: MOST_SIDE_BYTES - 5,
    };
    let terms = one_term(alloc, equal(alloc, "m", 10)?)?;
    set(alloc, &mut version, beside, "n", note, terms)
}

#[test]
fn the_bytes_of_all_new_notes_are_counted(rt: HostRuntime) -> Result<(), Fail> {
    let refused = without_room(rt.alloc())?;
    assert_eq!(rt; refused, Err(Refusal::Full(5, MOST_SIDE_BYTES + 1)));
    Ok(())
}

/// A MATCH, and as many rows as are wanted.
fn nearest(alloc: Global) -> Result<List<Constraint>, Memory>
    ensures { IfOk result (λ terms. length terms ≤ MOST_TERMS) }
{
    let query = Value::Int8(Bytes::from_slice(alloc, &[1, 2])?);
    let near = Constraint {
        column: Txt::from_text(alloc, "a")?,
        test: Test::Match(query),
    };
    two_terms(alloc, near, equal(alloc, "k", 1)?)
}

/// An UPDATE of the nearest row.
fn by_match(alloc: Global) -> Result<Result<u64, Refusal>, Memory> {
    let mut version = three_rows(alloc)?;
    let terms = nearest(alloc)?;
    set(alloc, &mut version, alone(), "m", Value::Int(7), terms)
}

#[test]
fn no_row_is_changed_by_match(rt: HostRuntime) -> Result<(), Fail> {
    let refused = by_match(rt.alloc())?;
    assert_eq!(rt; refused, Err(Refusal::KnnForm(CHANGE_BY_MATCH)));
    Ok(())
}
