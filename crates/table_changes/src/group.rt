//! The records of one kind of a chunk or a row.
ghost use Rattle.std.specs.Prelude.{◌≡◌, ◌<◌, ◌^◌, pos, true, ◌||◌, IfSome, OnOk};
ghost use Rattle.row_model.specs.Schemas.{count_of, has_role};
ghost use Rattle.shadow_records.specs.Keys.{is_key, key_of};
ghost use Rattle.table_changes.specs.inner.Groups.{group_count};
ghost use Rattle.table_changes.specs.inner.KeySets.{is_chunk_kind, is_in_group, is_row_kind};
ghost use Rattle.table_changes.specs.inner.Steps.{TurnsKeys};
ghost use Rattle.table_changes.specs.inner.Touching.{IsTouchedIn};
ghost use Rattle.table_changes.specs.inner.Turns.{IsTurn, newer_in, older_in};

use crate::patch::{patch, unit_record};
use crate::record::rewrite;
use crate::touched::Touched;
use crate::turn::Turn;
use row_model::{Column, Role};
use shadow_records::{AUXILIARY_RECORDS, CHUNK_RECORDS, ROW_RECORDS, VECTOR_RECORDS};
use std::alloc::Global;
use vec_base::{Change, List, Memory, ShadowKey};

/// How many columns are for this.
fn count_of(columns: &[Column], role: Role) -> usize
    ensures count { result ≡ count_of (has_role role) columns.now }
    ensures few { result < 2 ^ 63 }
{
    let _length = columns.len();
    columns
        .iter()
        .filter(|column| column.kind.has_role(role))
        .count()
}

/// How many records of the kind a chunk or a row has at most.
fn group_count(columns: &[Column], kind: u8) -> usize
    ensures count { result ≡ group_count columns.now kind }
    ensures few { result < 2 ^ 63 }
{
    if kind == CHUNK_RECORDS {
        3
    } else if kind == ROW_RECORDS {
        1
    } else if kind == VECTOR_RECORDS {
        count_of(columns, Role::Vector)
    } else if kind == AUXILIARY_RECORDS {
        count_of(columns, Role::Auxiliary)
    } else {
        count_of(columns, Role::Metadata)
    }
}

/// The key of a record of a chunk or a row, by so many of its kind before it.
fn group_key(number: u32, kind: u8, a: &i64, before: usize) -> ShadowKey
    requires { before < 2 ^ 63 }
    ensures { result ≡ key_of number kind a.now (pos before) }
{
    ShadowKey {
        table: number,
        kind,
        a: *a,
        b: before as i64,
    }
}

/// Writes the record of the key anew: of a record of units what was touched alone, where that is given.
fn record(
    alloc: Global,
    changes: &mut List<Change>,
    turn: &Turn<'_>,
    touched: Option<&Touched>,
    key: &ShadowKey,
) -> Result<(), Memory>
    requires turn { IsTurn turn.now }
    requires touched { IfSome touched (λ touched. IsTouchedIn turn.now touched.now) }
    requires chunk { IfSome touched (λ touched. key.now.a ≡ pos touched.now.chunk) }
    ensures { OnOk result (TurnsKeys (λ k. is_key k key.now) (older_in turn.now) (newer_in turn.now) changes.old changes.new) }
{
    if let Some(touched) = touched {
        if let Turn::Over(older, newer) = turn {
            if let Some(record) = unit_record(newer, key) {
                return patch(alloc, changes, older, newer, touched, &record, key);
            }
        }
    }
    rewrite(alloc, changes, turn, key)
}

/// Writes anew all records of a kind that a chunk or a row has.
pub(crate) fn group(
    alloc: Global,
    changes: &mut List<Change>,
    turn: &Turn<'_>,
    touched: Option<&Touched>,
    number: u32,
    kind: u8,
    a: &i64,
) -> Result<(), Memory>
    requires turn { IsTurn turn.now }
    requires touched { IfSome touched (λ touched. IsTouchedIn turn.now touched.now) }
    requires chunk { IfSome touched (λ touched. a.now ≡ pos touched.now.chunk) }
    requires kind { (is_chunk_kind kind || is_row_kind kind) ≡ true }
    ensures { OnOk result (TurnsKeys (is_in_group number kind a.now) (older_in turn.now) (newer_in turn.now) changes.old changes.new) }
{
    let count = group_count(turn.table().schema().columns.as_slice(), kind);
    for before in 0..count {
        let key = group_key(number, kind, a, before);
        record(alloc, changes, turn, touched, &key)?;
    }
    Ok(())
}
