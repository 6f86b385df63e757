//! The changes between two tables.
ghost use Rattle.std.specs.Prelude.{◌≡◌, ◌==◌, pos, None, Some, IfOk, IfSome, OnOk, [], option_copied};
ghost use Rattle.std.specs.Ordering.{int_eq};
ghost use Rattle.std.specs.Option.{option_map};
ghost use Rattle.shadow_keeper.specs.Keeping.{AreShort};
ghost use Rattle.shadow_records.specs.Keys.{is_key, key_of};
ghost use Rattle.shadow_records.specs.declared.kinds.TheConstants.{INFO_RECORDS as INFO_KIND};
ghost use Rattle.table_version.specs.Versions.{Follows};
ghost use Rattle.table_changes.specs.Turning.{Turns};
ghost use Rattle.table_changes.specs.inner.KeySets.{is_chunk_kind, is_info_kind, is_of, is_row_kind, is_within};
ghost use Rattle.table_changes.specs.inner.Steps.{TurnsKeys};
ghost use Rattle.table_changes.specs.inner.Touching.{IsTouchedIn};
ghost use Rattle.table_changes.specs.inner.Turns.{IsTurn, newer_in, older_in};

use crate::group::group;
use crate::record::rewrite;
use crate::touched::Touched;
use crate::turn::Turn;
use shadow_records::{
    AUXILIARY_RECORDS, CHUNK_RECORDS, INFO_RECORDS, LONG_TEXT_RECORDS, METADATA_RECORDS,
    ROW_RECORDS, VECTOR_RECORDS,
};
use std::alloc::Global;
use table_version::TableVersion;
use vec_base::{Change, List, Memory, ShadowKey};

/// Writes the records of a chunk anew: of records of units what was touched alone, where that is given.
fn chunk_groups(
    alloc: Global,
    changes: &mut List<Change>,
    turn: &Turn<'_>,
    touched: Option<&Touched>,
    number: u32,
    chunk: u32,
) -> Result<(), Memory>
    requires turn { IsTurn turn.now }
    requires touched { IfSome touched (λ touched. IsTouchedIn turn.now touched.now) }
    requires chunk { IfSome touched (λ touched. chunk ≡ touched.now.chunk) }
    ensures { OnOk result (TurnsKeys (is_within is_chunk_kind number (λ i. int_eq i (pos chunk))) (older_in turn.now) (newer_in turn.now) changes.old changes.new) }
{
    let a = i64::from(chunk);
    group(alloc, changes, turn, touched, number, CHUNK_RECORDS, &a)?;
    group(alloc, changes, turn, touched, number, VECTOR_RECORDS, &a)?;
    group(alloc, changes, turn, touched, number, METADATA_RECORDS, &a)
}

/// Writes the records of a chunk anew, or what was touched of them.
fn chunk_records(
    alloc: Global,
    changes: &mut List<Change>,
    turn: &Turn<'_>,
    number: u32,
    chunk: u32,
) -> Result<(), Memory>
    requires { IsTurn turn.now }
    ensures { OnOk result (TurnsKeys (is_within is_chunk_kind number (λ i. int_eq i (pos chunk))) (older_in turn.now) (newer_in turn.now) changes.old changes.new) }
{
    let Turn::Over(_, newer) = turn else {
        return chunk_groups(alloc, changes, turn, None, number, chunk);
    };
    let touched = Touched::of(alloc, newer, chunk)?;
    chunk_groups(alloc, changes, turn, Some(&touched), number, chunk)
}

/// Writes the records of a row anew.
fn row_records(
    alloc: Global,
    changes: &mut List<Change>,
    turn: &Turn<'_>,
    number: u32,
    rowid: &i64,
) -> Result<(), Memory>
    requires { IsTurn turn.now }
    ensures { OnOk result (TurnsKeys (is_within is_row_kind number (λ i. int_eq i rowid.now)) (older_in turn.now) (newer_in turn.now) changes.old changes.new) }
{
    group(alloc, changes, turn, None, number, ROW_RECORDS, rowid)?;
    group(alloc, changes, turn, None, number, LONG_TEXT_RECORDS, rowid)?;
    group(alloc, changes, turn, None, number, AUXILIARY_RECORDS, rowid)
}

/// Writes what the table is called and made of anew. A newer table that follows an older one has the same.
fn name_record(
    alloc: Global,
    changes: &mut List<Change>,
    turn: &Turn<'_>,
    number: u32,
) -> Result<(), Memory>
    requires { IsTurn turn.now }
    ensures { OnOk result (TurnsKeys (λ k. is_key k (key_of number INFO_KIND (pos 0) (pos 0))) (older_in turn.now) (newer_in turn.now) changes.old changes.new) }
{
    if let Turn::Over(_, _) = turn {
        return Ok(());
    }
    let key = ShadowKey {
        table: number,
        kind: INFO_RECORDS,
        a: 0,
        b: 0,
    };
    rewrite(alloc, changes, turn, &key)
}

/// Writes what the table is called and made of anew, and its top.
fn info(
    alloc: Global,
    changes: &mut List<Change>,
    turn: &Turn<'_>,
    number: u32,
) -> Result<(), Memory>
    requires { IsTurn turn.now }
    ensures { OnOk result (TurnsKeys (is_of is_info_kind number) (older_in turn.now) (newer_in turn.now) changes.old changes.new) }
{
    name_record(alloc, changes, turn, number)?;
    let top = ShadowKey {
        table: number,
        kind: INFO_RECORDS,
        a: 1,
        b: 0,
    };
    rewrite(alloc, changes, turn, &top)
}

/// Writes the records of all chunks anew.
fn chunks(
    alloc: Global,
    changes: &mut List<Change>,
    turn: &Turn<'_>,
    number: u32,
) -> Result<(), Memory>
    requires { IsTurn turn.now }
    ensures { OnOk result (TurnsKeys (is_of is_chunk_kind number) (older_in turn.now) (newer_in turn.now) changes.old changes.new) }
{
    turn.known();
    let mut last = 0;
    while let Some(chunk) = turn.next_chunk(last) {
        chunk_records(alloc, changes, turn, number, chunk)?;
        last = chunk;
    }
    Ok(())
}

/// Writes the records of all rows anew.
fn rows(
    alloc: Global,
    changes: &mut List<Change>,
    turn: &Turn<'_>,
    number: u32,
) -> Result<(), Memory>
    requires { IsTurn turn.now }
    ensures { OnOk result (TurnsKeys (is_of is_row_kind number) (older_in turn.now) (newer_in turn.now) changes.old changes.new) }
{
    let mut last = None;
    while let Some(rowid) = turn.next_row(last) {
        row_records(alloc, changes, turn, number, &rowid)?;
        last = Some(rowid);
    }
    Ok(())
}

/// Writes all records of the table's number anew.
fn all(
    alloc: Global,
    changes: &mut List<Change>,
    turn: &Turn<'_>,
    number: u32,
) -> Result<(), Memory>
    requires { IsTurn turn.now }
    ensures { OnOk result (TurnsKeys (λ key. key.table == number) (older_in turn.now) (newer_in turn.now) changes.old changes.new) }
{
    info(alloc, changes, turn, number)?;
    chunks(alloc, changes, turn, number)?;
    rows(alloc, changes, turn, number)
}

/// The changes that turn the records of the older table into those of the newer one, which was shared from it: they write
/// what was touched alone.
pub fn changes_over(
    alloc: Global,
    older: &TableVersion,
    newer: &TableVersion,
    number: u32,
) -> Result<List<Change>, Memory>
    requires follows { Follows older.now.table newer.now }
    ensures turns { IfOk result (λ changes. Turns number (Some older.now.table) (Some newer.now.table) changes) }
    ensures short { IfOk result (λ changes. AreShort changes) }
{
    let mut changes = List::new(alloc);
    all(alloc, &mut changes, &Turn::Over(older, newer), number)?;
    Ok(changes)
}

/// The changes that take all records of the table away.
pub fn removal(alloc: Global, table: &TableVersion, number: u32) -> Result<List<Change>, Memory>
    ensures turns { IfOk result (λ changes. Turns number (Some table.now.table) None changes) }
    ensures short { IfOk result (λ changes. AreShort changes) }
{
    let mut changes = List::new(alloc);
    all(alloc, &mut changes, &Turn::Gone(table), number)?;
    Ok(changes)
}

/// The changes that take all records of the table away, if there is one.
fn cleared(alloc: Global, table: Option<&TableVersion>, number: u32) -> Result<List<Change>, Memory>
    ensures { IfOk result (λ changes. TurnsKeys (λ key. key.table == number) (option_map (λ version. version.table) (option_copied table.entry)) None [] changes) }
{
    let mut changes = List::new(alloc);
    let Some(table) = table else {
        return Ok(changes);
    };
    all(alloc, &mut changes, &Turn::Gone(table), number)?;
    Ok(changes)
}

/// The changes that turn the records of any older table, or none, into those of the newer one: they write whole bodies.
pub fn changes_since(
    alloc: Global,
    newer: &TableVersion,
    older: Option<&TableVersion>,
    number: u32,
) -> Result<List<Change>, Memory>
    ensures turns { IfOk result (λ changes. Turns number (option_map (λ version. version.table) (option_copied older.entry)) (Some newer.now.table) changes) }
    ensures short { IfOk result (λ changes. AreShort changes) }
{
    let mut changes = cleared(alloc, older, number)?;
    all(alloc, &mut changes, &Turn::Made(newer), number)?;
    Ok(changes)
}
