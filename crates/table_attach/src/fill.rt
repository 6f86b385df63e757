//! Rows taken from records, one after the other.
ghost use Rattle.std.specs.Prelude.{◌≡◌, true, IfErr, OnOk};
ghost use Rattle.std.specs.FinMap.{is_sorted};
ghost use Rattle.record_bodies.specs.ReadRows.{read_as};
ghost use Rattle.shadow_records.specs.Keys.{key_cmp};
ghost use Rattle.table_attach.specs.declared.fault.AttachFault.TheVariants.{Damaged};
ghost use Rattle.table_version.specs.PlacedRows.{table_with};
ghost use Rattle.table_version.specs.Placing.{FitsBeside};
ghost use Rattle.table_attach.specs.inner.Filling.{Fails, Fills, Refuses, Takes, is_row_key};

use crate::AttachFault;
use record_bodies::{ReadRow, row};
use shadow_records::ROW_RECORDS;
use std::alloc::Global;
use table_version::{RowPlace, TableVersion};
use vec_base::{Bytes, ShadowKey};

/// Whether the key is that of a row's record.
fn is_row_key(number: u32, key: &ShadowKey) -> bool
    ensures { result ≡ is_row_key number key.now }
{
    if key.table != number {
        return false;
    }
    if key.kind != ROW_RECORDS {
        return false;
    }
    key.b == 0
}

/// A row that a record shows takes its place, if it can stand there.
fn place(
    alloc: Global,
    table: &mut TableVersion,
    rowid: i64,
    row: &ReadRow,
) -> Result<(), AttachFault>
    ensures placed { OnOk result (FitsBeside table.old.table (read_as rowid row.now) × (table.new.table ≡ table_with table.old.table (read_as rowid row.now))) }
    ensures refused { IfErr result (λ fault. fault ≡ Damaged → FitsBeside table.old.table (read_as rowid row.now) → ⊥) }
{
    let place = RowPlace {
        rowid,
        chunk: row.chunk,
        slot: row.slot,
    };
    match table.place_row(alloc, &place, &row.values) {
        Ok(true) => Ok(()),
        Ok(false) => Err(AttachFault::Damaged),
        Err(_) => Err(AttachFault::Memory),
    }
}

/// One record is taken.
fn take(
    alloc: Global,
    number: u32,
    records: &[(ShadowKey, Bytes)],
    table: &mut TableVersion,
    kept: &(ShadowKey, Bytes),
) -> Result<(), AttachFault>
    requires sorted { is_sorted key_cmp records.now ≡ true }
    ensures taken { OnOk result (Takes number records.now table.old.table kept.now table.new.table) }
    ensures refused { IfErr result (λ fault. fault ≡ Damaged → Refuses number records.now table.old.table kept.now) }
{
    if !is_row_key(number, &kept.0) {
        return Ok(());
    }
    table.known();
    let columns = table.schema().columns.as_slice();
    match row(alloc, number, records, columns, kept.0.a, &kept.1) {
        Ok(Some(row)) => place(alloc, table, kept.0.a, &row),
        Ok(None) => Err(AttachFault::Damaged),
        Err(_) => Err(AttachFault::Memory),
    }
}

/// All records are taken.
pub(crate) fn fill(
    alloc: Global,
    number: u32,
    records: &[(ShadowKey, Bytes)],
    table: &mut TableVersion,
) -> Result<(), AttachFault>
    requires sorted { is_sorted key_cmp records.now ≡ true }
    ensures filled { OnOk result (Fills number records.now table.old.table records.now table.new.table) }
    ensures failed { IfErr result (λ fault. fault ≡ Damaged → Fails number records.now table.old.table records.now) }
{
    for kept in records {
        take(alloc, number, records, table, kept)?;
    }
    Ok(())
}
