//! A table that is built from records, and compared with them.
ghost use Rattle.std.specs.Prelude.{◌≡◌, true, false, IfOk, IfErr, IsTrue};
ghost use Rattle.std.specs.FinMap.{is_sorted};
ghost use Rattle.std.specs.List.{AllByRecursion};
ghost use Rattle.shadow_records.specs.Keys.{key_cmp};
ghost use Rattle.table_attach.specs.Attaching.{AreRecordsOf, StandForNone};
ghost use Rattle.table_attach.specs.declared.fault.AttachFault.TheVariants.{Damaged};
ghost use Rattle.table_attach.specs.inner.Filling.{IsRecordOf};

use crate::AttachFault;
use crate::fill::fill;
use crate::open::open;
use std::alloc::Global;
use table_bodies::is_body;
use table_version::TableVersion;
use vec_base::{Bytes, List, Memory, ShadowKey};

/// Whether the record is the table's.
fn is_record(
    alloc: Global,
    number: u32,
    table: &TableVersion,
    kept: &(ShadowKey, Bytes),
) -> Result<bool, Memory>
    ensures is { IfOk result (λ is. is ≡ true → IsRecordOf number table.now.table kept.now) }
    ensures differs { IfOk result (λ is. is ≡ false → IsRecordOf number table.now.table kept.now → ⊥) }
{
    if kept.0.table != number {
        return Ok(false);
    }
    is_body(alloc, table, &kept.0, &kept.1)
}

/// Whether all records are the table's.
fn are_records(
    alloc: Global,
    number: u32,
    table: &TableVersion,
    records: &[(ShadowKey, Bytes)],
) -> Result<bool, Memory>
    ensures are { IfOk result (λ are. are ≡ true → AllByRecursion (IsRecordOf number table.now.table) records.now) }
    ensures differ { IfOk result (λ are. are ≡ false → AllByRecursion (IsRecordOf number table.now.table) records.now → ⊥) }
{
    for kept in records {
        if !is_record(alloc, number, table, kept)? {
            return Ok(false);
        }
    }
    Ok(true)
}

/// The table whose records these are, all under its number and by rising keys.
///
/// Errors: `Damaged` exactly where they are the records of no table of that number; `Memory`.
pub fn attach_slice(
    alloc: Global,
    number: u32,
    records: &[(ShadowKey, Bytes)],
) -> Result<TableVersion, AttachFault>
    requires sorted { is_sorted key_cmp records.now ≡ true }
    ensures records { IfOk result (λ table. AreRecordsOf number table.table records.now) }
    ensures damaged { IfErr result (λ fault. fault ≡ Damaged → StandForNone number records.now) }
{
    let mut table = open(alloc, number, records)?;
    match fill(alloc, number, records, &mut table) {
        Ok(()) => {}
        Err(fault) => return Err(fault),
    }
    table.known();
    match are_records(alloc, number, &table, records) {
        Ok(true) => Ok(table),
        Ok(false) => Err(AttachFault::Damaged),
        Err(_) => Err(AttachFault::Memory),
    }
}

/// The table whose records these are, all under its number and by rising keys.
///
/// Errors: `Damaged` exactly where they are the records of no table of that number; `Memory`.
pub fn attach(
    alloc: Global,
    number: u32,
    records: &List<(ShadowKey, Bytes)>,
) -> Result<TableVersion, AttachFault>
    requires sorted { is_sorted key_cmp records.now ≡ true }
    ensures records { IfOk result (λ table. AreRecordsOf number table.table records.now) }
    ensures damaged { IfErr result (λ fault. fault ≡ Damaged → StandForNone number records.now) }
{
    attach_slice(alloc, number, records.as_slice())
}
