//! Tables that are kept, and built again.
ghost use Rattle.std.specs.Prelude.{◌≡◌, None, Some, IfOk, OnOk};
ghost use Rattle.shadow_keeper.specs.Memory.{memory_tables};
ghost use Rattle.shadow_records.specs.Batches.{applied, AllApply};
ghost use Rattle.table_changes.specs.Turning.{AreRecords};
ghost use Rattle.table_version.specs.Versions.{Follows};

use shadow_keeper::{Batch, Kept, MemoryKeeper};
use std::alloc::Global;
use std::test::Fail;
use table_attach::{AttachFault, attach};
use table_changes::{changes_over, changes_since, removal};
use table_version::TableVersion;
use vec_base::{Bytes, Change, List, ShadowKey};

/// A key of the table that is kept.
pub(crate) fn key(kind: u8, a: i64, b: i64) -> ShadowKey {
    ShadowKey {
        table: 1,
        kind,
        a,
        b,
    }
}

/// A keeper without records.
pub(crate) fn empty(alloc: Global) -> Result<MemoryKeeper, Fail>
    ensures { IfOk result (λ keeper. AreRecords 1 None (memory_tables keeper)) }
{
    Ok(MemoryKeeper::new(alloc, List::new(alloc), List::new(alloc))?)
}

/// Makes the changes.
fn make(keeper: &mut MemoryKeeper, changes: List<Change>) -> Result<(), Fail>
    requires { AllApply changes (memory_tables keeper.old) }
    ensures { OnOk result (memory_tables keeper.new ≡ applied changes (memory_tables keeper.old)) }
{
    match keeper.keep(&Batch { changes }) {
        Kept::Done => Ok(()),
        Kept::Failed => Err(Fail::from("failed")),
        Kept::Memory => Err(Fail::from("memory")),
    }
}

/// A keeper of the table's records.
pub(crate) fn kept(alloc: Global, table: &TableVersion) -> Result<MemoryKeeper, Fail>
    ensures { IfOk result (λ keeper. AreRecords 1 (Some table.now.table) (memory_tables keeper)) }
{
    let mut keeper = empty(alloc)?;
    make(&mut keeper, changes_since(alloc, table, None, 1)?)?;
    Ok(keeper)
}

/// The keeper of the older table keeps the newer one.
pub(crate) fn keep_newer(
    alloc: Global,
    keeper: &mut MemoryKeeper,
    older: &TableVersion,
    newer: &TableVersion,
) -> Result<(), Fail>
    requires kept { AreRecords 1 (Some older.now.table) (memory_tables keeper.old) }
    requires follows { Follows older.now.table newer.now }
    ensures { OnOk result (AreRecords 1 (Some newer.now.table) (memory_tables keeper.new)) }
{
    make(keeper, changes_over(alloc, older, newer, 1)?)?;
    Ok(())
}

/// The keeper of the table keeps it no more.
pub(crate) fn take_away(
    alloc: Global,
    keeper: &mut MemoryKeeper,
    table: &TableVersion,
) -> Result<(), Fail>
    requires { AreRecords 1 (Some table.now.table) (memory_tables keeper.old) }
{
    make(keeper, removal(alloc, table, 1)?)
}

/// Puts a record.
pub(crate) fn put(
    alloc: Global,
    keeper: &mut MemoryKeeper,
    key: ShadowKey,
    body: &[u8],
) -> Result<(), Fail> {
    let mut changes = List::new(alloc);
    changes.push(Change::Put(key, Bytes::from_slice(alloc, body)?))?;
    make(keeper, changes)
}

/// What is built of the records of the keeper.
pub(crate) fn built(
    alloc: Global,
    keeper: &MemoryKeeper,
) -> Result<Result<TableVersion, AttachFault>, Fail> {
    let records = keeper.tables(alloc)?;
    Ok(attach(alloc, 1, &records))
}

/// Whether the records of the keeper are those of no table.
pub(crate) fn is_damaged(alloc: Global, keeper: &MemoryKeeper) -> Result<bool, Fail> {
    match built(alloc, keeper)? {
        Ok(_) => Ok(false),
        Err(AttachFault::Damaged) => Ok(true),
        Err(AttachFault::Memory) => Err(Fail::from("memory")),
    }
}
