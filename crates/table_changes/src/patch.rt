//! Records of units, of which touched units alone are written.
ghost use Rattle.std.specs.Prelude.{◌≡◌, ◌<◌, ◌*◌, ◌++◌, [], ◌∷◌, pos, None, Some, IfSome, OnOk};
ghost use Rattle.vec_base.specs.declared.shadow.Change.TheVariants.{Patch};
ghost use Rattle.row_model.specs.Schemas.{has_role};
ghost use Rattle.row_model.specs.declared.schema.Role.TheVariants.{Metadata, Vector};
ghost use Rattle.shadow_records.specs.Cells.{laid};
ghost use Rattle.shadow_records.specs.Keys.{is_key};
ghost use Rattle.shadow_records.specs.Records.{body_of};
ghost use Rattle.shadow_records.specs.declared.kinds.TheConstants.{CHUNK_RECORDS as CHUNK_KIND, METADATA_RECORDS as METADATA_KIND, VECTOR_RECORDS as VECTOR_KIND};
ghost use Rattle.table_bodies.specs.Units.{IsUnitRecord, unit, unit_count, unit_width};
ghost use Rattle.table_version.specs.Versions.{Follows};
ghost use Rattle.table_changes.specs.inner.Steps.{RewritesOne, TurnsKeys};
ghost use Rattle.table_changes.specs.inner.Touching.{HoldsUnits, IsRecordOf, IsTouched, units_in};

use crate::touched::Touched;
use row_model::Role;
use shadow_records::{CHUNK_RECORDS, METADATA_RECORDS, VECTOR_RECORDS};
use std::alloc::Global;
use table_bodies::{UnitRecord, column_of};
use table_version::TableVersion;
use vec_base::{Change, List, Memory, ShadowKey};

/// The record of used slots, or of rowids, if the key is that of one.
fn slots_record(table: &TableVersion, key: &ShadowKey) -> Option<UnitRecord>
    requires { key.now.kind ≡ CHUNK_KIND }
    ensures { IfSome result (λ of. IsRecordOf table.now.table.schema.columns key.now of) }
{
    let _top = table.top();
    if key.b == 1 {
        Some(UnitRecord::Used)
    } else if key.b == 2 {
        Some(UnitRecord::Rowids)
    } else {
        None
    }
}

/// The record of a column of vectors, if the key is that of one.
fn vectors_record(table: &TableVersion, key: &ShadowKey) -> Option<UnitRecord>
    requires { key.now.kind ≡ VECTOR_KIND }
    ensures { IfSome result (λ of. IsRecordOf table.now.table.schema.columns key.now of) }
{
    Some(UnitRecord::of_column(column_of(table, Role::Vector, key.b)?))
}

/// The record of a column of metadata, if the key is that of one.
fn metadata_record(table: &TableVersion, key: &ShadowKey) -> Option<UnitRecord>
    requires { key.now.kind ≡ METADATA_KIND }
    ensures { IfSome result (λ of. IsRecordOf table.now.table.schema.columns key.now of) }
{
    Some(UnitRecord::of_column(column_of(table, Role::Metadata, key.b)?))
}

/// The record of units, if the key is that of one.
pub(crate) fn unit_record(table: &TableVersion, key: &ShadowKey) -> Option<UnitRecord>
    ensures { IfSome result (λ of. IsRecordOf table.now.table.schema.columns key.now of) }
{
    if key.kind == CHUNK_RECORDS {
        return slots_record(table, key);
    }
    if key.kind == VECTOR_RECORDS {
        return vectors_record(table, key);
    }
    if key.kind == METADATA_RECORDS {
        return metadata_record(table, key);
    }
    None
}

/// The places of the units of the record that were touched.
fn touched_units<'a>(kept: &UnitRecord, touched: &'a Touched) -> &'a [u16]
    ensures { result.now ≡ units_in kept.now touched.now }
{
    match kept {
        UnitRecord::Used => touched.bytes.as_slice(),
        UnitRecord::Rowids => touched.slots.as_slice(),
        UnitRecord::Truths(_) => touched.bytes.as_slice(),
        UnitRecord::Cells(_) => touched.slots.as_slice(),
    }
}

/// Writes one unit of the record.
fn patch_unit(
    alloc: Global,
    changes: &mut List<Change>,
    newer: &TableVersion,
    kept: &UnitRecord,
    key: &ShadowKey,
    chunk: u32,
    at: u16,
) -> Result<(), Memory>
    requires there { IsUnitRecord newer.now.table.schema.columns kept.now }
    requires within { at < unit_count kept.now newer.now.table.schema.chunk_size }
    ensures { OnOk result (changes.new ≡ changes.old ++ Patch key.now (at * unit_width kept.now) (unit kept.now newer.now.table chunk at) ∷ []) }
{
    let bytes = kept.unit(alloc, newer, chunk, at)?;
    let offset = u32::from(at) * u32::from(kept.width());
    changes.push(Change::Patch(*key, offset, bytes))
}

/// Writes the units at these places, which are all that differ.
fn patch_units(
    alloc: Global,
    changes: &mut List<Change>,
    older: &TableVersion,
    newer: &TableVersion,
    kept: &UnitRecord,
    key: &ShadowKey,
    chunk: u32,
    units: &[u16],
) -> Result<(), Memory>
    requires schema { older.now.table.schema ≡ newer.now.table.schema }
    requires there { IsUnitRecord newer.now.table.schema.columns kept.now }
    requires units { HoldsUnits older.now.table newer.now.table chunk kept.now units.now }
    ensures { OnOk result (RewritesOne key.now
        (Some (laid (unit kept.now older.now.table chunk) (unit_count kept.now newer.now.table.schema.chunk_size)))
        (Some (laid (unit kept.now newer.now.table chunk) (unit_count kept.now newer.now.table.schema.chunk_size))) changes.old changes.new) }
{
    older.known();
    newer.known();
    for at in units {
        patch_unit(alloc, changes, newer, kept, key, chunk, *at)?;
    }
    Ok(())
}

/// How many bytes the record has, where a chunk has so many slots.
fn record_bytes(kept: &UnitRecord, size: u16) -> u32
    ensures { result ≡ unit_count kept.now size * unit_width kept.now }
{
    u32::from(kept.count(size)) * u32::from(kept.width())
}

/// Gives the record zeros, where the older table has no such chunk.
fn fill(
    changes: &mut List<Change>,
    older: &TableVersion,
    kept: &UnitRecord,
    key: &ShadowKey,
    chunk: u32,
) -> Result<(), Memory>
    requires of { IsRecordOf older.now.table.schema.columns key.now kept.now }
    requires chunk { key.now.a ≡ pos chunk }
    ensures { OnOk result (RewritesOne key.now (body_of older.now.table key.now)
        (Some (laid (unit kept.now older.now.table chunk) (unit_count kept.now older.now.table.schema.chunk_size))) changes.old changes.new) }
{
    if older.slots(chunk).is_some() {
        return Ok(());
    }
    let bytes = record_bytes(kept, older.schema().chunk_size);
    changes.push(Change::Fill(*key, bytes))
}

/// Takes the record away, where the older table has such a chunk.
fn remove(
    changes: &mut List<Change>,
    older: &TableVersion,
    kept: &UnitRecord,
    key: &ShadowKey,
    chunk: u32,
) -> Result<(), Memory>
    requires of { IsRecordOf older.now.table.schema.columns key.now kept.now }
    requires chunk { key.now.a ≡ pos chunk }
    ensures { OnOk result (RewritesOne key.now (body_of older.now.table key.now) None changes.old changes.new) }
{
    let _kept = *kept;
    if older.slots(chunk).is_some() {
        changes.push(Change::Remove(*key))?;
    }
    Ok(())
}

/// Writes what was touched of the record of units.
pub(crate) fn patch(
    alloc: Global,
    changes: &mut List<Change>,
    older: &TableVersion,
    newer: &TableVersion,
    touched: &Touched,
    kept: &UnitRecord,
    key: &ShadowKey,
) -> Result<(), Memory>
    requires follows { Follows older.now.table newer.now }
    requires of { IsRecordOf newer.now.table.schema.columns key.now kept.now }
    requires chunk { key.now.a ≡ pos touched.now.chunk }
    requires touched { IsTouched older.now.table.rows newer.now.table.rows newer.now.table.schema.chunk_size touched.now }
    ensures { OnOk result (TurnsKeys (λ k. is_key k key.now) (Some older.now.table) (Some newer.now.table) changes.old changes.new) }
{
    let chunk = touched.chunk;
    newer.known();
    if !newer.slots(chunk).is_some() {
        return remove(changes, older, kept, key, chunk);
    }
    fill(changes, older, kept, key, chunk)?;
    let units = touched_units(kept, touched);
    patch_units(alloc, changes, older, newer, kept, key, chunk, units)
}
