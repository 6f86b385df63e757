//! The record of a key, written whole or taken away.
ghost use Rattle.std.specs.Prelude.{◌≡◌, ◌≤◌, pos, length, is_some, IfOk, IfSome, OnOk};
ghost use Rattle.shadow_keeper.specs.declared.keeper.TheConstants.{MOST_CHANGE_BYTES};
ghost use Rattle.shadow_records.specs.Keys.{is_key};
ghost use Rattle.shadow_records.specs.Records.{body_of};
ghost use Rattle.shadow_records.specs.StandsFor.{record_in};
ghost use Rattle.table_changes.specs.inner.Steps.{TurnsKeys};
ghost use Rattle.table_changes.specs.inner.Touching.{IsRecordOf};
ghost use Rattle.table_changes.specs.inner.Turns.{newer_in, older_in};

use crate::patch::unit_record;
use crate::turn::Turn;
use std::alloc::Global;
use table_bodies::{UnitRecord, body};
use table_version::TableVersion;
use vec_base::{Bytes, Change, List, Memory, ShadowKey};

/// The body of the key in the newer table, if there is one.
fn newer_body(alloc: Global, turn: &Turn<'_>, key: &ShadowKey) -> Result<Option<Bytes>, Memory>
    ensures body { IfOk result (λ body. body ≡ record_in (newer_in turn.now) key.now) }
    ensures short { IfOk result (λ body. IfSome body (λ bytes. length bytes ≤ MOST_CHANGE_BYTES)) }
{
    match turn {
        Turn::Over(_, newer) => body(alloc, newer, key),
        Turn::Made(newer) => body(alloc, newer, key),
        Turn::Gone(_) => Ok(None),
    }
}

/// Whether the chunk of the record of units is there.
fn has_units(table: &TableVersion, kept: &UnitRecord, key: &ShadowKey, chunk: u32) -> bool
    requires of { IsRecordOf table.now.table.schema.columns key.now kept.now }
    requires chunk { key.now.a ≡ pos chunk }
    ensures { result ≡ is_some (body_of table.now.table key.now) }
{
    let (_kept, _key) = (*kept, *key);
    table.slots(chunk).is_some()
}

/// Whether a table has a body of the key. No record of units is read for it.
fn has_body(alloc: Global, table: &TableVersion, key: &ShadowKey) -> Result<bool, Memory>
    ensures { IfOk result (λ there. there ≡ is_some (body_of table.now.table key.now)) }
{
    if let Some(kept) = unit_record(table, key) {
        if let Ok(chunk) = u32::try_from(key.a) {
            return Ok(has_units(table, &kept, key, chunk));
        }
    }
    Ok(body(alloc, table, key)?.is_some())
}

/// Whether the older table has a body of the key.
fn has_older(alloc: Global, turn: &Turn<'_>, key: &ShadowKey) -> Result<bool, Memory>
    ensures { IfOk result (λ there. there ≡ is_some (record_in (older_in turn.now) key.now)) }
{
    match turn {
        Turn::Over(older, _) => has_body(alloc, older, key),
        Turn::Made(_) => Ok(false),
        Turn::Gone(older) => has_body(alloc, older, key),
    }
}

/// Writes the newer body of the key, or takes the older one away.
pub(crate) fn rewrite(
    alloc: Global,
    changes: &mut List<Change>,
    turn: &Turn<'_>,
    key: &ShadowKey,
) -> Result<(), Memory>
    ensures { OnOk result (TurnsKeys (λ k. is_key k key.now) (older_in turn.now) (newer_in turn.now) changes.old changes.new) }
{
    if let Some(bytes) = newer_body(alloc, turn, key)? {
        return changes.push(Change::Put(*key, bytes));
    }
    if has_older(alloc, turn, key)? {
        return changes.push(Change::Remove(*key));
    }
    Ok(())
}
