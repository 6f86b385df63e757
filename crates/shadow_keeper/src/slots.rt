//! The records of the keeper in memory: a slot for each key, with a body or held ready for one.
ghost use Rattle.std.specs.Prelude.{◌≡◌, true, [], ◌++◌, IfOk, OnOk, OnErr, map as each};
ghost use Rattle.std.specs.FinMap.{get, insert, remove, entries, is_sorted};
ghost use Rattle.shadow_records.specs.Batches.{applied, changed, Applies, AllApply};
ghost use Rattle.shadow_keeper.specs.inner.Edits.{change_of, edit_of, key_of_edit};
ghost use Rattle.shadow_records.specs.Keys.{key_cmp};
ghost use Rattle.shadow_keeper.specs.Keeping.{tables_of};
ghost use Rattle.shadow_keeper.specs.inner.Slots.{tables_in, with_record, IsHeld, AllHeld, KeepsSlots};

use crate::body::Body;
use crate::edit::{Edit, changed_key};
use std::alloc::Global;
use std::collections::BTreeMap;
use vec_base::{Bytes, Change, List, Memory, ShadowKey};

/// Takes the body out of a slot that is held, and leaves the slot.
fn take(slots: &mut BTreeMap<ShadowKey, Option<Body>>, key: ShadowKey) -> Option<Body>
    requires { IsHeld slots.old.entries key }
    ensures body { result ≡ get (tables_in slots.old.entries) key }
    ensures tables { tables_in slots.new.entries ≡ remove (tables_in slots.old.entries) key }
    ensures held { KeepsSlots slots.old.entries slots.new.entries }
{
    match slots.insert(key, None) {
        Ok(Some(body)) => body,
        Ok(None) => unreachable!(),
        Err(_) => unreachable!(),
    }
}

/// Puts a body into a slot that is held.
fn put(slots: &mut BTreeMap<ShadowKey, Option<Body>>, key: ShadowKey, body: Body)
    requires { IsHeld slots.old.entries key }
    ensures tables { tables_in slots.new.entries ≡ insert (tables_in slots.old.entries) key body }
    ensures held { KeepsSlots slots.old.entries slots.new.entries }
{
    match slots.insert(key, Some(body)) {
        Ok(_) => {}
        Err(_) => unreachable!(),
    }
}

/// Holds a slot ready for a key.
fn hold(slots: &mut BTreeMap<ShadowKey, Option<Body>>, key: ShadowKey) -> Result<(), Memory>
    ensures tables { tables_in slots.new.entries ≡ tables_in slots.old.entries }
    ensures held { KeepsSlots slots.old.entries slots.new.entries }
    ensures ok { OnOk result (IsHeld slots.new.entries key) }
{
    if slots.contains_key(&key) {
        return Ok(());
    }
    slots.insert(key, None)?;
    Ok(())
}

/// Makes one change. It takes no memory.
fn make(slots: &mut BTreeMap<ShadowKey, Option<Body>>, edit: Edit)
    requires applies { Applies (change_of edit) (tables_in slots.old.entries) }
    requires held { IsHeld slots.old.entries (key_of_edit edit) }
    ensures tables { tables_in slots.new.entries ≡ changed (change_of edit) (tables_in slots.old.entries) }
    ensures held { KeepsSlots slots.old.entries slots.new.entries }
{
    match edit {
        Edit::Put(key, body) => put(slots, key, body),
        Edit::Remove(key) => {
            let _ = take(slots, key);
        }
        Edit::Patch(key, at, bytes) => {
            let Some(mut body) = take(slots, key) else {
                unreachable!();
            };
            body.patch(at as usize, bytes.as_slice());
            put(slots, key, body);
        }
    }
}

/// Asks for all the memory that the changes need. It leaves the tables as they are.
fn prepare(
    alloc: Global,
    slots: &mut BTreeMap<ShadowKey, Option<Body>>,
    changes: &[Change],
) -> Result<Vec<Edit>, Memory>
    ensures tables { tables_in slots.new.entries ≡ tables_in slots.old.entries }
    ensures edits { IfOk result (λ edits. edits.items ≡ each edit_of changes.now) }
    ensures held { IfOk result (λ edits. AllHeld slots.new.entries edits.items) }
{
    let mut edits = Vec::new(alloc);
    for change in changes {
        hold(slots, changed_key(change))?;
        edits.push(Edit::prepared(alloc, change)?)?;
    }
    Ok(edits)
}

/// Makes the changes one after another. It takes no memory.
fn make_all(slots: &mut BTreeMap<ShadowKey, Option<Body>>, edits: Vec<Edit>)
    requires applies { AllApply (each change_of edits.items) (tables_in slots.old.entries) }
    requires held { AllHeld slots.old.entries edits.items }
    ensures { tables_in slots.new.entries ≡ applied (each change_of edits.items) (tables_in slots.old.entries) }
{
    for edit in edits {
        make(slots, edit);
    }
}

/// Lets the slot of a key go, if it has no body.
fn release(slots: &mut BTreeMap<ShadowKey, Option<Body>>, key: &ShadowKey)
    ensures { tables_in slots.new.entries ≡ tables_in slots.old.entries }
{
    if let Some(None) = slots.get(key) {
        let _ = slots.remove(key);
    }
}

/// Lets the slots that have no bodies go.
fn release_all(slots: &mut BTreeMap<ShadowKey, Option<Body>>, changes: &[Change])
    ensures { tables_in slots.new.entries ≡ tables_in slots.old.entries }
{
    for change in changes {
        release(slots, &changed_key(change));
    }
}

/// Makes the changes, all or none.
pub(crate) fn change_all(
    alloc: Global,
    slots: &mut BTreeMap<ShadowKey, Option<Body>>,
    changes: &[Change],
) -> Result<(), Memory>
    requires { AllApply changes.now (tables_in slots.old.entries) }
    ensures ok { OnOk result (tables_in slots.new.entries ≡ applied changes.now (tables_in slots.old.entries)) }
    ensures err { OnErr result (tables_in slots.new.entries ≡ tables_in slots.old.entries) }
{
    match prepare(alloc, slots, changes) {
        Ok(edits) => make_all(slots, edits),
        Err(Memory) => {
            release_all(slots, changes);
            return Err(Memory);
        }
    }
    release_all(slots, changes);
    Ok(())
}

/// Adds a record.
fn add(
    slots: &mut BTreeMap<ShadowKey, Option<Body>>,
    key: ShadowKey,
    body: Body,
) -> Result<(), Memory>
    ensures { OnOk result (tables_in slots.new.entries ≡ insert (tables_in slots.old.entries) key body) }
{
    slots.insert(key, Some(body))?;
    Ok(())
}

/// Slots with copies of the records, whose keys rise.
pub(crate) fn copied(
    alloc: Global,
    records: &[(ShadowKey, Bytes)],
) -> Result<BTreeMap<ShadowKey, Option<Body>>, Memory>
    requires { is_sorted key_cmp records.now ≡ true }
    ensures { IfOk result (λ slots. tables_in slots.entries ≡ tables_of records.now) }
{
    let mut slots = BTreeMap::new(alloc);
    for record in records {
        add(
            &mut slots,
            record.0,
            Body::copied(alloc, record.1.as_slice())?,
        )?;
    }
    Ok(slots)
}

/// Adds a copy of the record of a slot, if it has a body.
fn push_record(
    alloc: Global,
    records: &mut List<(ShadowKey, Bytes)>,
    key: ShadowKey,
    slot: &Option<Body>,
) -> Result<(), Memory>
    ensures { OnOk result (records.new ≡ records.old ++ with_record key slot.now []) }
{
    if let Some(body) = slot {
        records.push((key, Bytes::from_slice(alloc, body.as_slice())?))?;
    }
    Ok(())
}

/// Copies of the records, with rising keys.
pub(crate) fn listed(
    alloc: Global,
    slots: &BTreeMap<ShadowKey, Option<Body>>,
) -> Result<List<(ShadowKey, Bytes)>, Memory>
    ensures { IfOk result (λ records. records ≡ entries (tables_in slots.now.entries)) }
{
    let mut records = List::new(alloc);
    for (key, slot) in slots.iter() {
        push_record(alloc, &mut records, *key, slot)?;
    }
    Ok(records)
}
