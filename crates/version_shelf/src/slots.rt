//! The slots of a shelf: versions, each with the place of the one that it follows.
ghost use Rattle.std.specs.Prelude.{◌≡◌, ◌<◌, Some, None, map, length, slice_index_or, slice_set, option_copied, IfOk, is_some};
ghost use Rattle.version_shelf.specs.OnShelf.{at_place};
ghost use Rattle.version_shelf.specs.inner.Origins.{cleared, origin_in, version_in, versions};
ghost use Rattle.version_shelf.specs.inner.Slots.{Alike};

use table_version::TableVersion;
use vec_base::Memory;

/// A version, and the place of the one that it was shared from.
#[derive(Drop)]
pub struct Kept {
    pub version: TableVersion,
    pub origin: Option<usize>,
}

/// The version of a slot follows the one at the place no more.
fn clear_one(slot: &mut Option<Kept>, place: usize)
    ensures { slot.new ≡ cleared place slot.old }
{
    if let Some(kept) = slot {
        if let Some(origin) = kept.origin {
            if origin == place {
                kept.origin = None;
            }
        }
    }
}

/// No version follows the one at the place any more.
fn clear(slots: &mut Vec<Option<Kept>>, place: usize)
    ensures { slots.new.items ≡ map (cleared place) slots.old.items }
{
    for i in 0..slots.len() {
        clear_one(&mut slots[i], place);
    }
}

/// Puts something into a slot, if it is there.
pub(crate) fn set(slots: &mut Vec<Option<Kept>>, place: usize, kept: Option<Kept>)
    ensures { slots.new.items ≡ slice_set slots.old.items place kept }
{
    if place < slots.len() {
        slots[place] = kept;
    }
}

/// Empties the slot.
pub(crate) fn empty(slots: &mut Vec<Option<Kept>>, place: usize)
    ensures { slots.new.items ≡ slice_set (map (cleared place) slots.old.items) place None }
{
    clear(slots, place);
    set(slots, place, None);
}

/// An empty slot, or a new one.
pub(crate) fn room(slots: &mut Vec<Option<Kept>>) -> Result<usize, Memory>
    ensures alike { Alike slots.old.items slots.new.items }
    ensures inside { IfOk result (λ place. place < length slots.new.items) }
    ensures empty { IfOk result (λ place. slice_index_or slots.new.items place None ≡ None) }
{
    for place in 0..slots.len() {
        if slots[place].is_none() {
            return Ok(place);
        }
    }
    let place = slots.len();
    slots.push(None)?;
    Ok(place)
}

/// What the slot holds.
pub(crate) fn kept_at(slots: &[Option<Kept>], place: usize) -> Option<&Kept>
    ensures { option_copied result ≡ slice_index_or slots.now place None }
{
    if place < slots.len() {
        slots[place].as_ref()
    } else {
        None
    }
}

/// The version at a place.
pub(crate) fn version_at(slots: &[Option<Kept>], place: usize) -> Option<&TableVersion>
    ensures { option_copied result ≡ version_in (slice_index_or slots.now place None) }
{
    match kept_at(slots, place) {
        Some(kept) => Some(&kept.version),
        None => None,
    }
}

/// The version at the place, where one is named.
pub(crate) fn named_at(slots: &[Option<Kept>], place: Option<usize>) -> Option<&TableVersion>
    ensures { option_copied result ≡ at_place (versions slots.now) place }
{
    version_at(slots, place?)
}

/// Whether there is a version at the place, where one is named.
pub(crate) fn is_there(slots: &[Option<Kept>], place: Option<usize>) -> bool
    ensures { result ≡ is_some (at_place (versions slots.now) place) }
{
    named_at(slots, place).is_some()
}

/// The place of the version that the one at a place follows.
pub(crate) fn origin_at(slots: &[Option<Kept>], place: usize) -> Option<usize>
    ensures { result ≡ origin_in (slice_index_or slots.now place None) }
{
    kept_at(slots, place)?.origin
}
