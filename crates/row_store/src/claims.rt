//! Steps of a change of rows, each of which leaves the rows that are seen as they are: a place is claimed, its rowid gets an entry, and what a
//! change that found no memory has left behind is given back.
ghost use Rattle.std.specs.Prelude.{◌≡◌, ◌<◌, true, None, Some, IfOk, IfSome, MatchOption, OnErr, OnOk};
ghost use Rattle.std.specs.Option.{option_copied};
ghost use Rattle.row_index.specs.Entries.{entry_of, rowid_of, with_entry};
ghost use Rattle.slot_alloc.specs.Places.{PlaceMap, partition_of_chunk};
ghost use Rattle.row_store.specs.inner.Widening.{IsWider};
ghost use Rattle.slot_alloc.specs.SlotRule.{IsPlaceFor, chunk_of, slot_of};
ghost use Rattle.row_store.specs.StoredRows.{row_of, row_with_id, PlacesAre};
ghost use Rattle.row_store.specs.inner.Views.{rows_of, seen_rows, AreTied, IsClaimed, IsFoundRow, IsReady};

use crate::RowPlace;
use crate::part::Part;
use crate::rows::Rows;
use crate::touched::Touched;
use row_index::RowIndex;
use shared_leaves::{Leaves, Shared};
use slot_alloc::{Place, Places};
use std::alloc::Global;
use vec_base::{List, Memory, Value};

/// Gives back what a change that found no memory has left behind. The rows are as before, also after want of memory.
pub(crate) fn settle(
    alloc: Global,
    parts: &Leaves<Shared<Part>>,
    places: &mut Places,
    index: &mut RowIndex,
    claim: &mut Option<RowPlace>,
) -> Result<(), Memory>
    requires { AreTied parts.now places.old index.old claim.old }
    ensures tied { AreTied parts.now places.new index.new claim.new }
    ensures rows { rows_of parts.now places.new index.new ≡ rows_of parts.now places.old index.old }
    ensures size { places.new.size ≡ places.old.size }
    ensures settled { OnOk result (claim.new ≡ None) }
{
    let Some(left) = *claim else {
        return Ok(());
    };
    index.known();
    index.remove(alloc, left.rowid)?;
    places.give_back(left.chunk, left.slot)?;
    *claim = None;
    Ok(())
}

/// The chunk and the slot of a place.
fn numbers(place: Place) -> (u32, u16)
    ensures chunk { result.0 ≡ chunk_of place }
    ensures slot { result.1 ≡ slot_of place }
{
    match place {
        Place::Slot(chunk, slot) => (chunk, slot),
        Place::NewChunk(chunk) => (chunk, 0),
    }
}

/// Claims the place that a new row with these partition values takes. The rows are as before, also after want of memory.
pub(crate) fn claim_place(
    alloc: Global,
    parts: &Leaves<Shared<Part>>,
    places: &mut Places,
    index: &RowIndex,
    claim: &mut Option<RowPlace>,
    rowid: &i64,
    partition: &List<Value>,
) -> Result<RowPlace, Memory>
    requires settled { claim.old ≡ None }
    requires tied { AreTied parts.now places.old index.now None }
    requires fresh { row_of rowid.now (rows_of parts.now places.old index.now) ≡ None }
    ensures rows { rows_of parts.now places.new index.now ≡ rows_of parts.now places.old index.now }
    ensures tied { AreTied parts.now places.new index.now claim.new }
    ensures size { places.new.size ≡ places.old.size }
    ensures claimed { IfOk result (λ place. IsClaimed places.old places.new partition.now rowid.now place claim.new) }
{
    places.known();
    index.known();
    let (chunk, slot) = numbers(places.take(alloc, partition)?);
    places.known();
    let place = RowPlace {
        rowid: *rowid,
        chunk,
        slot,
    };
    *claim = Some(place);
    Ok(place)
}

/// The rowid of a claim gets its entry. The rows are as before, also after want of memory.
pub(crate) fn enter(
    alloc: Global,
    parts: &Leaves<Shared<Part>>,
    places: &Places,
    index: &mut RowIndex,
    place: &RowPlace,
    id: Option<&str>,
) -> Result<(), Memory>
    requires tied { AreTied parts.now places.now index.old (Some place.now) }
    requires none { entry_of place.now.rowid index.old ≡ None }
    requires own_id { IfSome id (λ text. rowid_of text.now index.old ≡ None) }
    ensures tied { AreTied parts.now places.now index.new (Some place.now) }
    ensures rows { rows_of parts.now places.now index.new ≡ rows_of parts.now places.now index.old }
    ensures entry { OnOk result (entry_of place.now.rowid index.new ≡ Some (record { rowid = place.now.rowid; chunk = place.now.chunk; slot = place.now.slot; id = option_copied id.entry })) }
{
    index.put(alloc, place.rowid, place.chunk, place.slot, id)
}

/// A place is claimed for a new row, touched, and named by an entry. The rows are as before, also after want of memory.
pub(crate) fn prepare(
    alloc: Global,
    rows: &mut Rows,
    touched: &mut Touched,
    rowid: &i64,
    id: Option<&str>,
    partition: &List<Value>,
) -> Result<RowPlace, Memory>
    requires tied { AreTied rows.old.parts rows.old.places rows.old.index rows.old.claim }
    requires size { touched.old.places.size ≡ rows.old.places.size }
    requires fresh { row_of rowid.now (seen_rows rows.old) ≡ None }
    requires own_id { IfSome id (λ text. row_with_id text.now (seen_rows rows.old) ≡ None) }
    ensures parts { rows.new.parts ≡ rows.old.parts }
    ensures tied { AreTied rows.new.parts rows.new.places rows.new.index rows.new.claim }
    ensures rows { seen_rows rows.new ≡ seen_rows rows.old }
    ensures size { rows.new.places.size ≡ rows.old.places.size }
    ensures wider { IsWider touched.old touched.new }
    ensures ready { IfOk result (λ place. (old : PlaceMap) × (PlacesAre rows.old.places.size (seen_rows rows.old) old × IsReady old rows.new touched.new partition.now rowid.now (option_copied id.entry) place)) }
{
    settle(
        alloc,
        &rows.parts,
        &mut rows.places,
        &mut rows.index,
        &mut rows.claim,
    )?;
    rows.index.known();
    rows.places.known();
    let place = claim_place(
        alloc,
        &rows.parts,
        &mut rows.places,
        &rows.index,
        &mut rows.claim,
        rowid,
        partition,
    )?;
    touched.touch(alloc, &place)?;
    enter(
        alloc,
        &rows.parts,
        &rows.places,
        &mut rows.index,
        &place,
        id,
    )?;
    Ok(place)
}

/// The place of a row that is to go, which is touched then; none where there is no row of the rowid. The rows are as before, also after want
/// of memory, and nothing is left behind where a place is answered.
pub(crate) fn find(
    alloc: Global,
    rows: &mut Rows,
    touched: &mut Touched,
    rowid: &i64,
) -> Result<Option<RowPlace>, Memory>
    requires tied { AreTied rows.old.parts rows.old.places rows.old.index rows.old.claim }
    requires size { touched.old.places.size ≡ rows.old.places.size }
    ensures parts { rows.new.parts ≡ rows.old.parts }
    ensures tied { AreTied rows.new.parts rows.new.places rows.new.index rows.new.claim }
    ensures rows { seen_rows rows.new ≡ seen_rows rows.old }
    ensures size { rows.new.places.size ≡ rows.old.places.size }
    ensures wider { IsWider touched.old touched.new }
    ensures found { IfOk result (λ found. MatchOption found (row_of rowid.now (seen_rows rows.old) ≡ None) (λ place. IsFoundRow rows.new touched.new rowid.now place)) }
{
    settle(
        alloc,
        &rows.parts,
        &mut rows.places,
        &mut rows.index,
        &mut rows.claim,
    )?;
    rows.index.known();
    rows.places.known();
    let Some((chunk, slot)) = rows.index.place(*rowid) else {
        return Ok(None);
    };
    let place = RowPlace {
        rowid: *rowid,
        chunk,
        slot,
    };
    touched.touch(alloc, &place)?;
    Ok(Some(place))
}

/// Gives back what is left behind, where there is memory. The rows are as before.
pub(crate) fn try_settle(alloc: Global, rows: &mut Rows)
    requires tied { AreTied rows.old.parts rows.old.places rows.old.index rows.old.claim }
    ensures parts { rows.new.parts ≡ rows.old.parts }
    ensures tied { AreTied rows.new.parts rows.new.places rows.new.index rows.new.claim }
    ensures rows { seen_rows rows.new ≡ seen_rows rows.old }
    ensures size { rows.new.places.size ≡ rows.old.places.size }
{
    let _ = settle(
        alloc,
        &rows.parts,
        &mut rows.places,
        &mut rows.index,
        &mut rows.claim,
    );
}
