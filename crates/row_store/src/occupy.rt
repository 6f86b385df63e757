//! Steps of a row that takes a named place. Each leaves the rows that are seen as they are.
ghost use Rattle.std.specs.Prelude.{◌≡◌, ◌<◌, None, Some, IfSome, OnErr, OnOk};
ghost use Rattle.std.specs.Option.{option_copied};
ghost use Rattle.slot_alloc.specs.Places.{partition_of_chunk};
ghost use Rattle.row_store.specs.StoredRows.{StoredRow, first_in, row_at, row_of, row_with_id};
ghost use Rattle.row_store.specs.inner.Views.{rows_of, seen_rows, AreTied, IsEntered};

use crate::RowPlace;
use crate::claims::{enter, settle};
use crate::part::Part;
use crate::rows::Rows;
use row_index::RowIndex;
use shared_leaves::{Leaves, Shared};
use slot_alloc::Places;
use std::alloc::Global;
use vec_base::{List, Memory, Value};

/// Claims a free place for a new row, whose partition values are those of the rows of its chunk. The rows are as before, also after want of
/// memory.
fn claim_at(
    alloc: Global,
    parts: &Leaves<Shared<Part>>,
    places: &mut Places,
    index: &RowIndex,
    claim: &mut Option<RowPlace>,
    place: &RowPlace,
    partition: &List<Value>,
) -> Result<(), Memory>
    requires settled { claim.old ≡ None }
    requires tied { AreTied parts.now places.old index.now None }
    requires fresh { row_of place.now.rowid (rows_of parts.now places.old index.now) ≡ None }
    requires chunk { 0 < place.now.chunk }
    requires slot { place.now.slot < places.old.size }
    requires free { row_at (rows_of parts.now places.old index.now) place.now.chunk place.now.slot ≡ None }
    requires alike { (row : StoredRow) → first_in (rows_of parts.now places.old index.now) place.now.chunk ≡ Some row → row.partition ≡ partition.now }
    ensures rows { rows_of parts.now places.new index.now ≡ rows_of parts.now places.old index.now }
    ensures tied { AreTied parts.now places.new index.now claim.new }
    ensures size { places.new.size ≡ places.old.size }
    ensures claimed { OnOk result (claim.new ≡ Some place.now) }
    ensures values { OnOk result (partition_of_chunk places.new place.now.chunk ≡ Some partition.now) }
{
    places.known();
    index.known();
    places.occupy(alloc, place.chunk, place.slot, partition)?;
    *claim = Some(*place);
    Ok(())
}

/// A free place is claimed for a new row, and named by an entry. The rows are as before, also after want of memory.
pub(crate) fn prepare_at(
    alloc: Global,
    rows: &mut Rows,
    place: &RowPlace,
    id: Option<&str>,
    partition: &List<Value>,
) -> Result<(), Memory>
    requires tied { AreTied rows.old.parts rows.old.places rows.old.index rows.old.claim }
    requires fresh { row_of place.now.rowid (seen_rows rows.old) ≡ None }
    requires own_id { IfSome id (λ text. row_with_id text.now (seen_rows rows.old) ≡ None) }
    requires chunk { 0 < place.now.chunk }
    requires slot { place.now.slot < rows.old.places.size }
    requires free { row_at (seen_rows rows.old) place.now.chunk place.now.slot ≡ None }
    requires alike { (row : StoredRow) → first_in (seen_rows rows.old) place.now.chunk ≡ Some row → row.partition ≡ partition.now }
    ensures parts { rows.new.parts ≡ rows.old.parts }
    ensures tied { AreTied rows.new.parts rows.new.places rows.new.index rows.new.claim }
    ensures rows { seen_rows rows.new ≡ seen_rows rows.old }
    ensures size { rows.new.places.size ≡ rows.old.places.size }
    ensures entered { OnOk result (IsEntered rows.new partition.now (option_copied id.entry) place.now) }
{
    settle(
        alloc,
        &rows.parts,
        &mut rows.places,
        &mut rows.index,
        &mut rows.claim,
    )?;
    rows.index.known();
    claim_at(
        alloc,
        &rows.parts,
        &mut rows.places,
        &rows.index,
        &mut rows.claim,
        place,
        partition,
    )?;
    enter(alloc, &rows.parts, &rows.places, &mut rows.index, place, id)?;
    Ok(())
}
