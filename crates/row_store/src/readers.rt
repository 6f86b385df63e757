//! What is read of the rows of a store.
ghost use Rattle.std.specs.Prelude.{◌≡◌, ℕ, ◌<◌, ◌^◌, true, [], length, map, None, Some, IfOk, IfSome, MatchOption, is_some};
ghost use Rattle.std.specs.List.{AllByRecursion, AllPairs};
ghost use Rattle.std.specs.Option.{option_copied, option_map};
ghost use Rattle.row_chunks.specs.RowSlots.{slot_at};
ghost use Rattle.row_store.specs.Keyed.{keys_rise};
ghost use Rattle.row_store.specs.StoredRows.{rowid_of, row_of, row_at, first_in, row_with_id, next_row};
ghost use Rattle.row_store.specs.Touches.{Follows};
ghost use Rattle.row_store.specs.Shown.{shown, held_of};
ghost use Rattle.row_store.specs.inner.Parts.{numbers_rise, slots_of};
ghost use Rattle.row_store.specs.inner.Views.{is_claimed_rowid, seen_rows, AreTied};

use crate::parts;
use crate::place::RowPlace;
use crate::rows::Rows;
use crate::store::RowStore;
use crate::touched::Touched;
use row_chunks::RowChunk;
use std::alloc::Global;
use vec_base::{List, Memory, Value};

/// A row as it lies in its chunk.
#[derive(Drop)]
pub struct RowRef<'a> {
    pub chunk: u32,
    pub slot: u16,
    pub id: Option<&'a str>,
    pub partition: &'a List<Value>,
    pub slots: &'a RowChunk,
}

/// Whether the rowid is that of a claim, which has no row.
fn is_claimed(claim: &Option<RowPlace>, rowid: &i64) -> bool
    ensures { result ≡ is_claimed_rowid claim.now rowid.now }
{
    match claim {
        Some(place) => place.rowid == *rowid,
        None => false,
    }
}

/// The least rowid of a row above one, or the least of all.
fn next_rowid(rows: &Rows, after: Option<i64>) -> Option<i64>
    requires { AreTied rows.now.parts rows.now.places rows.now.index rows.now.claim }
    ensures { result ≡ option_map rowid_of (next_row after (seen_rows rows.now)) }
{
    rows.index.known();
    let rowid = rows.index.next(after)?;
    if is_claimed(&rows.claim, &rowid) {
        rows.index.next(Some(rowid))
    } else {
        Some(rowid)
    }
}

/// The rowid of the row that has an id.
fn rowid_with_id(rows: &Rows, id: &str) -> Option<i64>
    requires { AreTied rows.now.parts rows.now.places rows.now.index rows.now.claim }
    ensures { result ≡ option_map rowid_of (row_with_id id.now (seen_rows rows.now)) }
{
    rows.index.known();
    let rowid = rows.index.rowid_of(id)?;
    if is_claimed(&rows.claim, &rowid) {
        None
    } else {
        Some(rowid)
    }
}

/// The row of a rowid.
fn row_with<'a>(rows: &'a Rows, rowid: &i64) -> Option<RowRef<'a>>
    requires tied { AreTied rows.now.parts rows.now.places rows.now.index rows.now.claim }
    requires rise { numbers_rise rows.now.parts ≡ true }
    ensures row { row_of rowid.now (seen_rows rows.now) ≡ option_map (shown rowid.now) result }
    ensures used { IfSome result (λ row. is_some (slot_at row.slots.now row.slot) ≡ true) }
    ensures slots { IfSome result (λ row. slots_of rows.now.parts row.chunk ≡ Some row.slots.now) }
{
    rows.index.known();
    let (chunk, slot) = rows.index.place(*rowid)?;
    if is_claimed(&rows.claim, rowid) {
        return None;
    }
    Some(RowRef {
        chunk,
        slot,
        id: rows.index.id(*rowid),
        partition: rows.places.partition(chunk)?,
        slots: parts::slots(&rows.parts, chunk)?,
    })
}

/// Equal rows. A later change of one leaves the other.
pub(crate) fn share_rows(rows: &Rows) -> Result<Rows, Memory>
    ensures { IfOk result (λ other. other ≡ rows.now) }
{
    Ok(Rows {
        parts: rows.parts.share()?,
        places: rows.places.share()?,
        index: rows.index.share()?,
        claim: rows.claim,
    })
}

impl RowStore {
    /// What holds of the rows of every store. The call does nothing: its clauses are all that it gives.
    pub fn known(&self)
        ensures rising { keys_rise rowid_of self.now.rows ≡ true }
        ensures positive { AllByRecursion (λ row. 0 < row.chunk) self.now.rows }
        ensures narrow { AllByRecursion (λ row. row.chunk < 2 ^ 32) self.now.rows }
        ensures within { AllByRecursion (λ row. row.slot < self.now.size) self.now.rows }
        ensures widths { AllByRecursion (λ row. map length row.vectors ≡ self.now.widths) self.now.rows }
        ensures apart { AllPairs (λ row later. row.chunk ≡ later.chunk → row.slot ≡ later.slot → ⊥) self.now.rows }
        ensures alike { AllPairs (λ row later. row.chunk ≡ later.chunk → row.partition ≡ later.partition) self.now.rows }
    {
        self.rows.index.known();
        self.rows.places.known();
    }

    /// The least rowid of a row above one, or the least of all.
    pub fn next(&self, after: Option<i64>) -> Option<i64>
        ensures { result ≡ option_map rowid_of (next_row after self.now.rows) }
    {
        next_rowid(&self.rows, after)
    }

    /// The rowid of the row that has an id.
    pub fn rowid_of(&self, id: &str) -> Option<i64>
        ensures { result ≡ option_map rowid_of (row_with_id id.now self.now.rows) }
    {
        rowid_with_id(&self.rows, id)
    }

    /// The row of a rowid.
    pub fn row(&self, rowid: &i64) -> Option<RowRef<'_>>
        ensures row { row_of rowid.now self.now.rows ≡ option_map (shown rowid.now) result }
        ensures used { IfSome result (λ row. is_some (slot_at row.slots.now row.slot) ≡ true) }
        ensures size { IfSome result (λ row. length row.slots.now.slots ≡ self.now.size) }
        ensures widths { IfSome result (λ row. row.slots.now.widths ≡ self.now.widths) }
        ensures kinds { IfSome result (λ row. row.slots.now.kinds ≡ self.now.kinds) }
    {
        row_with(&self.rows, rowid)
    }

    /// The slots of a chunk, where it has a row.
    pub fn slots(&self, chunk: u32) -> Option<&RowChunk>
        ensures there { is_some result ≡ is_some (first_in self.now.rows chunk) }
        ensures slots { IfSome result (λ slots. (slot : ℕ) → slot_at slots.now slot ≡ option_map held_of (row_at self.now.rows chunk slot)) }
        ensures size { IfSome result (λ slots. length slots.now.slots ≡ self.now.size) }
        ensures widths { IfSome result (λ slots. slots.now.widths ≡ self.now.widths) }
        ensures kinds { IfSome result (λ slots. slots.now.kinds ≡ self.now.kinds) }
    {
        self.rows.index.known();
        parts::slots(&self.rows.parts, chunk)
    }

    /// The partition values of the rows of a chunk.
    pub fn partition(&self, chunk: u32) -> Option<&List<Value>>
        ensures { option_copied result ≡ option_map (λ row. row.partition) (first_in self.now.rows chunk) }
    {
        self.rows.index.known();
        if parts::slots(&self.rows.parts, chunk).is_none() {
            return None;
        }
        self.rows.places.partition(chunk)
    }

    /// The least number above another of a chunk that has a row.
    pub fn next_chunk(&self, after: u32) -> Option<u32>
        ensures { MatchOption result
            ((d : ℕ) → after < d → first_in self.now.rows d ≡ None)
            (λ c. (after < c) × (is_some (first_in self.now.rows c) ≡ true) × ((d : ℕ) → after < d → d < c → first_in self.now.rows d ≡ None)) }
    {
        self.rows.index.known();
        parts::next_number(&self.rows.parts, after)
    }

    /// An equal store, of which nothing is touched. A later change of one leaves the other.
    pub fn share(&self, alloc: Global) -> Result<RowStore, Memory>
        ensures rows { IfOk result (λ other. other.rows ≡ self.now.rows) }
        ensures size { IfOk result (λ other. other.size ≡ self.now.size) }
        ensures widths { IfOk result (λ other. other.widths ≡ self.now.widths) }
        ensures kinds { IfOk result (λ other. other.kinds ≡ self.now.kinds) }
        ensures no_row_touched { IfOk result (λ other. other.touches.rows ≡ []) }
        ensures no_place_touched { IfOk result (λ other. other.touches.places.chunks ≡ []) }
        ensures follows { IfOk result (λ other. Follows self.now.rows other) }
    {
        self.rows.places.known();
        Ok(RowStore {
            shape: self.shape.share(alloc)?,
            rows: share_rows(&self.rows)?,
            count: self.count,
            touched: Touched::new(alloc, self.shape.size)?,
        })
    }
}
