//! What is read of the rows of a table.
ghost use Rattle.std.specs.Prelude.{◌≡◌, ℕ, ◌<◌, length, true, None, IfOk, IfSome, MatchOption, is_some};
ghost use Rattle.std.specs.Option.{option_copied, option_map};
ghost use Rattle.chunk_slots.specs.Slots.{rowid_of as rowid_in_slot, slot_at};
ghost use Rattle.row_model.specs.Change.{rows_vector_bytes};
ghost use Rattle.shadow_records.specs.PlacedTables.{IsPlaced, first_in, plain_rows, row_at, row_of};
ghost use Rattle.table_version.specs.Inserting.{partition_in};
ghost use Rattle.table_version.specs.Kept.{widths_of};
ghost use Rattle.table_version.specs.Versions.{Follows, next_row, row_with_id, rowid_in, slot_of_row};

use crate::TableVersion;
use crate::columns::row_bytes;
use crate::row_view::RowView;
use chunk_slots::Chunk;
use std::alloc::Global;
use vec_base::{List, Memory, Value};

impl TableVersion {
    /// The table is a valid one, and its rows have sound places. The call does nothing: its clause is all that it gives.
    pub fn known(&self)
        ensures { IsPlaced self.now.table }
    {
        let _top = self.top;
    }

    /// The least rowid of a row above one, or the least of all.
    #[tactic(auto, using(crate::proofs::ReaderLaws::next_rowid))]
    pub fn next_rowid(&self, after: Option<i64>) -> Option<i64>
        ensures { result ≡ option_map rowid_in (next_row after self.now.table.rows) }
    {
        self.rows.next(after)
    }

    /// The rowid of the row whose text key is this text.
    #[tactic(auto, using(crate::proofs::ReaderLaws::rowid_of_id))]
    pub fn rowid_of(&self, id: &str) -> Option<i64>
        ensures { result ≡ option_map rowid_in (row_with_id self.now.table.schema.columns id.now self.now.table.rows) }
    {
        self.rows.rowid_of(id)
    }

    /// The least number above another of a chunk that has a row.
    pub fn next_chunk(&self, after: u32) -> Option<u32>
        ensures { MatchOption result
            ((d : ℕ) → after < d → first_in self.now.table.rows d ≡ None)
            (λ c. (after < c) × (is_some (first_in self.now.table.rows c) ≡ true) × ((d : ℕ) → after < d → d < c → first_in self.now.table.rows d ≡ None)) }
    {
        self.rows.next_chunk(after)
    }

    /// The row of a rowid.
    #[tactic(auto, using(crate::proofs::ViewLaws::row_there, crate::proofs::ViewLaws::none_there))]
    pub fn row(&self, rowid: &i64) -> Option<RowView<'_>>
        ensures row { row_of self.now.table.rows rowid.now ≡ option_map (λ view. view.placed) result }
        ensures columns { IfSome result (λ view. view.columns ≡ self.now.table.schema.columns) }
    {
        let row = self.rows.row(rowid)?;
        Some(RowView {
            rowid: *rowid,
            row,
            schema: &self.schema,
        })
    }

    /// The slots of a chunk, where it has a row.
    pub fn slots(&self, chunk: u32) -> Option<&Chunk>
        ensures there { is_some result ≡ is_some (first_in self.now.table.rows chunk) }
        ensures slots { IfSome result (λ slots. (slot : ℕ) → slot_at slots.now slot ≡ option_map slot_of_row (row_at self.now.table.rows chunk slot)) }
        ensures size { IfSome result (λ slots. length slots.now.slots ≡ self.now.table.schema.chunk_size) }
        ensures widths { IfSome result (λ slots. slots.now.widths ≡ widths_of self.now.table.schema.columns) }
    {
        match self.rows.slots(chunk) {
            Some(rows) => Some(rows.slots()),
            None => None,
        }
    }

    /// The partition values of the rows of a chunk.
    pub fn partition(&self, chunk: u32) -> Option<&List<Value>>
        ensures { option_copied result ≡ option_map (partition_in self.now.table.schema.columns) (first_in self.now.table.rows chunk) }
    {
        self.rows.partition(chunk)
    }

    /// The bytes of all vectors of all rows.
    #[tactic(auto, using(crate::proofs::VectorBytes::row_fits, crate::proofs::VectorBytes::rows_fit, crate::proofs::VectorBytes::rows_counted))]
    pub fn vector_bytes(&self) -> u64
        ensures { result ≡ rows_vector_bytes (plain_rows self.now.table.rows) }
    {
        self.rows.len() * row_bytes(self.schema.columns.as_slice())
    }

    /// An equal table that follows this one. A later change of one leaves the other.
    pub fn share(&self, alloc: Global) -> Result<TableVersion, Memory>
        ensures table { IfOk result (λ other. other.table ≡ self.now.table) }
        ensures follows { IfOk result (λ other. Follows self.now.table other) }
    {
        Ok(TableVersion {
            name: self.name.copy(alloc)?,
            schema: self.schema.copy(alloc)?,
            top: self.top,
            rows: self.rows.share(alloc)?,
            side_bytes: self.side_bytes,
        })
    }
}
