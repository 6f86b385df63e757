//! Rows that go.
ghost use Rattle.std.specs.Prelude.{◌≡◌, ◌+◌, ◌<◌, ◌^◌, true, sum_by, IfOk, OnErr, OnOk, is_some};
ghost use Rattle.std.specs.Option.{option_copied};
ghost use Rattle.row_model.specs.Values.{side_bytes};
ghost use Rattle.row_chunks.specs.RowSlots.{cells_in, slot_at};
ghost use Rattle.row_store.specs.StoredRows.{row_of as stored_of};
ghost use Rattle.shadow_records.specs.PlacedTables.{row_of};
ghost use Rattle.table_version.specs.PlacedRows.{table_without};
ghost use Rattle.table_version.specs.Versions.{KeepsOrigin};
ghost use Rattle.table_version.specs.inner.StoredBytes.{bytes_at, id_side};

use crate::TableVersion;
use crate::given::all_side_bytes;
use row_store::{RowRef, RowStore};
use std::alloc::Global;
use vec_base::Memory;

/// The bytes of a text id.
fn id_bytes(id: Option<&str>) -> u64
    ensures { result ≡ id_side (option_copied id.entry) }
{
    match id {
        Some(text) => text.len() as u64,
        None => 0,
    }
}

/// The bytes of what is kept of a row's texts and blobs.
fn kept_bytes(row: &RowRef<'_>) -> u64
    requires used { is_some (slot_at row.now.slots.now row.now.slot) ≡ true }
    requires short { id_side (option_copied row.now.id) + sum_by side_bytes row.now.partition.now + sum_by side_bytes (cells_in (slot_at row.now.slots.now row.now.slot)) < 2 ^ 64 }
    ensures { result ≡ id_side (option_copied row.now.id) + sum_by side_bytes row.now.partition.now + sum_by side_bytes (cells_in (slot_at row.now.slots.now row.now.slot)) }
{
    id_bytes(row.id) + all_side_bytes(row.partition.as_slice()) + row.slots.side_bytes(row.slot)
}

/// The bytes of the texts and blobs of the row of a rowid, if there is one.
fn bytes_of(rows: &RowStore, rowid: &i64) -> u64
    requires { bytes_at (stored_of rowid.now rows.now.rows) < 2 ^ 64 }
    ensures { result ≡ bytes_at (stored_of rowid.now rows.now.rows) }
{
    match rows.row(rowid) {
        Some(row) => kept_bytes(&row),
        None => 0,
    }
}

impl TableVersion {
    /// The row of a rowid goes. Answers whether it was there. After want of memory the table is as before.
    pub fn remove(&mut self, alloc: Global, rowid: &i64) -> Result<bool, Memory>
        ensures kept { OnErr result (self.new.table ≡ self.old.table) }
        ensures table { OnOk result (self.new.table ≡ table_without self.old.table rowid.now) }
        ensures answer { IfOk result (λ was_there. was_there ≡ is_some (row_of self.old.table.rows rowid.now)) }
        ensures origin { KeepsOrigin self.old self.new }
    {
        let bytes = bytes_of(&self.rows, rowid);
        let was_there = self.rows.remove(alloc, rowid)?;
        self.side_bytes -= bytes;
        Ok(was_there)
    }
}
