//! Rows by their places.
ghost use Rattle.std.specs.Prelude.{◌≡◌, IfSome};
ghost use Rattle.std.specs.Option.{option_map};
ghost use Rattle.shadow_records.specs.PlacedTables.{row_at};
ghost use Rattle.table_version.specs.Versions.{rowid_in};

use table_version::{RowView, TableVersion};

/// The rowid of the row at a place.
#[tactic(auto, using(crate::proofs::PlaceLaws::no_chunk, crate::proofs::PlaceLaws::past_slots, crate::proofs::PlaceLaws::rowid_there))]
pub(crate) fn rowid_at(table: &TableVersion, chunk: u32, slot: u16) -> Option<i64>
    ensures { result ≡ option_map rowid_in (row_at table.now.table.rows chunk slot) }
{
    let slots = table.slots(chunk)?;
    if slot >= slots.size() {
        return None;
    }
    slots.rowid(slot)
}

/// The row at a place.
#[tactic(auto, using(crate::proofs::PlaceLaws::none_at, crate::proofs::PlaceLaws::row_there))]
pub fn row_in(table: &TableVersion, chunk: u32, slot: u16) -> Option<RowView<'_>>
    ensures row { row_at table.now.table.rows chunk slot ≡ option_map (λ view. view.placed) result }
    ensures columns { IfSome result (λ view. view.columns ≡ table.now.table.schema.columns) }
{
    table.known();
    let rowid = rowid_at(table, chunk, slot)?;
    table.row(&rowid)
}
