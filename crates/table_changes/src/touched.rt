//! What of a chunk was touched.
ghost use Rattle.std.specs.Prelude.{◌≡◌, ◌<◌, ◌/◌, ◌%◌, ℕ, true, IfOk, OnOk};
ghost use Rattle.vec_base.specs.Forms.{is_listed};
ghost use Rattle.row_store.specs.Touches.{is_touched_place};
ghost use Rattle.shadow_records.specs.PlacedTables.{PlacedTable};
ghost use Rattle.table_version.specs.Versions.{Follows};
ghost use Rattle.table_changes.specs.inner.Touching.{AddsPlace, IsTouched, are_below};

use std::alloc::Global;
use table_version::TableVersion;
use vec_base::{List, Memory};

/// The touched slots of a chunk, and the bytes in which their bits stand.
#[derive(Drop)]
pub(crate) struct Touched {
    pub(crate) chunk: u32,
    pub(crate) slots: List<u16>,
    pub(crate) bytes: List<u16>,
}

/// The touched slots of a chunk.
fn touched_slots(alloc: Global, table: &TableVersion, chunk: u32) -> Result<List<u16>, Memory>
    ensures below { IfOk result (λ slots. are_below table.now.table.schema.chunk_size slots ≡ true) }
    ensures listed { IfOk result (λ slots. (s : ℕ) → s < table.now.table.schema.chunk_size → is_touched_place table.now.touches chunk s ≡ true → is_listed slots s ≡ true) }
{
    let mut slots = List::new(alloc);
    for slot in 0..table.schema().chunk_size {
        if table.is_touched(chunk, slot) {
            slots.push(slot)?;
        }
    }
    Ok(slots)
}

/// Whether the byte is the last one.
fn is_last(bytes: &List<u16>, byte: u16) -> bool
    ensures { result ≡ true → is_listed bytes.now byte ≡ true }
{
    match bytes.as_slice().last() {
        Some(last) => *last == byte,
        None => false,
    }
}

/// Adds the byte, unless it is the last one.
fn add_byte(bytes: &mut List<u16>, byte: u16) -> Result<(), Memory>
    ensures { OnOk result (AddsPlace byte bytes.old bytes.new) }
{
    if is_last(bytes, byte) {
        return Ok(());
    }
    bytes.push(byte)
}

/// The bytes in which the bits of these slots stand.
fn bytes_of(alloc: Global, slots: &List<u16>, size: u16) -> Result<List<u16>, Memory>
    requires eights { size % 8 ≡ 0 }
    requires below { are_below size slots.now ≡ true }
    ensures below { IfOk result (λ bytes. are_below (size / 8) bytes ≡ true) }
    ensures listed { IfOk result (λ bytes. (s : ℕ) → is_listed slots.now s ≡ true → is_listed bytes (s / 8) ≡ true) }
{
    let mut bytes = List::new(alloc);
    for slot in slots.as_slice() {
        add_byte(&mut bytes, *slot / 8)?;
    }
    Ok(bytes)
}

impl Touched {
    /// What of a chunk was touched.
    pub(crate) fn of(alloc: Global, table: &TableVersion, chunk: u32) -> Result<Touched, Memory>
        ensures chunk { IfOk result (λ touched. touched.chunk ≡ chunk) }
        ensures touched { IfOk result (λ touched. (older : PlacedTable) → Follows older table.now → IsTouched older.rows table.now.table.rows table.now.table.schema.chunk_size touched) }
    {
        table.known_touches();
        let slots = touched_slots(alloc, table, chunk)?;
        let bytes = bytes_of(alloc, &slots, table.schema().chunk_size)?;
        Ok(Touched {
            chunk,
            slots,
            bytes,
        })
    }
}
