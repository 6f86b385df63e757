//! Bits of slots.
ghost use Rattle.std.specs.Prelude.{◌≡◌, ◌+◌, ◌*◌, ◌<◌, ◌^◌};
ghost use Rattle.shadow_records.specs.Cells.{of_bits};
ghost use Rattle.shadow_records.specs.PlacedTables.{row_at};
ghost use Rattle.table_bodies.specs.Units.{IsUnitRecord};
ghost use Rattle.table_bodies.specs.inner.Parts.{bit_of};

use crate::UnitRecord;
use crate::cells::is_true;
use crate::rows::rowid_at;
use table_version::TableVersion;

impl UnitRecord {
    /// The bit of a slot.
    fn bit(&self, table: &TableVersion, chunk: u32, slot: u16) -> bool
        requires { IsUnitRecord table.now.table.schema.columns self.now }
        ensures { result ≡ bit_of self.now (row_at table.now.table.rows chunk slot) }
    {
        match self {
            UnitRecord::Used => rowid_at(table, chunk, slot).is_some(),
            UnitRecord::Rowids => false,
            UnitRecord::Truths(column) => is_true(table, *column, chunk, slot),
            UnitRecord::Cells(_) => false,
        }
    }

    /// The byte of the bits of eight slots, the first in the lowest bit.
    pub(crate) fn bits(&self, table: &TableVersion, chunk: u32, at: u16) -> u8
        requires record { IsUnitRecord table.now.table.schema.columns self.now }
        requires low { 8 * at + 8 < 2 ^ 16 }
        ensures { result ≡ of_bits (λ bit. bit_of self.now (row_at table.now.table.rows chunk (8 * at + bit))) 8 }
    {
        let mut byte = 0;
        for bit in 0..8 {
            if self.bit(table, chunk, 8 * at + bit) {
                byte += 1 << bit;
            }
        }
        byte
    }
}
