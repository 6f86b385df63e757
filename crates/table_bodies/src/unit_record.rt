//! Records of a chunk that are made of units of one width behind each other.
ghost use Rattle.std.specs.Prelude.{◌≡◌, ◌++◌, ◌<◌, pos, IfOk, OnOk};
ghost use Rattle.std.specs.Option.{option_map};
ghost use Rattle.shadow_records.specs.Cells.{laid};
ghost use Rattle.shadow_records.specs.Keys.{key_of};
ghost use Rattle.shadow_records.specs.PlacedTables.{first_in};
ghost use Rattle.table_bodies.specs.Units.{IsUnitRecord, cells_record, unit, unit_count, unit_key, unit_width};

use crate::ColumnPlace;
use crate::cells::{write_cell, write_rowid};
use crate::column_place::{cell_width, cells_kind};
use crate::rows::rowid_at;
use row_model::Kind;
use shadow_records::{CHUNK_RECORDS, METADATA_RECORDS};
use std::alloc::Global;
use table_version::TableVersion;
use vec_base::{Bytes, Memory, ShadowKey};

/// A record of a chunk that is made of units of one width behind each other.
#[derive(Clone, Copy, Debug)]
pub enum UnitRecord {
    /// A bit for each slot, which is set where the slot is used. A unit is eight of them.
    Used,
    /// The rowid of each slot.
    Rowids,
    /// A bit for each slot, the truth value in a column. A unit is eight of them.
    Truths(ColumnPlace),
    /// The cell of each slot in a column of vectors, numbers or texts.
    Cells(ColumnPlace),
}

/// The key of a record of a chunk.
fn chunk_key(number: u32, kind: u8, chunk: u32, before: u8) -> ShadowKey
    ensures { result ≡ key_of number kind (pos chunk) (pos before) }
{
    ShadowKey {
        table: number,
        kind,
        a: i64::from(chunk),
        b: i64::from(before),
    }
}

impl UnitRecord {
    /// The record of a column of vectors or of metadata.
    pub fn of_column(column: ColumnPlace) -> UnitRecord
        ensures { result ≡ cells_record column }
    {
        match column.kind {
            Kind::BoolMeta => UnitRecord::Truths(column),
            _ => UnitRecord::Cells(column),
        }
    }

    /// How many units the record has, where a chunk has so many slots.
    pub fn count(&self, size: u16) -> u16
        ensures { result ≡ unit_count self.now size }
    {
        match self {
            UnitRecord::Used => size / 8,
            UnitRecord::Rowids => size,
            UnitRecord::Truths(_) => size / 8,
            UnitRecord::Cells(_) => size,
        }
    }

    /// How many bytes a unit has.
    pub fn width(&self) -> u16
        ensures { result ≡ unit_width self.now }
    {
        match self {
            UnitRecord::Used => 1,
            UnitRecord::Rowids => 8,
            UnitRecord::Truths(_) => 1,
            UnitRecord::Cells(column) => cell_width(column.kind),
        }
    }

    /// The key of the record of a chunk of a table with this number.
    pub fn key(&self, number: u32, chunk: u32) -> ShadowKey
        ensures { result ≡ unit_key number chunk self.now }
    {
        match self {
            UnitRecord::Used => chunk_key(number, CHUNK_RECORDS, chunk, 1),
            UnitRecord::Rowids => chunk_key(number, CHUNK_RECORDS, chunk, 2),
            UnitRecord::Truths(column) => chunk_key(number, METADATA_RECORDS, chunk, column.before),
            UnitRecord::Cells(column) => {
                chunk_key(number, cells_kind(column.kind), chunk, column.before)
            }
        }
    }

    /// Puts the unit at a place of the record of a chunk behind a body.
    fn write_unit(
        &self,
        body: &mut Bytes,
        table: &TableVersion,
        chunk: u32,
        at: u16,
    ) -> Result<(), Memory>
        requires record { IsUnitRecord table.now.table.schema.columns self.now }
        requires within { at < unit_count self.now table.now.table.schema.chunk_size }
        ensures { OnOk result (body.new ≡ body.old ++ unit self.now table.now.table chunk at) }
    {
        table.known();
        match self {
            UnitRecord::Used => body.push(self.bits(table, chunk, at)),
            UnitRecord::Rowids => write_rowid(body, rowid_at(table, chunk, at)),
            UnitRecord::Truths(_) => body.push(self.bits(table, chunk, at)),
            UnitRecord::Cells(column) => write_cell(body, table, *column, chunk, at),
        }
    }

    /// The unit at a place of the record of a chunk.
    pub fn unit(
        &self,
        alloc: Global,
        table: &TableVersion,
        chunk: u32,
        at: u16,
    ) -> Result<Bytes, Memory>
        requires record { IsUnitRecord table.now.table.schema.columns self.now }
        requires within { at < unit_count self.now table.now.table.schema.chunk_size }
        ensures { IfOk result (λ bytes. bytes ≡ unit self.now table.now.table chunk at) }
    {
        let mut body = Bytes::new(alloc);
        self.write_unit(&mut body, table, chunk, at)?;
        Ok(body)
    }

    /// All units of the record of a chunk behind each other.
    fn units(&self, alloc: Global, table: &TableVersion, chunk: u32) -> Result<Bytes, Memory>
        requires { IsUnitRecord table.now.table.schema.columns self.now }
        ensures { IfOk result (λ body. body ≡ laid (unit self.now table.now.table chunk) (unit_count self.now table.now.table.schema.chunk_size)) }
    {
        let count = self.count(table.schema().chunk_size);
        let room = usize::from(count) * usize::from(self.width());
        let mut body = Bytes::from_vec(Vec::with_capacity(alloc, room)?);
        for at in 0..count {
            self.write_unit(&mut body, table, chunk, at)?;
        }
        Ok(body)
    }

    /// The body of the record of a chunk, where the chunk has a row.
    pub(crate) fn whole(
        &self,
        alloc: Global,
        table: &TableVersion,
        chunk: u32,
    ) -> Result<Option<Bytes>, Memory>
        requires { IsUnitRecord table.now.table.schema.columns self.now }
        ensures { IfOk result (λ body. body ≡ option_map (λ first. laid (unit self.now table.now.table chunk) (unit_count self.now table.now.table.schema.chunk_size)) (first_in table.now.table.rows chunk)) }
    {
        match table.slots(chunk) {
            Some(_) => Ok(Some(self.units(alloc, table, chunk)?)),
            None => Ok(None),
        }
    }
}
