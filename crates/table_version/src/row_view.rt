//! A row that is read column by column.
ghost use Rattle.std.specs.Prelude.{false, ◌≡◌, ◌-◌, ◌<◌, true, Some, slice_index_or};
ghost use Rattle.std.specs.Option.{option_copied};
ghost use Rattle.std.specs.List.{list_all};
ghost use Rattle.vec_base.specs.Counts.{raised};
ghost use Rattle.vec_base.specs.declared.value.Value.TheVariants.{Null, Text};
ghost use Rattle.chunk_slots.specs.Slots.{vector_of};
ghost use Rattle.row_chunks.specs.Fields.{value_shown};
ghost use Rattle.row_model.specs.Groups.{kind_in};
ghost use Rattle.row_model.specs.Schemas.{is_vector};
ghost use Rattle.shadow_records.specs.PlacedTables.{value_in};
ghost use Rattle.table_version.specs.Kept.{is_partition_value};
ghost use Rattle.table_version.specs.Viewed.{column_value, is_kind_of, is_vector_column};
ghost use Rattle.table_version.specs.inner.Weaving.{id_text};

use crate::field::shown;
use row_chunks::Field;
use row_model::{Group, Kind, Schema, kind_in};
use row_store::RowRef;
use std::marker::Model;
use vec_base::{Steps, Value};

/// A row of a table.
#[derive(Drop)]
pub struct RowView<'a> {
    pub(crate) rowid: i64,
    pub(crate) row: RowRef<'a>,
    pub(crate) schema: &'a Schema,
}

impl<'a> Model for RowView<'a> {
    ghost use Rattle.table_version.specs.Viewed.{ViewedRow};
    ghost use Rattle.table_version.specs.inner.Viewing.{viewed, IsSoundView};

    ghost Value = { ViewedRow };

    ghost view = { λ view. viewed view.schema.now.columns view.rowid view.row };

    ghost invariant = { λ view. IsSoundView view.schema.now.columns view.row };
}

/// The text of a text key.
#[inline]
fn text_key(id: Option<&str>) -> Field<'_>
    ensures { value_shown result ≡ Text (id_text (option_copied id.entry)) }
{
    match id {
        Some(text) => Field::Text(text),
        None => Field::Text(""),
    }
}

/// A partition value by its number among them.
#[inline]
fn partition_value(partition: &[Value], number: u8) -> Field<'_>
    requires { list_all is_partition_value partition.now ≡ true }
    ensures { value_shown result ≡ slice_index_or partition.entry.now number Null }
{
    match partition.get(usize::from(number)) {
        Some(value) => shown(value),
        None => Field::Null,
    }
}

impl RowView<'_> {
    /// The number of the row's chunk.
    pub fn chunk(&self) -> u32
        ensures { result ≡ self.now.placed.chunk }
    {
        self.row.chunk
    }

    /// The row's slot in its chunk.
    pub fn slot(&self) -> u16
        ensures { result ≡ self.now.placed.slot }
    {
        self.row.slot
    }

    /// What stands in the column at a place, from 0, where that is no vector.
    fn field_in(&self, place: u8, kind: Kind) -> Field<'_>
        requires there { kind_in self.now.columns place ≡ Some kind }
        requires other { is_vector kind ≡ false }
        ensures { value_shown result ≡ value_in place self.now.placed }
    {
        let columns = self.schema.columns.as_slice();
        match kind {
            Kind::IntKey => Field::Int(self.rowid),
            Kind::TextKey => text_key(self.row.id),
            Kind::IntPartition => {
                let number = Group::Partitions.before(columns, place);
                partition_value(self.row.partition.as_slice(), number)
            }
            Kind::TextPartition => {
                let number = Group::Partitions.before(columns, place);
                partition_value(self.row.partition.as_slice(), number)
            }
            Kind::Int8Vector(_, _) => unreachable!(),
            Kind::BitVector(_) => unreachable!(),
            _ => {
                let number = Group::Cells.before(columns, place);
                self.row.slots.cell(self.row.slot, number)
            }
        }
    }

    /// What stands in a column that is none of vectors, by its number from 1, or the rowid, by 0.
    pub fn field(&self, column: u8) -> Field<'_>
        requires { is_vector_column self.now.columns column ≡ false }
        ensures { value_shown result ≡ column_value self.now column }
    {
        if column == 0 {
            return Field::Int(self.rowid);
        }
        let place = column - 1;
        match kind_in(self.schema.columns.as_slice(), place) {
            Some(kind) => self.field_in(place, kind),
            None => Field::Null,
        }
    }

    /// The vector in a column, by its number from 1. It counts as one read.
    pub fn vector(&self, column: u8, steps: &mut Steps) -> &[u8]
        requires numbered { 0 < column }
        requires vectors { is_kind_of is_vector (kind_in self.now.columns (column - 1)) ≡ true }
        ensures vector { vector_of (value_in (column - 1) self.now.placed) ≡ Some result.now }
        ensures reads { steps.new.reads ≡ raised steps.old.reads }
        ensures pieces { steps.new.pieces ≡ steps.old.pieces }
    {
        let number = Group::Vectors.before(self.schema.columns.as_slice(), column - 1);
        self.row.slots.slots().vector(self.row.slot, number, steps)
    }
}
