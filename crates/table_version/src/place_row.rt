//! Rows that take named places.
ghost use Rattle.std.specs.Prelude.{◌≡◌, ◌<◌, ◌↔◌, ℕ, true, false, not, List as Seq, Some, None, if◌then◌else◌, IfOk, OnErr, IsTrue, is_some};
ghost use Rattle.std.specs.Option.{option_copied};
ghost use Rattle.vec_base.specs.declared.value.Value.TheVariants.{Int};
ghost use Rattle.row_model.specs.Valid.{are_valid_values, is_valid_value};
ghost use Rattle.row_store.specs.StoredRows.{StoredRow, first_in, row_at, row_with_id};
ghost use Rattle.table_version.specs.PlacedRows.{table_with};
ghost use Rattle.table_version.specs.Placing.{FitsBeside, row_placed};
ghost use Rattle.table_version.specs.inner.Room.{HasRoom};

use crate::TableVersion;
use crate::given::{all_side_bytes, list_representable, partition_values, text_id};
use row_model::{Column, Kind, Schema};
use row_store::{RowPlace, RowStore};
use slot_alloc::same_values;
use std::alloc::Global;
use vec_base::{List, MOST_ROWS, MOST_VALUE_BYTES, Memory, Value};

/// Whether a number may stand in a column of a row.
fn takes_number(kind: Kind, rowid: &i64, number: &i64) -> bool
    ensures { result ≡ is_valid_value kind rowid.now (Int number.now) }
{
    match kind {
        Kind::IntKey => *number == *rowid,
        Kind::IntPartition | Kind::IntMeta | Kind::IntAux => true,
        Kind::BoolMeta => *number == 0 || *number == 1,
        _ => false,
    }
}

/// Whether a value may stand in a column of a row.
fn takes_value(kind: Kind, rowid: &i64, value: &Value) -> bool
    ensures { result ≡ is_valid_value kind rowid.now value.now }
{
    match value {
        Value::Null => matches!(kind, Kind::IntAux | Kind::TextAux | Kind::BlobAux),
        Value::Int(number) => takes_number(kind, rowid, number),
        Value::Text(text) => match kind {
            Kind::TextKey | Kind::TextPartition | Kind::TextMeta | Kind::TextAux => {
                text.as_text().len() <= MOST_VALUE_BYTES
            }
            _ => false,
        },
        Value::Blob(bytes) => match kind {
            Kind::BlobAux => bytes.len() <= MOST_VALUE_BYTES,
            _ => false,
        },
        Value::Int8(vector) => match kind {
            Kind::Int8Vector(width, _) => vector.len() == usize::from(width),
            _ => false,
        },
        Value::Bits(vector) => match kind {
            Kind::BitVector(width) => vector.len().checked_mul(8) == Some(usize::from(width)),
            _ => false,
        },
    }
}

/// Whether the values are those of a row with a rowid.
fn take_values(columns: &[Column], rowid: &i64, values: &[Value]) -> bool
    ensures { result ≡ are_valid_values columns.now rowid.now values.now }
{
    let Some((column, columns)) = columns.split_first() else {
        return values.is_empty();
    };
    let Some((value, values)) = values.split_first() else {
        return false;
    };
    if !takes_value(column.kind, rowid, value) {
        return false;
    }
    take_values(columns, rowid, values)
}

/// Whether no row is at a place.
fn is_free(rows: &RowStore, place: &RowPlace) -> bool
    requires { place.now.slot < rows.now.size }
    ensures { result ≡ not (is_some (row_at rows.now.rows place.now.chunk place.now.slot)) }
{
    match rows.slots(place.chunk) {
        Some(slots) => slots.slots().rowid(place.slot).is_none(),
        None => true,
    }
}

/// Whether the chunk has no row, or rows with these partition values.
fn is_alike(rows: &RowStore, chunk: u32, partition: &List<Value>) -> bool
    ensures { IsTrue result ↔ ((first : StoredRow) → first_in rows.now.rows chunk ≡ Some first → first.partition ≡ partition.now) }
{
    match rows.partition(chunk) {
        Some(values) => same_values(values, partition),
        None => true,
    }
}

/// Whether no row has the text id, if there is one.
fn is_own(rows: &RowStore, id: Option<&str>) -> bool
    ensures { IsTrue result ↔ ((text : Seq ℕ) → option_copied id.entry ≡ Some text → row_with_id text rows.now.rows ≡ None) }
{
    match id {
        Some(text) => rows.rowid_of(text).is_none(),
        None => true,
    }
}

/// Whether a row with these values and partition values can stand at a place beside the rows.
fn has_room(
    rows: &RowStore,
    schema: &Schema,
    top: &i64,
    place: &RowPlace,
    partition: &List<Value>,
    values: &List<Value>,
) -> bool
    requires { rows.now.size ≡ schema.now.chunk_size }
    ensures room { result ≡ true → HasRoom schema.now top.now rows.now.rows place.now partition.now values.now }
    ensures refused { result ≡ false → HasRoom schema.now top.now rows.now.rows place.now partition.now values.now → ⊥ }
{
    let columns = schema.columns.as_slice();
    if !take_values(columns, &place.rowid, values.as_slice()) {
        return false;
    }
    if place.chunk == 0 {
        return false;
    }
    if place.slot >= schema.chunk_size {
        return false;
    }
    if place.rowid > *top {
        return false;
    }
    if rows.len() >= MOST_ROWS as u64 {
        return false;
    }
    if rows.row(&place.rowid).is_some() {
        return false;
    }
    if !is_own(rows, text_id(columns, values.as_slice())) {
        return false;
    }
    if !is_free(rows, place) {
        return false;
    }
    is_alike(rows, place.chunk, partition)
}

impl TableVersion {
    /// A row with these values takes a place, if it can stand there beside the others; the place is not touched. Answers whether it can; where
    /// it cannot, and after want of memory, the table is as before.
    pub fn place_row(
        &mut self,
        alloc: Global,
        place: &RowPlace,
        values: &List<Value>,
    ) -> Result<bool, Memory>
        ensures kept { OnErr result (self.new.table ≡ self.old.table) }
        ensures fits { IfOk result (λ fits. fits ≡ true → FitsBeside self.old.table (row_placed place.now values.now)) }
        ensures refused { IfOk result (λ fits. fits ≡ false → FitsBeside self.old.table (row_placed place.now values.now) → ⊥) }
        ensures table { IfOk result (λ fits. self.new.table ≡ (if fits then table_with self.old.table (row_placed place.now values.now) else self.old.table)) }
    {
        list_representable(values);
        let _rowid = place.rowid;
        let partition = partition_values(alloc, self.schema.columns.as_slice(), values.as_slice())?;
        if !has_room(
            &self.rows,
            &self.schema,
            &self.top,
            place,
            &partition,
            values,
        ) {
            return Ok(false);
        }
        self.rows.place_row(
            alloc,
            place,
            text_id(self.schema.columns.as_slice(), values.as_slice()),
            &partition,
            self.schema.columns.as_slice(),
            values.as_slice(),
        )?;
        self.side_bytes += all_side_bytes(values.as_slice());
        Ok(true)
    }
}
