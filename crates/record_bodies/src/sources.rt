//! Where the records of a row stand.
ghost use Rattle.std.specs.Prelude.{◌≡◌, IfOk, option_copied, true};
ghost use Rattle.std.specs.FinMap.{is_sorted};
ghost use Rattle.std.specs.Option.{option_and_then, option_map};
ghost use Rattle.vec_base.specs.declared.value.Value.TheVariants.{Bits, Int8};
ghost use Rattle.row_model.specs.declared.schema.Kind.TheVariants.{BlobAux, BoolMeta, IntAux, IntMeta, TextAux, TextMeta};
ghost use Rattle.shadow_records.specs.Keys.{key_cmp};
ghost use Rattle.shadow_records.specs.declared.kinds.TheConstants.{VECTOR_RECORDS};
ghost use Rattle.record_bodies.specs.Bodies.{cell_in, viewed_text};
ghost use Rattle.record_bodies.specs.ReadRows.{chunk_record, row_record, value_of};
ghost use Rattle.record_bodies.specs.inner.InTurn.{source_of, value_here, vector_cell};

use crate::bytes::{behind, bool_in, cell_in, front, int_in, length_in, text_in};
use crate::partitions::partition_value;
use crate::search::body;
use row_model::Kind;
use shadow_records::{
    AUXILIARY_RECORDS, LONG_TEXT_RECORDS, METADATA_RECORDS, TEXT_VIEW_BYTES, VECTOR_RECORDS,
};
use std::alloc::Global;
use vec_base::{Bytes, Memory, ShadowKey, Value};

/// The records among which those of a row stand, by rising keys, with the table's number, the rowid, the row's place
/// and its text id.
#[derive(Drop)]
pub(crate) struct RowRecords<'a> {
    pub(crate) records: &'a [(ShadowKey, Bytes)],
    pub(crate) number: u32,
    pub(crate) rowid: i64,
    pub(crate) chunk: u32,
    pub(crate) slot: u16,
    pub(crate) id: &'a [u8],
}

/// The text of a view, or of the record that a longer one has.
fn viewed_text(alloc: Global, long: Option<&[u8]>, view: &[u8]) -> Result<Option<Value>, Memory>
    ensures { IfOk result (λ value. value ≡ viewed_text (option_copied long.entry) view.now) }
{
    let length = length_in(view) as usize;
    if length <= TEXT_VIEW_BYTES {
        return text_in(alloc, front(behind(view, 4), length));
    }
    match long {
        Some(text) => text_in(alloc, text),
        None => Ok(None),
    }
}

impl<'a> RowRecords<'a> {
    /// The chunk's record for a column with so many of its role before it.
    pub(crate) fn chunk_record(&self, kind: u8, before: u32) -> Option<&'a [u8]>
        requires { is_sorted key_cmp self.now.records.now ≡ true }
        ensures { option_copied result ≡ chunk_record (source_of self.now) kind before }
    {
        let key = ShadowKey {
            table: self.number,
            kind,
            a: i64::from(self.chunk),
            b: i64::from(before),
        };
        let record = body(self.records, &key)?;
        Some(record.as_slice())
    }

    /// The row's record for a column with so many of its role before it.
    fn row_record(&self, kind: u8, before: u32) -> Option<&'a [u8]>
        requires { is_sorted key_cmp self.now.records.now ≡ true }
        ensures { option_copied result ≡ row_record (source_of self.now) kind before }
    {
        let key = ShadowKey {
            table: self.number,
            kind,
            a: self.rowid,
            b: i64::from(before),
        };
        let record = body(self.records, &key)?;
        Some(record.as_slice())
    }

    /// The row's cell in a column whose cells have one width.
    fn cell(&self, kind: u8, before: u32, width: u16) -> Option<&'a [u8]>
        requires { is_sorted key_cmp self.now.records.now ≡ true }
        ensures { option_copied result ≡ option_and_then (cell_in width self.now.slot) (chunk_record (source_of self.now) kind before) }
    {
        cell_in(width, self.slot, self.chunk_record(kind, before)?)
    }

    /// A vector of bytes.
    fn int8(&self, alloc: Global, before: u32, width: u16) -> Result<Option<Value>, Memory>
        requires { is_sorted key_cmp self.now.records.now ≡ true }
        ensures { IfOk result (λ value. value ≡ option_map Int8 (vector_cell (source_of self.now) before width)) }
    {
        match self.cell(VECTOR_RECORDS, before, width) {
            Some(cell) => Ok(Some(Value::Int8(Bytes::from_slice(alloc, cell)?))),
            None => Ok(None),
        }
    }

    /// A vector of bits in so many bytes.
    fn bits(&self, alloc: Global, before: u32, width: u16) -> Result<Option<Value>, Memory>
        requires { is_sorted key_cmp self.now.records.now ≡ true }
        ensures { IfOk result (λ value. value ≡ option_map Bits (vector_cell (source_of self.now) before width)) }
    {
        match self.cell(VECTOR_RECORDS, before, width) {
            Some(cell) => Ok(Some(Value::Bits(Bytes::from_slice(alloc, cell)?))),
            None => Ok(None),
        }
    }

    /// A number of metadata.
    fn int(&self, before: u32) -> Option<Value>
        requires { is_sorted key_cmp self.now.records.now ≡ true }
        ensures { result ≡ value_of (source_of self.now) before IntMeta }
    {
        int_in(self.cell(METADATA_RECORDS, before, 8)?)
    }

    /// A text of metadata.
    fn text(&self, alloc: Global, before: u32) -> Result<Option<Value>, Memory>
        requires { is_sorted key_cmp self.now.records.now ≡ true }
        ensures { IfOk result (λ value. value ≡ value_of (source_of self.now) before TextMeta) }
    {
        match self.cell(METADATA_RECORDS, before, 16) {
            Some(view) => viewed_text(alloc, self.row_record(LONG_TEXT_RECORDS, before), view),
            None => Ok(None),
        }
    }

    /// A truth value of metadata.
    fn truth(&self, before: u32) -> Option<Value>
        requires { is_sorted key_cmp self.now.records.now ≡ true }
        ensures { result ≡ value_of (source_of self.now) before BoolMeta }
    {
        bool_in(self.slot, self.chunk_record(METADATA_RECORDS, before)?)
    }

    /// An auxiliary number.
    fn side_int(&self, before: u32) -> Option<Value>
        requires { is_sorted key_cmp self.now.records.now ≡ true }
        ensures { result ≡ value_of (source_of self.now) before IntAux }
    {
        match self.row_record(AUXILIARY_RECORDS, before) {
            Some(body) => int_in(body),
            None => Some(Value::Null),
        }
    }

    /// An auxiliary text.
    fn side_text(&self, alloc: Global, before: u32) -> Result<Option<Value>, Memory>
        requires { is_sorted key_cmp self.now.records.now ≡ true }
        ensures { IfOk result (λ value. value ≡ value_of (source_of self.now) before TextAux) }
    {
        match self.row_record(AUXILIARY_RECORDS, before) {
            Some(body) => text_in(alloc, body),
            None => Ok(Some(Value::Null)),
        }
    }

    /// An auxiliary blob.
    fn side_blob(&self, alloc: Global, before: u32) -> Result<Option<Value>, Memory>
        requires { is_sorted key_cmp self.now.records.now ≡ true }
        ensures { IfOk result (λ value. value ≡ value_of (source_of self.now) before BlobAux) }
    {
        match self.row_record(AUXILIARY_RECORDS, before) {
            Some(body) => Ok(Some(Value::Blob(Bytes::from_slice(alloc, body)?))),
            None => Ok(Some(Value::Null)),
        }
    }

    /// The row's value in a column with so many of its role before it; of a partition column these bytes are the value.
    pub(crate) fn value(
        &self,
        alloc: Global,
        before: u32,
        kind: Kind,
        bytes: &[u8],
    ) -> Result<Option<Value>, Memory>
        requires { is_sorted key_cmp self.now.records.now ≡ true }
        ensures { IfOk result (λ value. value ≡ value_here (source_of self.now) before kind bytes.now) }
    {
        match kind {
            Kind::IntKey => Ok(Some(Value::Int(self.rowid))),
            Kind::TextKey => text_in(alloc, self.id),
            Kind::Int8Vector(width, _) => self.int8(alloc, before, width),
            Kind::BitVector(width) => self.bits(alloc, before, width / 8),
            Kind::IntPartition => partition_value(alloc, kind, bytes),
            Kind::TextPartition => partition_value(alloc, kind, bytes),
            Kind::IntMeta => Ok(self.int(before)),
            Kind::TextMeta => self.text(alloc, before),
            Kind::BoolMeta => Ok(self.truth(before)),
            Kind::IntAux => Ok(self.side_int(before)),
            Kind::TextAux => self.side_text(alloc, before),
            Kind::BlobAux => self.side_blob(alloc, before),
        }
    }
}
