//! Rows that are read back from records.
ghost use Rattle.std.specs.Prelude.{◌≡◌, ◌≤◌, [], IfOk, length, option_copied, Some, true};
ghost use Rattle.std.specs.FinMap.{is_sorted};
ghost use Rattle.std.specs.Option.{option_map};
ghost use Rattle.row_model.specs.declared.schema.TheConstants.{MOST_COLUMNS};
ghost use Rattle.shadow_records.specs.Keys.{key_cmp};
ghost use Rattle.record_bodies.specs.ReadRows.{alike_before, body_among, decoded_from, read_as};
ghost use Rattle.record_bodies.specs.inner.InTurn.{partition_body, source_of, values_in_turn};

use crate::bytes::{behind, front};
use crate::partitions::partition_width;
use crate::places::read_place;
use crate::sources::RowRecords;
use row_model::{Column, Kind};
use shadow_records::CHUNK_RECORDS;
use std::alloc::Global;
use vec_base::{Bytes, List, Memory, ShadowKey, Value};

/// A row that records show: its place, and its values in the order of the columns.
#[derive(Debug, Drop)]
pub struct ReadRow {
    pub chunk: u32,
    pub slot: u16,
    pub values: List<Value>,
}

/// How many of the columns have the role of a kind.
fn alike_before(kind: Kind, columns: &[Column]) -> u32
    requires { length columns.now ≤ MOST_COLUMNS }
    ensures { result ≡ alike_before kind columns.now }
{
    let role = kind.role();
    let mut count = 0;
    for column in columns {
        if column.kind.has_role(role) {
            count += 1;
        }
    }
    count
}

impl<'a> RowRecords<'a> {
    /// The bytes of the partition values of the row's chunk, where the chunk's other two records are there as well.
    fn partition(&self) -> Option<&'a [u8]>
        requires { is_sorted key_cmp self.now.records.now ≡ true }
        ensures { option_copied result ≡ partition_body (source_of self.now) }
    {
        self.chunk_record(CHUNK_RECORDS, 1)?;
        self.chunk_record(CHUNK_RECORDS, 2)?;
        self.chunk_record(CHUNK_RECORDS, 0)
    }

    /// The row's values, with the bytes of its chunk's partition values.
    fn values(
        &self,
        alloc: Global,
        columns: &[Column],
        partition: &[u8],
    ) -> Result<Option<List<Value>>, Memory>
        requires sorted { is_sorted key_cmp self.now.records.now ≡ true }
        requires few { length columns.now ≤ MOST_COLUMNS }
        ensures { IfOk result (λ values. values ≡ values_in_turn (source_of self.now) [] partition.now columns.now) }
    {
        let mut values = List::from_vec(Vec::with_capacity(alloc, columns.len())?);
        let mut rest = partition;
        for at in 0..columns.len() {
            let kind = columns[at].kind;
            let before = alike_before(kind, &columns[..at]);
            let width = partition_width(kind, rest);
            match self.value(alloc, before, kind, front(rest, width))? {
                Some(value) => values.push(value)?,
                None => return Ok(None),
            }
            rest = behind(rest, width);
        }
        if rest.is_empty() {
            Ok(Some(values))
        } else {
            Ok(None)
        }
    }
}

/// The row of the rowid in the table of the number, whose place and text id the body of its own record tells, by what
/// the other records say. None where a record is missing, or what it says is in no form that a value has. The records
/// are by rising keys.
pub fn row(
    alloc: Global,
    number: u32,
    records: &[(ShadowKey, Bytes)],
    columns: &[Column],
    rowid: i64,
    place: &Bytes,
) -> Result<Option<ReadRow>, Memory>
    requires sorted { is_sorted key_cmp records.now ≡ true }
    requires few { length columns.now ≤ MOST_COLUMNS }
    ensures { IfOk result (λ read. option_map (read_as rowid) read ≡ decoded_from (body_among records.now) number columns.now rowid (Some place.now)) }
{
    let Some((chunk, slot)) = read_place(place.as_slice()) else {
        return Ok(None);
    };
    let row = RowRecords {
        records,
        number,
        rowid,
        chunk,
        slot,
        id: behind(place.as_slice(), 6),
    };
    let Some(partition) = row.partition() else {
        return Ok(None);
    };
    match row.values(alloc, columns, partition)? {
        Some(values) => Ok(Some(ReadRow {
            chunk,
            slot,
            values,
        })),
        None => Ok(None),
    }
}
