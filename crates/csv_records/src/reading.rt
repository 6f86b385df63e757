//! The records of a text.

ghost use Rattle.std.specs.Prelude.{◌≡◌, ◌∷◌, ◌++◌, ◌==◌, [], length, Some, None, IfOk, if◌then◌else◌};
ghost use Rattle.csv.specs.Records.{fields_of};
ghost use Rattle.csv_records.specs.Records.{first_width, good_records, is_good_behind, is_refused};

use csv::{ByteRecord, ReaderBuilder, StringRecord};
use std::alloc::Global;
use vec_base::{List, Memory, Txt};

/// The records of a text up to the first that is refused.
#[derive(Debug, Drop)]
pub struct Records {
    /// The fields of each record before the refused one, or of all. The first names the columns, and each has as many
    /// fields as it.
    pub good: List<List<Txt>>,
    /// Whether the record behind the good ones is refused. Its number is that of the good ones: 0 for the first record,
    /// and from 1 on for a record of data.
    pub refused: bool,
}

/// The records of a text as `csv` cuts it with its defaults: commas between fields, a line feed, a carriage return or
/// both behind a record, and quotes around fields that hold one of these. A byte order mark in front is left out.
pub fn read_records(alloc: Global, text: &[u8]) -> Result<Records, Memory>
    ensures good { IfOk result (λ records. records.good ≡ good_records text.now) }
    ensures refused { IfOk result (λ records. records.refused ≡ is_refused text.now) }
{
    let reader = ReaderBuilder::new()
        .has_headers(false)
        .flexible(true)
        .from_reader(alloc, text);
    let mut good: List<List<Txt>> = List::new(alloc);
    for row in reader.into_byte_records() {
        let Ok(row) = row else {
            return Err(Memory);
        };
        match good_behind(alloc, good.as_slice(), row)? {
            Some(fields) => good.push(fields)?,
            None => {
                return Ok(Records {
                    good,
                    refused: true,
                });
            }
        }
    }
    let refused = good.is_empty();
    Ok(Records { good, refused })
}

/// The fields of the record behind these, or `None` where it is refused.
#[tactic(auto, using(crate::proofs::FieldLaws::good_text, crate::proofs::FieldLaws::bad_text, crate::proofs::FieldLaws::bad_width))]
fn good_behind(
    alloc: Global,
    before: &[List<Txt>],
    row: ByteRecord,
) -> Result<Option<List<Txt>>, Memory>
    ensures { IfOk result (λ taken. taken ≡ (if is_good_behind before.now (fields_of row) then Some (fields_of row) else None)) }
{
    if !has_width(before, &row) {
        return Ok(None);
    }
    match StringRecord::from_byte_record(row) {
        Ok(row) => Ok(Some(texts_of(alloc, &row)?)),
        Err(_) => Ok(None),
    }
}

/// Whether a record has as many fields as the first.
fn has_width(before: &[List<Txt>], row: &ByteRecord) -> bool
    ensures { result ≡ (length (fields_of row.now) == first_width (before.now ++ fields_of row.now ∷ [])) }
{
    match before.first() {
        Some(first) => row.len() == first.len(),
        None => true,
    }
}

/// The fields of a record.
fn texts_of(alloc: Global, row: &StringRecord) -> Result<List<Txt>, Memory>
    ensures { IfOk result (λ fields. fields ≡ fields_of row.now) }
{
    let mut fields = List::new(alloc);
    for field in row.iter() {
        fields.push(Txt::from_text(alloc, field)?)?;
    }
    Ok(fields)
}
