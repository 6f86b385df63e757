//! The text of records.

ghost use Rattle.std.specs.Prelude.{◌≡◌, ◌≢◌, ◌≤◌, true, false, [], IfOk, map};
ghost use Rattle.std.specs.List.{list_all};
ghost use Rattle.csv.specs.Reading.{strip_bom};
ghost use Rattle.csv_records.specs.Records.{Fields, all_records, first_width, good_records, is_good, is_refused};
ghost use Rattle.csv_records.specs.Written.{record_text, written};

use csv::WriterBuilder;
use std::alloc::Global;
use vec_base::{Bytes, Memory, Txt};

/// The text of a record, with the line feed at its end.
pub fn write_record(alloc: Global, fields: &[Txt]) -> Result<Bytes, Memory>
    ensures { IfOk result (λ bytes. bytes ≡ record_text fields.now) }
{
    let slices = slices_of(alloc, fields)?;
    let mut writer = WriterBuilder::new().from_writer(Vec::new(alloc));
    if writer.write_fields(slices.as_slice()).is_err() {
        return Err(Memory);
    }
    match writer.into_inner() {
        Ok(bytes) => Ok(Bytes::from_vec(bytes)),
        Err(_) => Err(Memory),
    }
}

/// The bytes of each field.
fn slices_of(alloc: Global, fields: &[Txt]) -> Result<Vec<&[u8]>, Memory>
    ensures { IfOk result (λ slices. map (λ slice. slice.now) slices.items ≡ fields.now) }
{
    let mut slices = Vec::new(alloc);
    for field in fields {
        slices.push(field.as_text().as_bytes())?;
    }
    Ok(slices)
}

/// Good records, of at least one field, that are written are read back, unless a byte order mark stands in front of the
/// first. The call does nothing: its clause is all that it gives.
pub fn reads_back()
    ensures { (rows : _) → list_all (is_good (first_width rows)) rows ≡ true → rows ≢ [] → first_width rows ≢ 0 → strip_bom (written rows) ≡ written rows
        → (good_records (written rows) ≡ rows) × (is_refused (written rows) ≡ false) }
{}
