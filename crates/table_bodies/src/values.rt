//! The bytes of values as they are read.
ghost use Rattle.std.specs.Prelude.{◌≡◌, ◌++◌, replicate, take, IfOk, OnOk};
ghost use Rattle.row_chunks.specs.Fields.{value_shown};
ghost use Rattle.shadow_records.specs.Cells.{is_one, long_text, number_bytes, side_body, text_view, value_cell};
ghost use Rattle.shadow_records.specs.declared.kinds.TheConstants.{TEXT_VIEW_BYTES};

use shadow_records::TEXT_VIEW_BYTES;
use std::alloc::Global;
use table_version::Field;
use vec_base::{Bytes, Memory};

/// Whether a value is the number 1.
pub(crate) fn is_one(field: Field<'_>) -> bool
    ensures { result ≡ is_one (value_shown field.entry) }
{
    match field {
        Field::Int(number) => number == 1,
        Field::Null => false,
        Field::Text(_) => false,
        Field::Blob(_) => false,
    }
}

/// Puts zeros behind a body.
pub(crate) fn write_zeros(body: &mut Bytes, count: u16) -> Result<(), Memory>
    ensures { OnOk result (body.new ≡ body.old ++ replicate count 0) }
{
    for _ in 0..count {
        body.push(0)?;
    }
    Ok(())
}

/// Puts the eight bytes of a number behind a body.
pub(crate) fn write_number(body: &mut Bytes, number: i64) -> Result<(), Memory>
    ensures { OnOk result (body.new ≡ body.old ++ number_bytes number) }
{
    body.extend(&number.to_le_bytes())
}

/// Puts the first bytes of a text behind a body, filled up with zeros.
#[tactic(auto, using(crate::proofs::CellLaws::view_long))]
fn write_front(body: &mut Bytes, text: &[u8]) -> Result<(), Memory>
    ensures { OnOk result (body.new ≡ body.old ++ take TEXT_VIEW_BYTES (text.now ++ replicate TEXT_VIEW_BYTES 0)) }
{
    if text.len() >= TEXT_VIEW_BYTES {
        return body.extend(&text[..TEXT_VIEW_BYTES]);
    }
    body.extend(text)?;
    write_zeros(body, (TEXT_VIEW_BYTES - text.len()) as u16)
}

/// Puts the view of a text behind a body. After want of memory the body may have gained a part of it.
fn write_view(body: &mut Bytes, text: &[u8]) -> Result<(), Memory>
    ensures { OnOk result (body.new ≡ body.old ++ text_view text.now) }
{
    let [a, b, c, d, _, _, _, _] = (text.len() as u64).to_le_bytes();
    body.extend(&[a, b, c, d])?;
    write_front(body, text)
}

/// Puts the cell of a value behind a body.
pub(crate) fn write_field(body: &mut Bytes, field: Field<'_>) -> Result<(), Memory>
    ensures { OnOk result (body.new ≡ body.old ++ value_cell (value_shown field.entry)) }
{
    match field {
        Field::Int(number) => write_number(body, number),
        Field::Text(text) => write_view(body, text.as_bytes()),
        Field::Null => Ok(()),
        Field::Blob(_) => Ok(()),
    }
}

/// The body of a text that its view does not hold whole.
pub(crate) fn long_text(alloc: Global, field: Field<'_>) -> Result<Option<Bytes>, Memory>
    ensures { IfOk result (λ body. body ≡ long_text (value_shown field.entry)) }
{
    match field {
        Field::Text(text) => {
            let text = text.as_bytes();
            if text.len() <= TEXT_VIEW_BYTES {
                return Ok(None);
            }
            Ok(Some(Bytes::from_slice(alloc, text)?))
        }
        Field::Null => Ok(None),
        Field::Int(_) => Ok(None),
        Field::Blob(_) => Ok(None),
    }
}

/// The body of an auxiliary value.
pub(crate) fn side_body(alloc: Global, field: Field<'_>) -> Result<Option<Bytes>, Memory>
    ensures { IfOk result (λ body. body ≡ side_body (value_shown field.entry)) }
{
    match field {
        Field::Int(number) => Ok(Some(Bytes::from_slice(alloc, &number.to_le_bytes())?)),
        Field::Text(text) => Ok(Some(Bytes::from_slice(alloc, text.as_bytes())?)),
        Field::Blob(bytes) => Ok(Some(Bytes::from_slice(alloc, bytes)?)),
        Field::Null => Ok(None),
    }
}
