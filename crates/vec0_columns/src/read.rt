//! Reading the text of columns.
ghost use Rattle.std.specs.Prelude.{◌≡◌, ◌≤◌, length, IfOk};
ghost use Rattle.vec_base.specs.Answers.{IsExactAnswer};
ghost use Rattle.vec_base.specs.declared.refusal.Refusal.TheVariants.{WantOfMemory};
ghost use Rattle.row_model.specs.Schemas.{IsValidSchema};
ghost use Rattle.vec0_columns.specs.ColumnReading.{Declares, DeclaresAt, IsRefusal, IsRefusalAt, placed};

use crate::meaning::schema_of;
use crate::text::columns;
use grammar::{Reader, Stop};
use row_model::Schema;
use std::alloc::Global;
use vec_base::{MOST_TEXT_BYTES, Refusal};

/// The schema that the text between vec0's parentheses declares. Names are in lower case; the metric of a vector of bytes
/// is `L2` and the chunk size `DEFAULT_CHUNK_SIZE` where none is given.
///
/// Errors: `Syntax` with the place of the failing token, or with `MOST_TEXT_BYTES` where the text has more bytes than that;
/// `Unsupported` where the failing token is such a word; `BadSchema` with the least rule that is broken; `WantOfMemory`.
pub fn read_columns(alloc: Global, text: &[u8]) -> Result<Schema, Refusal>
    ensures exact { IsExactAnswer WantOfMemory (λ schema. Declares text.now schema) (λ refusal. IsRefusal text.now refusal) result }
    ensures valid { IfOk result (λ schema. IsValidSchema schema) }
{
    if text.len() > MOST_TEXT_BYTES {
        return Err(Refusal::Syntax(MOST_TEXT_BYTES as u64));
    }
    let mut reader = Reader::new(alloc, text, 0);
    match columns(alloc, &mut reader) {
        Ok(args) => {
            if reader.is_done() {
                schema_of(alloc, args.as_slice())
            } else {
                Err(reader.refusal(text.len()))
            }
        }
        Err(Stop::Here) => Err(reader.refusal(text.len())),
        Err(Stop::Memory) => Err(Refusal::WantOfMemory),
    }
}

/// The schema that stands in the text from a place on, up to the parenthesis that closes it, and that parenthesis's place.
/// What stands behind it is not looked at.
///
/// Errors: as those of `read_columns`. Places count from the beginning of the text.
pub fn read_columns_at(alloc: Global, text: &[u8], from: usize) -> Result<(Schema, usize), Refusal>
    requires { from ≤ length text.now }
    ensures exact { IsExactAnswer WantOfMemory (λ x. DeclaresAt text.now from x.0 x.1) (λ refusal. IsRefusalAt text.now from refusal) result }
    ensures valid { IfOk result (λ x. IsValidSchema x.0) }
{
    let end = text.len();
    if end > MOST_TEXT_BYTES {
        return Err(Refusal::Syntax(MOST_TEXT_BYTES as u64));
    }
    let mut reader = Reader::new(alloc, text, from);
    match columns(alloc, &mut reader) {
        Ok(args) => {
            if reader.at_mark(b")") {
                let place = reader.place(end);
                placed(schema_of(alloc, args.as_slice()), place)
            } else {
                Err(reader.refusal(end))
            }
        }
        Err(Stop::Here) => Err(reader.refusal(end)),
        Err(Stop::Memory) => Err(Refusal::WantOfMemory),
    }
}

/// The schema with the place at which its text is closed.
fn placed(schema: Result<Schema, Refusal>, place: usize) -> Result<(Schema, usize), Refusal>
    ensures { result ≡ placed place schema }
{
    match schema {
        Ok(schema) => Ok((schema, place)),
        Err(refusal) => Err(refusal),
    }
}
