//! The field of a value.

ghost use Rattle.std.specs.Prelude.{◌≡◌, ◌++◌, true, codes, IfOk};
ghost use Rattle.std.specs.Fmt.{signed_decimal};
ghost use Rattle.hex.specs.Hex.{encode_lower};
ghost use Rattle.vec_base.specs.Representable.{IsRepresentable};
ghost use Rattle.csv_fields.specs.FieldTexts.{field_of, holds_value, text_field};
ghost use Rattle.csv_fields.specs.Fields.{StandsFor};

use row_model::{Kind, Role};
use std::alloc::Global;
use vec_base::{Memory, Txt, Value};
use vec_literal::{write_bits, write_int8};
use vec_text::put_signed;

/// The field of a value in a column of the kind.
pub fn write_field(alloc: Global, kind: Kind, value: &Value) -> Result<Txt, Memory>
    ensures { IfOk result (λ field. field ≡ field_of kind value.now) }
{
    match value {
        Value::Null => Ok(Txt::from_string(String::new(alloc))),
        Value::Int(number) => write_number(alloc, *number),
        Value::Text(text) => write_text(alloc, kind.has_role(Role::Auxiliary), text.as_text()),
        Value::Blob(bytes) => write_blob(alloc, bytes.as_slice()),
        Value::Int8(vector) => write_int8(alloc, vector.as_slice()),
        Value::Bits(bytes) => write_bits(alloc, bytes.as_slice()),
    }
}

/// The field of a number.
fn write_number(alloc: Global, number: i64) -> Result<Txt, Memory>
    ensures { IfOk result (λ field. field ≡ signed_decimal number) }
{
    let mut field = String::new(alloc);
    put_signed(&mut field, number)?;
    Ok(Txt::from_string(field))
}

/// The field of a text, with its mark or without.
fn write_text(alloc: Global, marked: bool, text: &str) -> Result<Txt, Memory>
    ensures { IfOk result (λ field. field ≡ text_field marked text.now) }
{
    if !marked {
        return Txt::from_text(alloc, text);
    }
    let mut field = String::from_str(alloc, "'")?;
    field.push_str(text)?;
    Ok(Txt::from_string(field))
}

/// The field of a blob.
fn write_blob(alloc: Global, bytes: &[u8]) -> Result<Txt, Memory>
    ensures { IfOk result (λ field. field ≡ codes "x" ++ encode_lower bytes.now) }
{
    let digits = hex::encode(alloc, bytes)?;
    let mut field = String::from_str(alloc, "x")?;
    field.push_str(digits.as_str())?;
    Ok(Txt::from_string(field))
}

/// What is written for a value of the column stands for that value, so that it is read back. The call does nothing: its
/// clause is all that it gives.
pub fn reads_back()
    ensures { (kind : _) (value : _) → holds_value kind value ≡ true → IsRepresentable value → StandsFor kind (field_of kind value) value }
{}
