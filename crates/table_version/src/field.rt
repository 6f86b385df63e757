//! Partition values as they are read.
ghost use Rattle.std.specs.Prelude.{◌≡◌, true};
ghost use Rattle.row_chunks.specs.Fields.{value_shown};
ghost use Rattle.table_version.specs.Kept.{is_partition_value};

use row_chunks::Field;
use vec_base::Value;

/// A partition value as it is read.
pub(crate) fn shown(value: &Value) -> Field<'_>
    requires { is_partition_value value.now ≡ true }
    ensures { value_shown result ≡ value.now }
{
    match value {
        Value::Int(number) => Field::Int(*number),
        Value::Text(text) => Field::Text(text.as_text()),
        Value::Null => unreachable!(),
        Value::Blob(_) => unreachable!(),
        Value::Int8(_) => unreachable!(),
        Value::Bits(_) => unreachable!(),
    }
}
