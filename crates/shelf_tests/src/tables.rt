//! Tables of one column.
ghost use Rattle.std.specs.Prelude.{◌≡◌, [], ◌∷◌, IfOk};
ghost use Rattle.vec_base.specs.declared.value.Value.TheVariants.{Int8};
ghost use Rattle.table_version.specs.Versions.{KeepsOrigin};
ghost use Rattle.shelf_tests.specs.OneTable.{one_column};

use row_model::{Column, Kind, Metric, Schema};
use std::alloc::Global;
use table_version::TableVersion;
use vec_base::{Bytes, List, Memory, Txt, Value};

/// One column of vectors of two elements, in chunks of 8 rows.
fn schema(alloc: Global) -> Result<Schema, Memory>
    ensures columns { IfOk result (λ schema. schema.columns ≡ one_column) }
    ensures size { IfOk result (λ schema. schema.chunk_size ≡ 8) }
{
    let mut columns = List::new(alloc);
    columns.push(Column {
        name: Txt::from_text(alloc, "a")?,
        kind: Kind::Int8Vector(2, Metric::L2),
    })?;
    Ok(Schema {
        columns,
        chunk_size: 8,
    })
}

/// A table of this column without rows. Its name is v.
pub fn table(alloc: Global) -> Result<TableVersion, Memory>
    ensures { IfOk result (λ version. version.table.schema.columns ≡ one_column) }
{
    let name = Txt::from_text(alloc, "v")?;
    TableVersion::new(alloc, name, schema(alloc)?)
}

/// The values of a row.
fn values(alloc: Global) -> Result<List<Value>, Memory>
    ensures { IfOk result (λ values. values ≡ Int8 (1 ∷ 2 ∷ []) ∷ []) }
{
    let mut values = List::new(alloc);
    values.push(Value::Int8(Bytes::from_slice(alloc, &[1, 2])?))?;
    Ok(values)
}

/// Puts in a row with an assigned rowid.
pub fn insert(alloc: Global, version: &mut TableVersion) -> Result<(), Memory>
    requires { version.old.table.schema.columns ≡ one_column }
    ensures { KeepsOrigin version.old version.new }
{
    match version.insert(alloc, None, &values(alloc)?) {
        Ok(_) => Ok(()),
        Err(_) => Err(Memory),
    }
}
