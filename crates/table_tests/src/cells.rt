//! Rows with columns of each kind.
ghost use Rattle.std.specs.Prelude.{◌≡◌, ◌≤◌, ◌++◌, [], ◌∷◌, false, pos, length, IfOk, OnOk};
ghost use Rattle.vec_base.specs.declared.value.Value.TheVariants.{Int, Int8, Text, Null};
ghost use Rattle.table_tests.specs.Columns.{many_columns};
ghost use Rattle.table_version.specs.Viewed.{is_vector_column};

use chunk_bitmap::Bitmap;
use row_model::{Column, Kind, Metric, Schema, Test};
use std::alloc::Global;
use std::test::Fail;
use table_version::{Field, TableVersion};
use vec_base::{Bytes, List, Memory, Op, Refusal, Txt, Value};

fn add(alloc: Global, columns: &mut List<Column>, name: &str, kind: Kind) -> Result<(), Memory>
    ensures { OnOk result (columns.new ≡ columns.old ++ record { name = name.now; kind = kind } ∷ []) }
{
    columns.push(Column {
        name: Txt::from_text(alloc, name)?,
        kind,
    })
}

/// A text key, vectors of two elements, a text, a number, a truth value, and an auxiliary text, in chunks of 8 rows.
fn schema(alloc: Global) -> Result<Schema, Memory>
    ensures columns { IfOk result (λ schema. schema.columns ≡ many_columns) }
    ensures size { IfOk result (λ schema. schema.chunk_size ≡ 8) }
{
    let mut columns = List::new(alloc);
    add(alloc, &mut columns, "id", Kind::TextKey)?;
    add(alloc, &mut columns, "a", Kind::Int8Vector(2, Metric::L2))?;
    add(alloc, &mut columns, "m", Kind::TextMeta)?;
    add(alloc, &mut columns, "n", Kind::IntMeta)?;
    add(alloc, &mut columns, "b", Kind::BoolMeta)?;
    add(alloc, &mut columns, "x", Kind::TextAux)?;
    Ok(Schema {
        columns,
        chunk_size: 8,
    })
}

/// A table of these columns.
fn table(alloc: Global) -> Result<TableVersion, Memory>
    ensures { IfOk result (λ version. version.table.schema.columns ≡ many_columns) }
{
    let name = Txt::from_text(alloc, "v")?;
    TableVersion::new(alloc, name, schema(alloc)?)
}

/// The values of a row without an auxiliary value.
fn values(alloc: Global, id: &str, text: &str, number: i64) -> Result<List<Value>, Memory>
    ensures { IfOk result (λ values. values ≡ Text id.now ∷ Int8 (1 ∷ 2 ∷ []) ∷ Text text.now ∷ Int number ∷ Int (pos 1) ∷ Null ∷ []) }
{
    let mut values = List::new(alloc);
    values.push(Value::Text(Txt::from_text(alloc, id)?))?;
    values.push(Value::Int8(Bytes::from_slice(alloc, &[1, 2])?))?;
    values.push(Value::Text(Txt::from_text(alloc, text)?))?;
    values.push(Value::Int(number))?;
    values.push(Value::Int(1))?;
    values.push(Value::Null)?;
    Ok(values)
}

/// Puts in a row of these values.
fn insert(
    alloc: Global,
    version: &mut TableVersion,
    id: &str,
    text: &str,
    number: i64,
) -> Result<i64, Refusal>
    requires columns { version.old.table.schema.columns ≡ many_columns }
    requires id { length id.now ≤ 8 }
    requires text { length text.now ≤ 16 }
    ensures { version.new.table.schema.columns ≡ many_columns }
{
    let values = match values(alloc, id, text, number) {
        Ok(values) => values,
        Err(_) => return Err(Refusal::WantOfMemory),
    };
    version.insert(alloc, None, &values)
}

/// Three rows.
fn three_rows(alloc: Global) -> Result<TableVersion, Refusal>
    ensures { IfOk result (λ version. version.table.schema.columns ≡ many_columns) }
{
    let mut version = match table(alloc) {
        Ok(version) => version,
        Err(_) => return Err(Refusal::WantOfMemory),
    };
    insert(alloc, &mut version, "one", "", 5)?;
    insert(alloc, &mut version, "two", "abcdefghijklm", 7)?;
    insert(alloc, &mut version, "three", "abcdefghijklz", 9)?;
    Ok(version)
}

/// The number in a column of a row, if there is one.
fn number(version: &TableVersion, rowid: i64, column: u8) -> Option<i64>
    requires { is_vector_column version.now.table.schema.columns column ≡ false }
{
    let row = version.row(&rowid)?;
    match row.field(column) {
        Field::Int(number) => Some(number),
        _ => None,
    }
}

/// The bytes of the text in a column of a row, if there is one.
fn text_bytes(version: &TableVersion, rowid: i64, column: u8) -> Option<usize>
    requires { is_vector_column version.now.table.schema.columns column ≡ false }
{
    let row = version.row(&rowid)?;
    match row.field(column) {
        Field::Text(text) => Some(text.len()),
        _ => None,
    }
}

/// A row gets another text and an auxiliary text.
fn change(alloc: Global, version: &mut TableVersion) -> Result<bool, Memory>
    requires { version.old.table.schema.columns ≡ many_columns }
    ensures { version.new.table.schema.columns ≡ many_columns }
{
    let text = Value::Text(Txt::from_text(alloc, "longer than a view")?);
    version.update(alloc, &2, 3, &text)?;
    version.update(alloc, &2, 6, &text)
}

/// The slots of the first chunk whose text is at most another, as bits.
fn at_most(alloc: Global, version: &TableVersion, text: &str) -> Result<Option<u8>, Memory>
    requires columns { version.now.table.schema.columns ≡ many_columns }
{
    let test = Test::Compare(Op::Le, Value::Text(Txt::from_text(alloc, text)?));
    let Some(slots) = version.slots(1) else {
        return Ok(None);
    };
    let mut keep = slots.valid().copy(alloc)?;
    version.filter(1, 3, &test, &mut keep);
    Ok(keep.as_bytes().first().copied())
}

/// The rowid, the number and the truth value of the third row.
fn numbers_read(alloc: Global) -> Result<[Option<i64>; 3], Refusal> {
    let version = three_rows(alloc)?;
    Ok([
        number(&version, 3, 0),
        number(&version, 3, 4),
        number(&version, 3, 5),
    ])
}

/// Three rows, of which the second one was changed.
fn changed_rows(alloc: Global) -> Result<TableVersion, Refusal>
    ensures { IfOk result (λ version. version.table.schema.columns ≡ many_columns) }
{
    let mut version = three_rows(alloc)?;
    match change(alloc, &mut version) {
        Ok(_) => Ok(version),
        Err(_) => Err(Refusal::WantOfMemory),
    }
}

/// The bytes of the texts of the first two rows, and of their auxiliary texts.
fn texts_read(alloc: Global) -> Result<[Option<usize>; 4], Refusal> {
    let version = changed_rows(alloc)?;
    Ok([
        text_bytes(&version, 1, 3),
        text_bytes(&version, 2, 3),
        text_bytes(&version, 1, 6),
        text_bytes(&version, 2, 6),
    ])
}

/// The slots of the rows whose text is at most that of the second row.
fn filtered(alloc: Global) -> Result<Option<u8>, Refusal> {
    let version = three_rows(alloc)?;
    match at_most(alloc, &version, "abcdefghijklm") {
        Ok(slots) => Ok(slots),
        Err(_) => Err(Refusal::WantOfMemory),
    }
}

/// The bytes of all texts of a table that was shared and then changed: of the shared one, and of the changed one.
fn bytes_of_both(alloc: Global) -> Result<(u64, u64), Refusal> {
    let mut version = three_rows(alloc)?;
    let shared = match version.share(alloc) {
        Ok(shared) => shared,
        Err(_) => return Err(Refusal::WantOfMemory),
    };
    match change(alloc, &mut version) {
        Ok(_) => Ok((shared.side_bytes(), version.side_bytes())),
        Err(_) => Err(Refusal::WantOfMemory),
    }
}

#[test]
fn a_row_is_read_column_by_column(rt: HostRuntime) -> Result<(), Fail> {
    let read = numbers_read(rt.alloc()).or(Err("refused"))?;
    assert_eq!(rt; read, [Some(3), Some(9), Some(1)]);
    Ok(())
}

#[test]
fn an_update_changes_its_row_alone(rt: HostRuntime) -> Result<(), Fail> {
    let read = texts_read(rt.alloc()).or(Err("refused"))?;
    assert_eq!(rt; read, [Some(0), Some(18), None, Some(18)]);
    Ok(())
}

#[test]
fn a_filter_keeps_the_rows_that_pass(rt: HostRuntime) -> Result<(), Fail> {
    let slots = filtered(rt.alloc()).or(Err("refused"))?;
    assert_eq!(rt; slots, Some(3));
    Ok(())
}

#[test]
fn a_shared_table_stays(rt: HostRuntime) -> Result<(), Fail> {
    let bytes = bytes_of_both(rt.alloc()).or(Err("refused"))?;
    assert_eq!(rt; bytes, (37, 60));
    Ok(())
}
