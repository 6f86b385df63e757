//! Each call of a chunk of rows once on its happy path.
ghost use Rattle.std.specs.Prelude.{◌≡◌, true, [], ◌∷◌, pos, codes, slice_get, IfOk};
ghost use Rattle.vec_base.specs.declared.value.Value.TheVariants.{Null, Int, Text};
ghost use Rattle.row_model.specs.declared.schema.Kind.TheVariants.{IntMeta, BoolMeta, TextMeta, BlobAux};
ghost use Rattle.row_chunks.specs.Cells.{takes_test};
ghost use Rattle.row_chunks.specs.RowSlots.{used_by, all_free, with_slot};

use row_chunks::{Field, RowChunk};
use row_model::{Column, Kind, Metric, Test};
use shared_leaves::Copied;
use std::alloc::Global;
use std::test::Fail;
use vec_base::{Bytes, List, Memory, Op, Steps, Txt, Value};

fn column(alloc: Global, kind: Kind) -> Result<Column, Memory>
    ensures { IfOk result (λ column. column.kind ≡ kind) }
{
    Ok(Column {
        name: Txt::from_text(alloc, "name")?,
        kind,
    })
}

/// A chunk of eight slots whose slot 3 holds a row: the number 7, a vector, true, the text "many", and NULL.
fn chunk(alloc: Global) -> Result<RowChunk, Memory>
    ensures { IfOk result (λ chunk. chunk ≡ with_slot 3 (used_by (pos 5) ((1 ∷ 2 ∷ []) ∷ []) (Int (pos 7) ∷ Int (pos 1) ∷ Text (codes "many") ∷ Null ∷ [])) (all_free 8 (2 ∷ []) (IntMeta ∷ BoolMeta ∷ TextMeta ∷ BlobAux ∷ []))) }
{
    let columns = [
        column(alloc, Kind::IntMeta)?,
        column(alloc, Kind::Int8Vector(2, Metric::L1))?,
        column(alloc, Kind::BoolMeta)?,
        column(alloc, Kind::TextMeta)?,
        column(alloc, Kind::BlobAux)?,
    ];
    let values = [
        Value::Int(7),
        Value::Int8(Bytes::from_slice(alloc, &[1, 2])?),
        Value::Int(1),
        Value::Text(Txt::from_text(alloc, "many")?),
        Value::Null,
    ];
    let kinds = [Kind::IntMeta, Kind::BoolMeta, Kind::TextMeta, Kind::BlobAux];
    let mut chunk = RowChunk::with_shape(alloc, 8, &[2], &kinds)?;
    chunk.place_row(alloc, 3, 5, &columns, &values)?;
    Ok(chunk)
}

#[test]
fn a_row_has_its_cells(rt: HostRuntime) -> Result<(), Fail> {
    let alloc = rt.alloc();
    let chunk = chunk(alloc).or(Err("no memory"))?;
    assert!(rt; matches!(chunk.cell(3, 0), Field::Int(7)));
    assert!(rt; matches!(chunk.cell(3, 1), Field::Int(1)));
    assert!(rt; matches!(chunk.cell(3, 2), Field::Text("many")));
    assert!(rt; matches!(chunk.cell(3, 3), Field::Null));
    assert_eq!(rt; chunk.slots().rowid(3), Some(5));
    assert_eq!(rt; chunk.slots().used(), 1);
    Ok(())
}

/// Whether a cell that is changed has its new bytes, and is NULL still in a chunk that was shared before.
fn is_changed(alloc: Global) -> Result<bool, Memory> {
    let mut chunk = chunk(alloc)?;
    let shared = chunk.share(alloc)?;
    let bytes = Value::Blob(Bytes::from_slice(alloc, &[9])?);
    chunk.set_cell(alloc, 3, 3, &bytes)?;
    let before = matches!(shared.cell(3, 3), Field::Null);
    Ok(before && matches!(chunk.cell(3, 3), Field::Blob([9])))
}

#[test]
fn a_cell_is_changed(rt: HostRuntime) -> Result<(), Fail> {
    assert_eq!(rt; is_changed(rt.alloc()), Ok(true));
    Ok(())
}

#[test]
fn a_vector_is_changed(rt: HostRuntime) -> Result<(), Fail> {
    let alloc = rt.alloc();
    let mut chunk = chunk(alloc).or(Err("no memory"))?;
    chunk.set_vector(3, 0, &[3, 4]).or(Err("no memory"))?;
    assert_eq!(rt;
        chunk.slots().vector(3, 0, &mut Steps::new()),
        [3, 4].as_slice()
    );
    Ok(())
}

#[test]
fn a_copied_chunk_keeps_its_row(rt: HostRuntime) -> Result<(), Fail> {
    let alloc = rt.alloc();
    let mut chunk = chunk(alloc).or(Err("no memory"))?;
    let copy = chunk.copied(alloc).or(Err("no memory"))?;
    chunk.free(3);
    assert_eq!(rt; (chunk.slots().used(), copy.slots().used()), (0, 1));
    Ok(())
}

/// The byte of the used slots whose cells in a column pass a test.
fn kept(alloc: Global, index: u8, test: &Test) -> Result<Option<u8>, Memory>
    requires { takes_test (slice_get (IntMeta ∷ BoolMeta ∷ TextMeta ∷ BlobAux ∷ []) index) test.now ≡ true }
{
    let chunk = chunk(alloc)?;
    let mut keep = chunk.slots().valid().copy(alloc)?;
    chunk.filter(index, test, &mut keep);
    Ok(keep.as_bytes().get(0).copied())
}

#[test]
fn rows_are_filtered(rt: HostRuntime) -> Result<(), Fail> {
    let alloc = rt.alloc();
    let test = Test::Compare(Op::Lt, Value::Int(7));
    assert_eq!(rt; kept(alloc, 0, &test), Ok(Some(0)));
    let test = Test::Compare(Op::Ne, Value::Int(0));
    assert_eq!(rt; kept(alloc, 1, &test), Ok(Some(0b0000_1000)));
    let few = Txt::from_text(alloc, "few").or(Err("no memory"))?;
    let test = Test::Compare(Op::Ge, Value::Text(few));
    assert_eq!(rt; kept(alloc, 2, &test), Ok(Some(0b0000_1000)));
    Ok(())
}

#[test]
fn members_are_kept(rt: HostRuntime) -> Result<(), Fail> {
    let alloc = rt.alloc();
    let mut values = List::new(alloc);
    values.push(Value::Int(7)).or(Err("no memory"))?;
    values.push(Value::Null).or(Err("no memory"))?;
    assert_eq!(rt;
        kept(alloc, 0, &Test::Member(values)),
        Ok(Some(0b0000_1000))
    );
    Ok(())
}
