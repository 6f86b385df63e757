//! Each call of a metadata column once on its happy path.
ghost use Rattle.std.specs.Prelude.{◌≡◌, IfOk, length};

use chunk_bitmap::Bitmap;
use metadata_chunks::{BoolColumn, IntColumn, TextColumn};
use shared_leaves::Copied;
use std::alloc::Global;
use std::test::Fail;
use vec_base::{List, Memory, Op, Txt, Value};

/// Eight slots with texts around the length of the bytes that a cell has.
fn texts(alloc: Global) -> Result<TextColumn, Memory>
    ensures { IfOk result (λ column. length column ≡ 8) }
{
    let mut column = TextColumn::with_size(alloc, 8)?;
    column.put(alloc, 1, "abcdefghijkl")?;
    column.put(alloc, 2, "abcdefghijklm")?;
    column.put(alloc, 3, "abcdefghijklz")?;
    Ok(column)
}

/// The byte of the first four slots whose texts stand to one as the operator says.
fn kept(alloc: Global, column: &TextColumn, op: Op) -> Result<Option<u8>, Memory>
    requires { length column.now ≡ 8 }
{
    let mut keep = Bitmap::from_bytes(alloc, &[15])?;
    column.filter(op, "abcdefghijklm", &mut keep);
    Ok(keep.as_bytes().first().copied())
}

#[test]
fn texts_are_filtered(rt: HostRuntime) -> Result<(), Fail> {
    let alloc = rt.alloc();
    let column = texts(alloc).or(Err("no memory"))?;
    let equal = kept(alloc, &column, Op::Eq).or(Err("no memory"))?;
    let other = kept(alloc, &column, Op::Ne).or(Err("no memory"))?;
    let less = kept(alloc, &column, Op::Lt).or(Err("no memory"))?;
    let at_most = kept(alloc, &column, Op::Le).or(Err("no memory"))?;
    let greater = kept(alloc, &column, Op::Gt).or(Err("no memory"))?;
    let at_least = kept(alloc, &column, Op::Ge).or(Err("no memory"))?;
    assert_eq!(rt; (equal, other), (Some(4), Some(11)));
    assert_eq!(rt; (less, at_most), (Some(3), Some(7)));
    assert_eq!(rt; (greater, at_least), (Some(8), Some(12)));
    Ok(())
}

#[test]
fn a_shared_text_stays(rt: HostRuntime) -> Result<(), Fail> {
    let alloc = rt.alloc();
    let mut column = texts(alloc).or(Err("no memory"))?;
    let shared = column.share().or(Err("no memory"))?;
    column.put(alloc, 2, "ab").or(Err("no memory"))?;
    assert_eq!(rt; (column.get(0), column.get(2)), ("", "ab"));
    assert_eq!(rt; shared.get(2), "abcdefghijklm");
    let cells = shared.cells(alloc).or(Err("no memory"))?;
    assert_eq!(rt;
        cells.as_slice().get(32..48),
        Some(b"\x0d\0\0\0abcdefghijkl".as_slice())
    );
    Ok(())
}

#[test]
fn members_are_kept(rt: HostRuntime) -> Result<(), Fail> {
    let alloc = rt.alloc();
    let text = Txt::from_text(alloc, "abcdefghijklz").or(Err("no memory"))?;
    let mut values = List::new(alloc);
    values.push(Value::Int(-7)).or(Err("no memory"))?;
    values.push(Value::Text(text)).or(Err("no memory"))?;
    let column = texts(alloc).or(Err("no memory"))?;
    let mut keep = Bitmap::from_bytes(alloc, &[15]).or(Err("no memory"))?;
    column.filter_member(&values, &mut keep);
    assert_eq!(rt; keep.as_bytes(), [8].as_slice());
    let mut numbers = IntColumn::with_size(alloc, 8).or(Err("no memory"))?;
    numbers.put(5, -7).or(Err("no memory"))?;
    let mut keep = Bitmap::from_bytes(alloc, &[255]).or(Err("no memory"))?;
    numbers.filter_member(&values, &mut keep);
    assert_eq!(rt; keep.as_bytes(), [32].as_slice());
    Ok(())
}

#[test]
fn numbers_are_filtered(rt: HostRuntime) -> Result<(), Fail> {
    let alloc = rt.alloc();
    let mut numbers = IntColumn::with_size(alloc, 8).or(Err("no memory"))?;
    let copy = numbers.copied(alloc).or(Err("no memory"))?;
    numbers.put(6, -2).or(Err("no memory"))?;
    let mut keep = Bitmap::from_bytes(alloc, &[0b1100_0000]).or(Err("no memory"))?;
    numbers.filter(Op::Lt, 0, &mut keep);
    assert_eq!(rt; keep.as_bytes(), [0b0100_0000].as_slice());
    assert_eq!(rt; (numbers.get(6), copy.get(6)), (-2, 0));
    let cells = numbers.cells(alloc).or(Err("no memory"))?;
    assert_eq!(rt;
        cells.as_slice().get(48..56),
        Some((-2i64).to_le_bytes().as_slice())
    );
    Ok(())
}

#[test]
fn truth_values_are_filtered(rt: HostRuntime) -> Result<(), Fail> {
    let alloc = rt.alloc();
    let mut bits = BoolColumn::with_size(alloc, 16).or(Err("no memory"))?;
    let copy = bits.copied(alloc).or(Err("no memory"))?;
    bits.put(9, true).or(Err("no memory"))?;
    let mut keep = Bitmap::from_bytes(alloc, &[0, 3]).or(Err("no memory"))?;
    bits.filter(Op::Ne, true, &mut keep);
    assert_eq!(rt; keep.as_bytes(), [0, 1].as_slice());
    assert_eq!(rt; (bits.get(9), copy.get(9)), (true, false));
    let cells = bits.cells(alloc).or(Err("no memory"))?;
    assert_eq!(rt; cells.as_slice(), [0, 2].as_slice());
    Ok(())
}
