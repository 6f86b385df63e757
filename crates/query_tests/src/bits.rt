//! Bit vectors beside a text.
ghost use Rattle.std.specs.Prelude.{◌≡◌, ◌≤◌, true, length, IfOk};
ghost use Rattle.vec_base.specs.declared.limits.TheConstants.{MOST_TERMS};
ghost use Rattle.table_version.specs.Inserting.{are_fitting};
ghost use Rattle.query_tests.specs.Columns.{bit_columns};

use crate::search::{column, found, hit_at, plan_of, term, text_test};
use row_model::{Constraint, Items, Kind, Schema, Test};
use std::alloc::Global;
use std::marker::Sync;
use std::test::Fail;
use std::thread::Threads;
use table_version::TableVersion;
use vec_base::{Bytes, List, Memory, Op, Txt, Value};

/// A column of eight bits and a text, in chunks of 8 rows.
fn schema(alloc: Global) -> Result<Schema, Memory>
    ensures columns { IfOk result (λ schema. schema.columns ≡ bit_columns) }
    ensures size { IfOk result (λ schema. schema.chunk_size ≡ 8) }
{
    let mut columns = List::new(alloc);
    columns.push(column(alloc, "b", Kind::BitVector(8))?)?;
    columns.push(column(alloc, "m", Kind::TextMeta)?)?;
    Ok(Schema {
        columns,
        chunk_size: 8,
    })
}

/// A table of these columns.
fn table(alloc: Global) -> Result<TableVersion, Memory>
    ensures { IfOk result (λ version. version.table.schema.columns ≡ bit_columns) }
{
    let name = Txt::from_text(alloc, "v")?;
    TableVersion::new(alloc, name, schema(alloc)?)
}

/// The values of a row.
#[tactic(auto, using(crate::proofs::ColumnLaws::bits_fit))]
fn values(alloc: Global, byte: u8, text: &str) -> Result<List<Value>, Memory>
    requires { length text.now ≤ 16 }
    ensures { IfOk result (λ values. are_fitting bit_columns values ≡ true) }
{
    let mut values = List::new(alloc);
    values.push(Value::Bits(Bytes::from_slice(alloc, &[byte])?))?;
    values.push(Value::Text(Txt::from_text(alloc, text)?))?;
    Ok(values)
}

/// Puts in a row.
fn insert(alloc: Global, version: &mut TableVersion, byte: u8, text: &str) -> Result<(), Fail>
    requires columns { version.old.table.schema.columns ≡ bit_columns }
    requires text { length text.now ≤ 16 }
    ensures { version.new.table.schema.columns ≡ bit_columns }
{
    let values = values(alloc, byte, text)?;
    match version.insert(alloc, None, &values) {
        Ok(_) => Ok(()),
        Err(_) => Err(Fail::from("refused")),
    }
}

/// Four rows, whose texts agree in their first twelve bytes but for the first one.
fn four_rows(alloc: Global) -> Result<TableVersion, Fail> {
    let mut version = table(alloc)?;
    insert(alloc, &mut version, 0x0f, "")?;
    insert(alloc, &mut version, 0x1f, "abcdefghijkl")?;
    insert(alloc, &mut version, 0x3f, "abcdefghijklm")?;
    insert(alloc, &mut version, 0x7f, "abcdefghijklz")?;
    Ok(version)
}

/// A MATCH of eight set bits, and a comparison of the text.
fn terms(alloc: Global, op: Op) -> Result<List<Constraint>, Memory>
    ensures { IfOk result (λ terms. length terms ≤ MOST_TERMS) }
{
    let mut terms = List::new(alloc);
    let query = Value::Bits(Bytes::from_slice(alloc, &[0xff])?);
    terms.push(term(alloc, "b", Test::Match(query))?)?;
    terms.push(term(alloc, "k", Test::Compare(Op::Eq, Value::Int(4)))?)?;
    terms.push(term(alloc, "m", text_test(alloc, op, "abcdefghijklm")?)?)?;
    Ok(terms)
}

/// The first three hits among the rows whose text stands so to `abcdefghijklm`.
fn search<R: Threads + Sync>(
    rt: &R,
    alloc: Global,
    op: Op,
) -> Result<[Option<(i64, u32)>; 3], Fail> {
    let version = four_rows(alloc)?;
    let plan = plan_of(alloc, &version, Items::All, terms(alloc, op)?)?;
    let hits = found(rt, alloc, &version, &plan)?;
    Ok([hit_at(&hits, 0), hit_at(&hits, 1), hit_at(&hits, 2)])
}

#[test]
fn bits_and_texts_are_compared(rt: HostRuntime) -> Result<(), Fail> {
    let less = search(&rt, rt.alloc(), Op::Lt)?;
    assert_eq!(rt; less, [Some((2, 3)), Some((1, 4)), None]);
    let other = search(&rt, rt.alloc(), Op::Ne)?;
    assert_eq!(rt; other, [Some((4, 1)), Some((2, 3)), Some((1, 4))]);
    Ok(())
}
