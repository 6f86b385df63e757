//! Answers with rows.

use http_replies::reply_bytes;
use row_model::Reply;
use std::alloc::Global;
use std::test::Fail;
use vec_base::{Bytes, List, Txt, Value};

/// A row of these values.
fn row(alloc: Global, values: [Value; 2]) -> Result<List<Value>, Fail> {
    Ok(List::from_vec(Vec::from_array(alloc, values)?))
}

/// One row.
fn one(alloc: Global, values: [Value; 2]) -> Result<List<List<Value>>, Fail> {
    let row = row(alloc, values)?;
    Ok(List::from_vec(Vec::from_array(alloc, [row])?))
}

/// Whether the answer ends with these bytes.
fn ends(alloc: Global, reply: &Reply, wanted: &str) -> Result<bool, Fail> {
    let bytes = reply_bytes(alloc, reply).or(Err("no memory"))?;
    Ok(bytes.as_slice().ends_with(wanted.as_bytes()))
}

/// Bytes in memory.
fn bytes(alloc: Global, bytes: &[u8]) -> Result<Bytes, Fail> {
    Ok(Bytes::from_slice(alloc, bytes).or(Err("no memory"))?)
}

#[test]
fn rows_are_answered(rt: HostRuntime) -> Result<(), Fail> {
    let alloc = rt.alloc();
    let rows = one(alloc, [Value::Int(1), Value::Int8(bytes(alloc, &[1, 2])?)])?;
    let wanted =
        "\r\nContent-Length: 35\r\nConnection: close\r\n\r\n{\"reply\":\"rows\",\"rows\":[[1,[1,2]]]}";
    assert!(rt; ends(alloc, &Reply::Rows(rows), wanted)?);
    Ok(())
}

#[test]
fn pages_are_answered(rt: HostRuntime) -> Result<(), Fail> {
    let alloc = rt.alloc();
    let rows = one(alloc, [Value::Null, Value::Int(-7)])?;
    assert!(rt;
        ends(
            alloc,
            &Reply::Page(rows, false),
            "{\"done\":false,\"reply\":\"page\",\"rows\":[[null,-7]]}"
        )?
    );
    let none = List::new(alloc);
    assert!(rt;
        ends(
            alloc,
            &Reply::Page(none, true),
            "{\"done\":true,\"reply\":\"page\",\"rows\":[]}"
        )?
    );
    Ok(())
}

#[test]
fn bytes_are_digits_in_capitals(rt: HostRuntime) -> Result<(), Fail> {
    let alloc = rt.alloc();
    let blob = Value::Blob(bytes(alloc, &[10, 255])?);
    let bits = Value::Bits(bytes(alloc, &[15])?);
    let rows = one(alloc, [blob, bits])?;
    assert!(rt;
        ends(
            alloc,
            &Reply::Rows(rows),
            "[[{\"hex\":\"0AFF\"},{\"bits\":\"0F\"}]]}"
        )?
    );
    Ok(())
}

#[test]
fn texts_have_escapes(rt: HostRuntime) -> Result<(), Fail> {
    let alloc = rt.alloc();
    let text = "a\"b\\c\u{8}\u{c}\n\r\t\u{1}\u{1f}\u{7f}/é";
    let text = Value::Text(Txt::from_text(alloc, text).or(Err("no memory"))?);
    let empty = Value::Text(Txt::from_text(alloc, "").or(Err("no memory"))?);
    let rows = one(alloc, [text, empty])?;
    let wanted = "[[\"a\\\"b\\\\c\\b\\f\\n\\r\\t\\u0001\\u001f\u{7f}/é\",\"\"]]}";
    assert!(rt; ends(alloc, &Reply::Rows(rows), wanted)?);
    Ok(())
}
