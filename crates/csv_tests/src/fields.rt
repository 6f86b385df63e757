//! Fields that are read and written.

use csv_fields::{FieldFault, value_of, write_field};
use row_model::{Kind, Metric};
use std::alloc::Global;
use std::test::Fail;
use vec_base::{Bytes, Txt, Value};
use vec_text::put_value;

/// The literal of the value that a field stands for, or `none`.
fn read(alloc: Global, kind: Kind, field: &str) -> Result<String, Fail> {
    let mut text = String::new(alloc);
    match value_of(alloc, kind, field) {
        Ok(value) => put_value(&mut text, &value)?,
        Err(FieldFault::Form) => text.push_str("none")?,
        Err(FieldFault::Memory) => return Err(Fail::from("no memory")),
    }
    Ok(text)
}

/// Whether each field stands for the value of the literal beside it.
fn all_read(alloc: Global, kind: Kind, pairs: &[(&str, &str)]) -> Result<bool, Fail> {
    for (field, wanted) in pairs {
        let text = read(alloc, kind, field)?;
        if text.as_str() != *wanted {
            return Ok(false);
        }
    }
    Ok(true)
}

#[test]
fn numbers_are_decimal(rt: HostRuntime) -> Result<(), Fail> {
    let pairs = [
        ("12", "12"),
        ("-12", "-12"),
        ("-0", "0"),
        ("007", "7"),
        ("9223372036854775807", "9223372036854775807"),
        ("-9223372036854775808", "-9223372036854775808"),
        ("9223372036854775808", "none"),
        ("+1", "none"),
        ("", "none"),
        ("-", "none"),
        ("--1", "none"),
        (" 1", "none"),
        ("1.0", "none"),
    ];
    for kind in [Kind::IntKey, Kind::IntPartition, Kind::IntMeta] {
        assert!(rt; all_read(rt.alloc(), kind, &pairs)?);
    }
    Ok(())
}

#[test]
fn truth_values_are_0_and_1(rt: HostRuntime) -> Result<(), Fail> {
    let pairs = [
        ("0", "0"),
        ("1", "1"),
        ("", "none"),
        ("2", "none"),
        ("01", "none"),
        ("true", "none"),
    ];
    assert!(rt; all_read(rt.alloc(), Kind::BoolMeta, &pairs)?);
    Ok(())
}

#[test]
fn texts_are_themselves(rt: HostRuntime) -> Result<(), Fail> {
    let pairs = [
        ("", "''"),
        ("a'b", "'a''b'"),
        ("'x", "'''x'"),
        ("12", "'12'"),
    ];
    for kind in [Kind::TextKey, Kind::TextPartition, Kind::TextMeta] {
        assert!(rt; all_read(rt.alloc(), kind, &pairs)?);
    }
    Ok(())
}

#[test]
fn vectors_are_literals(rt: HostRuntime) -> Result<(), Fail> {
    let alloc = rt.alloc();
    let numbers = [
        ("[1,-2]", "vec_int8('[1,-2]')"),
        (" [ 127 , -128 ] ", "vec_int8('[127,-128]')"),
        ("[]", "vec_int8('[]')"),
        ("[128]", "none"),
        ("[1,2", "none"),
        ("", "none"),
    ];
    assert!(rt; all_read(alloc, Kind::Int8Vector(2, Metric::L2), &numbers)?);
    let bits = [
        ("0fA0", "vec_bit(X'0FA0')"),
        ("", "vec_bit(X'')"),
        ("0F0", "none"),
        ("0G", "none"),
        ("x0F", "none"),
    ];
    assert!(rt; all_read(alloc, Kind::BitVector(16), &bits)?);
    Ok(())
}

#[test]
fn auxiliary_values_are_marked(rt: HostRuntime) -> Result<(), Fail> {
    let alloc = rt.alloc();
    let numbers = [("", "NULL"), ("-5", "-5"), ("'5", "none"), ("x05", "none")];
    assert!(rt; all_read(alloc, Kind::IntAux, &numbers)?);
    let texts = [
        ("", "NULL"),
        ("'", "''"),
        ("'5", "'5'"),
        ("''", "''''"),
        ("5", "none"),
        ("x05", "none"),
    ];
    assert!(rt; all_read(alloc, Kind::TextAux, &texts)?);
    let blobs = [
        ("", "NULL"),
        ("x", "X''"),
        ("x0aFF", "X'0AFF'"),
        ("x0", "none"),
        ("0a", "none"),
        ("'0a", "none"),
    ];
    assert!(rt; all_read(alloc, Kind::BlobAux, &blobs)?);
    Ok(())
}

/// The field of a value.
fn written(alloc: Global, kind: Kind, value: &Value) -> Result<Txt, Fail> {
    Ok(write_field(alloc, kind, value).or(Err("no memory"))?)
}

#[test]
fn numbers_and_vectors_are_written(rt: HostRuntime) -> Result<(), Fail> {
    let alloc = rt.alloc();
    let least = written(alloc, Kind::IntMeta, &Value::Int(i64::MIN))?;
    assert_eq!(rt; least.as_text(), "-9223372036854775808");
    let null = written(alloc, Kind::IntAux, &Value::Null)?;
    assert_eq!(rt; null.as_text(), "");
    let vector = Value::Int8(Bytes::from_slice(alloc, &[1, 254]).or(Err("no memory"))?);
    let numbers = written(alloc, Kind::Int8Vector(2, Metric::L1), &vector)?;
    assert_eq!(rt; numbers.as_text(), "[1,-2]");
    let vector = Value::Bits(Bytes::from_slice(alloc, &[10, 255]).or(Err("no memory"))?);
    let bits = written(alloc, Kind::BitVector(16), &vector)?;
    assert_eq!(rt; bits.as_text(), "0AFF");
    Ok(())
}

#[test]
fn texts_and_blobs_are_written(rt: HostRuntime) -> Result<(), Fail> {
    let alloc = rt.alloc();
    let text = Value::Text(Txt::from_text(alloc, "it's").or(Err("no memory"))?);
    let plain = written(alloc, Kind::TextMeta, &text)?;
    assert_eq!(rt; plain.as_text(), "it's");
    let marked = written(alloc, Kind::TextAux, &text)?;
    assert_eq!(rt; marked.as_text(), "'it's");
    let blob = Value::Blob(Bytes::from_slice(alloc, &[10, 255]).or(Err("no memory"))?);
    let digits = written(alloc, Kind::BlobAux, &blob)?;
    assert_eq!(rt; digits.as_text(), "x0aff");
    Ok(())
}
