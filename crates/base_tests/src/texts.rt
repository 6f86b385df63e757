//! Texts that are put together part by part.

use std::alloc::Global;
use std::test::Fail;
use vec_base::{Bytes, Refusal, Txt, Value};
use vec_text::{put_refusal, put_separated};

/// The texts of values, with a separator between them.
fn values_text(alloc: Global, values: &[Value]) -> Result<Txt, Fail> {
    let mut text = String::new(alloc);
    put_separated(&mut text, " | ", values).or(Err("no memory"))?;
    Ok(Txt::from_string(text))
}

#[test]
fn values_are_written(rt: HostRuntime) -> Result<(), Fail> {
    let alloc = rt.alloc();
    let bytes = |bytes: &[u8]| Bytes::from_slice(alloc, bytes).or(Err("no memory"));
    let values = [
        Value::Null,
        Value::Int(i64::MIN),
        Value::Text(Txt::from_text(alloc, "'it's").or(Err("no memory"))?),
        Value::Blob(bytes(&[10, 255])?),
        Value::Int8(bytes(&[1, 254])?),
    ];
    let text = "NULL | -9223372036854775808 | '''it''s' | X'0AFF' | vec_int8('[1,-2]')";
    assert_eq!(rt; values_text(alloc, &values)?.as_text(), text);
    assert_eq!(rt; values_text(alloc, &[])?.as_text(), "");
    let bits = [Value::Bits(bytes(&[15; 33])?)];
    let text = "vec_bit(X'0F0F0F0F0F0F0F0F0F0F0F0F0F0F0F0F0F0F0F0F0F0F0F0F0F0F0F0F0F0F0F0F0F')";
    assert_eq!(rt; values_text(alloc, &bits)?.as_text(), text);
    Ok(())
}

#[test]
fn refusals_are_written(rt: HostRuntime) -> Result<(), Fail> {
    let cases = [
        (Refusal::Syntax(7), "syntax at 7"),
        (Refusal::Unsupported(0), "unsupported form"),
        (Refusal::Unsupported(1), "unsupported or"),
        (Refusal::Unsupported(34), "unsupported default"),
        (Refusal::Unsupported(35), "unsupported form"),
        (
            Refusal::VectorShape(3, 128, u32::MAX),
            "vector column 3 wants 128 got 4294967295",
        ),
        (Refusal::KRange(-1), "k out of range -1"),
        (Refusal::OldSnapshot(1, 2), "old snapshot 1 latest 2"),
        (Refusal::Full(2, 200_001), "full limit 2 count 200001"),
        (Refusal::WantOfMemory, "want of memory"),
    ];
    for (refusal, wanted) in cases {
        let mut text = String::new(rt.alloc());
        put_refusal(&mut text, &refusal).or(Err("no memory"))?;
        assert_eq!(rt; text.as_str(), wanted);
    }
    Ok(())
}
