//! The JSON bodies of requests.

use http_bodies::{BodyFault, StatementBody, read_count, read_statement};
use std::alloc::Global;
use std::test::Fail;
use vec_base::Value;

/// A statement that is read, with an error in words.
fn statement(alloc: Global, text: &str) -> Result<StatementBody, Fail> {
    Ok(read_statement(alloc, text.as_bytes()).or(Err("not read"))?)
}

#[test]
fn a_statement_has_parameters(rt: HostRuntime) -> Result<(), Fail> {
    let text = r#"{"params":[[1,-2],null,true,7,"x",{"hex":"0f"},{"bits":"F0"}],"sql":"INSERT"}"#;
    let body = statement(rt.alloc(), text)?;
    assert_eq!(rt; body.sql.as_text(), "INSERT");
    assert_eq!(rt; body.params.len(), 7);
    let Some(Value::Int8(elements)) = body.params.get(0) else {
        return Err(Fail::from("no vector"));
    };
    assert_eq!(rt; elements.as_slice(), [1, 254].as_slice());
    let Some(Value::Bits(bits)) = body.params.get(6) else {
        return Err(Fail::from("no bits"));
    };
    assert_eq!(rt; bits.as_slice(), [240].as_slice());
    Ok(())
}

#[test]
fn other_bodies_are_no_statements(rt: HostRuntime) -> Result<(), Fail> {
    for text in [
        r#"{"sql":1}"#,
        r#"["sql"]"#,
        r#"{"sql":"a","params":{}}"#,
        r#"{"sql":"a","params":[1.0]}"#,
        r#"{"sql":"a","params":[[128]]}"#,
        r#"{"sql":"a","params":[{"hex":"0"}]}"#,
        r#"{"sql":"a","params":[{"hex":"00","bits":"00"}]}"#,
        r#"{"sql":"a""#,
        "",
    ] {
        let read = read_statement(rt.alloc(), text.as_bytes());
        assert!(rt; matches!(read, Err(BodyFault::Form)), "{text}");
    }
    Ok(())
}

#[test]
fn counts_have_bounds(rt: HostRuntime) -> Result<(), Fail> {
    let alloc = rt.alloc();
    assert_eq!(rt; read_count(alloc, br#"{"count":1,"more":[]}"#), Ok(1));
    assert_eq!(rt; read_count(alloc, br#"{"count":4096}"#), Ok(4096));
    for text in [
        r#"{"count":0}"#,
        r#"{"count":4097}"#,
        r#"{"count":"1"}"#,
        "{}",
        "7",
    ] {
        assert_eq!(rt;
            read_count(alloc, text.as_bytes()),
            Err(BodyFault::Form),
            "{text}"
        );
    }
    Ok(())
}
