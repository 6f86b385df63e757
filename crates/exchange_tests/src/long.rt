//! Long heads, many fields and deep bodies.

use crate::connections::{exchange, words};
use std::alloc::Global;
use std::test::Fail;
use vec_base::Memory;

/// A request whose head has this many bytes, where that is at least 40.
fn head_of(alloc: Global, length: usize) -> Result<String, Memory> {
    let mut text = String::new(alloc);
    text.push_str("POST /sessions HTTP/1.1\r\nX: ")?;
    for _ in 0..length.saturating_sub(32) {
        text.push('x')?;
    }
    text.push_str("\r\n\r\n")?;
    Ok(text)
}

/// A request with this many fields.
fn fields_of(alloc: Global, count: usize) -> Result<String, Memory> {
    let mut text = String::new(alloc);
    text.push_str("POST /sessions HTTP/1.1\r\n")?;
    for _ in 0..count {
        text.push_str("X: 1\r\n")?;
    }
    text.push_str("\r\n")?;
    Ok(text)
}

/// A statement whose parameter is this many arrays in one another.
fn depth_of(alloc: Global, depth: u16) -> Result<String, Memory> {
    let mut text = String::new(alloc);
    let length = 2 * u32::from(depth) + 23;
    text.push_str("POST /sessions/1/statements HTTP/1.1\r\nContent-Length: ")?;
    text.push_str(format!(in alloc; "{length}\r\n\r\n")?.as_str())?;
    text.push_str(r#"{"sql":"a","params":["#)?;
    for _ in 0..depth {
        text.push('[')?;
    }
    for _ in 0..depth {
        text.push(']')?;
    }
    text.push_str("]}")?;
    Ok(text)
}

/// What the text asks for, in words.
fn said(alloc: Global, text: Result<String, Memory>) -> Result<&'static str, Fail> {
    let text = text.or(Err("no memory"))?;
    let found = exchange(alloc, text.as_bytes(), 9000, &[])?;
    Ok(words(&found))
}

#[test]
fn a_head_has_its_limits(rt: HostRuntime) -> Result<(), Fail> {
    let alloc = rt.alloc();
    assert_eq!(rt; said(alloc, head_of(alloc, 8192))?, "open session");
    assert_eq!(rt; said(alloc, head_of(alloc, 8193))?, "400");
    assert_eq!(rt; said(alloc, fields_of(alloc, 64))?, "open session");
    assert_eq!(rt; said(alloc, fields_of(alloc, 65))?, "400");
    Ok(())
}

#[test]
fn a_body_has_its_limits(rt: HostRuntime) -> Result<(), Fail> {
    let alloc = rt.alloc();
    assert_eq!(rt; said(alloc, depth_of(alloc, 1))?, "statement");
    assert_eq!(rt; said(alloc, depth_of(alloc, 1000))?, "400");
    let bytes =
        b"POST /sessions/1/statements HTTP/1.1\r\nContent-Length: 11\r\n\r\n{\"sql\":\"\xff\"}";
    assert_eq!(rt; words(&exchange(alloc, bytes, 9000, &[])?), "400");
    Ok(())
}
