//! A table of heads and bodies, each with what it asks for.

use crate::connections::{exchange, words};
use std::alloc::Global;
use std::test::Fail;
use vec_base::Memory;

/// Whole connections.
const CONNECTIONS: [(&str, &str); 58] = [
    ("", "empty"),
    ("POST /sessions HTTP/1.1\r\n\r\n", "open session"),
    ("POST /sessions HTTP/1.0\r\n\r\n", "open session"),
    ("POST /sessions HTTP/1.1\n\n", "open session"),
    ("\r\n\r\nPOST /sessions HTTP/1.1\r\n\r\n", "open session"),
    (
        "POST /sessions HTTP/1.1\r\nHost: localhost:8080\r\n\r\n",
        "open session",
    ),
    (
        "POST /sessions HTTP/1.1\r\nContent-Length: 0\r\n\r\n",
        "open session",
    ),
    (
        "POST /sessions HTTP/1.1\r\nContent-Length: 3\r\n\r\nabc",
        "open session",
    ),
    (
        "POST /sessions HTTP/1.1\r\nContent-Length: 0000000003\r\n\r\nabcde",
        "open session",
    ),
    (
        "POST /sessions HTTP/1.1\r\ncontent-LENGTH:3 \r\n\r\nabc",
        "open session",
    ),
    (
        "POST /sessions HTTP/1.1\r\nContent-Length: 3\r\n\r\nab",
        "400",
    ),
    ("DELETE /sessions/1 HTTP/1.1\r\n\r\n", "close session"),
    (
        "DELETE /sessions/4294967295 HTTP/1.1\r\n\r\n",
        "close session",
    ),
    (
        "DELETE /sessions/1/cursors/2 HTTP/1.1\r\n\r\n",
        "close cursor",
    ),
    ("POST /shutdown HTTP/1.1\r\n\r\n", "shutdown"),
    ("\0", "400"),
    ("\r\n", "400"),
    ("POST", "400"),
    ("POST /sessions HTTP/1.1\r\n", "400"),
    ("POST /sessions HTTP/1.2\r\n\r\n", "400"),
    ("POST /sessions HTTP/2.0\r\n\r\n", "400"),
    ("POST /sessions\r\n\r\n", "400"),
    ("POST  /sessions HTTP/1.1\r\n\r\n", "400"),
    ("PO ST /sessions HTTP/1.1\r\n\r\n", "400"),
    ("POST /sessions HTTP/1.1\r\rX: 1\r\n\r\n", "400"),
    ("POST /sessions HTTP/1.1\r\nX Y: 1\r\n\r\n", "400"),
    ("POST /sessions HTTP/1.1\r\n: 1\r\n\r\n", "400"),
    ("POST /sessions HTTP/1.1\r\nX: \x01\r\n\r\n", "400"),
    (
        "POST /sessions HTTP/1.1\r\nTransfer-Encoding: chunked\r\n\r\n",
        "400",
    ),
    (
        "POST /nothing HTTP/1.1\r\ntRANSFER-eNCODING: \r\n\r\n",
        "400",
    ),
    (
        "POST /sessions HTTP/1.1\r\nContent-Length: 3\r\nContent-Length: 3\r\n\r\nabc",
        "400",
    ),
    (
        "POST /sessions HTTP/1.1\r\nContent-Length: 3\r\nCONTENT-LENGTH: 3\r\n\r\nabc",
        "400",
    ),
    (
        "POST /sessions HTTP/1.1\r\nContent-Length: +3\r\n\r\nabc",
        "400",
    ),
    (
        "POST /sessions HTTP/1.1\r\nContent-Length: -3\r\n\r\nabc",
        "400",
    ),
    (
        "POST /sessions HTTP/1.1\r\nContent-Length: 3x\r\n\r\nabc",
        "400",
    ),
    ("POST /sessions HTTP/1.1\r\nContent-Length:\r\n\r\n", "400"),
    (
        "GET /nothing HTTP/1.1\r\nContent-Length: 00000000003\r\n\r\nabc",
        "400",
    ),
    ("GET /nothing HTTP/1.1\r\n\r\n", "404"),
    ("POST /nothing HTTP/1.1\r\n\r\n", "404"),
    ("POST * HTTP/1.1\r\n\r\n", "404"),
    ("POST /Sessions HTTP/1.1\r\n\r\n", "404"),
    ("POST /sessions/ HTTP/1.1\r\n\r\n", "404"),
    ("POST /sessions?x=1 HTTP/1.1\r\n\r\n", "404"),
    ("POST http://localhost/sessions HTTP/1.1\r\n\r\n", "404"),
    ("DELETE /sessions/0 HTTP/1.1\r\n\r\n", "404"),
    ("DELETE /sessions/01 HTTP/1.1\r\n\r\n", "404"),
    ("DELETE /sessions/+1 HTTP/1.1\r\n\r\n", "404"),
    ("DELETE /sessions/4294967296 HTTP/1.1\r\n\r\n", "404"),
    ("DELETE /sessions/1/cursors/02 HTTP/1.1\r\n\r\n", "404"),
    (
        "POST /sessions/1/statement HTTP/1.1\r\nContent-Length: 4194305\r\n\r\n",
        "404",
    ),
    ("GET /sessions HTTP/1.1\r\n\r\n", "405"),
    ("post /sessions HTTP/1.1\r\n\r\n", "405"),
    ("POST /sessions/1 HTTP/1.1\r\n\r\n", "405"),
    (
        "GET /sessions/1/statements HTTP/1.1\r\nContent-Length: 4194305\r\n\r\n",
        "405",
    ),
    (
        "POST /sessions/1/statements HTTP/1.1\r\n\r\n{\"sql\":\"\"}",
        "411",
    ),
    ("POST /sessions/1/cursors/2/rows HTTP/1.1\r\n\r\n", "411"),
    (
        "POST /sessions/1/statements HTTP/1.1\r\nContent-Length: 4194305\r\n\r\n",
        "413",
    ),
    (
        "POST /sessions HTTP/1.1\r\nContent-Length: 9999999999\r\n\r\n",
        "413",
    ),
];

/// Bodies of statements.
const STATEMENTS: [(&str, &str); 26] = [
    (r#"{"sql":"COMMIT"}"#, "statement"),
    (r#" { "sql" : "" , "params" : [ ] } "#, "statement"),
    (r#"{"sql":"a","sql":"b","other":[{}]}"#, "statement"),
    (r#"{"sql":"a","params":[null,true,-7,"x"]}"#, "statement"),
    (r#"{"sql":"a","params":[[],[-128,127]]}"#, "statement"),
    (r#"{"sql":"a","params":[9223372036854775807]}"#, "statement"),
    (
        r#"{"sql":"a","params":[{"hex":"0aF0"},{"bits":""}]}"#,
        "statement",
    ),
    ("", "400"),
    ("{}", "400"),
    ("[]", "400"),
    (r#""sql""#, "400"),
    (r#"{"sql":null}"#, "400"),
    (r#"{"sql":"a"} x"#, "400"),
    (r#"{"sql":"a",}"#, "400"),
    (r#"{"sql":"\ud800"}"#, "400"),
    (r#"{"sql":"a","params":null}"#, "400"),
    (r#"{"sql":"a","params":[1.0]}"#, "400"),
    (r#"{"sql":"a","params":[1e2]}"#, "400"),
    (r#"{"sql":"a","params":[-0]}"#, "400"),
    (r#"{"sql":"a","params":[9223372036854775808]}"#, "400"),
    (r#"{"sql":"a","params":[[128]]}"#, "400"),
    (r#"{"sql":"a","params":[[true]]}"#, "400"),
    (r#"{"sql":"a","params":[{"hex":"0"}]}"#, "400"),
    (r#"{"sql":"a","params":[{"hex":"0g"}]}"#, "400"),
    (r#"{"sql":"a","params":[{"hex":"","bits":""}]}"#, "400"),
    (r#"{"sql":"a","params":[{}]}"#, "400"),
];

/// Bodies of cursors that are opened.
const CURSORS: [(&str, &str); 2] = [
    (r#"{"sql":"SELECT"}"#, "open cursor"),
    (r#"{"params":[]}"#, "400"),
];

/// Bodies of the next rows of a cursor.
const COUNTS: [(&str, &str); 6] = [
    (r#"{"count":1}"#, "rows"),
    (r#"{"count":4096,"sql":1}"#, "rows"),
    (r#"{"count":0}"#, "400"),
    (r#"{"count":4097}"#, "400"),
    (r#"{"count":"1"}"#, "400"),
    (r#"{"count":1.5}"#, "400"),
];

/// A request with a body.
fn with_body(alloc: Global, path: &[u8], body: &[u8]) -> Result<Vec<u8>, Memory> {
    let length = format!(in alloc; "{}", body.len())?;
    let mut bytes = Vec::from_slice(alloc, b"POST ")?;
    bytes.extend_from_slice(path)?;
    bytes.extend_from_slice(b" HTTP/1.1\r\nContent-Length: ")?;
    bytes.extend_from_slice(length.as_bytes())?;
    bytes.extend_from_slice(b"\r\n\r\n")?;
    bytes.extend_from_slice(body)?;
    Ok(bytes)
}

/// What a request with a body asks for, and what it asks for without its last byte, in words.
fn whole_and_short(
    alloc: Global,
    path: &[u8],
    body: &[u8],
) -> Result<(&'static str, &'static str), Fail> {
    let bytes = with_body(alloc, path, body).or(Err("no memory"))?;
    let whole = exchange(alloc, bytes.as_slice(), 5, &[])?;
    let end = bytes.len().saturating_sub(1);
    let short = exchange(alloc, &bytes.as_slice()[..end], 5, &[])?;
    Ok((words(&whole), words(&short)))
}

#[test]
fn connections_ask_for_what_their_bytes_say(rt: HostRuntime) -> Result<(), Fail> {
    let alloc = rt.alloc();
    for (bytes, expected) in CONNECTIONS {
        for piece in [1, 7, 9000] {
            let found = exchange(alloc, bytes.as_bytes(), piece, &[])?;
            assert_eq!(rt; words(&found), expected, "{bytes} by {piece}");
        }
    }
    for (body, expected) in STATEMENTS {
        let found = whole_and_short(alloc, b"/sessions/1/statements", body.as_bytes())?;
        assert_eq!(rt; found, (expected, "400"), "{body}");
    }
    Ok(())
}

#[test]
fn cursors_ask_for_what_their_bodies_say(rt: HostRuntime) -> Result<(), Fail> {
    let alloc = rt.alloc();
    for (body, expected) in CURSORS {
        let found = whole_and_short(alloc, b"/sessions/1/cursors", body.as_bytes())?;
        assert_eq!(rt; found, (expected, "400"), "{body}");
    }
    for (body, expected) in COUNTS {
        let found = whole_and_short(alloc, b"/sessions/1/cursors/2/rows", body.as_bytes())?;
        assert_eq!(rt; found, (expected, "400"), "{body}");
    }
    Ok(())
}
