//! What requests say, whole.

use crate::connections::{exchange, words};
use http_exchanges::Exchange;
use http_requests::WireRequest;
use std::test::Fail;
use vec_base::Value;

const STATEMENT: &[u8] =
    b"POST /sessions/1/statements HTTP/1.1\r\nContent-Length: 54\r\n\r\n{\"params\":[[1,2]],\"sql\":\"INSERT INTO v(a) VALUES (?)\"}";

/// A statement is read with its session, its text and its parameters, however its bytes are cut.
#[test]
fn a_statement_is_read_whole(rt: HostRuntime) -> Result<(), Fail> {
    for piece in [1, 60, 9000] {
        let Exchange::Asked(WireRequest::Statement(session, sql, params)) = exchange(
            rt.alloc(),
            STATEMENT,
            piece,
            &[],
        )?
        else {
            return Err(Fail::from("no statement"));
        };
        assert_eq!(rt; session, 1);
        assert_eq!(rt; sql.as_text(), "INSERT INTO v(a) VALUES (?)");
        let Some(Value::Int8(vector)) = params.get(0) else {
            return Err(Fail::from("no vector"));
        };
        assert_eq!(rt; vector.as_slice(), [1, 2].as_slice());
    }
    Ok(())
}

/// The numbers of a path and of a body are those of the request.
#[test]
fn numbers_are_read(rt: HostRuntime) -> Result<(), Fail> {
    let bytes =
        b"POST /sessions/7/cursors/12/rows HTTP/1.1\r\nContent-Length: 13\r\n\r\n{\"count\":300}";
    let found = exchange(rt.alloc(), bytes, 9000, &[])?;
    assert!(rt; matches!(found, Exchange::Asked(WireRequest::Fetch(7, 12, 300))));
    Ok(())
}

/// Each read that fails loses the exchange, unless its answer is sure before.
#[test]
fn a_failed_read_loses_the_exchange(rt: HostRuntime) -> Result<(), Fail> {
    let alloc = rt.alloc();
    for call in [2, 3, 5] {
        let found = exchange(alloc, STATEMENT, 32, &[call])?;
        assert_eq!(rt; words(&found), "lost", "{call}");
    }
    let found = exchange(alloc, STATEMENT, 9000, &[3])?;
    assert_eq!(rt; words(&found), "statement");
    Ok(())
}
