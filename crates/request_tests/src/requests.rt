//! Paths, methods, lengths and bodies.

use http_requests::{
    Framing, Path, RequestFault, Route, WireRequest, answer_head, path_of, request_of,
};
use std::alloc::Global;
use std::test::Fail;

/// The path of a target, with an error in words.
fn path(alloc: Global, target: &str) -> Result<Option<Path>, Fail> {
    Ok(path_of(alloc, target).or(Err("no memory"))?)
}

#[test]
fn paths_have_numbers(rt: HostRuntime) -> Result<(), Fail> {
    let alloc = rt.alloc();
    assert_eq!(rt; path(alloc, "/sessions")?, Some(Path::Sessions));
    assert_eq!(rt; path(alloc, "/sessions/12")?, Some(Path::Session(12)));
    assert_eq!(rt;
        path(alloc, "/sessions/4294967295/statements")?,
        Some(Path::Statements(u32::MAX))
    );
    assert_eq!(rt; path(alloc, "/sessions/1/cursors")?, Some(Path::Cursors(1)));
    assert_eq!(rt;
        path(alloc, "/sessions/1/cursors/20")?,
        Some(Path::Cursor(1, 20))
    );
    assert_eq!(rt;
        path(alloc, "/sessions/1/cursors/2/rows")?,
        Some(Path::Rows(1, 2))
    );
    assert_eq!(rt; path(alloc, "/shutdown")?, Some(Path::Shutdown));
    Ok(())
}

#[test]
fn other_targets_are_no_paths(rt: HostRuntime) -> Result<(), Fail> {
    for target in [
        "/",
        "*",
        "/nothing",
        "/sessions/",
        "/sessions?x=1",
        "/sessions/0",
        "/sessions/01",
        "/sessions/+1",
        "/sessions/4294967296",
        "/sessions/1/",
        "/sessions/1/rows",
        "/sessions/x/statements",
        "/sessions/1/cursors/0",
        "/sessions//cursors/1/rows",
    ] {
        assert_eq!(rt; path(rt.alloc(), target)?, None, "{target}");
    }
    Ok(())
}

#[test]
fn the_first_status_that_holds_is_answered(rt: HostRuntime) {
    let statements = "/sessions/1/statements";
    for (framing, target, method, wanted) in [
        (Framing::Bad, "/nothing", "POST", 400),
        (Framing::Unknown, "/nothing", "POST", 404),
        (Framing::Unknown, "/sessions", "GET", 405),
        (Framing::Unknown, "/sessions/1", "POST", 405),
        (Framing::Unknown, statements, "POST", 411),
        (Framing::Length(4_194_305), statements, "POST", 413),
        (Framing::Length(4_194_305), "/sessions", "POST", 413),
    ] {
        let answer = answer_head(rt.alloc(), framing, target, method.as_bytes());
        assert_eq!(rt; answer, Err(RequestFault::Status(wanted)));
    }
    let answer = answer_head(rt.alloc(), Framing::Length(54), statements, b"POST");
    assert_eq!(rt; answer, Ok((Route::Statement(1), 54)));
}

#[test]
fn fields_tell_the_length(rt: HostRuntime) {
    let host = Framing::Unknown.after_field(b"Host", b"localhost");
    assert_eq!(rt; host, Framing::Unknown);
    let length = host.after_field(b"CONTENT-length", b"0054");
    assert_eq!(rt; length, Framing::Length(54));
    assert_eq!(rt; length.after_field(b"Content-Length", b"54"), Framing::Bad);
    assert_eq!(rt; host.after_field(b"Content-Length", b"+54"), Framing::Bad);
    assert_eq!(rt;
        host.after_field(b"Content-Length", b"12345678901"),
        Framing::Bad
    );
    assert_eq!(rt;
        length.after_field(b"transfer-encoding", b"identity"),
        Framing::Bad
    );
}

#[test]
fn bodies_complete_requests(rt: HostRuntime) -> Result<(), Fail> {
    let alloc = rt.alloc();
    let fetch = request_of(alloc, Route::Fetch(1, 2), br#"{"count":3}"#);
    assert!(rt; matches!(fetch, Ok(WireRequest::Fetch(1, 2, 3))));
    let shutdown = request_of(alloc, Route::Shutdown, b"ignored");
    assert!(rt; matches!(shutdown, Ok(WireRequest::Shutdown)));
    let opened = request_of(alloc, Route::OpenCursor(7), br#"{"sql":"SELECT"}"#);
    let Ok(WireRequest::OpenCursor(session, text, params)) = opened else {
        return Err(Fail::from("no cursor"));
    };
    assert_eq!(rt; (session, params.len()), (7, 0));
    assert_eq!(rt; text.as_text(), "SELECT");
    let bad = request_of(alloc, Route::Statement(1), b"{}");
    assert!(rt; matches!(bad, Err(RequestFault::Status(400))));
    Ok(())
}
