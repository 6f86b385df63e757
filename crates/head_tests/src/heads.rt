//! Heads of requests, in whatever pieces their bytes come.
ghost use Rattle.std.specs.Prelude.{◌<◌};

use http_heads::{HEAD_ROOM, Head, MOST_FIELDS, read_head};
use http_link::{Link, MemoryLink, Next};
use httparse::spans::EMPTY_HEADER_SPAN;
use std::alloc::Global;
use std::test::Fail;
use vec_base::{Bytes, List, Memory};

const HEAD: &[u8] = b"POST /sessions HTTP/1.1\r\nContent-Length: 0\r\n\r\nrest";

/// What a connection with these bytes gives, in pieces of at most so many bytes. The calls of these numbers fail.
fn head_of(alloc: Global, bytes: &[u8], piece: usize, fails: &[u64]) -> Result<Option<Head>, Memory>
    requires { 0 < piece }
{
    let mut connections = List::new(alloc);
    connections.push(Bytes::from_slice(alloc, bytes)?)?;
    let fails = List::from_vec(Vec::from_slice(alloc, fails)?);
    let mut link = MemoryLink::new(alloc, connections, piece, 0, fails)?;
    if link.next() != Next::Conn {
        return Ok(None);
    }
    let mut buffer = [0u8; HEAD_ROOM];
    let mut headers = [EMPTY_HEADER_SPAN; MOST_FIELDS];
    Ok(Some(read_head(&mut link, &mut buffer, &mut headers)))
}

/// The name of what was read.
fn name_of(head: Option<Head>) -> &'static str {
    match head {
        None => "no connection",
        Some(Head::Whole(_, _)) => "whole",
        Some(Head::Bad(_)) => "bad",
        Some(Head::Empty) => "empty",
        Some(Head::Lost(_)) => "lost",
    }
}

/// A head is whole however its bytes are cut.
#[test]
fn a_head_is_read_in_any_pieces(rt: HostRuntime) -> Result<(), Fail> {
    assert_eq!(rt; name_of(head_of(rt.alloc(), HEAD, 1, &[])?), "whole");
    assert_eq!(rt; name_of(head_of(rt.alloc(), HEAD, 7, &[])?), "whole");
    assert_eq!(rt; name_of(head_of(rt.alloc(), HEAD, 9000, &[])?), "whole");
    Ok(())
}

/// What is no head is bad, no byte at all is empty, and a read that fails loses the head.
#[test]
fn other_bytes_give_no_head(rt: HostRuntime) -> Result<(), Fail> {
    assert_eq!(rt;
        name_of(head_of(rt.alloc(), b"POST /sessions HTTP/1.1\r\n", 5, &[])?),
        "bad"
    );
    assert_eq!(rt; name_of(head_of(rt.alloc(), b"\x00", 5, &[])?), "bad");
    assert_eq!(rt; name_of(head_of(rt.alloc(), b"", 5, &[])?), "empty");
    assert_eq!(rt; name_of(head_of(rt.alloc(), HEAD, 5, &[3])?), "lost");
    Ok(())
}
