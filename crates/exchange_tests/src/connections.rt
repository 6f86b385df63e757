//! Connections in memory, and their exchanges in words.

use http_exchanges::{Exchange, read_exchange};
use http_link::{Link, MemoryLink, Next};
use http_requests::WireRequest;
use std::alloc::Global;
use std::test::Fail;
use vec_base::{Bytes, List, Memory};

/// What a connection with these bytes asks for, in reads of at most so many bytes. The calls of these numbers fail.
fn read(alloc: Global, bytes: Bytes, piece: usize, fails: &[u64]) -> Result<Exchange, Memory> {
    let mut connections = List::new(alloc);
    connections.push(bytes)?;
    let fails = List::from_vec(Vec::from_slice(alloc, fails)?);
    let mut link = MemoryLink::new(alloc, connections, piece.max(1), 0, fails)?;
    if link.next() != Next::Conn {
        return Ok(Exchange::Memory);
    }
    Ok(read_exchange(alloc, &mut link))
}

/// The same, with an error in words.
pub fn exchange(
    alloc: Global,
    bytes: &[u8],
    piece: usize,
    fails: &[u64],
) -> Result<Exchange, Fail> {
    let bytes = Bytes::from_slice(alloc, bytes).or(Err("no memory"))?;
    Ok(read(alloc, bytes, piece, fails).or(Err("no memory"))?)
}

/// The name of what is asked for.
fn wanted(request: &WireRequest) -> &'static str {
    match request {
        WireRequest::OpenSession => "open session",
        WireRequest::CloseSession(_) => "close session",
        WireRequest::Statement(_, _, _) => "statement",
        WireRequest::OpenCursor(_, _, _) => "open cursor",
        WireRequest::Fetch(_, _, _) => "rows",
        WireRequest::CloseCursor(_, _) => "close cursor",
        WireRequest::Shutdown => "shutdown",
    }
}

/// An exchange in words: what is asked for, or the status.
pub fn words(exchange: &Exchange) -> &'static str {
    match exchange {
        Exchange::Asked(request) => wanted(request),
        Exchange::Bad(400) => "400",
        Exchange::Bad(404) => "404",
        Exchange::Bad(405) => "405",
        Exchange::Bad(411) => "411",
        Exchange::Bad(413) => "413",
        Exchange::Bad(_) => "another status",
        Exchange::Empty => "empty",
        Exchange::Lost => "lost",
        Exchange::Memory => "memory",
    }
}
