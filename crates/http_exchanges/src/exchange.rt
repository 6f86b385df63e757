//! One connection as a request, or as what it is else.
ghost use Rattle.std.specs.Prelude.{◌≡◌, ◌≤◌, ◌<◌, true, length, slice_range};
ghost use Rattle.http_link.specs.Links.{left_on, coming_on, sent_on, risen_on, risen_by, has_risen, RisenSince};
ghost use Rattle.http_exchanges.specs.Exchanges.{IfTold, LostBy, HasBadStatus, HasRowCount};
ghost use Rattle.http_exchanges.specs.inner.Saying.{exchange_for, IfSaid};
ghost use Rattle.http_exchanges.specs.inner.Behind.{joined};

use crate::asked::asked_in;
use crate::body::{Unread, read_body};
use http::StatusCode;
use http_heads::{HEAD_ROOM, Head, MOST_FIELDS, read_head};
use http_link::Link;
use http_requests::{RequestFault, Route, WireRequest, request_of};
use httparse::spans::EMPTY_HEADER_SPAN;
use std::alloc::Global;

/// What one connection asks for.
#[derive(Debug, Drop)]
pub enum Exchange {
    /// It asks for this.
    Asked(WireRequest),
    /// It is no request, and this is the status of its answer.
    Bad(u16),
    /// It ended without a byte.
    Empty,
    /// A read failed.
    Lost,
    /// Memory was wanted.
    Memory,
}

/// The exchange of a request, or of the fault in its place.
fn exchange_for(answer: Result<WireRequest, RequestFault>) -> Exchange
    ensures { result ≡ exchange_for answer }
{
    match answer {
        Ok(asked) => Exchange::Asked(asked),
        Err(RequestFault::Status(status)) => Exchange::Bad(status),
        Err(RequestFault::Memory) => Exchange::Memory,
    }
}

/// The exchange whose head was answered, and whose body has this many bytes: those of the buffer from `from` to `filled`,
/// and then those of the connection.
fn read_request<L: Link>(
    alloc: Global,
    link: &mut L,
    buffer: &mut [u8],
    from: usize,
    filled: usize,
    route: Route,
    size: usize,
) -> Exchange
    requires connection { L.here link.old ≡ true }
    requires room { 0 < length buffer.old }
    requires ordered { from ≤ filled }
    requires within { filled ≤ length buffer.old }
    ensures here { L.here link.new ≡ true }
    ensures exact { IfSaid (joined (slice_range buffer.old from filled) (left_on (L.told link.old))) (route, size) result }
    ensures status { HasBadStatus result }
    ensures count { HasRowCount result }
    ensures coming { coming_on (L.told link.new) ≡ coming_on (L.told link.old) }
    ensures sent { sent_on (L.told link.new) ≡ sent_on (L.told link.old) }
    ensures risen { RisenSince (risen_on (L.told link.old)) (L.faults link.old) (risen_on (L.told link.new)) (L.faults link.new) }
    ensures later { L.faults link.old ≤ L.faults link.new }
    ensures lost { LostBy (L.faults link.old) result (L.faults link.new) }
{
    match read_body(alloc, link, buffer, from, filled, size) {
        Ok(body) => exchange_for(request_of(alloc, route, body.as_slice())),
        Err(Unread::Short) => Exchange::Bad(StatusCode::BAD_REQUEST.as_u16()),
        Err(Unread::Lost) => Exchange::Lost,
        Err(Unread::Memory) => Exchange::Memory,
    }
}

/// Reads what the connection that is there asks for: its head, and as many bytes behind it as its body has. It reads no further
/// as soon as the answer is sure.
pub fn read_exchange<L: Link>(alloc: Global, link: &mut L) -> Exchange
    requires connection { L.here link.old ≡ true }
    ensures here { L.here link.new ≡ true }
    ensures exact { IfTold (left_on (L.told link.old)) result }
    ensures status { HasBadStatus result }
    ensures count { HasRowCount result }
    ensures coming { coming_on (L.told link.new) ≡ coming_on (L.told link.old) }
    ensures sent { sent_on (L.told link.new) ≡ sent_on (L.told link.old) }
    ensures risen { risen_on (L.told link.new) ≡ risen_by (has_risen (L.faults link.old) (L.faults link.new)) (risen_on (L.told link.old)) }
    ensures later { L.faults link.old ≤ L.faults link.new }
    ensures lost { LostBy (L.faults link.old) result (L.faults link.new) }
{
    let mut buffer = [0u8; HEAD_ROOM];
    let mut headers = [EMPTY_HEADER_SPAN; MOST_FIELDS];
    match read_head(link, &mut buffer, &mut headers) {
        Head::Whole(filled, spans) => {
            match asked_in(alloc, &buffer[..filled], &headers, spans) {
                Ok((route, size)) => {
                    read_request(alloc, link, &mut buffer, spans.len, filled, route, size)
                }
                Err(fault) => exchange_for(Err(fault)),
            }
        }
        Head::Bad(_) => Exchange::Bad(StatusCode::BAD_REQUEST.as_u16()),
        Head::Empty => Exchange::Empty,
        Head::Lost(_) => Exchange::Lost,
    }
}
