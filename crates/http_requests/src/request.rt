//! What a head and a body ask for, and the status where they ask for nothing.
ghost use Rattle.std.specs.Prelude.{◌≡◌, ◌≤◌, IfOk};
ghost use Rattle.http_requests.specs.declared.request.TheConstants.{MOST_BODY_BYTES};
ghost use Rattle.http_requests.specs.Requests.{Answers, HasCount, with_framing, head_answer, fault_for, request_answer};

use crate::{Framing, Route, path_of, route_of};
use http::StatusCode;
use http_bodies::{BodyFault, read_count, read_statement};
use std::alloc::Global;
use vec_base::{List, Memory, Txt, Value};

/// The most bytes of a body.
pub const MOST_BODY_BYTES: usize = 4_194_304;

/// What a request asks for.
#[derive(Debug, Drop)]
pub enum WireRequest {
    OpenSession,
    CloseSession(u32),
    /// A statement in a session: its text and its parameters.
    Statement(u32, Txt, List<Value>),
    /// A cursor over the rows of a statement in a session.
    OpenCursor(u32, Txt, List<Value>),
    /// The next rows of a cursor of a session, at most so many.
    Fetch(u32, u32, u16),
    CloseCursor(u32, u32),
    Shutdown,
}

/// Why there is no request: the status of the answer, or want of memory.
#[derive(Clone, Copy, Debug, PartialEq, Eq)]
pub enum RequestFault {
    Status(u16),
    Memory,
}

impl From<Memory> for RequestFault {
    ghost use Rattle.http_requests.specs.declared.request.RequestFault.TheVariants.{Memory as WantOfMemory};

    ghost from_gives = { λ _ e. e ≡ WantOfMemory };

    fn from(_: Memory) -> Self {
        RequestFault::Memory
    }
}

/// A fault with a status.
fn fault(status: StatusCode) -> RequestFault
    ensures { result ≡ RequestFault.Status status }
{
    RequestFault::Status(status.as_u16())
}

/// A route with the length of its body.
fn with_framing(framing: Framing, route: Route) -> Result<(Route, usize), RequestFault>
    ensures exact { Answers result (with_framing framing route) }
    ensures most { IfOk result (λ answer. answer.1 ≤ MOST_BODY_BYTES) }
{
    match framing {
        Framing::Unknown => {
            if route.has_body() {
                Err(fault(StatusCode::LENGTH_REQUIRED))
            } else {
                Ok((route, 0))
            }
        }
        Framing::Length(length) => {
            if length > MOST_BODY_BYTES as u64 {
                Err(fault(StatusCode::PAYLOAD_TOO_LARGE))
            } else {
                Ok((route, length as usize))
            }
        }
        Framing::Bad => Err(fault(StatusCode::BAD_REQUEST)),
    }
}

/// What the fields, the target and the method of a head ask for, with the length of the body in bytes.
pub fn answer_head(
    alloc: Global,
    framing: Framing,
    target: &str,
    method: &[u8],
) -> Result<(Route, usize), RequestFault>
    ensures exact { Answers result (head_answer framing target.now method.now) }
    ensures most { IfOk result (λ answer. answer.1 ≤ MOST_BODY_BYTES) }
{
    if framing == Framing::Bad {
        return Err(fault(StatusCode::BAD_REQUEST));
    }
    let Some(path) = path_of(alloc, target)? else {
        return Err(fault(StatusCode::NOT_FOUND));
    };
    let Some(route) = route_of(path, method) else {
        return Err(fault(StatusCode::METHOD_NOT_ALLOWED));
    };
    with_framing(framing, route)
}

/// The fault of a body.
fn body_fault(fault_of_body: BodyFault) -> RequestFault
    ensures { result ≡ fault_for fault_of_body }
{
    match fault_of_body {
        BodyFault::Form => fault(StatusCode::BAD_REQUEST),
        BodyFault::Memory => RequestFault::Memory,
    }
}

/// What a route and the bytes of its body ask for.
pub fn request_of(alloc: Global, route: Route, bytes: &[u8]) -> Result<WireRequest, RequestFault>
    ensures exact { Answers result (request_answer route bytes.now) }
    ensures count { IfOk result HasCount }
{
    match route {
        Route::OpenSession => Ok(WireRequest::OpenSession),
        Route::CloseSession(session) => Ok(WireRequest::CloseSession(session)),
        Route::Statement(session) => match read_statement(alloc, bytes) {
            Ok(body) => Ok(WireRequest::Statement(session, body.sql, body.params)),
            Err(error) => Err(body_fault(error)),
        },
        Route::OpenCursor(session) => match read_statement(alloc, bytes) {
            Ok(body) => Ok(WireRequest::OpenCursor(session, body.sql, body.params)),
            Err(error) => Err(body_fault(error)),
        },
        Route::Fetch(session, cursor) => match read_count(alloc, bytes) {
            Ok(count) => Ok(WireRequest::Fetch(session, cursor, count)),
            Err(error) => Err(body_fault(error)),
        },
        Route::CloseCursor(session, cursor) => Ok(WireRequest::CloseCursor(session, cursor)),
        Route::Shutdown => Ok(WireRequest::Shutdown),
    }
}
