//! What a head asks for.
ghost use Rattle.std.specs.Prelude.{◌≡◌, ◌≤◌, length, map, All, IfOk};
ghost use Rattle.httparse.specs.Grammar.{RequestHead};
ghost use Rattle.httparse.specs.Spans.{IsRequestAt, IsRequestOf, IsRequestWithin, IsHeaderWithin, header_bytes};
ghost use Rattle.http_requests.specs.Framings.{framing_of};
ghost use Rattle.http_requests.specs.Requests.{Answers};
ghost use Rattle.http_requests.specs.declared.request.TheConstants.{MOST_BODY_BYTES};
ghost use Rattle.http_exchanges.specs.Exchanges.{head_asks};

use http_requests::{Framing, RequestFault, Route, answer_head};
use httparse::spans::{HeaderSpan, RequestSpans};
use std::alloc::Global;

/// What the fields of a head say of the length of its body.
fn framing_in(bytes: &[u8], headers: &[HeaderSpan]) -> Framing
    requires within { All (IsHeaderWithin (length bytes.now)) headers.now }
    ensures { result ≡ framing_of (map (header_bytes bytes.now) headers.now) }
{
    let mut known = Framing::Unknown;
    for header in headers {
        known = known.after_field(header.name.of(bytes), header.value.of(bytes));
    }
    known
}

/// What a head asks for, with the length of its body in bytes.
pub(crate) fn asked_in(
    alloc: Global,
    bytes: &[u8],
    headers: &[HeaderSpan],
    spans: RequestSpans,
) -> Result<(Route, usize), RequestFault>
    requires within { IsRequestWithin bytes.now headers.now spans }
    requires head { IsRequestOf bytes.now headers.now spans }
    ensures exact { (h : RequestHead) → IsRequestAt bytes.now headers.now spans h → Answers result (head_asks h) }
{
    let Ok(target) = str::from_utf8(spans.path.of(bytes)) else {
        unreachable!()
    };
    let framing = framing_in(bytes, &headers[..spans.headers]);
    answer_head(alloc, framing, target, spans.method.of(bytes))
}
