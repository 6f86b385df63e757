//! The heads of answers.

ghost use Rattle.std.specs.Prelude.{◌≡◌, OnOk, OnErr};
ghost use Rattle.http_replies.specs.Statuses.{phrase};
ghost use Rattle.http_replies.specs.Wire.{head};
ghost use Rattle.http_replies.specs.inner.Phrases.{IsPhrased};

use http::StatusCode;
use std::alloc::AllocError;
use vec_text::{Takes, put_counted};

/// Writes the head of an answer with a status, whose body has this many bytes.
pub(crate) fn put_head<W: Takes>(
    to: &mut W,
    status: StatusCode,
    size: u64,
) -> Result<(), AllocError>
    requires { IsPhrased status }
    ensures added { OnOk result (W.adds (head status size) to.old to.new) }
    ensures want { OnErr result W.may_want }
{
    put_counted(to, "HTTP/1.1 ", u64::from(status.as_u16()))?;
    to.put(" ")?;
    to.put(phrase_of(status))?;
    put_counted(
        to,
        "\r\nContent-Type: application/json\r\nContent-Length: ",
        size,
    )?;
    to.put("\r\nConnection: close\r\n\r\n")
}

/// The phrase of a status.
fn phrase_of(status: StatusCode) -> &'static str
    requires { IsPhrased status }
    ensures { result.now ≡ phrase status }
{
    match status.canonical_reason() {
        Some(phrase) => phrase,
        None => "",
    }
}
