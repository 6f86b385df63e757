//! The statuses of answers.

ghost use Rattle.std.specs.Prelude.{◌≡◌};
ghost use Rattle.http_replies.specs.Statuses.{refusal_status, reply_status};
ghost use Rattle.http_replies.specs.inner.Phrases.{IsPhrased};

use http::StatusCode;
use row_model::Reply;
use vec_base::Refusal;

/// The status of the answer with a reply.
pub(crate) fn reply_status(reply: &Reply) -> StatusCode
    ensures status { result ≡ reply_status reply.now }
    ensures phrased { IsPhrased result }
{
    match reply {
        Reply::Refused(refusal) => refusal_status(refusal),
        _ => StatusCode::OK,
    }
}

/// The status of the answer with a refusal.
fn refusal_status(refusal: &Refusal) -> StatusCode
    ensures status { result ≡ refusal_status refusal.now }
    ensures phrased { IsPhrased result }
{
    match refusal {
        Refusal::NoTable => StatusCode::NOT_FOUND,
        Refusal::NoSession => StatusCode::NOT_FOUND,
        Refusal::NoCursor => StatusCode::NOT_FOUND,
        Refusal::TableExists => StatusCode::CONFLICT,
        Refusal::Busy(_) => StatusCode::CONFLICT,
        Refusal::OldSnapshot(_, _) => StatusCode::CONFLICT,
        Refusal::Duplicate(_) => StatusCode::CONFLICT,
        Refusal::RowidsSpent => StatusCode::INSUFFICIENT_STORAGE,
        Refusal::Full(_, _) => StatusCode::INSUFFICIENT_STORAGE,
        Refusal::StoreFault => StatusCode::SERVICE_UNAVAILABLE,
        Refusal::WantOfMemory => StatusCode::INTERNAL_SERVER_ERROR,
        _ => StatusCode::UNPROCESSABLE_ENTITY,
    }
}
