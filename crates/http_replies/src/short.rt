//! How long bodies without rows are. The functions do nothing: their clauses are all that they give.

ghost use Rattle.std.specs.Prelude.{◌≤◌, ◌<◌, ◌^◌, FitsSigned, length};
ghost use Rattle.std.specs.Int.{w64};
ghost use Rattle.vec_text.specs.RefusalTexts.{refusal_text};
ghost use Rattle.http_replies.specs.Bodies.{body};
ghost use Rattle.http_replies.specs.Wire.{IsSmall};

use row_model::Reply;
use vec_base::Refusal;

/// The body of a reply without rows is short.
pub(crate) fn body_short(reply: &Reply)
    requires { IsSmall reply.now }
    ensures { length (body reply.now) ≤ 200 }
{
    match reply {
        Reply::Done => {}
        Reply::Inserted(count, last) => inserted_short(*count, last),
        Reply::Changed(count) => number_fits(*count),
        Reply::Rows(_) => {}
        Reply::Planned(_) => {}
        Reply::Session(id) => number_fits(u64::from(*id)),
        Reply::Cursor(number) => number_fits(u64::from(*number)),
        Reply::Page(_, _) => {}
        Reply::Refused(refusal) => text_short(refusal),
    }
}

/// The text of a refusal is short.
fn text_short(refusal: &Refusal)
    ensures { length (refusal_text refusal.now) ≤ 102 }
{
    match refusal {
        Refusal::Syntax(place) => number_fits(*place),
        Refusal::Unsupported(_) => {}
        Refusal::Parameter(index) => number_fits(u64::from(*index)),
        Refusal::TxnState => {}
        Refusal::NoTable => {}
        Refusal::TableExists => {}
        Refusal::BadSchema(rule) => number_fits(u64::from(*rule)),
        Refusal::NoColumn(index) => number_fits(u64::from(*index)),
        Refusal::WrongType(column) => number_fits(u64::from(*column)),
        Refusal::VectorShape(column, wanted, got) => shape_short(*column, *wanted, *got),
        Refusal::NotNull(column) => number_fits(u64::from(*column)),
        Refusal::FixedColumn(column) => number_fits(u64::from(*column)),
        Refusal::KRange(k) => signed_fits(k),
        Refusal::KnnForm(rule) => number_fits(u64::from(*rule)),
        Refusal::Busy(session) => number_fits(u64::from(*session)),
        Refusal::OldSnapshot(at, latest) => snapshot_short(*at, *latest),
        Refusal::Duplicate(rowid) => signed_fits(rowid),
        Refusal::RowidsSpent => {}
        Refusal::Full(limit, count) => full_short(*limit, *count),
        Refusal::NoSavepoint => {}
        Refusal::NoSession => {}
        Refusal::NoCursor => {}
        Refusal::TooManyRows(count) => number_fits(*count),
        Refusal::StoreFault => {}
        Refusal::WantOfMemory => {}
    }
}

/// The body that says how many rows were inserted is short.
fn inserted_short(count: u64, last: &i64)
    ensures { length (body (Reply.Inserted count last.now)) ≤ 200 }
{
    let _last = *last;
    let _count = count;
}

/// The text of a refusal of a vector is short.
fn shape_short(column: u8, wanted: u32, got: u32)
    ensures { length (refusal_text (Refusal.VectorShape column wanted got)) ≤ 102 }
{
    let _numbers = (column, wanted, got);
}

/// The text of a refusal of an old snapshot is short.
fn snapshot_short(at: u64, latest: u64)
    ensures { length (refusal_text (Refusal.OldSnapshot at latest)) ≤ 102 }
{
    let _numbers = (at, latest);
}

/// The text of a refusal by a limit is short.
fn full_short(limit: u8, count: u64)
    ensures { length (refusal_text (Refusal.Full limit count)) ≤ 102 }
{
    let _numbers = (limit, count);
}

/// A number has 64 bits.
fn number_fits(number: u64)
    ensures { number < 2 ^ 64 }
{
    let _number = number;
}

/// A number has 64 bits with its sign.
fn signed_fits(number: &i64)
    ensures { FitsSigned w64 number.now }
{
    let _number = *number;
}
