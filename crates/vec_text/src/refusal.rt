//! The texts of refusals.

ghost use Rattle.std.specs.Prelude.{◌≡◌, ◌++◌, OnOk, OnErr, map, get_or};
ghost use Rattle.vec_text.specs.RefusalTexts.{counted, signed_counted, refusal_text, unsupported_word};

use crate::{Takes, put_number, put_signed};
use std::alloc::AllocError;
use vec_base::{Refusal, UNSUPPORTED_WORDS};

/// What is said of a form that has no word.
const NO_WORD: &str = "form";

/// Writes why a request is not done.
pub fn put_refusal<W: Takes>(to: &mut W, refusal: &Refusal) -> Result<(), AllocError>
    ensures added { OnOk result (W.adds (refusal_text refusal.now) to.old to.new) }
    ensures want { OnErr result W.may_want }
{
    match refusal {
        Refusal::Syntax(place) => put_counted(to, "syntax at ", *place),
        Refusal::Unsupported(word) => put_unsupported(to, *word),
        Refusal::Parameter(index) => put_counted(to, "parameter ", u64::from(*index)),
        Refusal::TxnState => to.put("transaction state"),
        Refusal::NoTable => to.put("no table"),
        Refusal::TableExists => to.put("table exists"),
        Refusal::BadSchema(rule) => put_counted(to, "schema rule ", u64::from(*rule)),
        Refusal::NoColumn(index) => put_counted(to, "no column at ", u64::from(*index)),
        Refusal::WrongType(column) => put_counted(to, "type of column ", u64::from(*column)),
        Refusal::VectorShape(column, wanted, got) => put_shape(to, *column, *wanted, *got),
        Refusal::NotNull(column) => put_counted(to, "null in column ", u64::from(*column)),
        Refusal::FixedColumn(column) => put_counted(to, "fixed column ", u64::from(*column)),
        Refusal::KRange(k) => put_signed_counted(to, "k out of range ", k),
        Refusal::KnnForm(rule) => put_counted(to, "nearest rule ", u64::from(*rule)),
        Refusal::Busy(session) => put_counted(to, "busy session ", u64::from(*session)),
        Refusal::OldSnapshot(at, latest) => put_two(to, "old snapshot ", *at, " latest ", *latest),
        Refusal::Duplicate(rowid) => put_signed_counted(to, "duplicate rowid ", rowid),
        Refusal::RowidsSpent => to.put("rowids spent"),
        Refusal::Full(limit, count) => put_two(
            to,
            "full limit ",
            u64::from(*limit),
            " count ",
            *count,
        ),
        Refusal::NoSavepoint => to.put("no savepoint"),
        Refusal::NoSession => to.put("no session"),
        Refusal::NoCursor => to.put("no cursor"),
        Refusal::TooManyRows(count) => put_counted(to, "too many rows ", *count),
        Refusal::StoreFault => to.put("store fault"),
        Refusal::WantOfMemory => to.put("want of memory"),
    }
}

/// Writes words and a number behind them.
pub fn put_counted<W: Takes>(to: &mut W, words: &str, number: u64) -> Result<(), AllocError>
    ensures added { OnOk result (W.adds (counted words.now number) to.old to.new) }
    ensures want { OnErr result W.may_want }
{
    to.put(words)?;
    put_number(to, number)
}

/// Writes words and a signed number behind them.
pub fn put_signed_counted<W: Takes>(to: &mut W, words: &str, number: &i64) -> Result<(), AllocError>
    ensures added { OnOk result (W.adds (signed_counted words.now number.now) to.old to.new) }
    ensures want { OnErr result W.may_want }
{
    to.put(words)?;
    put_signed(to, *number)
}

/// Writes two numbers, each behind its words.
fn put_two<W: Takes>(
    to: &mut W,
    words: &str,
    number: u64,
    other_words: &str,
    other: u64,
) -> Result<(), AllocError>
    ensures added { OnOk result (W.adds (counted words.now number ++ counted other_words.now other) to.old to.new) }
    ensures want { OnErr result W.may_want }
{
    put_counted(to, words, number)?;
    put_counted(to, other_words, other)
}

/// Writes how many elements a vector has to have, and how many it has.
fn put_shape<W: Takes>(to: &mut W, column: u8, wanted: u32, got: u32) -> Result<(), AllocError>
    ensures added { OnOk result (W.adds (refusal_text (Refusal.VectorShape column wanted got)) to.old to.new) }
    ensures want { OnErr result W.may_want }
{
    put_counted(to, "vector column ", u64::from(column))?;
    put_counted(to, " wants ", u64::from(wanted))?;
    put_counted(to, " got ", u64::from(got))
}

/// Writes which form of SQL is not supported.
fn put_unsupported<W: Takes>(to: &mut W, word: u8) -> Result<(), AllocError>
    ensures added { OnOk result (W.adds (refusal_text (Refusal.Unsupported word)) to.old to.new) }
    ensures want { OnErr result W.may_want }
{
    to.put("unsupported ")?;
    to.put(unsupported_word(word))
}

/// The word of SQL with the number, or what is said where there is none.
fn unsupported_word(number: u8) -> &'static str
    ensures { result.now ≡ unsupported_word number }
{
    match usize::from(number).checked_sub(1) {
        Some(at) => word_at(&UNSUPPORTED_WORDS, at),
        None => NO_WORD,
    }
}

/// The word at a place, or what is said where there is none.
fn word_at(words: &[&'static str], at: usize) -> &'static str
    ensures { result.now ≡ get_or (map (λ word. word.now) words.now) at NO_WORD.now }
{
    if at < words.len() { words[at] } else { NO_WORD }
}
