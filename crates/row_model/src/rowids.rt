//! The rowids that a table assigns.
ghost use Rattle.std.specs.Prelude.{◌≡◌};
ghost use Rattle.row_model.specs.Change.{assigned, larger, spent};
ghost use Rattle.row_model.specs.RefusalOrder.{first};

use vec_base::{LAST_ROWID, Refusal};

/// The refusal where a rowid is to be assigned and none is left.
pub fn spent(top: &i64, rowid: &Option<i64>) -> Option<Refusal>
    ensures { result ≡ first (spent top.now rowid.now) }
{
    match rowid {
        Some(_) => None,
        None => {
            if *top < LAST_ROWID {
                None
            } else {
                Some(Refusal::RowidsSpent)
            }
        }
    }
}

/// The rowid of a row: the one that is given, or the one above the greatest that the table ever held.
pub fn assigned(top: &i64, rowid: &Option<i64>) -> i64
    ensures { result ≡ assigned top.now rowid.now }
{
    match rowid {
        Some(rowid) => *rowid,
        None => { if *top < LAST_ROWID { *top + 1 } else { *top } }
    }
}

/// The greater of two rowids.
pub fn larger(a: &i64, b: &i64) -> i64
    ensures { result ≡ larger a.now b.now }
{
    if *a < *b { *b } else { *a }
}
