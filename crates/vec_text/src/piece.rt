//! Lists of things that are written, with a separator between them.

ghost use Rattle.std.specs.Prelude.{ℕ, List as Seq, OnOk, OnErr};
ghost use Rattle.vec_text.specs.SeparatedTexts.{behind, separated};

use crate::Takes;
use std::alloc::AllocError;

/// What is written as a text.
pub trait Piece {
    /// The text.
    ghost text_of: { Self → Seq ℕ };

    /// Writes the text.
    fn put_to<W: Takes>(&self, to: &mut W) -> Result<(), AllocError>
        ensures added { OnOk result (W.adds (text_of self.now) to.old to.new) }
        ensures want { OnErr result W.may_want };
}

/// Writes the texts of the pieces, with the separator between them.
pub fn put_separated<P: Piece, W: Takes>(
    to: &mut W,
    separator: &str,
    pieces: &[P],
) -> Result<(), AllocError>
    ensures added { OnOk result (W.adds (separated separator.now P.text_of pieces.now) to.old to.new) }
    ensures want { OnErr result W.may_want }
{
    match pieces {
        [] => Ok(()),
        [first, others @ ..] => {
            first.put_to(to)?;
            put_behind(to, separator, others)
        }
    }
}

/// Writes the texts of the pieces, each with the separator before it.
fn put_behind<P: Piece, W: Takes>(
    to: &mut W,
    separator: &str,
    pieces: &[P],
) -> Result<(), AllocError>
    ensures added { OnOk result (W.adds (behind separator.now P.text_of pieces.now) to.old to.new) }
    ensures want { OnErr result W.may_want }
{
    for piece in pieces {
        to.put(separator)?;
        piece.put_to(to)?;
    }
    Ok(())
}
