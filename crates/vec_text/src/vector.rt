//! The literal of an int8 vector.

ghost use Rattle.std.specs.Prelude.{OnOk, OnErr, codes};
ghost use Rattle.vec_text.specs.SeparatedTexts.{behind};
ghost use Rattle.vec_text.specs.ValueTexts.{element_text, elements_text, int8_text};

use crate::{Takes, put_signed};
use std::alloc::AllocError;

/// Writes the literal of an int8 vector, without white space.
pub fn put_int8<W: Takes>(to: &mut W, vector: &[u8]) -> Result<(), AllocError>
    ensures added { OnOk result (W.adds (int8_text vector.now) to.old to.new) }
    ensures want { OnErr result W.may_want }
{
    to.put("[")?;
    put_elements(to, vector)?;
    to.put("]")
}

/// Writes the elements of a vector, with commas between them.
fn put_elements<W: Takes>(to: &mut W, vector: &[u8]) -> Result<(), AllocError>
    ensures added { OnOk result (W.adds (elements_text vector.now) to.old to.new) }
    ensures want { OnErr result W.may_want }
{
    match vector {
        [] => Ok(()),
        [first, others @ ..] => {
            put_element(to, *first)?;
            put_further_elements(to, others)
        }
    }
}

/// Writes the elements behind the first one, each with a comma before it.
fn put_further_elements<W: Takes>(to: &mut W, others: &[u8]) -> Result<(), AllocError>
    ensures added { OnOk result (W.adds (behind (codes ",") element_text others.now) to.old to.new) }
    ensures want { OnErr result W.may_want }
{
    for element in others {
        to.put(",")?;
        put_element(to, *element)?;
    }
    Ok(())
}

/// Writes an element in decimal.
fn put_element<W: Takes>(to: &mut W, element: u8) -> Result<(), AllocError>
    ensures added { OnOk result (W.adds (element_text element) to.old to.new) }
    ensures want { OnErr result W.may_want }
{
    put_signed(to, i64::from(element.cast_signed()))
}
