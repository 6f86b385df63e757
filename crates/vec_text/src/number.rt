//! Numbers in decimal.

ghost use Rattle.std.specs.Prelude.{OnOk, OnErr};
ghost use Rattle.std.specs.Fmt.{decimal, signed_decimal};

use crate::Takes;
use itoa::Buffer;
use std::alloc::AllocError;

/// Writes a number in decimal.
pub fn put_number<W: Takes>(to: &mut W, number: u64) -> Result<(), AllocError>
    ensures added { OnOk result (W.adds (decimal number) to.old to.new) }
    ensures want { OnErr result W.may_want }
{
    let mut buffer = Buffer::new();
    to.put(buffer.format(number))
}

/// Writes a signed number in decimal.
pub fn put_signed<W: Takes>(to: &mut W, number: i64) -> Result<(), AllocError>
    ensures added { OnOk result (W.adds (signed_decimal number) to.old to.new) }
    ensures want { OnErr result W.may_want }
{
    let mut buffer = Buffer::new();
    to.put(buffer.format(number))
}
