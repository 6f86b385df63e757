//! Bytes in hexadecimal digits.

ghost use Rattle.std.specs.Prelude.{◌≤◌, OnOk, OnErr, length};
ghost use Rattle.hex.specs.Hex.{encode_upper};

use crate::Takes;
use std::alloc::AllocError;

/// How many bytes are written at once.
const PIECE: usize = 32;

/// Writes each byte as two hexadecimal digits in capitals.
pub fn put_hex<W: Takes>(to: &mut W, bytes: &[u8]) -> Result<(), AllocError>
    ensures added { OnOk result (W.adds (encode_upper bytes.now) to.old to.new) }
    ensures want { OnErr result W.may_want }
{
    let mut left = bytes;
    while left.len() > PIECE {
        let (first, others) = left.split_at(PIECE);
        put_piece(to, first)?;
        left = others;
    }
    put_piece(to, left)
}

/// Writes at most a piece of bytes.
fn put_piece<W: Takes>(to: &mut W, bytes: &[u8]) -> Result<(), AllocError>
    requires { length bytes.now ≤ 32 }
    ensures added { OnOk result (W.adds (encode_upper bytes.now) to.old to.new) }
    ensures want { OnErr result W.may_want }
{
    let mut room = [0u8; 2 * PIECE];
    let digits = &mut room[..2 * bytes.len()];
    let Ok(()) = hex::encode_to_slice(bytes, digits) else {
        unreachable!()
    };
    digits.make_ascii_uppercase();
    let Ok(text) = str::from_utf8(digits) else {
        unreachable!()
    };
    to.put(text)
}
