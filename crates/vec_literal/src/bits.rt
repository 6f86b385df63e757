//! The literal of a bit vector.
ghost use Rattle.std.specs.Prelude.{◌≡◌, ◌⊎◌, ℕ, List, IfOk, IfErr};
ghost use Rattle.hex.specs.Hex.{encode_upper};
ghost use Rattle.vec_base.specs.Answers.{IsExactAnswer};
ghost use Rattle.vec_literal.specs.declared.int8.LitFault.TheVariants.{Memory as WantOfMemory};
ghost use Rattle.vec_literal.specs.Bits.{SpellsBits, IsBitsFault};

use crate::int8::LitFault;
use hex::FromHexError;
use std::alloc::Global;
use vec_base::{Bytes, Memory, Txt};

/// The bytes that the text spells, two hexadecimal digits of either case for each, the higher first.
/// `OddHex` where the length of the text is odd, else `Place` with the index of the first byte that is no digit.
pub fn read_bits(alloc: Global, text: &[u8]) -> Result<Bytes, LitFault>
    ensures exact { IsExactAnswer WantOfMemory (λ vector. SpellsBits text.now vector) (λ fault. IsBitsFault text.now fault) result }
{
    match hex::decode(alloc, text) {
        Ok(bytes) => Ok(Bytes::from_vec(bytes)),
        Err(FromHexError::InvalidHexCharacter { index, .. }) => Err(LitFault::Place(index)),
        Err(FromHexError::OddLength) => Err(LitFault::OddHex),
        Err(_) => Err(LitFault::Memory),
    }
}

/// The upper-case hexadecimal digits of the bytes, two for each. Reading them gives the bytes.
pub fn write_bits(alloc: Global, vector: &[u8]) -> Result<Txt, Memory>
    ensures text { IfOk result (λ t. t ≡ encode_upper vector.now) }
    ensures reads_back { IfOk result (λ t. SpellsBits t vector.now) }
{
    Ok(Txt::from_string(hex::encode_upper(alloc, vector)?))
}
