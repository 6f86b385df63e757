//! What text and blob literals stand for.
ghost use Rattle.std.specs.Prelude.{◌≡◌, true, false, IfOk};
ghost use Rattle.vec_literal.specs.Tokens.{is_text_literal, is_blob_literal};
ghost use Rattle.vec_literal.specs.LiteralValues.{text_value, quoted_bytes, undoubled, blob_value};

use crate::bits::read_bits;
use crate::int8::LitFault;
use crate::quote::before_quote;
use std::alloc::{AllocError, Global};
use vec_base::{Bytes, Memory, Txt};

/// What stands between the quotes of a text literal, as it is spelled: each quote in it is doubled.
pub fn between_quotes(literal: &[u8]) -> &[u8]
    requires { is_text_literal literal.now ≡ true }
    ensures bytes { result.now ≡ quoted_bytes literal.now }
    ensures text { undoubled false result.now ≡ text_value literal.now }
{
    &literal[1..literal.len() - 1]
}

/// The text that a text literal stands for.
pub fn read_text(alloc: Global, literal: &[u8]) -> Result<Txt, Memory>
    requires { is_text_literal literal.now ≡ true }
    ensures { IfOk result (λ text. text ≡ text_value literal.now) }
{
    let bytes = undoubled(alloc, between_quotes(literal))?;
    match String::from_utf8(bytes) {
        Ok(text) => Ok(Txt::from_string(text)),
        Err(_) => unreachable!(),
    }
}

/// The bytes that a blob literal stands for.
pub fn read_blob(alloc: Global, literal: &[u8]) -> Result<Bytes, Memory>
    requires { is_blob_literal literal.now ≡ true }
    ensures { IfOk result (λ bytes. bytes ≡ blob_value literal.now) }
{
    match read_bits(alloc, &literal[2..literal.len() - 1]) {
        Ok(bytes) => Ok(bytes),
        Err(LitFault::Memory) => Err(Memory),
        Err(LitFault::Place(_)) => unreachable!(),
        Err(LitFault::Range(_)) => unreachable!(),
        Err(LitFault::OddHex) => unreachable!(),
    }
}

/// The bytes, where doubled quotes are read as one.
fn undoubled(alloc: Global, quoted: &[u8]) -> Result<Vec<u8>, AllocError>
    ensures { IfOk result (λ bytes. bytes.items ≡ undoubled false quoted.now) }
{
    let mut bytes = Vec::with_capacity(alloc, quoted.len())?;
    let mut left = quoted;
    loop {
        let quote = before_quote(left);
        if quote >= left.len() {
            bytes.extend_from_slice(left)?;
            return Ok(bytes);
        }
        bytes.extend_from_slice(&left[..quote + 1])?;
        left = &left[left.len().min(quote + 2)..];
    }
}
