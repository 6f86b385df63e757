//! Vectors that texts and parameters give.
ghost use Rattle.std.specs.Prelude.{◌≡◌, ℕ, List, IfOk, MatchOption};
ghost use Rattle.vec_base.specs.declared.value.Value.TheVariants as values;
ghost use Rattle.vec_literal.specs.Int8.{SpellsInt8};
ghost use Rattle.sql_reader.specs.GivenStatements.{int8, bits};
ghost use Rattle.sql_reader.specs.StatementReading.{Takes, GivesInt8, GivesBits, parameter};

use grammar::Quoted;
use std::alloc::Global;
use vec_base::{Bytes, Memory, Value};
use vec_literal::{LitFault, read_int8};

/// The value of the parameter of the number, if it is given.
pub(crate) fn parameter(params: &[Value], number: u16) -> Option<&Value>
    ensures { MatchOption result (parameter params.now number ≡ values.Null) (λ value. value.now ≡ parameter params.now number) }
{
    params.get(usize::from(number).saturating_sub(1))
}

/// The int8 vector that the text spells, if it spells one.
pub(crate) fn int8_of(alloc: Global, text: &[u8]) -> Result<Option<Bytes>, Memory>
    ensures { IfOk result (λ read. MatchOption read ((vector : List ℕ) → SpellsInt8 text.now vector → ⊥) (λ vector. SpellsInt8 text.now vector)) }
{
    match read_int8(alloc, text) {
        Ok(vector) => Ok(Some(vector)),
        Err(LitFault::Memory) => Err(Memory),
        Err(LitFault::Place(_)) => Ok(None),
        Err(LitFault::Range(_)) => Ok(None),
        Err(LitFault::OddHex) => Ok(None),
    }
}

/// The int8 vector that is quoted, if one is. No vector's text has a quote, so it is read as it is spelled.
pub(crate) fn int8_quoted(alloc: Global, quoted: &Quoted<'_>) -> Result<Option<Bytes>, Memory>
    ensures { IfOk result (λ read. MatchOption read ((vector : List ℕ) → SpellsInt8 quoted.now vector → ⊥) (λ vector. SpellsInt8 quoted.now vector)) }
{
    int8_of(alloc, quoted.spelling())
}

/// The int8 vector that a parameter's value gives, if it gives one.
pub(crate) fn int8_from(alloc: Global, value: &Value) -> Result<Option<Bytes>, Memory>
    ensures { IfOk result (λ read. MatchOption read (Takes int8 value.now → ⊥) (λ vector. GivesInt8 value.now (values.Int8 vector))) }
{
    match value {
        Value::Text(text) => int8_of(alloc, text.as_text().as_bytes()),
        Value::Blob(bytes) => Ok(Some(bytes.copy(alloc)?)),
        Value::Int8(bytes) => Ok(Some(bytes.copy(alloc)?)),
        _ => Ok(None),
    }
}

/// The bit vector that a parameter's value gives, if it gives one.
pub(crate) fn bits_from(alloc: Global, value: &Value) -> Result<Option<Bytes>, Memory>
    ensures { IfOk result (λ read. MatchOption read (Takes bits value.now → ⊥) (λ vector. GivesBits value.now (values.Bits vector))) }
{
    match value {
        Value::Blob(bytes) => Ok(Some(bytes.copy(alloc)?)),
        Value::Bits(bytes) => Ok(Some(bytes.copy(alloc)?)),
        _ => Ok(None),
    }
}
