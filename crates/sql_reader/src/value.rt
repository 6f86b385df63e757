//! Values as texts give them.
ghost use Rattle.std.specs.Prelude.{◌≡◌, Some, None, if◌then◌else◌, IfOk, true};
ghost use Rattle.grammar.specs.inner.ReaderResults.{rest_of, Gives};
ghost use Rattle.grammar.specs.inner.Reading.{read};
ghost use Rattle.sql_reader.specs.inner.WellFormedGivens.{is_well_formed_value};
ghost use Rattle.sql_reader.specs.StatementGrammar.{may_say, op, value, vec_bit, vec_int8};
ghost use Rattle.sql_reader.specs.inner.FactoredStatements.{bits_operand, int8_operand, operand, order_op, word_value};

use crate::given::Given;
use grammar::{Reader, Stop};
use vec_base::{Op, Value};

/// Passes the word where it is at hand, and answers whether it is.
pub(crate) fn may_say(reader: &mut Reader<'_>, word: &[u8]) -> Result<bool, Stop>
    ensures { Gives (λ said. if said then Some tt else None) result (read (may_say word.now) (rest_of reader.old)) (rest_of reader.new) }
{
    if reader.at_word(word) {
        reader.word(word)?;
        Ok(true)
    } else {
        Ok(false)
    }
}

/// Reads what VEC_INT8 is given.
#[tactic(auto, unfolding(crate::specs::inner::FactoredStatements::int8_operand))]
fn int8_operand<'a>(reader: &mut Reader<'a>) -> Result<Given<'a>, Stop>
    ensures reads { Gives (λ x. x) result (read int8_operand (rest_of reader.old)) (rest_of reader.new) }
    ensures well_formed { IfOk result (λ given. is_well_formed_value given ≡ true) }
{
    if reader.at_text() {
        let (place, text) = reader.quoted()?;
        Ok(Given::Int8Text(place, text))
    } else if reader.at_blob() {
        let bytes = reader.blob()?;
        Ok(Given::Value(Value::Int8(bytes)))
    } else {
        let number = reader.parameter()?;
        Ok(Given::Int8Parameter(number))
    }
}

/// Reads an int8 vector.
#[tactic(auto, unfolding(crate::specs::StatementGrammar::vec_int8, crate::specs::inner::FactoredStatements::int8_operand))]
fn vec_int8<'a>(reader: &mut Reader<'a>) -> Result<Given<'a>, Stop>
    ensures reads { Gives (λ x. x) result (read vec_int8 (rest_of reader.old)) (rest_of reader.new) }
    ensures well_formed { IfOk result (λ given. is_well_formed_value given ≡ true) }
{
    reader.word(b"VEC_INT8")?;
    reader.mark(b"(")?;
    let given = int8_operand(reader)?;
    reader.mark(b")")?;
    Ok(given)
}

/// Reads what VEC_BIT is given.
#[tactic(auto, unfolding(crate::specs::inner::FactoredStatements::bits_operand))]
fn bits_operand<'a>(reader: &mut Reader<'a>) -> Result<Given<'a>, Stop>
    ensures reads { Gives (λ x. x) result (read bits_operand (rest_of reader.old)) (rest_of reader.new) }
    ensures well_formed { IfOk result (λ given. is_well_formed_value given ≡ true) }
{
    if reader.at_blob() {
        let bytes = reader.blob()?;
        Ok(Given::Value(Value::Bits(bytes)))
    } else {
        let number = reader.parameter()?;
        Ok(Given::BitsParameter(number))
    }
}

/// Reads a bit vector.
#[tactic(auto, unfolding(crate::specs::StatementGrammar::vec_bit, crate::specs::inner::FactoredStatements::bits_operand))]
fn vec_bit<'a>(reader: &mut Reader<'a>) -> Result<Given<'a>, Stop>
    ensures reads { Gives (λ x. x) result (read vec_bit (rest_of reader.old)) (rest_of reader.new) }
    ensures well_formed { IfOk result (λ given. is_well_formed_value given ≡ true) }
{
    reader.word(b"VEC_BIT")?;
    reader.mark(b"(")?;
    let given = bits_operand(reader)?;
    reader.mark(b")")?;
    Ok(given)
}

/// Reads a parameter or a vector.
#[tactic(auto, unfolding(crate::specs::inner::FactoredStatements::operand, crate::specs::StatementGrammar::vec_int8))]
fn operand<'a>(reader: &mut Reader<'a>) -> Result<Given<'a>, Stop>
    ensures reads { Gives (λ x. x) result (read operand (rest_of reader.old)) (rest_of reader.new) }
    ensures well_formed { IfOk result (λ given. is_well_formed_value given ≡ true) }
{
    if reader.at_parameter() {
        let number = reader.parameter()?;
        Ok(Given::Parameter(number))
    } else if reader.at_word(b"VEC_INT8") {
        vec_int8(reader)
    } else {
        vec_bit(reader)
    }
}

/// Reads a value that is no literal.
#[tactic(auto, unfolding(crate::specs::inner::FactoredStatements::word_value))]
fn word_value<'a>(reader: &mut Reader<'a>) -> Result<Given<'a>, Stop>
    ensures reads { Gives (λ x. x) result (read word_value (rest_of reader.old)) (rest_of reader.new) }
    ensures well_formed { IfOk result (λ given. is_well_formed_value given ≡ true) }
{
    if reader.at_word(b"NULL") {
        reader.word(b"NULL")?;
        Ok(Given::Value(Value::Null))
    } else if reader.at_word(b"TRUE") {
        reader.word(b"TRUE")?;
        Ok(Given::Value(Value::Int(1)))
    } else if reader.at_word(b"FALSE") {
        reader.word(b"FALSE")?;
        Ok(Given::Value(Value::Int(0)))
    } else {
        operand(reader)
    }
}

/// Reads a value.
#[tactic(auto, unfolding(crate::specs::StatementGrammar::value, crate::specs::inner::FactoredStatements::word_value, crate::specs::inner::FactoredStatements::operand))]
pub(crate) fn value<'a>(reader: &mut Reader<'a>) -> Result<Given<'a>, Stop>
    ensures reads { Gives (λ x. x) result (read value (rest_of reader.old)) (rest_of reader.new) }
    ensures well_formed { IfOk result (λ given. is_well_formed_value given ≡ true) }
{
    if reader.at_signed_number() {
        let number = reader.signed_number()?;
        Ok(Given::Value(Value::Int(number)))
    } else if reader.at_text() {
        let text = reader.text()?;
        Ok(Given::Value(Value::Text(text)))
    } else if reader.at_blob() {
        let bytes = reader.blob()?;
        Ok(Given::Value(Value::Blob(bytes)))
    } else {
        word_value(reader)
    }
}

/// Reads an operator that asks for an order.
#[tactic(auto, unfolding(crate::specs::inner::FactoredStatements::order_op))]
fn order_op(reader: &mut Reader<'_>) -> Result<Op, Stop>
    ensures { Gives (λ x. x) result (read order_op (rest_of reader.old)) (rest_of reader.new) }
{
    if reader.at_mark(b"<") {
        reader.mark(b"<")?;
        Ok(Op::Lt)
    } else if reader.at_mark(b"<=") {
        reader.mark(b"<=")?;
        Ok(Op::Le)
    } else if reader.at_mark(b">") {
        reader.mark(b">")?;
        Ok(Op::Gt)
    } else {
        reader.mark(b">=")?;
        Ok(Op::Ge)
    }
}

/// Reads an operator.
#[tactic(auto, unfolding(crate::specs::StatementGrammar::op, crate::specs::inner::FactoredStatements::order_op))]
pub(crate) fn op(reader: &mut Reader<'_>) -> Result<Op, Stop>
    ensures { Gives (λ x. x) result (read op (rest_of reader.old)) (rest_of reader.new) }
{
    if reader.at_mark(b"=") {
        reader.mark(b"=")?;
        Ok(Op::Eq)
    } else if reader.at_mark(b"==") {
        reader.mark(b"==")?;
        Ok(Op::Eq)
    } else if reader.at_mark(b"!=") {
        reader.mark(b"!=")?;
        Ok(Op::Ne)
    } else if reader.at_mark(b"<>") {
        reader.mark(b"<>")?;
        Ok(Op::Ne)
    } else {
        order_op(reader)
    }
}
