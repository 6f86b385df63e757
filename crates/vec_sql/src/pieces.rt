//! The parts of a statement as they are written.
ghost use Rattle.std.specs.Prelude.{◌≡◌, ◌++◌, codes, string_bytes, OnOk};
ghost use Rattle.vec_text.specs.ValueTexts.{value_text};
ghost use Rattle.vec_sql.specs.CanonicalStatements.{group_text, op_text, test_text};

use crate::piece::Piece;
use row_model::{Assign, Constraint, Test};
use std::alloc::AllocError;
use vec_base::{List, Op, Txt, Value};
use vec_text::{put_separated, put_value};

impl Piece for Txt {
    ghost use Rattle.vec_sql.specs.CanonicalStatements.{name_text};

    ghost text_of = { name_text };

    fn write(&self, text: &mut String) -> Result<(), AllocError> {
        text.push_str(self.as_text())
    }
}

impl Piece for List<Value> {
    ghost use Rattle.vec_sql.specs.CanonicalStatements.{group_text};

    ghost text_of = { group_text };

    fn write(&self, text: &mut String) -> Result<(), AllocError> {
        write_group(text, self)
    }
}

impl Piece for Assign {
    ghost use Rattle.vec_sql.specs.CanonicalStatements.{assign_text};

    ghost text_of = { assign_text };

    fn write(&self, text: &mut String) -> Result<(), AllocError> {
        self.column.write(text)?;
        text.push_str(" = ")?;
        put_value(text, &self.value)
    }
}

impl Piece for Constraint {
    ghost use Rattle.vec_sql.specs.CanonicalStatements.{term_text};

    ghost text_of = { term_text };

    fn write(&self, text: &mut String) -> Result<(), AllocError> {
        self.column.write(text)?;
        write_test(text, &self.test)
    }
}

/// Writes values in parentheses.
fn write_group(text: &mut String, values: &List<Value>) -> Result<(), AllocError>
    ensures text { OnOk result (string_bytes text.new ≡ string_bytes text.old ++ group_text values.now) }
{
    text.push_str("(")?;
    put_separated(text, ", ", values.as_slice())?;
    text.push_str(")")
}

/// Writes what a term asks of its column.
fn write_test(text: &mut String, test: &Test) -> Result<(), AllocError>
    ensures text { OnOk result (string_bytes text.new ≡ string_bytes text.old ++ test_text test.now) }
{
    match test {
        Test::Compare(op, value) => write_comparison(text, *op, value),
        Test::Member(values) => {
            text.push_str(" IN ")?;
            write_group(text, values)
        }
        Test::Match(value) => {
            text.push_str(" MATCH ")?;
            put_value(text, value)
        }
    }
}

/// Writes a comparison, with a space on both sides of the operator.
fn write_comparison(text: &mut String, op: Op, value: &Value) -> Result<(), AllocError>
    ensures text { OnOk result (string_bytes text.new ≡ string_bytes text.old ++ (codes " " ++ op_text op ++ codes " " ++ value_text value.now)) }
{
    text.push_str(" ")?;
    text.push_str(op_mark(op))?;
    text.push_str(" ")?;
    put_value(text, value)
}

/// The mark of the operator.
fn op_mark(op: Op) -> &'static str
    ensures { result.now ≡ op_text op }
{
    match op {
        Op::Eq => "=",
        Op::Ne => "!=",
        Op::Lt => "<",
        Op::Le => "<=",
        Op::Gt => ">",
        Op::Ge => ">=",
    }
}
