//! What the parts of a given statement mean: values, terms, columns with their values, and rows.
ghost use Rattle.std.specs.Prelude.{◌≡◌, ◌++◌, IfOk};
ghost use Rattle.std.specs.List.{flat_map};
ghost use Rattle.vec_base.specs.declared.value.Value.TheVariants as values;
ghost use Rattle.sql_reader.specs.GivenStatements.{bits, int8, uses_of};
ghost use Rattle.sql_reader.specs.inner.PartMeanings.{AreTaken, IsPartMeaning, limit_checks, limit_uses, test_checks, test_uses};
ghost use Rattle.sql_reader.specs.inner.ParameterSummaries.{SummarizesMore};
ghost use Rattle.sql_reader.specs.StatementReading.{EachOption, GivesBits, GivesInt8, MeansTest, MeansValue, Takes, parameter};

use crate::flaw::Flaw;
use crate::given::{Given, GivenAssign, GivenTerm, GivenTest, Group};
use crate::parameters::{UseSummary, is_bits, is_int8};
use crate::part::{GivenPart, meanings, summarize_each};
use crate::vector::{bits_from, int8_from, int8_quoted, parameter};
use row_model::{Assign, Constraint, Test};
use std::alloc::Global;
use vec_base::{List, Memory, Value};

/// The value of a parameter, or NULL where it is not given.
fn parameter_value(alloc: Global, params: &[Value], number: u16) -> Result<Value, Memory>
    ensures { IfOk result (λ value. value ≡ parameter params.now number) }
{
    match parameter(params, number) {
        Some(value) => value.copy(alloc),
        None => Ok(Value::Null),
    }
}

/// The int8 vector that a parameter gives, or NULL where it gives none.
fn int8_parameter(alloc: Global, params: &[Value], number: u16) -> Result<Value, Memory>
    ensures { IfOk result (λ value. Takes int8 (parameter params.now number) → GivesInt8 (parameter params.now number) value) }
{
    let Some(value) = parameter(params, number) else {
        return Ok(Value::Null);
    };
    match int8_from(alloc, value)? {
        Some(vector) => Ok(Value::Int8(vector)),
        None => Ok(Value::Null),
    }
}

/// The bit vector that a parameter gives, or NULL where it gives none.
fn bits_parameter(alloc: Global, params: &[Value], number: u16) -> Result<Value, Memory>
    ensures { IfOk result (λ value. Takes bits (parameter params.now number) → GivesBits (parameter params.now number) value) }
{
    let Some(value) = parameter(params, number) else {
        return Ok(Value::Null);
    };
    match bits_from(alloc, value)? {
        Some(vector) => Ok(Value::Bits(vector)),
        None => Ok(Value::Null),
    }
}

impl<'a> GivenPart for Given<'a> {
    ghost use Rattle.sql_reader.specs.GivenStatements.{checks_of, uses_of};
    ghost use Rattle.sql_reader.specs.StatementReading.{MeansValue};

    type Meaning = Value;

    ghost checks = { λ names given. checks_of given };

    ghost uses = { uses_of };

    ghost means = { MeansValue };

    #[tactic(auto, using(crate::proofs::ParameterLaws::no_uses))]
    fn summarize(
        &self,
        alloc: Global,
        summary: UseSummary,
        params: &[Value],
    ) -> Result<UseSummary, Memory> {
        match self {
            Given::Value(_) => Ok(summary),
            Given::Parameter(number) => Ok(summary.with_use(*number, true)),
            Given::Int8Text(_, _) => Ok(summary),
            Given::Int8Parameter(number) => {
                let taken = is_int8(alloc, params, *number)?;
                Ok(summary.with_use(*number, taken))
            }
            Given::BitsParameter(number) => {
                let taken = is_bits(params, *number);
                Ok(summary.with_use(*number, taken))
            }
        }
    }

    fn meaning(self, alloc: Global, _names: usize, params: &[Value]) -> Result<Value, Flaw> {
        match self {
            Given::Value(value) => Ok(value),
            Given::Parameter(number) => Ok(parameter_value(alloc, params, number)?),
            Given::Int8Text(place, text) => match int8_quoted(alloc, &text)? {
                Some(vector) => Ok(Value::Int8(vector)),
                None => Err(Flaw::Place(place)),
            },
            Given::Int8Parameter(number) => Ok(int8_parameter(alloc, params, number)?),
            Given::BitsParameter(number) => Ok(bits_parameter(alloc, params, number)?),
        }
    }
}

/// The summary with the parameters of a test.
#[tactic(auto, using(crate::proofs::ParameterLaws::one_value))]
fn summarize_test(
    alloc: Global,
    summary: UseSummary,
    test: &GivenTest<'_>,
    params: &[Value],
) -> Result<UseSummary, Memory>
    ensures { IfOk result (λ new. SummarizesMore params.now (test_uses test.now) summary new) }
{
    match test {
        GivenTest::Compare(_, given) => given.summarize(alloc, summary, params),
        GivenTest::Member(givens) => summarize_each(alloc, summary, givens.as_slice(), params),
        GivenTest::Match(given) => given.summarize(alloc, summary, params),
    }
}

/// What a term asks.
fn test_of(alloc: Global, test: GivenTest<'_>, params: &[Value]) -> Result<Test, Flaw>
    ensures { IsPartMeaning (test_checks test.entry) (AreTaken params.now (test_uses test.entry)) (MeansTest params.now test.entry) result }
{
    match test {
        GivenTest::Compare(op, given) => Ok(Test::Compare(op, given.meaning(alloc, 0, params)?)),
        GivenTest::Member(givens) => Ok(Test::Member(meanings(alloc, givens, 0, params)?)),
        GivenTest::Match(given) => Ok(Test::Match(given.meaning(alloc, 0, params)?)),
    }
}

impl<'a> GivenPart for GivenTerm<'a> {
    ghost use Rattle.sql_reader.specs.inner.PartMeanings.{test_checks, test_uses};
    ghost use Rattle.sql_reader.specs.StatementReading.{MeansTerm};

    type Meaning = Constraint;

    ghost checks = { λ names term. test_checks term.test };

    ghost uses = { λ term. test_uses term.test };

    ghost means = { MeansTerm };

    fn summarize(
        &self,
        alloc: Global,
        summary: UseSummary,
        params: &[Value],
    ) -> Result<UseSummary, Memory> {
        summarize_test(alloc, summary, &self.test, params)
    }

    fn meaning(self, alloc: Global, _names: usize, params: &[Value]) -> Result<Constraint, Flaw> {
        let GivenTerm { column, test } = self;
        let test = test_of(alloc, test, params)?;
        Ok(Constraint { column, test })
    }
}

impl<'a> GivenPart for GivenAssign<'a> {
    ghost use Rattle.sql_reader.specs.GivenStatements.{checks_of, uses_of};
    ghost use Rattle.sql_reader.specs.StatementReading.{MeansAssign};

    type Meaning = Assign;

    ghost checks = { λ names set. checks_of set.value };

    ghost uses = { λ set. uses_of set.value };

    ghost means = { MeansAssign };

    fn summarize(
        &self,
        alloc: Global,
        summary: UseSummary,
        params: &[Value],
    ) -> Result<UseSummary, Memory> {
        self.value.summarize(alloc, summary, params)
    }

    fn meaning(self, alloc: Global, names: usize, params: &[Value]) -> Result<Assign, Flaw> {
        let GivenAssign { column, value } = self;
        let value = value.meaning(alloc, names, params)?;
        Ok(Assign { column, value })
    }
}

impl<'a> GivenPart for Group<'a> {
    ghost use Rattle.std.specs.List.{flat_map};
    ghost use Rattle.sql_reader.specs.GivenStatements.{group_checks, uses_of};
    ghost use Rattle.sql_reader.specs.StatementReading.{MeansGroup};

    type Meaning = List<Value>;

    ghost checks = { group_checks };

    ghost uses = { λ group. flat_map uses_of group.values };

    ghost means = { MeansGroup };

    fn summarize(
        &self,
        alloc: Global,
        summary: UseSummary,
        params: &[Value],
    ) -> Result<UseSummary, Memory> {
        summarize_each(alloc, summary, self.values.as_slice(), params)
    }

    fn meaning(self, alloc: Global, names: usize, params: &[Value]) -> Result<List<Value>, Flaw> {
        let Group { values, close } = self;
        let is_whole = values.len() == names;
        let values = meanings(alloc, values, names, params)?;
        if is_whole {
            Ok(values)
        } else {
            Err(Flaw::Place(close))
        }
    }
}

/// The summary with the value of LIMIT.
#[tactic(auto, using(crate::proofs::ParameterLaws::no_uses, crate::proofs::ParameterLaws::one_value))]
pub(crate) fn summarize_limit(
    alloc: Global,
    summary: UseSummary,
    limit: &Option<Given<'_>>,
    params: &[Value],
) -> Result<UseSummary, Memory>
    ensures { IfOk result (λ new. SummarizesMore params.now (limit_uses limit.now) summary new) }
{
    match limit {
        Some(given) => given.summarize(alloc, summary, params),
        None => Ok(summary),
    }
}

/// The value of LIMIT.
pub(crate) fn limit_of(
    alloc: Global,
    limit: Option<Given<'_>>,
    params: &[Value],
) -> Result<Option<Value>, Flaw>
    ensures { IsPartMeaning (limit_checks limit.entry) (AreTaken params.now (limit_uses limit.entry)) (EachOption (MeansValue params.now) limit.entry) result }
{
    match limit {
        Some(given) => Ok(Some(given.meaning(alloc, 0, params)?)),
        None => Ok(None),
    }
}
