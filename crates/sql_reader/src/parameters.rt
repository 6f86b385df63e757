//! What is known of the parameters of a statement, and the fault that they have.
ghost use Rattle.std.specs.Prelude.{◌≡◌, ◌≤◌, ◌++◌, true, length, IfOk, MatchBool, MatchOption};
ghost use Rattle.sql_reader.specs.inner.WellFormedGivens.{is_well_formed};
ghost use Rattle.sql_reader.specs.GivenStatements.{bits, int8, uses};
ghost use Rattle.sql_reader.specs.inner.PartMeanings.{limit_uses, ordered_uses, set_uses, term_uses};
ghost use Rattle.sql_reader.specs.inner.ParameterSummaries.{SummarizesMore, fault_of, lesser, with_use};
ghost use Rattle.sql_reader.specs.StatementReading.{IsParameterFault, ParametersFit, Takes, parameter};

use crate::given::{GivenAssign, GivenSelect, GivenStatement, GivenTerm};
use crate::part::summarize_each;
use crate::part_meaning::summarize_limit;
use crate::vector::{int8_of, parameter};
use std::alloc::Global;
use vec_base::{MOST_PARAMETERS, Memory, Value};

/// What is known of the parameters so far: the greatest number, 0 where there is none, and the least number of one that is
/// not taken.
#[derive(Clone, Copy, Debug)]
pub(crate) struct UseSummary {
    greatest: u16,
    untaken: Option<u16>,
}

impl UseSummary {
    /// The summary with a parameter more.
    pub(crate) fn with_use(self, number: u16, taken: bool) -> UseSummary
        ensures { result ≡ with_use number taken self }
    {
        UseSummary {
            greatest: self.greatest.max(number),
            untaken: if taken {
                self.untaken
            } else {
                Some(lesser(number, self.untaken))
            },
        }
    }
}

/// The lesser of two numbers, or the one that there is.
fn lesser(number: u16, other: Option<u16>) -> u16
    ensures { result ≡ lesser number other }
{
    match other {
        Some(other) => { if number < other { number } else { other } }
        None => number,
    }
}

/// Whether VEC_INT8 takes the parameter.
pub(crate) fn is_int8(alloc: Global, params: &[Value], number: u16) -> Result<bool, Memory>
    ensures { IfOk result (λ taken. MatchBool taken (Takes int8 (parameter params.now number)) (Takes int8 (parameter params.now number) → ⊥)) }
{
    let Some(value) = parameter(params, number) else {
        return Ok(false);
    };
    value_is_int8(alloc, value)
}

/// Whether VEC_INT8 takes the value.
fn value_is_int8(alloc: Global, value: &Value) -> Result<bool, Memory>
    ensures { IfOk result (λ taken. MatchBool taken (Takes int8 value.now) (Takes int8 value.now → ⊥)) }
{
    match value {
        Value::Text(text) => {
            let vector = int8_of(alloc, text.as_text().as_bytes())?;
            Ok(vector.is_some())
        }
        Value::Blob(_) => Ok(true),
        Value::Int8(_) => Ok(true),
        _ => Ok(false),
    }
}

/// Whether VEC_BIT takes the parameter.
pub(crate) fn is_bits(params: &[Value], number: u16) -> bool
    ensures { MatchBool result (Takes bits (parameter params.now number)) (Takes bits (parameter params.now number) → ⊥) }
{
    match parameter(params, number) {
        Some(value) => value_is_bits(value),
        None => false,
    }
}

/// Whether VEC_BIT takes the value.
fn value_is_bits(value: &Value) -> bool
    ensures { MatchBool result (Takes bits value.now) (Takes bits value.now → ⊥) }
{
    match value {
        Value::Blob(_) => true,
        Value::Bits(_) => true,
        _ => false,
    }
}

/// The summary with the parameters of a SELECT.
#[tactic(auto, using(crate::proofs::ParameterLaws::summaries_joined))]
fn summarize_select(
    alloc: Global,
    summary: UseSummary,
    select: &GivenSelect<'_>,
    params: &[Value],
) -> Result<UseSummary, Memory>
    ensures { IfOk result (λ new. SummarizesMore params.now (term_uses select.now.where_terms ++ limit_uses select.now.limit) summary new) }
{
    let summary = summarize_each(alloc, summary, select.where_terms.as_slice(), params)?;
    summarize_limit(alloc, summary, &select.limit, params)
}

/// The summary with the parameters of an UPDATE.
#[tactic(auto, using(crate::proofs::ParameterLaws::summaries_joined))]
fn summarize_update(
    alloc: Global,
    summary: UseSummary,
    sets: &[GivenAssign<'_>],
    terms: &[GivenTerm<'_>],
    params: &[Value],
) -> Result<UseSummary, Memory>
    ensures { IfOk result (λ new. SummarizesMore params.now (set_uses sets.now ++ term_uses terms.now) summary new) }
{
    let summary = summarize_each(alloc, summary, sets, params)?;
    summarize_each(alloc, summary, terms, params)
}

/// The summary with the parameters of a statement.
#[tactic(auto, using(crate::proofs::ParameterLaws::no_uses))]
fn summarize_statement(
    alloc: Global,
    summary: UseSummary,
    given: &GivenStatement<'_>,
    params: &[Value],
) -> Result<UseSummary, Memory>
    ensures { IfOk result (λ new. SummarizesMore params.now (ordered_uses given.now) summary new) }
{
    match given {
        GivenStatement::Insert(_, _, groups) => summarize_each(
            alloc,
            summary,
            groups.as_slice(),
            params,
        ),
        GivenStatement::Update(_, sets, terms) => {
            summarize_update(alloc, summary, sets.as_slice(), terms.as_slice(), params)
        }
        GivenStatement::Delete(_, terms) => summarize_each(
            alloc,
            summary,
            terms.as_slice(),
            params,
        ),
        GivenStatement::Select(select) => summarize_select(alloc, summary, select, params),
        GivenStatement::Explain(select) => summarize_select(alloc, summary, select, params),
        _ => Ok(summary),
    }
}

/// The fault that the summary shows where so many parameters are given.
fn fault_of(summary: UseSummary, count: usize) -> Option<u16>
    requires { summary.greatest ≤ MOST_PARAMETERS }
    ensures { result ≡ fault_of summary count }
{
    let greatest = usize::from(summary.greatest);
    if count < greatest {
        Some(count as u16 + 1)
    } else if greatest < count {
        Some(summary.greatest + 1)
    } else {
        summary.untaken
    }
}

/// The number of the parameter that is missing, too much, or the least one that is not taken, if there is a fault.
pub(crate) fn parameter_fault(
    alloc: Global,
    given: &GivenStatement<'_>,
    params: &[Value],
) -> Result<Option<u16>, Memory>
    requires { is_well_formed given.now ≡ true }
    ensures { IfOk result (λ fault. MatchOption fault (ParametersFit params.now (uses given.now)) (IsParameterFault params.now (uses given.now))) }
{
    let start = UseSummary {
        greatest: 0,
        untaken: None,
    };
    let summary = summarize_statement(alloc, start, given, params)?;
    Ok(fault_of(summary, params.len()))
}
