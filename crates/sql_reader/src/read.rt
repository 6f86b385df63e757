//! Reading a statement.
ghost use Rattle.std.specs.Prelude.{◌≡◌, ◌≤◌, ◌⊎◌, Err, IfErr, IfOk, Ok, true};
ghost use Rattle.vec_base.specs.Answers.{IsExactAnswer};
ghost use Rattle.vec_base.specs.declared.refusal.Refusal.TheVariants.{WantOfMemory};
ghost use Rattle.grammar.specs.Grammar.{Spells};
ghost use Rattle.grammar.specs.Parameters.{numbered_tokens};
ghost use Rattle.sql_reader.specs.inner.WellFormedGivens.{is_well_formed};
ghost use Rattle.row_model.specs.RepresentableStatements.{IsRepresentableStatement};
ghost use Rattle.row_model.specs.WellFormed.{IsWellFormed};
ghost use Rattle.sql_reader.specs.GivenStatements.{item_count, items_in, terms_in};
ghost use Rattle.sql_reader.specs.inner.PartMeanings.{answered, later, unless_later};
ghost use Rattle.sql_reader.specs.StatementReading.{FailsAtToken, IsRefusal, SpellsStatement, count_fault};
ghost use Rattle.sql_reader.specs.StatementGrammar.{statement};

use crate::body::statement;
use crate::flaw::Flaw;
use crate::given::GivenStatement;
use crate::parameters::parameter_fault;
use crate::statement_meaning::statement_of;
use grammar::{Reader, Stop};
use row_model::{Items, Statement, TERMS_LIMIT};
use std::alloc::Global;
use vec_base::{List, MOST_TERMS, MOST_TEXT_BYTES, Refusal, Value};

/// What the text gives, without a look at what it means.
fn given_of(alloc: Global, text: &[u8]) -> Result<GivenStatement<'_>, Refusal>
    ensures spelled { IfOk result (λ given. Spells statement (numbered_tokens text.now) given) }
    ensures well_formed { IfOk result (λ given. is_well_formed given ≡ true) }
    ensures refusal { IfErr result (λ e. (e ≡ WantOfMemory) ⊎ FailsAtToken text.now e) }
{
    let mut reader = Reader::with_parameters(alloc, text);
    match statement(alloc, &mut reader) {
        Ok(given) => {
            if reader.is_done() {
                Ok(given)
            } else {
                Err(reader.refusal(text.len()))
            }
        }
        Err(Stop::Here) => Err(reader.refusal(text.len())),
        Err(Stop::Memory) => Err(Refusal::WantOfMemory),
    }
}

/// The statement that the text spells, where the parameters have these values, the first of them having the number 1. Names
/// are in lower case, and TRUE and FALSE are 1 and 0.
///
/// Errors, of which the first in this order is answered: `Syntax` with `MOST_TEXT_BYTES` where the text has more bytes than
/// that, and with the place of the failing token; `Unsupported` where that token is such a word; `Syntax` with the place of the first
/// text that spells no vector, or of the parenthesis that closes a row with another number of values than there are names;
/// `Parameter`; `Full` with `TERMS_LIMIT` where there are more than `MOST_TERMS` items or terms; `BadSchema` with the least rule that
/// is broken. `WantOfMemory` comes at any time.
pub fn read_statement(
    alloc: Global,
    text: &[u8],
    params: &List<Value>,
) -> Result<Statement, Refusal>
    ensures exact { IsExactAnswer WantOfMemory (λ statement. SpellsStatement text.now params.now statement) (λ refusal. IsRefusal text.now params.now refusal) result }
    ensures well_formed { IfOk result (λ statement. IsWellFormed statement) }
    ensures representable { IfOk result (λ statement. IsRepresentableStatement statement) }
{
    if text.len() > MOST_TEXT_BYTES {
        return Err(Refusal::Syntax(MOST_TEXT_BYTES as u64));
    }
    let given = given_of(alloc, text)?;
    let Ok(fault) = parameter_fault(alloc, &given, params.as_slice()) else {
        return Err(Refusal::WantOfMemory);
    };
    let count = count_fault(&given);
    answered(statement_of(alloc, given, params.as_slice()), fault, count)
}

/// The answer, where these are the faults of the parameters and of the counts.
fn answered(
    made: Result<Statement, Flaw>,
    fault: Option<u16>,
    count: Option<u64>,
) -> Result<Statement, Refusal>
    ensures given { result ≡ answered made fault count }
    ensures representable { IfOk result (λ statement. IsRepresentableStatement statement) }
{
    match made {
        Err(Flaw::Memory) => Err(Refusal::WantOfMemory),
        Err(Flaw::Place(place)) => Err(Refusal::Syntax(place as u64)),
        Err(Flaw::Rule(rule)) => unless_later(later(fault, count), Err(Refusal::BadSchema(rule))),
        Ok(statement) => {
            statement.representable();
            unless_later(later(fault, count), Ok(statement))
        }
    }
}

/// The refusal for the first of these faults.
fn later(fault: Option<u16>, count: Option<u64>) -> Option<Refusal>
    ensures { result ≡ later fault count }
{
    match (fault, count) {
        (Some(index), _) => Some(Refusal::Parameter(index)),
        (None, Some(count)) => Some(Refusal::Full(TERMS_LIMIT, count)),
        (None, None) => None,
    }
}

/// The refusal, or the result where there is none.
fn unless_later(
    refusal: Option<Refusal>,
    read: Result<Statement, Refusal>,
) -> Result<Statement, Refusal>
    ensures { result ≡ unless_later refusal read }
{
    match refusal {
        Some(refusal) => Err(refusal),
        None => read,
    }
}

/// The number of items, or else of terms, where it is over `MOST_TERMS`.
fn count_fault(given: &GivenStatement<'_>) -> Option<u64>
    ensures { result ≡ count_fault given.now }
{
    let items = items_in(given);
    let terms = terms_in(given);
    if items > MOST_TERMS {
        Some(items as u64)
    } else if terms > MOST_TERMS {
        Some(terms as u64)
    } else {
        None
    }
}

/// The number of items of a SELECT that names them.
fn items_in(given: &GivenStatement<'_>) -> usize
    ensures { result ≡ items_in given.now }
{
    match given {
        GivenStatement::Select(select) => item_count(&select.items),
        GivenStatement::Explain(select) => item_count(&select.items),
        _ => 0,
    }
}

/// The number of items that are named.
fn item_count(items: &Items) -> usize
    ensures { result ≡ item_count items.now }
{
    match items {
        Items::All => 0,
        Items::Named(names) => names.len(),
    }
}

/// The number of terms.
fn terms_in(given: &GivenStatement<'_>) -> usize
    ensures { result ≡ terms_in given.now }
{
    match given {
        GivenStatement::Update(_, _, terms) => terms.len(),
        GivenStatement::Delete(_, terms) => terms.len(),
        GivenStatement::Select(select) => select.where_terms.len(),
        GivenStatement::Explain(select) => select.where_terms.len(),
        _ => 0,
    }
}
