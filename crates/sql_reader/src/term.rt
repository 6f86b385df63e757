//! WHERE and its terms.
ghost use Rattle.std.specs.Prelude.{◌≡◌, ◌&&◌, true, IfOk};
ghost use Rattle.std.specs.List.{list_all};
ghost use Rattle.grammar.specs.inner.ReaderResults.{rest_of, Gives};
ghost use Rattle.grammar.specs.inner.Reading.{read};
ghost use Rattle.sql_reader.specs.StatementGrammar.{comparison, match_of, member};
ghost use Rattle.sql_reader.specs.inner.FactoredStatements.{factored_term, factored_where, maybe_where, terms_list, factored_test};
ghost use Rattle.sql_reader.specs.inner.WellFormedGivens.{is_well_formed_test, is_well_formed_term};

use crate::given::{GivenTerm, GivenTest};
use crate::list::values;
use crate::value::{op, value};
use grammar::{Item, Reader, Stop, listed};
use std::alloc::Global;
use vec_base::List;

/// Reads an operator and a value.
#[tactic(auto, unfolding(crate::specs::StatementGrammar::comparison))]
fn comparison<'a>(reader: &mut Reader<'a>) -> Result<GivenTest<'a>, Stop>
    ensures reads { Gives (λ x. x) result (read comparison (rest_of reader.old)) (rest_of reader.new) }
    ensures well_formed { IfOk result (λ test. is_well_formed_test test ≡ true) }
{
    let op = op(reader)?;
    let given = value(reader)?;
    Ok(GivenTest::Compare(op, given))
}

/// Reads IN and its members.
#[tactic(auto, unfolding(crate::specs::StatementGrammar::member))]
fn member<'a>(alloc: Global, reader: &mut Reader<'a>) -> Result<GivenTest<'a>, Stop>
    ensures reads { Gives (λ x. x) result (read member (rest_of reader.old)) (rest_of reader.new) }
    ensures well_formed { IfOk result (λ test. is_well_formed_test test ≡ true) }
{
    reader.word(b"IN")?;
    reader.mark(b"(")?;
    let members = values(alloc, reader)?;
    reader.mark(b")")?;
    Ok(GivenTest::Member(members))
}

/// Reads MATCH and its vector.
#[tactic(auto, unfolding(crate::specs::StatementGrammar::match_of))]
fn match_of<'a>(reader: &mut Reader<'a>) -> Result<GivenTest<'a>, Stop>
    ensures reads { Gives (λ x. x) result (read match_of (rest_of reader.old)) (rest_of reader.new) }
    ensures well_formed { IfOk result (λ test. is_well_formed_test test ≡ true) }
{
    reader.word(b"MATCH")?;
    let given = value(reader)?;
    Ok(GivenTest::Match(given))
}

/// Reads what is asked of a column.
#[tactic(auto, unfolding(crate::specs::inner::FactoredStatements::factored_test, crate::specs::StatementGrammar::member, crate::specs::StatementGrammar::match_of))]
fn test<'a>(alloc: Global, reader: &mut Reader<'a>) -> Result<GivenTest<'a>, Stop>
    ensures reads { Gives (λ x. x) result (read factored_test (rest_of reader.old)) (rest_of reader.new) }
    ensures well_formed { IfOk result (λ test. is_well_formed_test test ≡ true) }
{
    if reader.at_word(b"IN") {
        member(alloc, reader)
    } else if reader.at_word(b"MATCH") {
        match_of(reader)
    } else {
        comparison(reader)
    }
}

/// Reads a term.
#[tactic(auto, unfolding(crate::specs::inner::FactoredStatements::factored_term))]
fn term<'a>(alloc: Global, reader: &mut Reader<'a>) -> Result<GivenTerm<'a>, Stop>
    ensures reads { Gives (λ x. x) result (read factored_term (rest_of reader.old)) (rest_of reader.new) }
    ensures well_formed { IfOk result (λ term. is_well_formed_term term ≡ true) }
{
    let column = reader.name()?;
    let test = test(alloc, reader)?;
    Ok(GivenTerm { column, test })
}

impl<'a> Item<'a> for GivenTerm<'a> {
    ghost use Rattle.std.specs.Prelude.{codes};
    ghost use Rattle.grammar.specs.Grammar.{keyword};
    ghost use Rattle.sql_reader.specs.inner.FactoredStatements.{factored_term};
    ghost use Rattle.sql_reader.specs.inner.WellFormedGivens.{is_well_formed_term};

    ghost part = { factored_term };

    ghost well_formed = { is_well_formed_term };

    ghost between = { keyword (codes "AND") };

    fn read(alloc: Global, reader: &mut Reader<'a>) -> Result<GivenTerm<'a>, Stop> {
        term(alloc, reader)
    }

    fn at_next(reader: &Reader<'a>) -> bool {
        reader.at_word(b"AND")
    }

    fn pass(reader: &mut Reader<'a>) -> Result<(), Stop> {
        reader.word(b"AND")
    }
}

/// Reads terms with AND between them.
#[tactic(auto, unfolding(crate::specs::inner::FactoredStatements::terms_list))]
fn terms<'a>(alloc: Global, reader: &mut Reader<'a>) -> Result<List<GivenTerm<'a>>, Stop>
    ensures reads { Gives (λ x. x) result (read terms_list (rest_of reader.old)) (rest_of reader.new) }
    ensures well_formed { IfOk result (λ terms. list_all is_well_formed_term terms ≡ true) }
{
    listed(alloc, reader)
}

/// Reads WHERE and its terms.
#[tactic(auto, unfolding(crate::specs::inner::FactoredStatements::factored_where))]
fn where_part<'a>(alloc: Global, reader: &mut Reader<'a>) -> Result<List<GivenTerm<'a>>, Stop>
    ensures reads { Gives (λ x. x) result (read factored_where (rest_of reader.old)) (rest_of reader.new) }
    ensures well_formed { IfOk result (λ terms. list_all is_well_formed_term terms ≡ true) }
{
    reader.word(b"WHERE")?;
    terms(alloc, reader)
}

/// Reads WHERE and its terms, or no terms where there is none.
#[tactic(auto, unfolding(crate::specs::inner::FactoredStatements::maybe_where, crate::specs::inner::FactoredStatements::factored_where))]
pub(crate) fn maybe_where<'a>(
    alloc: Global,
    reader: &mut Reader<'a>,
) -> Result<List<GivenTerm<'a>>, Stop>
    ensures reads { Gives (λ x. x) result (read maybe_where (rest_of reader.old)) (rest_of reader.new) }
    ensures well_formed { IfOk result (λ terms. list_all is_well_formed_term terms ≡ true) }
{
    if reader.at_word(b"WHERE") {
        let terms = where_part(alloc, reader)?;
        Ok(terms)
    } else {
        Ok(List::new(alloc))
    }
}
