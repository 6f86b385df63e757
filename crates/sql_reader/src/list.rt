//! The lists of statements: names, values, rows, and columns with the values that they are set to.
ghost use Rattle.std.specs.Prelude.{◌≡◌, ◌&&◌, true, IfOk};
ghost use Rattle.std.specs.List.{list_all};
ghost use Rattle.grammar.specs.Grammar.{a_name, list_of};
ghost use Rattle.grammar.specs.inner.ReaderResults.{rest_of, Gives};
ghost use Rattle.grammar.specs.inner.Reading.{read};
ghost use Rattle.row_model.specs.WellFormed.{is_filled};
ghost use Rattle.sql_reader.specs.StatementGrammar.{assignment, group, value};
ghost use Rattle.sql_reader.specs.inner.WellFormedGivens.{are_well_formed_values, are_names, is_well_formed_group, is_well_formed_set};

use crate::given::{Given, GivenAssign, Group};
use crate::value::value;
use grammar::{Item, Reader, Stop, listed};
use std::alloc::Global;
use vec_base::{List, Txt};

impl<'a> Item<'a> for Given<'a> {
    ghost use Rattle.std.specs.Prelude.{codes};
    ghost use Rattle.grammar.specs.Grammar.{sign};
    ghost use Rattle.sql_reader.specs.StatementGrammar.{value};
    ghost use Rattle.sql_reader.specs.inner.WellFormedGivens.{is_well_formed_value};

    ghost part = { value };

    ghost well_formed = { is_well_formed_value };

    ghost between = { sign (codes ",") };

    fn read(_alloc: Global, reader: &mut Reader<'a>) -> Result<Given<'a>, Stop> {
        value(reader)
    }

    fn at_next(reader: &Reader<'a>) -> bool {
        reader.at_mark(b",")
    }

    fn pass(reader: &mut Reader<'a>) -> Result<(), Stop> {
        reader.mark(b",")
    }
}

impl<'a> Item<'a> for Group<'a> {
    ghost use Rattle.std.specs.Prelude.{codes};
    ghost use Rattle.grammar.specs.Grammar.{sign};
    ghost use Rattle.sql_reader.specs.StatementGrammar.{group};
    ghost use Rattle.sql_reader.specs.inner.WellFormedGivens.{is_well_formed_group};

    ghost part = { group };

    ghost well_formed = { is_well_formed_group };

    ghost between = { sign (codes ",") };

    fn read(alloc: Global, reader: &mut Reader<'a>) -> Result<Group<'a>, Stop> {
        group(alloc, reader)
    }

    fn at_next(reader: &Reader<'a>) -> bool {
        reader.at_mark(b",")
    }

    fn pass(reader: &mut Reader<'a>) -> Result<(), Stop> {
        reader.mark(b",")
    }
}

impl<'a> Item<'a> for GivenAssign<'a> {
    ghost use Rattle.std.specs.Prelude.{codes};
    ghost use Rattle.grammar.specs.Grammar.{sign};
    ghost use Rattle.sql_reader.specs.StatementGrammar.{assignment};
    ghost use Rattle.sql_reader.specs.inner.WellFormedGivens.{is_well_formed_set};

    ghost part = { assignment };

    ghost well_formed = { is_well_formed_set };

    ghost between = { sign (codes ",") };

    fn read(_alloc: Global, reader: &mut Reader<'a>) -> Result<GivenAssign<'a>, Stop> {
        assignment(reader)
    }

    fn at_next(reader: &Reader<'a>) -> bool {
        reader.at_mark(b",")
    }

    fn pass(reader: &mut Reader<'a>) -> Result<(), Stop> {
        reader.mark(b",")
    }
}

/// Reads names with commas between them.
#[tactic(auto, using(crate::proofs::Filled::filled_by))]
pub(crate) fn names(alloc: Global, reader: &mut Reader<'_>) -> Result<List<Txt>, Stop>
    ensures reads { Gives (λ x. x) result (read (list_of a_name) (rest_of reader.old)) (rest_of reader.new) }
    ensures well_formed { IfOk result (λ names. are_names names ≡ true) }
{
    listed(alloc, reader)
}

/// Reads values with commas between them.
#[tactic(auto, using(crate::proofs::Filled::filled_by))]
pub(crate) fn values<'a>(alloc: Global, reader: &mut Reader<'a>) -> Result<List<Given<'a>>, Stop>
    ensures reads { Gives (λ x. x) result (read (list_of value) (rest_of reader.old)) (rest_of reader.new) }
    ensures well_formed { IfOk result (λ values. are_well_formed_values values ≡ true) }
{
    listed(alloc, reader)
}

/// Reads the values of a row, with parentheses around them.
#[tactic(auto, unfolding(crate::specs::StatementGrammar::group))]
fn group<'a>(alloc: Global, reader: &mut Reader<'a>) -> Result<Group<'a>, Stop>
    ensures reads { Gives (λ x. x) result (read group (rest_of reader.old)) (rest_of reader.new) }
    ensures well_formed { IfOk result (λ group. is_well_formed_group group ≡ true) }
{
    reader.mark(b"(")?;
    let values = values(alloc, reader)?;
    let close = reader.placed_mark(b")")?;
    Ok(Group { values, close })
}

/// Reads rows with commas between them.
#[tactic(auto, using(crate::proofs::Filled::filled_by))]
pub(crate) fn groups<'a>(alloc: Global, reader: &mut Reader<'a>) -> Result<List<Group<'a>>, Stop>
    ensures reads { Gives (λ x. x) result (read (list_of group) (rest_of reader.old)) (rest_of reader.new) }
    ensures well_formed { IfOk result (λ groups. (list_all is_well_formed_group groups && is_filled groups) ≡ true) }
{
    listed(alloc, reader)
}

/// Reads a column and the value that it is set to.
#[tactic(auto, unfolding(crate::specs::StatementGrammar::assignment))]
fn assignment<'a>(reader: &mut Reader<'a>) -> Result<GivenAssign<'a>, Stop>
    ensures reads { Gives (λ x. x) result (read assignment (rest_of reader.old)) (rest_of reader.new) }
    ensures well_formed { IfOk result (λ set. is_well_formed_set set ≡ true) }
{
    let column = reader.name()?;
    reader.mark(b"=")?;
    let value = value(reader)?;
    Ok(GivenAssign { column, value })
}

/// Reads columns and the values that they are set to, with commas between them.
#[tactic(auto, using(crate::proofs::Filled::filled_by))]
pub(crate) fn assignments<'a>(
    alloc: Global,
    reader: &mut Reader<'a>,
) -> Result<List<GivenAssign<'a>>, Stop>
    ensures reads { Gives (λ x. x) result (read (list_of assignment) (rest_of reader.old)) (rest_of reader.new) }
    ensures well_formed { IfOk result (λ sets. (list_all is_well_formed_set sets && is_filled sets) ≡ true) }
{
    listed(alloc, reader)
}
