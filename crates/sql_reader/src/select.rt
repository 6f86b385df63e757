//! The parts of a SELECT behind its items.
ghost use Rattle.std.specs.Prelude.{◌≡◌, true, IfOk};
ghost use Rattle.grammar.specs.inner.ReaderResults.{rest_of, Gives};
ghost use Rattle.grammar.specs.inner.Reading.{read};
ghost use Rattle.sql_reader.specs.StatementGrammar.{by_distance, by_rowid, items_part, limit, order};
ghost use Rattle.sql_reader.specs.inner.FactoredStatements.{factored_select, maybe_limit, maybe_order};
ghost use Rattle.sql_reader.specs.inner.WellFormedGivens.{are_well_formed_items, is_well_formed_limit, is_well_formed_select, is_well_formed_value};

use crate::given::{Given, GivenSelect};
use crate::list::names;
use crate::term::maybe_where;
use crate::value::{may_say, value};
use grammar::{Reader, Stop};
use row_model::{Items, Order};
use std::alloc::Global;

/// Reads `*` or names.
#[tactic(auto, unfolding(crate::specs::StatementGrammar::items_part))]
fn items(alloc: Global, reader: &mut Reader<'_>) -> Result<Items, Stop>
    ensures reads { Gives (λ x. x) result (read items_part (rest_of reader.old)) (rest_of reader.new) }
    ensures well_formed { IfOk result (λ items. are_well_formed_items items ≡ true) }
{
    if reader.at_mark(b"*") {
        reader.mark(b"*")?;
        Ok(Items::All)
    } else {
        let names = names(alloc, reader)?;
        Ok(Items::Named(names))
    }
}

/// Reads the order by distance.
#[tactic(auto, unfolding(crate::specs::StatementGrammar::by_distance))]
fn by_distance(reader: &mut Reader<'_>) -> Result<Order, Stop>
    ensures { Gives (λ x. x) result (read by_distance (rest_of reader.old)) (rest_of reader.new) }
{
    reader.word(b"DISTANCE")?;
    may_say(reader, b"ASC")?;
    if reader.at_mark(b",") {
        reader.mark(b",")?;
        reader.word(b"ROWID")?;
        may_say(reader, b"ASC")?;
        Ok(Order::ByDistance)
    } else {
        Ok(Order::ByDistance)
    }
}

/// Reads the order by rowid.
#[tactic(auto, unfolding(crate::specs::StatementGrammar::by_rowid))]
fn by_rowid(reader: &mut Reader<'_>) -> Result<Order, Stop>
    ensures { Gives (λ x. x) result (read by_rowid (rest_of reader.old)) (rest_of reader.new) }
{
    reader.word(b"ROWID")?;
    may_say(reader, b"ASC")?;
    Ok(Order::ByRowid)
}

/// Reads ORDER BY.
#[tactic(auto, unfolding(crate::specs::StatementGrammar::order, crate::specs::StatementGrammar::by_distance))]
fn order(reader: &mut Reader<'_>) -> Result<Order, Stop>
    ensures { Gives (λ x. x) result (read order (rest_of reader.old)) (rest_of reader.new) }
{
    reader.word(b"ORDER")?;
    reader.word(b"BY")?;
    if reader.at_word(b"DISTANCE") {
        by_distance(reader)
    } else {
        by_rowid(reader)
    }
}

/// Reads ORDER BY, where it is at hand.
#[tactic(auto, unfolding(crate::specs::inner::FactoredStatements::maybe_order, crate::specs::StatementGrammar::order))]
fn maybe_order(reader: &mut Reader<'_>) -> Result<Order, Stop>
    ensures { Gives (λ x. x) result (read maybe_order (rest_of reader.old)) (rest_of reader.new) }
{
    if reader.at_word(b"ORDER") {
        let order = order(reader)?;
        Ok(order)
    } else {
        Ok(Order::Unsaid)
    }
}

/// Reads LIMIT and its value.
#[tactic(auto, unfolding(crate::specs::StatementGrammar::limit))]
fn limit<'a>(reader: &mut Reader<'a>) -> Result<Given<'a>, Stop>
    ensures reads { Gives (λ x. x) result (read limit (rest_of reader.old)) (rest_of reader.new) }
    ensures well_formed { IfOk result (λ given. is_well_formed_value given ≡ true) }
{
    reader.word(b"LIMIT")?;
    value(reader)
}

/// Reads LIMIT and its value, where it is at hand.
#[tactic(auto, unfolding(crate::specs::inner::FactoredStatements::maybe_limit, crate::specs::StatementGrammar::limit))]
fn maybe_limit<'a>(reader: &mut Reader<'a>) -> Result<Option<Given<'a>>, Stop>
    ensures reads { Gives (λ x. x) result (read maybe_limit (rest_of reader.old)) (rest_of reader.new) }
    ensures well_formed { IfOk result (λ given. is_well_formed_limit given ≡ true) }
{
    if reader.at_word(b"LIMIT") {
        let given = limit(reader)?;
        Ok(Some(given))
    } else {
        Ok(None)
    }
}

/// Reads a SELECT.
#[tactic(auto, unfolding(crate::specs::inner::FactoredStatements::factored_select))]
pub(crate) fn select<'a>(alloc: Global, reader: &mut Reader<'a>) -> Result<GivenSelect<'a>, Stop>
    ensures reads { Gives (λ x. x) result (read factored_select (rest_of reader.old)) (rest_of reader.new) }
    ensures well_formed { IfOk result (λ select. is_well_formed_select select ≡ true) }
{
    reader.word(b"SELECT")?;
    let items = items(alloc, reader)?;
    reader.word(b"FROM")?;
    let table = reader.name()?;
    let where_terms = maybe_where(alloc, reader)?;
    let order = maybe_order(reader)?;
    let limit = maybe_limit(reader)?;
    Ok(GivenSelect {
        table,
        items,
        where_terms,
        order,
        limit,
    })
}
