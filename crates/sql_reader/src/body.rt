//! The statements behind their first words: names, columns, values and rows.
ghost use Rattle.std.specs.Prelude.{◌≡◌, true, IfOk};
ghost use Rattle.grammar.specs.inner.ReaderResults.{rest_of, Gives};
ghost use Rattle.grammar.specs.inner.Reading.{read, starts};
ghost use Rattle.vec_base.specs.Words.{is_name};
ghost use Rattle.sql_reader.specs.StatementGrammar.{begin, commit, drop_table, insert, release, rollback, savepoint};
ghost use Rattle.sql_reader.specs.inner.FactoredStatements.{factored_body, factored_create, factored_delete, factored_explain, factored_statement, factored_update, maybe_mode, mode, question, target, transaction};
ghost use Rattle.sql_reader.specs.inner.WellFormedGivens.{is_well_formed};

use crate::given::GivenStatement;
use crate::list::{assignments, groups, names};
use crate::select::select;
use crate::term::maybe_where;
use crate::value::may_say;
use grammar::{Reader, Stop};
use std::alloc::Global;
use vec_base::Txt;
use vec0_columns::columns;

/// Reads a CREATE.
#[tactic(auto, unfolding(crate::specs::inner::FactoredStatements::factored_create))]
fn create<'a>(alloc: Global, reader: &mut Reader<'a>) -> Result<GivenStatement<'a>, Stop>
    ensures reads { Gives (λ x. x) result (read factored_create (rest_of reader.old)) (rest_of reader.new) }
    ensures well_formed { IfOk result (λ given. is_well_formed given ≡ true) }
{
    reader.word(b"CREATE")?;
    reader.word(b"VIRTUAL")?;
    reader.word(b"TABLE")?;
    let table = reader.name()?;
    reader.word(b"USING")?;
    reader.word(b"VEC0")?;
    reader.mark(b"(")?;
    let columns = columns(alloc, reader)?;
    reader.mark(b")")?;
    Ok(GivenStatement::Create(table, columns))
}

/// Reads a DROP.
#[tactic(auto, unfolding(crate::specs::StatementGrammar::drop_table))]
fn drop_table<'a>(reader: &mut Reader<'a>) -> Result<GivenStatement<'a>, Stop>
    ensures reads { Gives (λ x. x) result (read drop_table (rest_of reader.old)) (rest_of reader.new) }
    ensures well_formed { IfOk result (λ given. is_well_formed given ≡ true) }
{
    reader.word(b"DROP")?;
    reader.word(b"TABLE")?;
    let table = reader.name()?;
    Ok(GivenStatement::Drop(table))
}

/// Reads an INSERT.
#[tactic(auto, unfolding(crate::specs::StatementGrammar::insert))]
fn insert<'a>(alloc: Global, reader: &mut Reader<'a>) -> Result<GivenStatement<'a>, Stop>
    ensures reads { Gives (λ x. x) result (read insert (rest_of reader.old)) (rest_of reader.new) }
    ensures well_formed { IfOk result (λ given. is_well_formed given ≡ true) }
{
    reader.word(b"INSERT")?;
    reader.word(b"INTO")?;
    let table = reader.name()?;
    reader.mark(b"(")?;
    let names = names(alloc, reader)?;
    reader.mark(b")")?;
    reader.word(b"VALUES")?;
    let groups = groups(alloc, reader)?;
    Ok(GivenStatement::Insert(table, names, groups))
}

/// Reads an UPDATE.
#[tactic(auto, unfolding(crate::specs::inner::FactoredStatements::factored_update))]
fn update<'a>(alloc: Global, reader: &mut Reader<'a>) -> Result<GivenStatement<'a>, Stop>
    ensures reads { Gives (λ x. x) result (read factored_update (rest_of reader.old)) (rest_of reader.new) }
    ensures well_formed { IfOk result (λ given. is_well_formed given ≡ true) }
{
    reader.word(b"UPDATE")?;
    let table = reader.name()?;
    reader.word(b"SET")?;
    let sets = assignments(alloc, reader)?;
    let terms = maybe_where(alloc, reader)?;
    Ok(GivenStatement::Update(table, sets, terms))
}

/// Reads a DELETE.
#[tactic(auto, unfolding(crate::specs::inner::FactoredStatements::factored_delete))]
fn delete<'a>(alloc: Global, reader: &mut Reader<'a>) -> Result<GivenStatement<'a>, Stop>
    ensures reads { Gives (λ x. x) result (read factored_delete (rest_of reader.old)) (rest_of reader.new) }
    ensures well_formed { IfOk result (λ given. is_well_formed given ≡ true) }
{
    reader.word(b"DELETE")?;
    reader.word(b"FROM")?;
    let table = reader.name()?;
    let terms = maybe_where(alloc, reader)?;
    Ok(GivenStatement::Delete(table, terms))
}

/// Reads an EXPLAIN.
#[tactic(auto, unfolding(crate::specs::inner::FactoredStatements::factored_explain))]
fn explain<'a>(alloc: Global, reader: &mut Reader<'a>) -> Result<GivenStatement<'a>, Stop>
    ensures reads { Gives (λ x. x) result (read factored_explain (rest_of reader.old)) (rest_of reader.new) }
    ensures well_formed { IfOk result (λ given. is_well_formed given ≡ true) }
{
    reader.word(b"EXPLAIN")?;
    let select = select(alloc, reader)?;
    Ok(GivenStatement::Explain(select))
}

/// Whether DEFERRED or IMMEDIATE is at hand.
#[tactic(auto, using(grammar::proofs::Places::next_more), unfolding(crate::specs::inner::FactoredStatements::mode))]
fn at_mode(reader: &Reader<'_>) -> bool
    ensures { result ≡ starts mode (rest_of reader.now) }
{
    reader.at_word(b"DEFERRED") || reader.at_word(b"IMMEDIATE")
}

/// Reads DEFERRED or IMMEDIATE, and answers whether it is IMMEDIATE.
#[tactic(auto, unfolding(crate::specs::inner::FactoredStatements::mode))]
fn mode(reader: &mut Reader<'_>) -> Result<bool, Stop>
    ensures { Gives (λ x. x) result (read mode (rest_of reader.old)) (rest_of reader.new) }
{
    if reader.at_word(b"DEFERRED") {
        reader.word(b"DEFERRED")?;
        Ok(false)
    } else {
        reader.word(b"IMMEDIATE")?;
        Ok(true)
    }
}

/// Reads DEFERRED or IMMEDIATE where one is at hand, and answers whether it is IMMEDIATE.
#[tactic(auto, unfolding(crate::specs::inner::FactoredStatements::maybe_mode))]
fn maybe_mode(reader: &mut Reader<'_>) -> Result<bool, Stop>
    ensures { Gives (λ x. x) result (read maybe_mode (rest_of reader.old)) (rest_of reader.new) }
{
    if at_mode(reader) {
        let immediate = mode(reader)?;
        Ok(immediate)
    } else {
        Ok(false)
    }
}

/// Reads a BEGIN.
#[tactic(auto, unfolding(crate::specs::StatementGrammar::begin, crate::specs::inner::FactoredStatements::maybe_mode, crate::specs::inner::FactoredStatements::mode))]
fn begin<'a>(reader: &mut Reader<'a>) -> Result<GivenStatement<'a>, Stop>
    ensures reads { Gives (λ x. x) result (read begin (rest_of reader.old)) (rest_of reader.new) }
    ensures well_formed { IfOk result (λ given. is_well_formed given ≡ true) }
{
    reader.word(b"BEGIN")?;
    let immediate = maybe_mode(reader)?;
    may_say(reader, b"TRANSACTION")?;
    Ok(GivenStatement::Begin(immediate))
}

/// Whether COMMIT or END is at hand.
#[tactic(auto, using(grammar::proofs::Places::next_more), unfolding(crate::specs::StatementGrammar::commit))]
fn at_commit(reader: &Reader<'_>) -> bool
    ensures { result ≡ starts commit (rest_of reader.now) }
{
    reader.at_word(b"COMMIT") || reader.at_word(b"END")
}

/// Reads a COMMIT.
#[tactic(auto, unfolding(crate::specs::StatementGrammar::commit))]
fn commit<'a>(reader: &mut Reader<'a>) -> Result<GivenStatement<'a>, Stop>
    ensures reads { Gives (λ x. x) result (read commit (rest_of reader.old)) (rest_of reader.new) }
    ensures well_formed { IfOk result (λ given. is_well_formed given ≡ true) }
{
    if reader.at_word(b"COMMIT") {
        reader.word(b"COMMIT")?;
        may_say(reader, b"TRANSACTION")?;
        Ok(GivenStatement::Commit)
    } else {
        reader.word(b"END")?;
        may_say(reader, b"TRANSACTION")?;
        Ok(GivenStatement::Commit)
    }
}

/// Reads TO and the name of a savepoint.
#[tactic(auto, unfolding(crate::specs::inner::FactoredStatements::target))]
fn target(reader: &mut Reader<'_>) -> Result<Txt, Stop>
    ensures reads { Gives (λ x. x) result (read target (rest_of reader.old)) (rest_of reader.new) }
    ensures well_formed { IfOk result (λ name. is_name name ≡ true) }
{
    reader.word(b"TO")?;
    may_say(reader, b"SAVEPOINT")?;
    reader.name()
}

/// Reads a ROLLBACK.
#[tactic(auto, unfolding(crate::specs::StatementGrammar::rollback, crate::specs::inner::FactoredStatements::target))]
fn rollback<'a>(reader: &mut Reader<'a>) -> Result<GivenStatement<'a>, Stop>
    ensures reads { Gives (λ x. x) result (read rollback (rest_of reader.old)) (rest_of reader.new) }
    ensures well_formed { IfOk result (λ given. is_well_formed given ≡ true) }
{
    reader.word(b"ROLLBACK")?;
    may_say(reader, b"TRANSACTION")?;
    if reader.at_word(b"TO") {
        let name = target(reader)?;
        Ok(GivenStatement::RollbackTo(name))
    } else {
        Ok(GivenStatement::Rollback)
    }
}

/// Reads a SAVEPOINT.
#[tactic(auto, unfolding(crate::specs::StatementGrammar::savepoint))]
fn savepoint<'a>(reader: &mut Reader<'a>) -> Result<GivenStatement<'a>, Stop>
    ensures reads { Gives (λ x. x) result (read savepoint (rest_of reader.old)) (rest_of reader.new) }
    ensures well_formed { IfOk result (λ given. is_well_formed given ≡ true) }
{
    reader.word(b"SAVEPOINT")?;
    let name = reader.name()?;
    Ok(GivenStatement::Savepoint(name))
}

/// Reads a RELEASE.
#[tactic(auto, unfolding(crate::specs::StatementGrammar::release))]
fn release<'a>(reader: &mut Reader<'a>) -> Result<GivenStatement<'a>, Stop>
    ensures reads { Gives (λ x. x) result (read release (rest_of reader.old)) (rest_of reader.new) }
    ensures well_formed { IfOk result (λ given. is_well_formed given ≡ true) }
{
    reader.word(b"RELEASE")?;
    may_say(reader, b"SAVEPOINT")?;
    let name = reader.name()?;
    Ok(GivenStatement::Release(name))
}

/// Reads a statement on transactions.
#[tactic(auto, unfolding(crate::specs::inner::FactoredStatements::transaction, crate::specs::StatementGrammar::begin, crate::specs::StatementGrammar::rollback, crate::specs::StatementGrammar::savepoint))]
fn transaction<'a>(reader: &mut Reader<'a>) -> Result<GivenStatement<'a>, Stop>
    ensures reads { Gives (λ x. x) result (read transaction (rest_of reader.old)) (rest_of reader.new) }
    ensures well_formed { IfOk result (λ given. is_well_formed given ≡ true) }
{
    if reader.at_word(b"BEGIN") {
        begin(reader)
    } else if at_commit(reader) {
        commit(reader)
    } else if reader.at_word(b"ROLLBACK") {
        rollback(reader)
    } else if reader.at_word(b"SAVEPOINT") {
        savepoint(reader)
    } else {
        release(reader)
    }
}

/// Reads a SELECT, an EXPLAIN or a statement on transactions.
#[tactic(auto, unfolding(crate::specs::inner::FactoredStatements::question, crate::specs::inner::FactoredStatements::factored_select, crate::specs::inner::FactoredStatements::factored_explain))]
fn question<'a>(alloc: Global, reader: &mut Reader<'a>) -> Result<GivenStatement<'a>, Stop>
    ensures reads { Gives (λ x. x) result (read question (rest_of reader.old)) (rest_of reader.new) }
    ensures well_formed { IfOk result (λ given. is_well_formed given ≡ true) }
{
    if reader.at_word(b"SELECT") {
        let select = select(alloc, reader)?;
        Ok(GivenStatement::Select(select))
    } else if reader.at_word(b"EXPLAIN") {
        explain(alloc, reader)
    } else {
        transaction(reader)
    }
}

/// Reads a statement without its `;`.
#[tactic(auto, unfolding(crate::specs::inner::FactoredStatements::factored_body, crate::specs::inner::FactoredStatements::factored_create, crate::specs::StatementGrammar::drop_table, crate::specs::StatementGrammar::insert, crate::specs::inner::FactoredStatements::factored_update, crate::specs::inner::FactoredStatements::factored_delete))]
fn body<'a>(alloc: Global, reader: &mut Reader<'a>) -> Result<GivenStatement<'a>, Stop>
    ensures reads { Gives (λ x. x) result (read factored_body (rest_of reader.old)) (rest_of reader.new) }
    ensures well_formed { IfOk result (λ given. is_well_formed given ≡ true) }
{
    if reader.at_word(b"CREATE") {
        create(alloc, reader)
    } else if reader.at_word(b"DROP") {
        drop_table(reader)
    } else if reader.at_word(b"INSERT") {
        insert(alloc, reader)
    } else if reader.at_word(b"UPDATE") {
        update(alloc, reader)
    } else if reader.at_word(b"DELETE") {
        delete(alloc, reader)
    } else {
        question(alloc, reader)
    }
}

/// Reads a statement, with or without a `;` behind it.
#[tactic(auto, unfolding(crate::specs::inner::FactoredStatements::factored_statement))]
pub(crate) fn statement<'a>(
    alloc: Global,
    reader: &mut Reader<'a>,
) -> Result<GivenStatement<'a>, Stop>
    ensures reads { Gives (λ x. x) result (read factored_statement (rest_of reader.old)) (rest_of reader.new) }
    ensures well_formed { IfOk result (λ given. is_well_formed given ≡ true) }
{
    let given = body(alloc, reader)?;
    if reader.at_mark(b";") {
        reader.mark(b";")?;
        Ok(given)
    } else {
        Ok(given)
    }
}
