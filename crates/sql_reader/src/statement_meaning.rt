//! What a given statement means.
ghost use Rattle.std.specs.Prelude.{◌≡◌, ◌++◌, true, length, List as Seq};
ghost use Rattle.vec_base.specs.declared.value.Value.{Value as Given_value};
ghost use Rattle.std.specs.List.{flat_map, list_all};
ghost use Rattle.vec0_columns.specs.ColumnGrammar.{has_name};
ghost use Rattle.sql_reader.specs.declared.given.GivenStatement.TheVariants as statements;
ghost use Rattle.sql_reader.specs.inner.WellFormedGivens.{is_well_formed};
ghost use Rattle.sql_reader.specs.GivenStatements.{group_checks};
ghost use Rattle.sql_reader.specs.inner.PartMeanings.{AreTaken, IsPartMeaning, IsStatementMeaning, group_uses, limit_checks, limit_uses, set_checks, set_uses, term_checks, term_uses};
ghost use Rattle.sql_reader.specs.StatementReading.{MeansDelete, MeansInsert, MeansSelect, MeansUpdate};

use crate::flaw::Flaw;
use crate::given::{GivenAssign, GivenSelect, GivenStatement, GivenTerm, Group};
use crate::part::meanings;
use crate::part_meaning::limit_of;
use row_model::{Delete, Insert, Select, Statement, Update};
use std::alloc::Global;
use vec_base::{List, Refusal, Txt, Value};
use vec0_columns::{Arg, schema_of};

/// The SELECT that is given.
#[tactic(auto, using(crate::proofs::PartLaws::flaw_first, crate::proofs::PartLaws::flaw_second, crate::proofs::PartLaws::passed_both, crate::proofs::PartLaws::taken_first, crate::proofs::PartLaws::taken_second))]
fn select_of(alloc: Global, given: GivenSelect<'_>, params: &[Value]) -> Result<Select, Flaw>
    ensures { IsPartMeaning (term_checks given.entry.where_terms ++ limit_checks given.entry.limit) (AreTaken params.now (term_uses given.entry.where_terms ++ limit_uses given.entry.limit)) (MeansSelect params.now given.entry) result }
{
    let GivenSelect {
        table,
        items,
        where_terms,
        order,
        limit,
    } = given;
    let where_terms = meanings(alloc, where_terms, 0, params)?;
    let limit = limit_of(alloc, limit, params)?;
    Ok(Select {
        table,
        items,
        where_terms,
        order,
        limit,
    })
}

/// The INSERT that is given.
fn insert_of(
    alloc: Global,
    table: Txt,
    columns: List<Txt>,
    groups: List<Group<'_>>,
    params: &[Value],
) -> Result<Insert, Flaw>
    ensures { IsPartMeaning (flat_map (group_checks (length columns)) groups.entry) (AreTaken params.now (group_uses groups.entry)) (MeansInsert params.now table columns groups.entry) result }
{
    let rows = meanings(alloc, groups, columns.len(), params)?;
    Ok(Insert {
        table,
        columns,
        rows,
    })
}

/// The UPDATE that is given.
#[tactic(auto, using(crate::proofs::PartLaws::flaw_first, crate::proofs::PartLaws::flaw_second, crate::proofs::PartLaws::passed_both, crate::proofs::PartLaws::taken_first, crate::proofs::PartLaws::taken_second))]
fn update_of(
    alloc: Global,
    table: Txt,
    assigns: List<GivenAssign<'_>>,
    terms: List<GivenTerm<'_>>,
    params: &[Value],
) -> Result<Update, Flaw>
    ensures { IsPartMeaning (set_checks assigns.entry ++ term_checks terms.entry) (AreTaken params.now (set_uses assigns.entry ++ term_uses terms.entry)) (MeansUpdate params.now table assigns.entry terms.entry) result }
{
    let sets = meanings(alloc, assigns, 0, params)?;
    let where_terms = meanings(alloc, terms, 0, params)?;
    Ok(Update {
        table,
        sets,
        where_terms,
    })
}

/// The DELETE that is given.
fn delete_of(
    alloc: Global,
    table: Txt,
    terms: List<GivenTerm<'_>>,
    params: &[Value],
) -> Result<Delete, Flaw>
    ensures { IsPartMeaning (term_checks terms.entry) (AreTaken params.now (term_uses terms.entry)) (MeansDelete params.now table terms.entry) result }
{
    let where_terms = meanings(alloc, terms, 0, params)?;
    Ok(Delete { table, where_terms })
}

/// The CREATE that is given.
fn create_of(alloc: Global, table: Txt, columns: &[Arg]) -> Result<Statement, Flaw>
    requires { list_all has_name columns.now ≡ true }
    ensures { (params : Seq Given_value) → IsStatementMeaning params (statements.Create table columns.now) result }
{
    match schema_of(alloc, columns) {
        Ok(schema) => Ok(Statement::Create(table, schema)),
        Err(Refusal::BadSchema(rule)) => Err(Flaw::Rule(rule)),
        Err(_) => Err(Flaw::Memory),
    }
}

/// The statement that is given.
#[tactic(auto, using(crate::proofs::MeaningLaws::made_flaw, crate::proofs::MeaningLaws::well_formed_columns))]
pub(crate) fn statement_of(
    alloc: Global,
    given: GivenStatement<'_>,
    params: &[Value],
) -> Result<Statement, Flaw>
    requires { is_well_formed given ≡ true }
    ensures { IsStatementMeaning params.now given.entry result }
{
    match given {
        GivenStatement::Create(table, columns) => create_of(alloc, table, columns.as_slice()),
        GivenStatement::Drop(table) => Ok(Statement::Drop(table)),
        GivenStatement::Insert(table, columns, groups) => {
            let insert = insert_of(alloc, table, columns, groups, params)?;
            Ok(Statement::Insert(insert))
        }
        GivenStatement::Update(table, sets, terms) => {
            let update = update_of(alloc, table, sets, terms, params)?;
            Ok(Statement::Update(update))
        }
        GivenStatement::Delete(table, terms) => {
            let delete = delete_of(alloc, table, terms, params)?;
            Ok(Statement::Delete(delete))
        }
        GivenStatement::Select(select) => Ok(Statement::Select(select_of(alloc, select, params)?)),
        GivenStatement::Explain(select) => Ok(Statement::Explain(select_of(
            alloc, select, params,
        )?)),
        GivenStatement::Begin(immediate) => Ok(Statement::Begin(immediate)),
        GivenStatement::Commit => Ok(Statement::Commit),
        GivenStatement::Rollback => Ok(Statement::Rollback),
        GivenStatement::RollbackTo(name) => Ok(Statement::RollbackTo(name)),
        GivenStatement::Savepoint(name) => Ok(Statement::Savepoint(name)),
        GivenStatement::Release(name) => Ok(Statement::Release(name)),
    }
}
