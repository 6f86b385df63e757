//! What types say of the values of a statement. These calls do nothing: their clauses are all that they give.
ghost use Rattle.std.specs.List.{AllByRecursion};
ghost use Rattle.row_model.specs.RepresentableStatements.{AreRepresentable, IsRepresentableTest, IsRepresentableTerm, IsRepresentableAssign, IsRepresentableLimit, IsRepresentableSelect, IsRepresentableStatement};

use crate::{Assign, Constraint, Select, Statement, Test};
use vec_base::{List, Value};

fn values_representable(values: &[Value])
    ensures { AreRepresentable values.now }
{
    for value in values {
        value.representable();
    }
}

fn rows_representable(rows: &[List<Value>])
    ensures { AllByRecursion AreRepresentable rows.now }
{
    for row in rows {
        values_representable(row.as_slice());
    }
}

fn sets_representable(sets: &[Assign])
    ensures { AllByRecursion IsRepresentableAssign sets.now }
{
    for set in sets {
        set.value.representable();
    }
}

fn test_representable(test: &Test)
    ensures { IsRepresentableTest test.now }
{
    match test {
        Test::Compare(_, value) => value.representable(),
        Test::Member(values) => values_representable(values.as_slice()),
        Test::Match(query) => query.representable(),
    }
}

fn terms_representable(terms: &[Constraint])
    ensures { AllByRecursion IsRepresentableTerm terms.now }
{
    for term in terms {
        test_representable(&term.test);
    }
}

fn limit_representable(limit: &Option<Value>)
    ensures { IsRepresentableLimit limit.now }
{
    match limit {
        Some(value) => value.representable(),
        None => {}
    }
}

fn select_representable(select: &Select)
    ensures { IsRepresentableSelect select.now }
{
    terms_representable(select.where_terms.as_slice());
    limit_representable(&select.limit);
}

impl Statement {
    /// Types hold no other values than representable ones, so all values of the statement are.
    pub fn representable(&self)
        ensures { IsRepresentableStatement self.now }
    {
        match self {
            Statement::Insert(insert) => rows_representable(insert.rows.as_slice()),
            Statement::Update(update) => {
                sets_representable(update.sets.as_slice());
                terms_representable(update.where_terms.as_slice());
            }
            Statement::Delete(delete) => terms_representable(delete.where_terms.as_slice()),
            Statement::Select(select) | Statement::Explain(select) => select_representable(select),
            _ => {}
        }
    }
}
