//! Statements as texts give them.
use grammar::Quoted;
use row_model::{Items, Order};
use vec_base::{List, Op, Txt, Value};
use vec0_columns::Arg;

/// A value as a text gives it: parameters and the texts of vectors are not looked into yet.
#[derive(Debug, Drop)]
pub enum Given<'a> {
    Value(Value),
    /// A parameter, by its number from 1.
    Parameter(u16),
    /// An int8 vector by a text literal: the literal's place, and the text that it stands for.
    Int8Text(usize, Quoted<'a>),
    /// An int8 vector by a parameter.
    Int8Parameter(u16),
    /// A bit vector by a parameter.
    BitsParameter(u16),
}

/// The values of a row of an INSERT, and the place of the parenthesis that closes them.
#[derive(Debug, Drop)]
pub struct Group<'a> {
    pub values: List<Given<'a>>,
    pub close: usize,
}

/// A column and the value that it is set to.
#[derive(Debug, Drop)]
pub struct GivenAssign<'a> {
    pub column: Txt,
    pub value: Given<'a>,
}

/// What a term asks of its column.
#[derive(Debug, Drop)]
pub enum GivenTest<'a> {
    Compare(Op, Given<'a>),
    Member(List<Given<'a>>),
    Match(Given<'a>),
}

/// A term of WHERE.
#[derive(Debug, Drop)]
pub struct GivenTerm<'a> {
    pub column: Txt,
    pub test: GivenTest<'a>,
}

/// A SELECT.
#[derive(Debug, Drop)]
pub struct GivenSelect<'a> {
    pub table: Txt,
    pub items: Items,
    pub where_terms: List<GivenTerm<'a>>,
    pub order: Order,
    pub limit: Option<Given<'a>>,
}

/// A statement as a text gives it. Names are in lower case.
#[derive(Debug, Drop)]
pub enum GivenStatement<'a> {
    /// The table's name and its columns.
    Create(Txt, List<Arg>),
    Drop(Txt),
    /// The table's name, the names of columns, and a group for each row.
    Insert(Txt, List<Txt>, List<Group<'a>>),
    /// The table's name, the columns that are set, and the terms.
    Update(Txt, List<GivenAssign<'a>>, List<GivenTerm<'a>>),
    Delete(Txt, List<GivenTerm<'a>>),
    Select(GivenSelect<'a>),
    Explain(GivenSelect<'a>),
    /// The flag is set where IMMEDIATE stands.
    Begin(bool),
    Commit,
    Rollback,
    RollbackTo(Txt),
    Savepoint(Txt),
    Release(Txt),
}
