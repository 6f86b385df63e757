//! Plans of statements.
ghost use Rattle.std.specs.Prelude.{◌≡◌, ◌≤◌, length, IfErr, IfOk, None, Some};
ghost use Rattle.std.specs.Option.{option_map};
ghost use Rattle.row_model.specs.Answer.{number_in};
ghost use Rattle.row_model.specs.Check.{check_delete, check_insert, check_select, check_update, item_count};
ghost use Rattle.row_model.specs.declared.schema.TheConstants.{MOST_COLUMNS};
ghost use Rattle.vec_base.specs.declared.limits.TheConstants.{MOST_TERMS};
ghost use Rattle.knn_plan.specs.Plans.{IsPlanFor, rows_with, target_among};

use crate::column::{PlannedColumn, item_columns, term_columns};
use crate::target::{Target, target_among};
use crate::terms::{
    count_wanted, list_term, number_in, point_term, some_on_distance, some_on_rows, start_term,
};
use arrayvec::ArrayVec;
use row_model::{
    Assign, Column, Constraint, Delete, Insert, Items, Order, Schema, Select, Shape, Update,
    check_delete as delete_refusal, check_insert as insert_refusal, check_select as select_refusal,
    check_update as update_refusal, shape_of,
};
use std::marker::Model;
use vec_base::{List, MOST_TERMS, Refusal, Txt};

/// A SELECT that was checked, with what its names mean. It is for the columns that it was made for, and for equal ones.
#[derive(Drop)]
pub struct Plan {
    select: Select,
    terms: ArrayVec<PlannedColumn, MOST_TERMS>,
    items: ArrayVec<PlannedColumn, MOST_TERMS>,
    shape: Shape,
    count: usize,
    by_row: bool,
    by_distance: bool,
    point: Option<usize>,
    listed: Option<usize>,
    start: Option<usize>,
}

impl Model for Plan {
    ghost use Rattle.knn_plan.specs.Plans.{Planned, target_among};

    ghost Value = { Planned };

    ghost view = { λ plan. record {
      select = plan.select;
      terms = plan.terms.items;
      items = plan.items.items;
      shape = plan.shape;
      target = target_among plan.select.where_terms plan.terms.items;
      count = plan.count;
      by_row = plan.by_row;
      by_distance = plan.by_distance;
      point = plan.point;
      listed = plan.listed;
      start = plan.start;
    } };
}

impl Plan {
    /// The SELECT: its terms, items, order and LIMIT. The plan of a change has the SELECT of the rows that meet the terms.
    pub fn select(&self) -> &Select
        ensures { result.now ≡ self.now.select }
    {
        &self.select
    }

    /// The column of each term.
    pub fn terms(&self) -> &[PlannedColumn]
        ensures { result.now ≡ self.now.terms }
    {
        self.terms.as_slice()
    }

    /// The column of each item.
    pub fn items(&self) -> &[PlannedColumn]
        ensures { result.now ≡ self.now.items }
    {
        self.items.as_slice()
    }

    /// How it is carried out.
    pub fn shape(&self) -> Shape
        ensures { result ≡ self.now.shape }
    {
        self.shape
    }

    /// The vector of the MATCH.
    pub fn target(&self) -> Option<Target<'_>>
        ensures { result ≡ self.now.target }
    {
        target_among(self.select.where_terms.as_slice(), self.terms.as_slice())
    }

    /// How many of the nearest rows are wanted.
    pub fn count(&self) -> usize
        ensures { result ≡ self.now.count }
    {
        self.count
    }

    /// The number of LIMIT.
    pub fn limit(&self) -> Option<usize>
        ensures { result ≡ option_map number_in self.now.select.limit }
    {
        match &self.select.limit {
            None => None,
            Some(value) => Some(number_in(value)),
        }
    }

    /// Whether some term has to be tested row by row.
    pub fn is_by_row(&self) -> bool
        ensures { result ≡ self.now.by_row }
    {
        self.by_row
    }

    /// Whether some term is on `distance`.
    pub fn is_by_distance(&self) -> bool
        ensures { result ≡ self.now.by_distance }
    {
        self.by_distance
    }

    /// The index of the first term that says which rowid or key is wanted.
    pub fn point(&self) -> Option<usize>
        ensures { result ≡ self.now.point }
    {
        self.point
    }

    /// The index of the first term that lists the rowids or keys that are wanted.
    pub fn listed(&self) -> Option<usize>
        ensures { result ≡ self.now.listed }
    {
        self.listed
    }

    /// The index of the first term that says from which rowid on rows are wanted.
    pub fn start(&self) -> Option<usize>
        ensures { result ≡ self.now.start }
    {
        self.start
    }
}

/// The plan of a SELECT that was checked.
fn planned(columns: &[Column], select: Select) -> Plan
    requires narrow { length columns.now ≤ MOST_COLUMNS }
    requires items { item_count select.items ≤ MOST_TERMS }
    requires terms { length select.where_terms ≤ MOST_TERMS }
    requires checked { check_select columns.now select ≡ None }
    ensures plan { IsPlanFor columns.now result }
    ensures select { result.select ≡ select }
{
    let terms = select.where_terms.as_slice();
    Plan {
        terms: term_columns(columns, terms),
        items: item_columns(columns, &select.items),
        shape: shape_of(columns, &select),
        count: count_wanted(columns, terms, &select.limit),
        by_row: some_on_rows(columns, terms),
        by_distance: some_on_distance(columns, terms),
        point: point_term(columns, terms),
        listed: list_term(columns, terms),
        start: start_term(columns, terms),
        select,
    }
}

/// The plan of a SELECT, or what refuses it.
pub fn plan_select(schema: &Schema, select: Select) -> Result<Plan, Refusal>
    requires narrow { length schema.now.columns ≤ MOST_COLUMNS }
    requires items { item_count select.items ≤ MOST_TERMS }
    requires terms { length select.where_terms ≤ MOST_TERMS }
    ensures refused { IfErr result (λ refusal. check_select schema.now.columns select ≡ Some refusal) }
    ensures plan { IfOk result (λ plan. IsPlanFor schema.now.columns plan) }
    ensures select { IfOk result (λ plan. plan.select ≡ select) }
{
    let columns = schema.columns.as_slice();
    match select_refusal(columns, &select) {
        Some(refusal) => Err(refusal),
        None => Ok(planned(columns, select)),
    }
}

/// The SELECT of all rows of the table that meet the terms.
fn rows_with(table: Txt, where_terms: List<Constraint>) -> Select
    ensures { result ≡ rows_with table where_terms }
{
    Select {
        table,
        items: Items::All,
        where_terms,
        order: Order::Unsaid,
        limit: None,
    }
}

/// The plan of the rows of an UPDATE, with its columns and their new values, or what refuses it.
pub fn plan_update(schema: &Schema, update: Update) -> Result<(Plan, List<Assign>), Refusal>
    requires narrow { length schema.now.columns ≤ MOST_COLUMNS }
    requires terms { length update.where_terms ≤ MOST_TERMS }
    ensures refused { IfErr result (λ refusal. check_update schema.now.columns update ≡ Some refusal) }
    ensures checked { IfOk result (λ planned. check_update schema.now.columns update ≡ None) }
    ensures plan { IfOk result (λ planned. IsPlanFor schema.now.columns planned.0) }
    ensures rows { IfOk result (λ planned. planned.0.select ≡ rows_with update.table update.where_terms) }
    ensures no_target { IfOk result (λ planned. planned.0.target ≡ None) }
    ensures sets { IfOk result (λ planned. planned.1 ≡ update.sets) }
{
    let columns = schema.columns.as_slice();
    match update_refusal(columns, &update) {
        Some(refusal) => Err(refusal),
        None => {
            let select = rows_with(update.table, update.where_terms);
            Ok((planned(columns, select), update.sets))
        }
    }
}

/// The plan of the rows of a DELETE, or what refuses it.
pub fn plan_delete(schema: &Schema, delete: Delete) -> Result<Plan, Refusal>
    requires narrow { length schema.now.columns ≤ MOST_COLUMNS }
    requires terms { length delete.where_terms ≤ MOST_TERMS }
    ensures refused { IfErr result (λ refusal. check_delete schema.now.columns delete ≡ Some refusal) }
    ensures checked { IfOk result (λ plan. check_delete schema.now.columns delete ≡ None) }
    ensures plan { IfOk result (λ plan. IsPlanFor schema.now.columns plan) }
    ensures rows { IfOk result (λ plan. plan.select ≡ rows_with delete.table delete.where_terms) }
    ensures no_target { IfOk result (λ plan. plan.target ≡ None) }
{
    let columns = schema.columns.as_slice();
    match delete_refusal(columns, &delete) {
        Some(refusal) => Err(refusal),
        None => Ok(planned(columns, rows_with(delete.table, delete.where_terms))),
    }
}

/// What refuses an INSERT, if anything does.
pub fn check_insert(schema: &Schema, insert: &Insert) -> Option<Refusal>
    requires narrow { length schema.now.columns ≤ MOST_COLUMNS }
    ensures { result ≡ check_insert schema.now.columns insert.now }
{
    insert_refusal(schema.columns.as_slice(), insert)
}
