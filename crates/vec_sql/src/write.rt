//! Writing the canonical text of a statement.
ghost use Rattle.std.specs.Prelude.{◌≡◌, ◌≤◌, [], ◌++◌, codes, length, string_bytes, IfOk, OnOk};
ghost use Rattle.row_model.specs.CanonicalColumns.{canonical_columns};
ghost use Rattle.row_model.specs.WellFormed.{IsWellFormed};
ghost use Rattle.vec_sql.specs.CanonicalStatements.{begin_text, where_text, items_text, order_text, limit_text, select_text, insert_text, update_text, delete_text, statement_text};
ghost use Rattle.sql_reader.specs.StatementReading.{SpellsStatement};

use crate::piece::{Piece, write_listed, write_separated};
use row_model::{Constraint, Delete, Insert, Items, Order, Schema, Select, Statement, Update};
use std::alloc::{AllocError, Global};
use vec_base::{List, MOST_TEXT_BYTES, Memory, Txt, Value};
use vec_text::{Takes, put_value};
use vec0_columns::put_columns;

/// The canonical text of the statement. Where the statement is well formed and the text is not too long, reading the text
/// without parameters gives the statement back.
pub fn write_statement(alloc: Global, statement: &Statement) -> Result<Txt, Memory>
    ensures text { IfOk result (λ text. text ≡ statement_text statement.now) }
    ensures reads_back { IsWellFormed statement.now → IfOk result (λ text. length text ≤ MOST_TEXT_BYTES → SpellsStatement text [] statement.now) }
{
    statement.representable();
    let mut text = String::new(alloc);
    write(&mut text, statement)?;
    Ok(Txt::from_string(text))
}

/// Writes the statement.
fn write(text: &mut String, statement: &Statement) -> Result<(), AllocError>
    ensures text { OnOk result (string_bytes text.new ≡ string_bytes text.old ++ statement_text statement.now) }
{
    match statement {
        Statement::Create(table, schema) => write_create(text, table, schema),
        Statement::Drop(table) => write_two(text, "DROP TABLE ", table.as_text()),
        Statement::Insert(insert) => write_insert(text, insert),
        Statement::Update(update) => write_update(text, update),
        Statement::Delete(delete) => write_delete(text, delete),
        Statement::Select(select) => write_select(text, select),
        Statement::Explain(select) => write_explain(text, select),
        Statement::Begin(immediate) => text.push_str(begin_words(*immediate)),
        Statement::Commit => text.push_str("COMMIT"),
        Statement::Rollback => text.push_str("ROLLBACK"),
        Statement::RollbackTo(name) => write_two(text, "ROLLBACK TO ", name.as_text()),
        Statement::Savepoint(name) => write_two(text, "SAVEPOINT ", name.as_text()),
        Statement::Release(name) => write_two(text, "RELEASE ", name.as_text()),
    }
}

/// The words for BEGIN.
fn begin_words(immediate: bool) -> &'static str
    ensures { result.now ≡ begin_text immediate }
{
    if immediate {
        "BEGIN IMMEDIATE"
    } else {
        "BEGIN"
    }
}

/// Writes one text and another behind it.
fn write_two(text: &mut String, first: &str, second: &str) -> Result<(), AllocError>
    ensures { OnOk result (string_bytes text.new ≡ string_bytes text.old ++ (first.now ++ second.now)) }
{
    text.push_str(first)?;
    text.push_str(second)
}

/// Writes a CREATE.
fn write_create(text: &mut String, table: &Txt, schema: &Schema) -> Result<(), AllocError>
    ensures { OnOk result (string_bytes text.new ≡ string_bytes text.old ++ (codes "CREATE VIRTUAL TABLE " ++ table.now ++ codes " USING vec0(" ++ canonical_columns schema.now ++ codes ")")) }
{
    text.put("CREATE VIRTUAL TABLE ")?;
    text.put(table.as_text())?;
    text.put(" USING vec0(")?;
    put_columns(text, schema)?;
    text.put(")")
}

/// Writes an INSERT.
fn write_insert(text: &mut String, insert: &Insert) -> Result<(), AllocError>
    ensures text { OnOk result (string_bytes text.new ≡ string_bytes text.old ++ insert_text insert.now) }
{
    text.push_str("INSERT INTO ")?;
    insert.table.write(text)?;
    text.push_str(" (")?;
    write_listed(text, &insert.columns)?;
    text.push_str(") VALUES ")?;
    write_listed(text, &insert.rows)
}

/// Writes an UPDATE.
fn write_update(text: &mut String, update: &Update) -> Result<(), AllocError>
    ensures text { OnOk result (string_bytes text.new ≡ string_bytes text.old ++ update_text update.now) }
{
    text.push_str("UPDATE ")?;
    update.table.write(text)?;
    text.push_str(" SET ")?;
    write_listed(text, &update.sets)?;
    write_where(text, &update.where_terms)
}

/// Writes a DELETE.
fn write_delete(text: &mut String, delete: &Delete) -> Result<(), AllocError>
    ensures text { OnOk result (string_bytes text.new ≡ string_bytes text.old ++ delete_text delete.now) }
{
    text.push_str("DELETE FROM ")?;
    delete.table.write(text)?;
    write_where(text, &delete.where_terms)
}

/// Writes an EXPLAIN.
fn write_explain(text: &mut String, select: &Select) -> Result<(), AllocError>
    ensures text { OnOk result (string_bytes text.new ≡ string_bytes text.old ++ (codes "EXPLAIN " ++ select_text select.now)) }
{
    text.push_str("EXPLAIN ")?;
    write_select(text, select)
}

/// Writes a SELECT.
fn write_select(text: &mut String, select: &Select) -> Result<(), AllocError>
    ensures text { OnOk result (string_bytes text.new ≡ string_bytes text.old ++ select_text select.now) }
{
    text.push_str("SELECT ")?;
    write_items(text, &select.items)?;
    text.push_str(" FROM ")?;
    select.table.write(text)?;
    write_where(text, &select.where_terms)?;
    text.push_str(order_words(select.order))?;
    write_limit(text, &select.limit)
}

/// Writes the items of a SELECT.
fn write_items(text: &mut String, items: &Items) -> Result<(), AllocError>
    ensures { OnOk result (string_bytes text.new ≡ string_bytes text.old ++ items_text items.now) }
{
    match items {
        Items::All => text.push_str("*"),
        Items::Named(names) => write_listed(text, names),
    }
}

/// Writes the terms of WHERE, or nothing where there is none.
fn write_where(text: &mut String, terms: &List<Constraint>) -> Result<(), AllocError>
    ensures text { OnOk result (string_bytes text.new ≡ string_bytes text.old ++ where_text terms.now) }
{
    if terms.is_empty() {
        return Ok(());
    }
    text.push_str(" WHERE ")?;
    write_separated(text, " AND ", terms.as_slice())
}

/// The words for the order.
fn order_words(order: Order) -> &'static str
    ensures { result.now ≡ order_text order }
{
    match order {
        Order::Unsaid => "",
        Order::ByDistance => " ORDER BY distance",
        Order::ByRowid => " ORDER BY rowid",
    }
}

/// Writes LIMIT with its value, or nothing where there is none.
fn write_limit(text: &mut String, limit: &Option<Value>) -> Result<(), AllocError>
    ensures text { OnOk result (string_bytes text.new ≡ string_bytes text.old ++ limit_text limit.now) }
{
    match limit {
        None => Ok(()),
        Some(value) => {
            text.push_str(" LIMIT ")?;
            put_value(text, value)
        }
    }
}
