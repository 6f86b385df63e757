//! Tables by their names and numbers.
ghost use Rattle.std.specs.Prelude.{◌≡◌, ◌≤◌, ◌+◌, length, None, IfNone, IfSome, MatchOption};
ghost use Rattle.std.specs.List.{insert};
ghost use Rattle.row_model.specs.declared.row.Named.{Named as NamedOf};
ghost use Rattle.row_model.specs.Change.{add_table, free_number, table_named};
ghost use Rattle.plain_engine.specs.inner.TablePlaces.{IsTable, IsTableAt};
ghost use Rattle.vec_base.specs.declared.limits.TheConstants.{MOST_TABLES};

use row_model::{Named, Table, is_same_name};
use vec_base::Txt;

/// Where the table of the name stands.
#[tactic(auto, using(crate::proofs::TableLaws::table_first, crate::proofs::TableLaws::table_later))]
pub(crate) fn table_at(tables: &[Named], name: &Txt) -> Option<usize>
    ensures { MatchOption result (table_named name.now tables.now ≡ None) (λ at. IsTableAt name.now tables.now at) }
{
    let (named, others) = tables.split_first()?;
    if is_same_name(&named.name, name) {
        return Some(0);
    }
    match table_at(others, name) {
        Some(at) => Some(at + 1),
        None => None,
    }
}

/// A table that was found, and where it stands.
#[derive(Drop)]
pub(crate) struct FoundTable<'a> {
    pub(crate) at: usize,
    pub(crate) table: &'a Table,
}

/// The table of the name.
pub(crate) fn find_table<'a>(tables: &'a [Named], name: &Txt) -> Option<FoundTable<'a>>
    ensures none { IfNone result (table_named name.now tables.now ≡ None) }
    ensures at { IfSome result (λ found. IsTableAt name.now tables.now found.at) }
    ensures table { IfSome result (λ found. IsTable name.now tables.now found.table.now) }
{
    let at = table_at(tables, name)?;
    Some(FoundTable {
        at,
        table: &tables[at].table,
    })
}

/// The least number from `number` on that no table has.
pub(crate) fn free_number(number: u32, tables: &[Named]) -> u32
    requires { number + length tables.now ≤ MOST_TABLES + 1 }
    ensures { result ≡ free_number number tables.now }
{
    match tables.split_first() {
        Some((named, others)) => {
            if named.number == number {
                free_number(number + 1, others)
            } else {
                number
            }
        }
        None => number,
    }
}

/// Where a table with the number goes in.
pub(crate) fn number_place(tables: &[Named], number: u32) -> usize
    ensures within { result ≤ length tables.now }
    ensures place { (new : NamedOf) → new.number ≡ number → add_table new tables.now ≡ insert tables.now result new }
{
    for (at, named) in tables.iter().enumerate() {
        if number < named.number {
            return at;
        }
    }
    tables.len()
}
