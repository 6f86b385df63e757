//! New values of an UPDATE: the numbers of their columns, and the bytes of texts and blobs that come and go.
ghost use Rattle.std.specs.Prelude.{◌≡◌, ◌≤◌, length, map, sum_by};
ghost use Rattle.std.specs.List.{AllByRecursion};
ghost use Rattle.row_model.specs.Change.{long_values};
ghost use Rattle.row_model.specs.ColumnNames.{place_of};
ghost use Rattle.row_model.specs.RefusalOrder.{first};
ghost use Rattle.row_model.specs.RepresentableStatements.{IsRepresentableAssign};
ghost use Rattle.row_model.specs.declared.schema.TheConstants.{MOST_COLUMNS};
ghost use Rattle.shadow_records.specs.PlacedTables.{row_of};
ghost use Rattle.table_query.specs.Read.{IsThere};
ghost use Rattle.table_writes.specs.inner.Capped.{capped};
ghost use Rattle.table_writes.specs.inner.NewValues.{bytes_come, bytes_gone, bytes_in, declared_number, gone_at};

use crate::beside::side_bytes;
use row_model::{Assign, Column, Place, Role, over_value};
use table_version::{RowView, TableVersion};
use vec_base::{Refusal, Txt};

/// The number of a declared column.
pub(crate) fn number_of(columns: &[Column], name: &Txt) -> u8
    requires narrow { length columns.now ≤ MOST_COLUMNS }
    ensures { result ≡ declared_number (place_of columns.now name.now) }
{
    match Place::of(columns, name) {
        Place::Declared(number, _) => number,
        _ => 0,
    }
}

/// The first new value that is too long.
pub(crate) fn long_set(sets: &[Assign]) -> Option<Refusal>
    ensures { result ≡ first (long_values (map (λ set. set.value) sets.now)) }
{
    let (set, more) = sets.split_first()?;
    over_value(side_bytes(&set.value)).or(long_set(more))
}

/// The bytes of texts and blobs that come into each row.
pub(crate) fn bytes_come(sets: &[Assign]) -> u64
    ensures { result ≡ capped (bytes_come sets.now) }
{
    let Some((set, more)) = sets.split_first() else {
        return 0;
    };
    side_bytes(&set.value).saturating_add(bytes_come(more))
}

/// The bytes of a text or a blob in a column of a row.
fn bytes_in(view: &RowView<'_>, place: Place) -> u64
    requires { IsThere view.now.columns place }
    ensures { result ≡ bytes_in place view.now.placed.row }
{
    match place {
        Place::Declared(number, kind) => {
            if kind.has_role(Role::Vector) {
                0
            } else {
                view.field(number).side_bytes()
            }
        }
        _ => 0,
    }
}

/// The bytes of texts and blobs that go from a row of these columns.
fn row_gone(view: &RowView<'_>, columns: &[Column], sets: &[Assign]) -> u64
    requires narrow { length columns.now ≤ MOST_COLUMNS }
    requires same { view.now.columns ≡ columns.now }
    ensures { result ≡ capped (bytes_gone columns.now sets.now view.now.placed.row) }
{
    let Some((set, more)) = sets.split_first() else {
        return 0;
    };
    let place = Place::of(columns, &set.column);
    bytes_in(view, place).saturating_add(row_gone(view, columns, more))
}

/// The bytes of texts and blobs that go from the row of a rowid, if there is one.
fn gone_at(table: &TableVersion, rowid: &i64, sets: &[Assign]) -> u64
    ensures { result ≡ capped (gone_at table.now.table.schema.columns sets.now (row_of table.now.table.rows rowid.now)) }
{
    table.known();
    match table.row(rowid) {
        Some(view) => row_gone(&view, table.schema().columns.as_slice(), sets),
        None => 0,
    }
}

/// The bytes of texts and blobs that go from the rows of these rowids.
pub(crate) fn all_gone(table: &TableVersion, rowids: &[i64], sets: &[Assign]) -> u64
    ensures { result ≡ capped (sum_by (λ rowid. gone_at table.now.table.schema.columns sets.now (row_of table.now.table.rows rowid)) rowids.now) }
{
    let mut total = 0u64;
    for rowid in rowids {
        total = total.saturating_add(gone_at(table, rowid, sets));
    }
    total
}

/// Types hold no other values than representable ones. The call does nothing: its clause is all that it gives.
pub(crate) fn sets_representable(sets: &[Assign])
    ensures { AllByRecursion IsRepresentableAssign sets.now }
{
    for set in sets {
        set.value.representable();
    }
}
