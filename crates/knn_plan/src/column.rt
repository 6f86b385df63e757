//! What the names of a statement mean.
ghost use Rattle.std.specs.Prelude.{◌≡◌, ◌<◌, ◌≤◌, ◌+◌, ◌∷◌, ◌++◌, drop, length, map, take};
ghost use Rattle.row_model.specs.Check.{item_count};
ghost use Rattle.row_model.specs.ColumnNames.{is_of, item_places, key_place, other_places, place_of};
ghost use Rattle.row_model.specs.Schemas.{count_of, has_role};
ghost use Rattle.row_model.specs.declared.schema.TheConstants.{MOST_COLUMNS};
ghost use Rattle.vec_base.specs.declared.limits.TheConstants.{MOST_TERMS};
ghost use Rattle.knn_plan.specs.PlannedColumns.{named_column, number_among, planned_column, term_column};

use arrayvec::ArrayVec;
use row_model::{Column, Constraint, Items, MOST_COLUMNS, Place, Role};
use std::default::Default;
use vec_base::{MOST_TERMS, Txt};

/// What a name means. Where that is a declared column, `number` says how many columns before it are for the same, and it is 0 elsewhere.
#[derive(Clone, Copy, Debug)]
pub struct PlannedColumn {
    pub place: Place,
    pub number: u8,
}

impl Default for PlannedColumn {
    fn default() -> PlannedColumn {
        PlannedColumn {
            place: Place::Unknown,
            number: 0,
        }
    }
}

impl PlannedColumn {
    /// Whether it is a declared column that is for this.
    pub fn has_role(self, role: Role) -> bool
        ensures { result ≡ is_of (has_role role) self.place }
    {
        has_role(self.place, role)
    }
}

/// Whether it is a declared column that is for this.
pub(crate) fn has_role(place: Place, role: Role) -> bool
    ensures { result ≡ is_of (has_role role) place }
{
    match place {
        Place::Declared(_, kind) => kind.has_role(role),
        _ => false,
    }
}

/// How many of the first columns are for this.
fn count_before(columns: &[Column], end: usize, role: Role) -> usize
    ensures count { result ≡ count_of (has_role role) (take end columns.now) }
    ensures most { result ≤ length columns.now }
{
    columns
        .iter()
        .take(end)
        .filter(|column| column.kind.has_role(role))
        .count()
}

/// What stands at a place.
pub(crate) fn planned_column(columns: &[Column], place: Place) -> PlannedColumn
    requires narrow { length columns.now ≤ MOST_COLUMNS }
    ensures { result ≡ planned_column columns.now place }
{
    let number = match place {
        Place::Declared(number, kind) => {
            count_before(columns, usize::from(number.saturating_sub(1)), kind.role()) as u8
        }
        _ => 0,
    };
    PlannedColumn { place, number }
}

/// The columns that terms are on.
pub(crate) fn term_columns(
    columns: &[Column],
    terms: &[Constraint],
) -> ArrayVec<PlannedColumn, MOST_TERMS>
    requires narrow { length columns.now ≤ MOST_COLUMNS }
    requires few { length terms.now ≤ MOST_TERMS }
    ensures { result.items ≡ map (term_column columns.now) terms.now }
{
    let mut planned = ArrayVec::new();
    for term in terms {
        planned.push(planned_column(columns, Place::of(columns, &term.column)));
    }
    planned
}

/// The columns of these names.
fn named_columns(columns: &[Column], names: &[Txt]) -> ArrayVec<PlannedColumn, MOST_TERMS>
    requires narrow { length columns.now ≤ MOST_COLUMNS }
    requires few { length names.now ≤ MOST_TERMS }
    ensures { result.items ≡ map (planned_column columns.now) (map (place_of columns.now) names.now) }
{
    let mut planned = ArrayVec::new();
    for name in names {
        planned.push(planned_column(columns, Place::of(columns, name)));
    }
    planned
}

/// The key's place, or that of the rowid where there is no key; the first of these columns has this number.
fn key_place(number: u8, columns: &[Column]) -> Place
    requires numbered { number + length columns.now ≤ MOST_COLUMNS + 1 }
    ensures { result ≡ key_place number columns.now }
{
    let Some((column, more)) = columns.split_first() else {
        return Place::Rowid;
    };
    if column.kind.has_role(Role::Key) {
        Place::Declared(number, column.kind)
    } else {
        key_place(number + 1, more)
    }
}

/// Adds the column at an index, unless it is the key.
#[tactic(auto, using(crate::proofs::OtherLaws::key_left_out))]
fn add_other(planned: &mut ArrayVec<PlannedColumn, MOST_TERMS>, columns: &[Column], index: usize)
    requires narrow { length columns.now ≤ MOST_COLUMNS }
    requires within { index < length columns.now }
    requires room { length planned.old.items < MOST_TERMS }
    ensures added { planned.old.items ++ map (planned_column columns.now) (other_places (index + 1) (drop index columns.now))
        ≡ planned.new.items ++ map (planned_column columns.now) (other_places (index + 2) (drop (index + 1) columns.now)) }
    ensures few { length planned.new.items ≤ length planned.old.items + 1 }
{
    let column = &columns[index];
    if column.kind.has_role(Role::Key) {
        return;
    }
    let place = Place::Declared(index as u8 + 1, column.kind);
    planned.push(planned_column(columns, place));
}

/// The key or the rowid, and then the other columns in their order.
fn all_columns(columns: &[Column]) -> ArrayVec<PlannedColumn, MOST_TERMS>
    requires narrow { length columns.now ≤ MOST_COLUMNS }
    ensures { result.items ≡ map (planned_column columns.now) (key_place 1 columns.now ∷ other_places 1 columns.now) }
{
    let mut planned = ArrayVec::new();
    planned.push(planned_column(columns, key_place(1, columns)));
    for index in 0..columns.len() {
        add_other(&mut planned, columns, index);
    }
    planned
}

/// The columns that items are.
pub(crate) fn item_columns(columns: &[Column], items: &Items) -> ArrayVec<PlannedColumn, MOST_TERMS>
    requires narrow { length columns.now ≤ MOST_COLUMNS }
    requires few { item_count items.now ≤ MOST_TERMS }
    ensures { result.items ≡ map (planned_column columns.now) (item_places columns.now items.now) }
{
    match items {
        Items::All => all_columns(columns),
        Items::Named(names) => named_columns(columns, names.as_slice()),
    }
}
