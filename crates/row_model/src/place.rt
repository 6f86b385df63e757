//! What names mean in a table.
ghost use Rattle.std.specs.Prelude.{◌≡◌, ◌≤◌, ◌<◌, length, bytes_eq};
ghost use Rattle.row_model.specs.Check.{is_no_item, is_bool_column, is_fixed};
ghost use Rattle.row_model.specs.ColumnNames.{place_of, declared_place, column_number, root, is_unknown, is_stored, is_count, is_distance, is_of, is_rowid_or_key, has_text_key};
ghost use Rattle.row_model.specs.Schemas.{has_role, is_vector, is_auxiliary};

use crate::{Column, Kind, MOST_COLUMNS, Place, Role, UNKNOWN_COLUMN};
use vec_base::{COUNT_COLUMN, DISTANCE_COLUMN, Txt};

/// Whether two names are the same.
pub fn is_same_name(a: &Txt, b: &Txt) -> bool
    ensures { result ≡ bytes_eq a.now b.now }
{
    a.as_text() == b.as_text()
}

/// Whether the name is this word.
fn is_word(name: &Txt, word: &str) -> bool
    ensures { result ≡ bytes_eq name.now word.now }
{
    name.as_text() == word
}

/// The first declared column of the name.
fn declared(columns: &[Column], name: &Txt) -> Place
    requires narrow { length columns.now ≤ MOST_COLUMNS }
    ensures { result ≡ declared_place name.now 1 columns.now }
{
    for (index, column) in columns.iter().enumerate() {
        if is_same_name(&column.name, name) {
            return Place::Declared(index as u8 + 1, column.kind);
        }
    }
    Place::Unknown
}

/// Whether a text key is declared.
pub fn has_text_key(columns: &[Column]) -> bool
    ensures { result ≡ has_text_key columns.now }
{
    columns
        .iter()
        .any(|column| matches!(column.kind, Kind::TextKey))
}

impl Place {
    /// What a name means.
    pub fn of(columns: &[Column], name: &Txt) -> Place
        requires narrow { length columns.now ≤ MOST_COLUMNS }
        ensures { result ≡ place_of columns.now name.now }
    {
        if is_word(name, "rowid") {
            return Place::Rowid;
        }
        if is_word(name, "k") {
            return Place::Count;
        }
        if is_word(name, "distance") {
            return Place::Distance;
        }
        declared(columns, name)
    }

    /// The number by which a refusal names the column.
    pub(crate) fn number(self) -> u8
        ensures { result ≡ column_number self }
    {
        match self {
            Place::Unknown | Place::Rowid => 0,
            Place::Declared(number, _) => number,
            Place::Count => COUNT_COLUMN,
            Place::Distance => DISTANCE_COLUMN,
        }
    }

    /// A number for the column itself: an integer key is the rowid.
    pub(crate) fn root(self) -> u8
        ensures { result ≡ root self }
    {
        match self {
            Place::Unknown => UNKNOWN_COLUMN,
            Place::Rowid | Place::Declared(_, Kind::IntKey) => 0,
            Place::Declared(number, _) => number,
            Place::Count => COUNT_COLUMN,
            Place::Distance => DISTANCE_COLUMN,
        }
    }

    /// Whether INSERT and SET may name it.
    pub(crate) fn is_stored(self) -> bool
        ensures { result ≡ is_stored self }
    {
        matches!(self, Place::Rowid | Place::Declared(_, _))
    }

    pub(crate) fn is_unknown(self) -> bool
        ensures { result ≡ is_unknown self }
    {
        matches!(self, Place::Unknown)
    }

    /// Whether it is `k`.
    pub fn is_count(self) -> bool
        ensures { result ≡ is_count self }
    {
        matches!(self, Place::Count)
    }

    pub fn is_distance(self) -> bool
        ensures { result ≡ is_distance self }
    {
        matches!(self, Place::Distance)
    }

    pub fn is_rowid_or_key(self) -> bool
        ensures { result ≡ is_rowid_or_key self }
    {
        match self {
            Place::Rowid => true,
            Place::Declared(_, kind) => kind.has_role(Role::Key),
            _ => false,
        }
    }

    /// Whether a SELECT can't answer it.
    pub(crate) fn is_no_item(self) -> bool
        ensures { result ≡ is_no_item self }
    {
        matches!(self, Place::Unknown | Place::Count)
    }

    /// Whether it is a declared column that is for this.
    fn has_role(self, role: Role) -> bool
        ensures { result ≡ is_of (has_role role) self }
    {
        match self {
            Place::Declared(_, kind) => kind.has_role(role),
            _ => false,
        }
    }

    pub(crate) fn is_vector(self) -> bool
        ensures { result ≡ is_of is_vector self }
    {
        self.has_role(Role::Vector)
    }

    pub(crate) fn is_auxiliary(self) -> bool
        ensures { result ≡ is_of is_auxiliary self }
    {
        self.has_role(Role::Auxiliary)
    }

    /// Whether it is a BOOLEAN column.
    pub(crate) fn is_bool(self) -> bool
        ensures { result ≡ is_bool_column self }
    {
        matches!(self, Place::Declared(_, Kind::BoolMeta))
    }

    /// Whether UPDATE can't set it.
    pub(crate) fn is_fixed(self) -> bool
        ensures { result ≡ is_fixed self }
    {
        self.is_rowid_or_key() || self.has_role(Role::Partition)
    }
}
