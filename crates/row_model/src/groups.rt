//! Groups of columns whose values are kept together.
ghost use Rattle.std.specs.Prelude.{◌≡◌, ◌≤◌};
ghost use Rattle.row_model.specs.Groups.{before_in, is_in, kind_in};

use crate::{Column, Kind, Role};

/// Columns whose values are kept together: vectors, partition values, or the cells of a row, which are its metadata and auxiliary values.
#[derive(Clone, Copy, Debug, PartialEq, Eq)]
pub enum Group {
    Vectors,
    Partitions,
    Cells,
}

impl Group {
    /// Whether columns of the kind are in the group.
    #[inline]
    pub fn has(self, kind: Kind) -> bool
        ensures { result ≡ is_in self kind }
    {
        match self {
            Group::Vectors => kind.has_role(Role::Vector),
            Group::Partitions => kind.has_role(Role::Partition),
            Group::Cells => kind.has_role(Role::Metadata) || kind.has_role(Role::Auxiliary),
        }
    }

    /// How many columns of the group stand before a place, from 0.
    #[tactic(auto, using(crate::proofs::GroupLaws::none_before, crate::proofs::GroupLaws::one_before, crate::proofs::GroupLaws::other_before))]
    pub fn before(self, columns: &[Column], place: u8) -> u8
        ensures before { result ≡ before_in (is_in self) columns.now place }
        ensures few { result ≤ place }
    {
        if place == 0 {
            return 0;
        }
        let Some((column, columns)) = columns.split_first() else {
            return 0;
        };
        let others = self.before(columns, place - 1);
        if self.has(column.kind) {
            others + 1
        } else {
            others
        }
    }
}

/// The kind of the column at a place, from 0.
pub fn kind_in(columns: &[Column], place: u8) -> Option<Kind>
    ensures { result ≡ kind_in columns.now place }
{
    let column = columns.get(usize::from(place))?;
    Some(column.kind)
}
