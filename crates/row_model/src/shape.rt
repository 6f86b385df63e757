//! How a SELECT is carried out.
ghost use Rattle.std.specs.Prelude.{◌≡◌, ◌≤◌, ◌<◌, length};
ghost use Rattle.std.specs.List.{list_any};
ghost use Rattle.row_model.specs.Answer.{is_point_term, shape_of};

use crate::forms::is_nearest;
use crate::{Column, Constraint, MOST_COLUMNS, Place, Select, Shape};

/// Whether the term says which rowid or key is wanted.
fn is_point_term(columns: &[Column], term: &Constraint) -> bool
    requires narrow { length columns.now ≤ MOST_COLUMNS }
    ensures { result ≡ is_point_term columns.now term.now }
{
    Place::of(columns, &term.column).is_rowid_or_key() && term.test.is_equal()
}

fn some_point_term(columns: &[Column], terms: &[Constraint]) -> bool
    requires narrow { length columns.now ≤ MOST_COLUMNS }
    ensures { result ≡ list_any (is_point_term columns.now) terms.now }
{
    terms.iter().any(|term| is_point_term(columns, term))
}

/// How a SELECT is carried out.
pub fn shape_of(columns: &[Column], select: &Select) -> Shape
    requires narrow { length columns.now ≤ MOST_COLUMNS }
    ensures { result ≡ shape_of columns.now select.now }
{
    let terms = select.where_terms.as_slice();
    if is_nearest(terms) {
        Shape::Nearest
    } else if some_point_term(columns, terms) {
        Shape::Point
    } else {
        Shape::Scan
    }
}
