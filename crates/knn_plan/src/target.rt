//! The vector that a search looks for.
ghost use Rattle.std.specs.Prelude.{◌≡◌};
ghost use Rattle.knn_plan.specs.Plans.{target_among};

use crate::column::PlannedColumn;
use row_model::{Constraint, Test};
use std::marker::Model;
use vec_base::Value;

/// The vector of a MATCH, with its column.
#[derive(Drop)]
pub struct Target<'a> {
    pub column: PlannedColumn,
    pub query: &'a Value,
}

impl<'a> Model for Target<'a> {
    ghost use Rattle.knn_plan.specs.Plans.{PlannedTarget};

    ghost Value = { PlannedTarget };

    ghost view = { λ target. record { column = target.column; query = target.query.now } };
}

/// The first MATCH among the terms, where these are their columns.
pub(crate) fn target_among<'a>(
    terms: &'a [Constraint],
    columns: &[PlannedColumn],
) -> Option<Target<'a>>
    ensures { result ≡ target_among terms.entry.now columns.now }
{
    let Some((term, terms)) = terms.split_first() else {
        return None;
    };
    let Some((column, columns)) = columns.split_first() else {
        return None;
    };
    match &term.test {
        Test::Match(query) => Some(Target {
            column: *column,
            query,
        }),
        _ => target_among(terms, columns),
    }
}
