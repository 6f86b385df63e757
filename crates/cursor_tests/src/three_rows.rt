//! A source of three rows.
use snapshot_cursor::RowSource;
use std::alloc::Global;
use vec_base::{List, Memory, Value};

/// Rows of rowids 2, 5 and 9, each with ten times its rowid as its one value.
#[derive(Clone, Copy, Debug)]
pub struct ThreeRows;

impl RowSource for ThreeRows {
    ghost use Rattle.cursor_tests.specs.ThreeRows.{three_rows};

    ghost rows = { λ _. three_rows };

    fn next_after(&self, after: Option<i64>) -> Option<i64> {
        let Some(after) = after else {
            return Some(2);
        };
        if after < 2 {
            Some(2)
        } else if after < 5 {
            Some(5)
        } else if after < 9 {
            Some(9)
        } else {
            None
        }
    }

    fn row(&self, alloc: Global, rowid: i64) -> Result<List<Value>, Memory> {
        let number = if rowid == 2 {
            20
        } else if rowid == 5 {
            50
        } else {
            90
        };
        let mut values = List::new(alloc);
        values.push(Value::Int(number))?;
        Ok(values)
    }
}
