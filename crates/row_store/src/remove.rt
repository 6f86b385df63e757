//! A row goes.
ghost use Rattle.std.specs.Prelude.{◌≡◌, true, None, Some, IfOk, OnErr, OnOk, is_some};
ghost use Rattle.row_store.specs.StoredRows.{row_of, without};
ghost use Rattle.row_store.specs.Touches.{HasSameShape, KeepsOrigin};

use crate::rows::Rows;
use crate::touched::Touched;
use crate::{RowPlace, RowStore, claims, parts};
use std::alloc::Global;
use vec_base::Memory;

impl RowStore {
    /// The row of a rowid goes. Answers whether it was there. After want of memory the rows are as before.
    pub fn remove(&mut self, alloc: Global, rowid: &i64) -> Result<bool, Memory>
        ensures kept { OnErr result (self.new.rows ≡ self.old.rows) }
        ensures rows { OnOk result (self.new.rows ≡ without rowid.now self.old.rows) }
        ensures answer { IfOk result (λ was_there. was_there ≡ is_some (row_of rowid.now self.old.rows)) }
        ensures shape { HasSameShape self.old self.new }
        ensures origin { KeepsOrigin self.old self.new }
    {
        let Some(place) = claims::find(alloc, &mut self.rows, &mut self.touched, rowid)? else {
            return Ok(false);
        };
        self.rows.index.known();
        parts::drop_row(&mut self.rows.parts, place.chunk, place.slot)?;
        self.rows.claim = Some(place);
        self.count -= 1;
        claims::try_settle(alloc, &mut self.rows);
        Ok(true)
    }
}
