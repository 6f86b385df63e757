//! The rows of a table in chunks.
ghost use Rattle.std.specs.Prelude.{◌≡◌, true, [], length, IfOk};
ghost use Rattle.std.specs.List.{list_all};
ghost use Rattle.row_chunks.specs.Cells.{is_cell};
ghost use Rattle.slot_alloc.specs.Places.{IsChunkSize};
ghost use Rattle.row_store.specs.Touches.{IsChunkShape};

use crate::rows::Rows;
use crate::shape::Shape;
use crate::touched::Touched;
use row_index::RowIndex;
use row_model::Kind;
use shared_leaves::Leaves;
use slot_alloc::Places;
use std::alloc::Global;
use std::marker::Model;
use vec_base::{List, Memory};

/// Rows with their places, by rising rowids, and what was touched since the store was shared.
#[derive(Drop)]
pub struct RowStore {
    pub(crate) shape: Shape,
    pub(crate) rows: Rows,
    /// The number of rows.
    pub(crate) count: u64,
    pub(crate) touched: Touched,
}

impl Model for RowStore {
    ghost use Rattle.std.specs.Prelude.{◌≡◌, length};
    ghost use Rattle.row_store.specs.Touches.{StoreState};
    ghost use Rattle.row_store.specs.inner.Views.{seen_rows, IsKept};

    ghost Value = { StoreState };

    ghost view = { λ store. record { size = store.shape.size; widths = store.shape.widths; kinds = store.shape.kinds; rows = seen_rows store.rows; touches = store.touched } };

    ghost invariant = { λ store. IsKept store.shape store.count store.touched.places.size store.rows };
}

impl RowStore {
    /// No rows, in chunks of so many slots, with vectors of these widths and cells of these kinds.
    pub fn new(
        alloc: Global,
        size: u16,
        widths: List<u16>,
        kinds: List<Kind>,
    ) -> Result<RowStore, Memory>
        requires size { IsChunkSize size }
        requires shape { IsChunkShape size widths }
        requires cells { list_all is_cell kinds ≡ true }
        ensures rows { IfOk result (λ store. store.rows ≡ []) }
        ensures size { IfOk result (λ store. store.size ≡ size) }
        ensures widths { IfOk result (λ store. store.widths ≡ widths) }
        ensures kinds { IfOk result (λ store. store.kinds ≡ kinds) }
    {
        Ok(RowStore {
            shape: Shape {
                size,
                widths,
                kinds,
            },
            rows: Rows {
                parts: Leaves::new(alloc),
                places: Places::with_chunk_size(alloc, size)?,
                index: RowIndex::new(alloc),
                claim: None,
            },
            count: 0,
            touched: Touched::new(alloc, size)?,
        })
    }

    /// The number of rows.
    pub fn len(&self) -> u64
        ensures { result ≡ length self.now.rows }
    {
        self.count
    }
}
