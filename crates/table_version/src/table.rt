//! A table with its rows at their places.
ghost use Rattle.std.specs.Prelude.{◌≡◌, true, pos, int_le, [], length, IfOk};
ghost use Rattle.vec_base.specs.Words.{is_name};
ghost use Rattle.row_model.specs.Change.{rows_side_bytes, rows_vector_bytes};
ghost use Rattle.row_model.specs.Schemas.{IsValidSchema};
ghost use Rattle.shadow_records.specs.PlacedTables.{plain_rows};
ghost use Rattle.table_version.specs.Versions.{empty_table};

use crate::columns::{kinds_of, widths_of};
use row_model::Schema;
use row_store::RowStore;
use std::alloc::Global;
use std::marker::Model;
use vec_base::{Memory, Txt};

/// A table with its rows at their places, and what was touched since it was shared.
#[derive(Drop)]
pub struct TableVersion {
    pub(crate) name: Txt,
    pub(crate) schema: Schema,
    /// The greatest rowid that the table ever held, or 0.
    pub(crate) top: i64,
    pub(crate) rows: RowStore,
    /// The bytes of all texts and blobs of all rows.
    pub(crate) side_bytes: u64,
}

impl Model for TableVersion {
    ghost use Rattle.table_version.specs.Versions.{VersionState};
    ghost use Rattle.table_version.specs.inner.StoredTables.{version_of, IsSound};

    ghost Value = { VersionState };

    ghost view = { λ version. version_of version.name version.schema version.top version.rows };

    ghost invariant = { λ version. IsSound version.name version.schema version.top version.rows version.side_bytes };
}

impl TableVersion {
    /// A table without rows.
    pub fn new(alloc: Global, name: Txt, schema: Schema) -> Result<TableVersion, Memory>
        requires valid { IsValidSchema schema }
        requires name { is_name name ≡ true }
        ensures { IfOk result (λ version. version.table ≡ empty_table name schema) }
    {
        TableVersion::with_top(alloc, name, schema, 0)
    }

    /// A table without rows, which held no greater rowid than this.
    #[tactic(auto, using(crate::proofs::SoundLaws::chunk_shape, crate::proofs::WeavingLaws::all_cells))]
    pub fn with_top(
        alloc: Global,
        name: Txt,
        schema: Schema,
        top: i64,
    ) -> Result<TableVersion, Memory>
        requires valid { IsValidSchema schema }
        requires name { is_name name ≡ true }
        requires top { int_le (pos 0) top ≡ true }
        ensures { IfOk result (λ version. version.table ≡ record { name = name; schema = schema; top = top; rows = [] }) }
    {
        let widths = widths_of(alloc, schema.columns.as_slice())?;
        let kinds = kinds_of(alloc, schema.columns.as_slice())?;
        let rows = RowStore::new(alloc, schema.chunk_size, widths, kinds)?;
        Ok(TableVersion {
            name,
            schema,
            top,
            rows,
            side_bytes: 0,
        })
    }

    /// The table's name.
    pub fn name(&self) -> &Txt
        ensures { result.now ≡ self.now.table.name }
    {
        &self.name
    }

    /// The table's schema.
    pub fn schema(&self) -> &Schema
        ensures { result.now ≡ self.now.table.schema }
    {
        &self.schema
    }

    /// The greatest rowid that the table ever held, or 0.
    pub fn top(&self) -> i64
        ensures { result ≡ self.now.table.top }
    {
        self.top
    }

    /// The number of rows.
    pub fn rows(&self) -> u64
        ensures { result ≡ length self.now.table.rows }
    {
        self.rows.len()
    }

    /// The bytes of all texts and blobs of all rows.
    pub fn side_bytes(&self) -> u64
        ensures { result ≡ rows_side_bytes (plain_rows self.now.table.rows) }
    {
        self.side_bytes
    }
}
