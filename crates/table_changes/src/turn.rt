//! Between which tables changes lead.
ghost use Rattle.std.specs.Prelude.{◌≡◌};
ghost use Rattle.table_changes.specs.inner.Turns.{AreSound, HaveSchema, IsNextChunk, IsNextRow, IsTurn};

use table_version::TableVersion;

/// Between which tables changes lead.
#[derive(Clone, Copy)]
pub(crate) enum Turn<'a> {
    /// From a table to one that follows it.
    Over(&'a TableVersion, &'a TableVersion),
    /// From none to a table.
    Made(&'a TableVersion),
    /// From a table to none.
    Gone(&'a TableVersion),
}

impl Turn<'_> {
    /// The tables are sound. The call does nothing: its clause is all that it gives.
    pub(crate) fn known(&self)
        ensures { AreSound self.now }
    {
        match self {
            Turn::Over(older, newer) => {
                older.known();
                newer.known();
            }
            Turn::Made(newer) => newer.known(),
            Turn::Gone(older) => older.known(),
        }
    }

    /// A table with the schema of all.
    pub(crate) fn table(&self) -> &TableVersion
        requires { IsTurn self.now }
        ensures { HaveSchema self.now result.now.table.schema }
    {
        match self {
            Turn::Over(_, newer) => newer,
            Turn::Made(newer) => newer,
            Turn::Gone(older) => older,
        }
    }

    /// The least number above another of a chunk that may differ.
    pub(crate) fn next_chunk(&self, after: u32) -> Option<u32>
        requires { IsTurn self.now }
        ensures { IsNextChunk self.now after result }
    {
        match self {
            Turn::Over(_, newer) => {
                newer.known();
                newer.next_touched_chunk(after)
            }
            Turn::Made(newer) => newer.next_chunk(after),
            Turn::Gone(older) => older.next_chunk(after),
        }
    }

    /// The least rowid above one of a row that may differ, or the least of all.
    pub(crate) fn next_row(&self, after: Option<i64>) -> Option<i64>
        requires { IsTurn self.now }
        ensures { IsNextRow self.now after result }
    {
        match self {
            Turn::Over(_, newer) => {
                newer.known_touches();
                newer.next_touched_row(after)
            }
            Turn::Made(newer) => {
                newer.known();
                newer.next_rowid(after)
            }
            Turn::Gone(older) => {
                older.known();
                older.next_rowid(after)
            }
        }
    }
}
