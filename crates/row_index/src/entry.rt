//! What an index holds: entries, and ids paired with rowids.
ghost use Rattle.std.specs.Prelude.{◌≡◌};
ghost use Rattle.row_index.specs.Entries.{has_id};

use shared_leaves::{Copied, Shared};
use std::alloc::Global;
use vec_base::{Memory, Txt};

/// Where the row of a rowid lies, and the text id that it has, if it has one.
#[derive(Drop)]
pub struct Entry {
    pub rowid: i64,
    pub chunk: u32,
    pub slot: u16,
    pub id: Option<Shared<Txt>>,
}

impl Entry {
    /// Whether the row has the id.
    pub(crate) fn has_id(&self, id: &str) -> bool
        ensures { result ≡ has_id id.now self.now }
    {
        match &self.id {
            Some(held) => held.get().as_text() == id,
            None => false,
        }
    }
}

impl Copied for Entry {
    fn copied(&self, alloc: Global) -> Result<Entry, Memory> {
        Ok(Entry {
            rowid: self.rowid,
            chunk: self.chunk,
            slot: self.slot,
            id: Copied::copied(&self.id, alloc)?,
        })
    }
}

/// An id, and the rowid of the last entry that had it.
#[derive(Drop)]
pub(crate) struct IdPair {
    pub(crate) id: Shared<Txt>,
    pub(crate) rowid: i64,
}

impl Copied for IdPair {
    fn copied(&self, _alloc: Global) -> Result<IdPair, Memory> {
        Ok(IdPair {
            id: self.id.share()?,
            rowid: self.rowid,
        })
    }
}
