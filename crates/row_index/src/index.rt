//! The index.
ghost use Rattle.std.specs.Prelude.{◌≡◌, [], false, true, if◌then◌else◌, is_ok, length, IfOk, IfSome, None};
ghost use Rattle.std.specs.Option.{option_copied, option_map};
ghost use Rattle.row_index.specs.Entries.{has_rowid, have_own_ids, id_of, is_rising, next_after, place_of, rowid_of, with_entry, without};

use crate::entries::{self, entry_of, place_after};
use crate::entry::{Entry, IdPair};
use crate::pairs;
use crate::search::search;
use shared_leaves::{Copied, Leaves};
use std::alloc::Global;
use std::marker::Model;
use vec_base::Memory;

/// Where the row of each rowid lies, and which rowid a text id has: entries by rising rowids.
#[derive(Drop)]
pub struct RowIndex {
    entries: Leaves<Entry>,
    /// By rising ids. Each entry with an id has its pair here; a pair may also be that of an entry that is gone.
    ids: Leaves<IdPair>,
}

impl Model for RowIndex {
    ghost use Rattle.std.specs.Prelude.{List as Seq};
    ghost use Rattle.row_index.specs.declared.entry.Entry.{Entry as EntryOf};
    ghost use Rattle.row_index.specs.inner.Pairs.{IsIndexed};

    ghost Value = { Seq EntryOf };

    ghost view = { λ index. index.entries };

    ghost invariant = { λ index. IsIndexed index.entries index.ids };
}

impl RowIndex {
    /// No entries. It takes no memory yet.
    pub fn new(alloc: Global) -> RowIndex
        ensures { result ≡ [] }
    {
        RowIndex {
            entries: Leaves::new(alloc),
            ids: Leaves::new(alloc),
        }
    }

    /// What holds of the entries of every index.
    pub fn known(&self)
        ensures rising { is_rising self.now ≡ true }
        ensures own_ids { have_own_ids self.now ≡ true }
    {
        let _ = &self.entries;
    }

    /// The number of entries.
    pub fn len(&self) -> u64
        ensures { result ≡ length self.now }
    {
        self.entries.len() as u64
    }

    /// The chunk and the slot of the row of a rowid.
    pub fn place(&self, rowid: i64) -> Option<(u32, u16)>
        ensures { result ≡ place_of rowid self.now }
    {
        let entry = entry_of(&self.entries, &rowid)?;
        Some((entry.chunk, entry.slot))
    }

    /// The id of the row of a rowid.
    pub fn id(&self, rowid: i64) -> Option<&str>
        ensures { option_copied result ≡ id_of rowid self.now }
    {
        let entry = entry_of(&self.entries, &rowid)?;
        match &entry.id {
            Some(id) => Some(id.get().as_text()),
            None => None,
        }
    }

    /// The rowid of the row that has an id.
    pub fn rowid_of(&self, id: &str) -> Option<i64>
        ensures { result ≡ rowid_of id.now self.now }
    {
        let rowid = pairs::rowid_of(&self.ids, id)?;
        let entry = entry_of(&self.entries, &rowid)?;
        if entry.has_id(id) { Some(rowid) } else { None }
    }

    /// The least rowid above one, or the least of all.
    pub fn next(&self, after: Option<i64>) -> Option<i64>
        ensures { result ≡ next_after after self.now }
    {
        let at = place_after(&self.entries, &after);
        if at < self.entries.len() {
            Some(self.entries.get(at).rowid)
        } else {
            None
        }
    }

    /// Adds the entry of a row. After want of memory the index is as before.
    pub fn put(
        &mut self,
        alloc: Global,
        rowid: i64,
        chunk: u32,
        slot: u16,
        id: Option<&str>,
    ) -> Result<(), Memory>
        requires rowid { has_rowid rowid self.old ≡ false }
        requires id { IfSome id (λ text. rowid_of text.now self.old ≡ None) }
        ensures { self.new ≡ (if is_ok result then with_entry (record { rowid = rowid; chunk = chunk; slot = slot; id = option_copied id.entry }) self.old else self.old) }
    {
        let id = pairs::put(alloc, &mut self.ids, id, &rowid)?;
        entries::insert(
            &mut self.entries,
            Entry {
                rowid,
                chunk,
                slot,
                id,
            },
        )
    }

    /// Removes the entry of a rowid, and answers whether there was one. After want of memory the index is as before.
    pub fn remove(&mut self, alloc: Global, rowid: i64) -> Result<bool, Memory>
        ensures entries { self.new ≡ (if is_ok result then without rowid self.old else self.old) }
        ensures answer { IfOk result (λ was_there. was_there ≡ has_rowid rowid self.old) }
    {
        let Ok(at) = search(&self.entries, &rowid) else {
            return Ok(false);
        };
        let id = Copied::copied(&self.entries.get(at).id, alloc)?;
        self.entries.remove(at)?;
        pairs::remove(&mut self.ids, &id);
        Ok(true)
    }

    /// An equal index. A later change of one leaves the other.
    pub fn share(&self) -> Result<RowIndex, Memory>
        ensures { IfOk result (λ other. other ≡ self.now) }
    {
        Ok(RowIndex {
            entries: self.entries.share()?,
            ids: self.ids.share()?,
        })
    }
}
