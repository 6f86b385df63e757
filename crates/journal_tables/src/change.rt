//! One change, made on tables in memory.
ghost use Rattle.std.specs.Prelude.{◌≡◌, IsTrue, Some, IfOk, OnOk, replicate, length, is_some};
ghost use Rattle.std.specs.FinMap.{get, insert, remove};
ghost use Rattle.shadow_records.specs.Batches.{patched, patched_in, changed};
ghost use Rattle.shadow_keeper.specs.Keeping.{tables_of};
ghost use Rattle.journal_format.specs.Fitting.{lies_in, applies};
ghost use Rattle.journal_format.specs.Views.{change_of};

use journal_format::ChangeView;
use std::alloc::Global;
use std::collections::BTreeMap;
use std::mem;
use vec_base::{List, Memory, ShadowKey};

fn put(
    tables: &mut BTreeMap<ShadowKey, List<u8>>,
    key: ShadowKey,
    body: List<u8>,
) -> Result<(), Memory>
    ensures { OnOk result (tables_of tables.new.entries ≡ insert (tables_of tables.old.entries) key body) }
{
    tables.insert(key, body)?;
    Ok(())
}

fn remove(tables: &mut BTreeMap<ShadowKey, List<u8>>, key: &ShadowKey) -> bool
    ensures there { result ≡ is_some (get (tables_of tables.old.entries) key.now) }
    ensures gone { tables_of tables.new.entries ≡ remove (tables_of tables.old.entries) key.now }
{
    tables.remove(key).is_some()
}

/// Writes the bytes over those of the body from a place on, if they lie inside.
fn write_over(alloc: Global, body: &mut List<u8>, at: u32, bytes: &[u8]) -> bool
    ensures inside { result ≡ lies_in at (length bytes.now) (Some body.old) }
    ensures written { IsTrue result → body.new ≡ patched body.old at bytes.now }
{
    let at = at as usize;
    if at + bytes.len() > body.len() {
        return false;
    }
    let mut all = mem::replace(body, List::new(alloc)).into_vec();
    all[at..at + bytes.len()].copy_from_slice(bytes);
    *body = List::from_vec(all);
    true
}

fn patch(
    alloc: Global,
    tables: &mut BTreeMap<ShadowKey, List<u8>>,
    key: &ShadowKey,
    at: u32,
    bytes: &[u8],
) -> bool
    ensures inside { result ≡ lies_in at (length bytes.now) (get (tables_of tables.old.entries) key.now) }
    ensures patched { IsTrue result → tables_of tables.new.entries
        ≡ patched_in (tables_of tables.old.entries) key.now at bytes.now (get (tables_of tables.old.entries) key.now) }
{
    match tables.get_mut(key) {
        None => false,
        Some(body) => write_over(alloc, body, at, bytes),
    }
}

fn copied(alloc: Global, bytes: &[u8]) -> Result<List<u8>, Memory>
    ensures { IfOk result (λ body. body ≡ bytes.now) }
{
    Ok(List::from_vec(Vec::from_slice(alloc, bytes)?))
}

fn zeros(alloc: Global, count: u32) -> Result<List<u8>, Memory>
    ensures { IfOk result (λ body. body ≡ replicate count 0) }
{
    Ok(List::from_vec(vec![in alloc; 0; count as usize]?))
}

/// Makes a change if it applies, and answers whether it does. Only `Put` and `Fill` take memory.
pub fn make_change(
    alloc: Global,
    tables: &mut BTreeMap<ShadowKey, List<u8>>,
    change: ChangeView<'_>,
) -> Result<bool, Memory>
    ensures applies { IfOk result (λ made. made ≡ applies (change_of change.entry) (tables_of tables.old.entries)) }
    ensures made { IfOk result (λ made. IsTrue made → tables_of tables.new.entries ≡ changed (change_of change.entry) (tables_of tables.old.entries)) }
{
    match change {
        ChangeView::Put(key, body) => {
            put(tables, key, copied(alloc, body)?)?;
            Ok(true)
        }
        ChangeView::Fill(key, count) => {
            put(tables, key, zeros(alloc, count)?)?;
            Ok(true)
        }
        ChangeView::Remove(key) => Ok(remove(tables, &key)),
        ChangeView::Patch(key, at, bytes) => Ok(patch(alloc, tables, &key, at, bytes)),
    }
}
