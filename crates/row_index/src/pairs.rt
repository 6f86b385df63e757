//! Ids paired with rowids. A pair may stay when its entry is removed.
ghost use Rattle.std.specs.Prelude.{◌≡◌, List, ℕ, Some, IfOk, OnOk};
ghost use Rattle.std.specs.Option.{option_copied};
ghost use Rattle.row_index.specs.inner.Pairs.{IdsRise, paired};

use crate::entry::IdPair;
use crate::search::search;
use shared_leaves::{Leaves, Shared};
use std::alloc::Global;
use vec_base::{Memory, Txt};

/// The rowid that is paired with an id.
pub(crate) fn rowid_of(pairs: &Leaves<IdPair>, id: &str) -> Option<i64>
    requires { IdsRise pairs.now }
    ensures { result ≡ paired id.now pairs.now }
{
    match search(pairs, &id) {
        Ok(at) => Some(pairs.get(at).rowid),
        Err(_) => None,
    }
}

/// Puts a pair in the place of the one of its id, or where it goes if there is none.
fn place(pairs: &mut Leaves<IdPair>, pair: IdPair) -> Result<(), Memory>
    requires { IdsRise pairs.old }
    ensures rise { IdsRise pairs.new }
    ensures others { (other : List ℕ) → (other ≡ pair.id → ⊥) → paired other pairs.new ≡ paired other pairs.old }
    ensures pair { OnOk result (paired pair.id pairs.new ≡ Some pair.rowid) }
{
    match search(pairs, &pair.id.get().as_text()) {
        Ok(at) => pairs.set(at, pair),
        Err(at) => pairs.insert(at, pair),
    }
}

/// Pairs an id with a rowid where one is given, and answers the id as the pair holds it.
pub(crate) fn put(
    alloc: Global,
    pairs: &mut Leaves<IdPair>,
    id: Option<&str>,
    rowid: &i64,
) -> Result<Option<Shared<Txt>>, Memory>
    requires { IdsRise pairs.old }
    ensures rise { IdsRise pairs.new }
    ensures others { (other : List ℕ) → (option_copied id.entry ≡ Some other → ⊥) → paired other pairs.new ≡ paired other pairs.old }
    ensures pair { IfOk result (λ held. (text : List ℕ) → held ≡ Some text → paired text pairs.new ≡ Some rowid.now) }
    ensures id { IfOk result (λ held. held ≡ option_copied id.entry) }
{
    let Some(id) = id else {
        return Ok(None);
    };
    let held = Shared::new(alloc, Txt::from_text(alloc, id)?)?;
    let pair = IdPair {
        id: held.share()?,
        rowid: *rowid,
    };
    place(pairs, pair)?;
    Ok(Some(held))
}

/// Removes the pair of an id where one is given. For want of memory it may stay.
pub(crate) fn remove(pairs: &mut Leaves<IdPair>, id: &Option<Shared<Txt>>)
    requires { IdsRise pairs.old }
    ensures rise { IdsRise pairs.new }
    ensures others { (other : List ℕ) → (id.now ≡ Some other → ⊥) → paired other pairs.new ≡ paired other pairs.old }
{
    let Some(id) = id else {
        return;
    };
    let Ok(at) = search(pairs, &id.get().as_text()) else {
        return;
    };
    let _ = pairs.remove(at);
}
