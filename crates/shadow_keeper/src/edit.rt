//! Changes with all the memory that they need.
ghost use Rattle.std.specs.Prelude.{◌≡◌, IfOk};
ghost use Rattle.shadow_keeper.specs.inner.Edits.{edit_of, key_of_change, key_of_edit};

use crate::body::Body;
use std::alloc::Global;
use vec_base::{Bytes, Change, Memory, ShadowKey};

/// A change whose body is made already.
#[derive(Debug, Drop)]
pub(crate) enum Edit {
    /// The record gets this body.
    Put(ShadowKey, Body),
    /// The record goes.
    Remove(ShadowKey),
    /// The bytes are written into the record's body, at an offset from its beginning.
    Patch(ShadowKey, u32, Bytes),
}

impl Edit {
    /// Makes the body that the change needs.
    pub(crate) fn prepared(alloc: Global, change: &Change) -> Result<Edit, Memory>
        ensures { IfOk result (λ edit. edit ≡ edit_of change.now) }
    {
        match change {
            Change::Put(key, bytes) => {
                Ok(Edit::Put(*key, Body::copied(alloc, bytes.as_slice())?))
            }
            Change::Fill(key, count) => Ok(Edit::Put(*key, Body::zeros(alloc, *count)?)),
            Change::Remove(key) => Ok(Edit::Remove(*key)),
            Change::Patch(key, at, bytes) => Ok(Edit::Patch(*key, *at, bytes.copy(alloc)?)),
        }
    }
}

/// The key of the record that is changed.
pub(crate) fn changed_key(change: &Change) -> ShadowKey
    ensures { result ≡ key_of_change change.now }
{
    match change {
        Change::Put(key, _) => *key,
        Change::Fill(key, _) => *key,
        Change::Remove(key) => *key,
        Change::Patch(key, _, _) => *key,
    }
}
