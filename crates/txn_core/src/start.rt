//! Opening an engine over a keeper that has records.
ghost use Rattle.std.specs.Prelude.{◌≡◌, true, IsTrue, Some};
ghost use Rattle.std.specs.FinMap.{is_sorted};
ghost use Rattle.vec_base.specs.Streams.{Rose};
ghost use Rattle.shadow_keeper.specs.Keeping.{Within, tables_of};
ghost use Rattle.shadow_records.specs.Keys.{key_cmp};
ghost use Rattle.shadow_records.specs.StandsFor.{IsDamaged};
ghost use Rattle.txn_commits.specs.Keeping.{meanings};
ghost use Rattle.txn_core.specs.Loads.{Loads};
ghost use Rattle.txn_core.specs.Starts.{IfDamaged, IfFailed, IfReady, Opens, keeper_in};

use crate::engine::Engine;
use crate::load::{LoadFault, load};
use shadow_keeper::Keeper;
use shelf_attach::{ShelfFault, attach_all};
use std::alloc::Global;
use vec_base::{Bytes, List, ShadowKey};

/// How the opening of an engine ended. Where there is no engine, the keeper is handed back.
#[derive(Drop)]
pub enum Started<K: Keeper> {
    /// The engine.
    Ready(Engine<K>),
    /// The store failed.
    Failed(K),
    /// The records with table numbers up to this one stand for no catalog, and this is the least such number.
    Damaged(u32, K),
    /// There is no memory.
    Memory(K),
}

/// The engine over a keeper that has given all its records, and these are they.
fn open<K: Keeper + Drop>(
    alloc: Global,
    records: &List<(ShadowKey, Bytes)>,
    keeper: K,
) -> Started<K>
    requires sorted { is_sorted key_cmp records.now ≡ true }
    requires ended { IsTrue (K.ended keeper) }
    requires tables { IsTrue (K.tells keeper) → K.tables keeper ≡ tables_of records.now }
    requires settled { IsTrue (K.tells keeper) → Within (K.stopped keeper) (λ left. left ≡ Some (K.tables keeper)) }
    ensures keeper { keeper_in result ≡ keeper }
    ensures ready { IfReady result (λ engine. Opens (meanings K.ended K.tells K.tables K.faults K.stopped K.moment K.stopped_since) keeper engine) }
    ensures failed { IfFailed result ⊥ }
    ensures damaged { IfDamaged result (λ number. IsTrue (K.tells keeper) → IsDamaged (K.tables keeper) (Some number)) }
{
    match attach_all(alloc, records) {
        Ok(all) => Started::Ready(Engine::with_tables(alloc, all.shelf, all.held, keeper)),
        Err(ShelfFault::Damaged(number)) => Started::Damaged(number, keeper),
        Err(ShelfFault::Memory) => Started::Memory(keeper),
    }
}

impl<K: Keeper + Drop> Engine<K> {
    /// Opens an engine over a keeper, which is to give all its records. Where it tells its tables, a stop leaves these alone.
    ///
    /// `Ready`: the engine is in the first state of a catalog, that of the keeper's tables. `Failed` comes only where the keeper's count of faults has
    /// risen. `Damaged(t)` comes exactly where t is the least number such that the records with table numbers up to t stand for no catalog.
    pub fn start(alloc: Global, mut keeper: K) -> Started<K>
        requires records { IsTrue (K.tells keeper) → K.tables keeper ≡ tables_of (K.left keeper) }
        requires settled { IsTrue (K.tells keeper) → Within (K.stopped keeper) (λ left. left ≡ Some (K.tables keeper)) }
        ensures loads { Loads (meanings K.ended K.tells K.tables K.faults K.stopped K.moment K.stopped_since) keeper (keeper_in result) }
        ensures ready { IfReady result (λ engine. Opens (meanings K.ended K.tells K.tables K.faults K.stopped K.moment K.stopped_since) keeper engine) }
        ensures failed { IfFailed result (Rose (K.faults keeper) (K.faults (keeper_in result))) }
        ensures damaged { IfDamaged result (λ number. IsTrue (K.tells keeper) → IsDamaged (K.tables keeper) (Some number)) }
    {
        match load(alloc, &mut keeper) {
            Ok(records) => open(alloc, &records, keeper),
            Err(LoadFault::Failed) => Started::Failed(keeper),
            Err(LoadFault::Memory) => Started::Memory(keeper),
        }
    }
}
