//! All records of a keeper.
ghost use Rattle.std.specs.Prelude.{◌≡◌, true, IfErr, IfOk, IsTrue, OnOk};
ghost use Rattle.std.specs.FinMap.{is_sorted};
ghost use Rattle.vec_base.specs.Streams.{Rose};
ghost use Rattle.shadow_records.specs.Keys.{key_cmp};
ghost use Rattle.txn_commits.specs.Keeping.{meanings};
ghost use Rattle.txn_core.specs.Loads.{Loads};
ghost use Rattle.txn_core.specs.declared.load.LoadFault.TheVariants.{Failed};

use shadow_keeper::{Keeper, Loaded};
use std::alloc::Global;
use vec_base::{Bytes, List, ShadowKey};

/// Why the records were not all read.
#[derive(Clone, Copy, Debug, PartialEq, Eq)]
pub(crate) enum LoadFault {
    Failed,
    Memory,
}

/// Reads all records that a keeper has not given yet.
pub(crate) fn load<K: Keeper>(
    alloc: Global,
    keeper: &mut K,
) -> Result<List<(ShadowKey, Bytes)>, LoadFault>
    ensures loads { Loads (meanings K.ended K.tells K.tables K.faults K.stopped K.moment K.stopped_since) keeper.old keeper.new }
    ensures sorted { IfOk result (λ records. is_sorted key_cmp records ≡ true) }
    ensures records { IfOk result (λ records. IsTrue (K.tells keeper.old) → K.left keeper.old ≡ records) }
    ensures ended { OnOk result (IsTrue (K.ended keeper.new)) }
    ensures failed { IfErr result (λ fault. fault ≡ Failed → Rose (K.faults keeper.old) (K.faults keeper.new)) }
{
    let mut records = List::new(alloc);
    'records: for _ in 0..u64::MAX {
        match keeper.next_record() {
            Loaded::One(key, body) => {
                if records.push((key, body)).is_err() {
                    return Err(LoadFault::Memory);
                }
            }
            Loaded::End => return Ok(records),
            Loaded::Failed => return Err(LoadFault::Failed),
            Loaded::Memory => return Err(LoadFault::Memory),
        }
    }
    Err(LoadFault::Memory)
}
