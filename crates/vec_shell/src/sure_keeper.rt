//! A keeper in memory whose calls never fail.

ghost use Rattle.std.specs.Prelude.{◌≡◌, [], true, IfOk};
ghost use Rattle.shadow_keeper.specs.Keeping.{tables_of};
ghost use Rattle.shadow_keeper.specs.Memory.{memory_ended, memory_fails, memory_tables};

use shadow_keeper::{Batch, Keeper, Kept, Loaded, MemoryKeeper};
use std::alloc::Global;
use vec_base::{List, Memory};

/// A keeper in memory, none of whose calls fail. It counts no faults.
#[derive(Drop)]
pub(crate) struct SureKeeper {
    keeper: MemoryKeeper,
    ghost sure: { memory_fails keeper ≡ [] },
}

impl SureKeeper {
    /// A keeper without records, which has told their end.
    pub(crate) fn new(alloc: Global) -> Result<SureKeeper, Memory>
        ensures ended { IfOk result (λ sure. memory_ended sure.keeper ≡ true) }
        ensures empty { IfOk result (λ sure. memory_tables sure.keeper ≡ tables_of []) }
    {
        let mut keeper = MemoryKeeper::new(alloc, List::new(alloc), List::new(alloc))?;
        let _end = keeper.give();
        Ok(SureKeeper { keeper })
    }
}

impl Keeper for SureKeeper {
    ghost use Rattle.std.specs.Prelude.{true};
    ghost use Rattle.shadow_keeper.specs.Memory.{memory_ended, memory_last, memory_left, memory_tables};

    ghost tells = { λ _. true };

    ghost tables = { λ sure. memory_tables sure.keeper };

    ghost left = { λ sure. memory_left sure.keeper };

    ghost last = { λ sure. memory_last sure.keeper };

    ghost ended = { λ sure. memory_ended sure.keeper };

    ghost faults = { λ _. 0 };

    ghost stopped = { λ _ _. ⊥ };

    ghost moment = { λ _. 0 };

    ghost stopped_since = { λ _ _ _. ⊥ };

    fn next_record(&mut self) -> Loaded {
        self.keeper.give()
    }

    fn commit(&mut self, batch: &Batch) -> Kept {
        self.keeper.keep(batch)
    }
}
