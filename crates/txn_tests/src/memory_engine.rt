//! An engine over a keeper in memory.
ghost use Rattle.std.specs.Prelude.{◌≤◌, ◌≡◌, IfOk, [], true};
ghost use Rattle.row_model.specs.WellFormed.{IsWellFormedRequest};
ghost use Rattle.shadow_keeper.specs.Keeping.{tables_of};
ghost use Rattle.shadow_keeper.specs.Memory.{memory_ended, memory_tables};

use row_model::{Reply, Request};
use shadow_keeper::{Loaded, MemoryKeeper};
use std::alloc::Global;
use std::marker::Sync;
use std::thread::Threads;
use topk_merge::Gate;
use txn_core::Engine;
use vec_base::{List, Memory, Steps};

/// A keeper without records, which has told their end by its first call. Of its further calls those of these numbers fail.
pub(crate) fn keeper_over(alloc: Global, fails: List<u64>) -> Result<MemoryKeeper, Memory>
    ensures ended { IfOk result (λ keeper. memory_ended keeper ≡ true) }
    ensures empty { IfOk result (λ keeper. memory_tables keeper ≡ tables_of []) }
{
    let mut keeper = MemoryKeeper::new(alloc, List::new(alloc), fails)?;
    match keeper.give() {
        Loaded::End => Ok(keeper),
        Loaded::One(_, _) => Err(Memory),
        Loaded::Failed => Err(Memory),
        Loaded::Memory => Err(Memory),
    }
}

/// An engine without tables over a keeper in memory. The keeper's calls of these numbers fail; its first call was that it told the end of its records.
pub(crate) fn engine_over(alloc: Global, fails: &[u64]) -> Result<Engine<MemoryKeeper>, Memory> {
    let fails = List::from_vec(Vec::from_slice(alloc, fails)?);
    Ok(Engine::over(alloc, keeper_over(alloc, fails)?))
}

/// The engine's reply to a request. So many workers search for the nearest rows, each piece is told to the gate, and the work is counted.
pub(crate) fn answered<G: Gate, R: Threads + Sync>(
    rt: &R,
    engine: &mut Engine<MemoryKeeper>,
    request: Request,
    workers: u8,
    gate: &G,
    steps: &mut Steps,
) -> Reply
    requires formed { IsWellFormedRequest request }
    requires workers { 1 ≤ workers }
{
    match request {
        Request::OpenSession => engine.open_session(),
        Request::CloseSession(id) => engine.close_session(id),
        Request::Execute(id, statement) => {
            engine.execute(rt, id, statement, workers, gate, steps)
        }
        Request::OpenCursor(id, select) => {
            engine.open_cursor(rt, id, select, workers, gate, steps)
        }
        Request::Fetch(id, number, count) => engine.fetch(id, number, count),
        Request::CloseCursor(id, number) => engine.close_cursor(id, number),
    }
}
