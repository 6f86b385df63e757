//! Scripts: a request on each line, and behind an arrow its reply.

use crate::memory_engine::{answered, engine_over};
use crate::reply::put_reply;
use crate::request::read_request;
use row_model::Reply;
use shadow_keeper::MemoryKeeper;
use std::alloc::Global;
use std::marker::Sync;
use std::thread::Threads;
use topk_merge::NoGate;
use txn_core::Engine;
use vec_base::{Memory, Steps};
use vec_text::Takes;

/// What stands between a request and its reply.
const ARROW: &str = " => ";

/// The engine's reply to what a text asks for.
pub(crate) fn replied<R: Threads + Sync>(
    rt: &R,
    alloc: Global,
    engine: &mut Engine<MemoryKeeper>,
    text: &str,
) -> Reply {
    match read_request(alloc, text) {
        Ok(request) => answered(rt, engine, request, 1, &NoGate, &mut Steps::new()),
        Err(refusal) => Reply::Refused(refusal),
    }
}

/// The request of a line of a script.
pub(crate) fn asked(line: &str) -> &str {
    match line.split_once(ARROW) {
        Some((request, _)) => request,
        None => line,
    }
}

/// The requests of a script, and behind each the engine's reply.
pub(crate) fn played<R: Threads + Sync>(
    rt: &R,
    alloc: Global,
    engine: &mut Engine<MemoryKeeper>,
    script: &str,
) -> Result<String, Memory> {
    let mut text = String::new(alloc);
    for line in script.lines() {
        let request = asked(line);
        let reply = replied(rt, alloc, engine, request);
        text.put(request)?;
        text.put(ARROW)?;
        put_reply(&mut text, &reply)?;
        text.put("\n")?;
    }
    Ok(text)
}

/// The requests of a script, and behind each the reply of a new engine without tables, of whose keeper's calls these fail.
pub(crate) fn replayed<R: Threads + Sync>(
    rt: &R,
    alloc: Global,
    fails: &[u64],
    script: &str,
) -> Result<String, Memory> {
    let mut engine = engine_over(alloc, fails)?;
    played(rt, alloc, &mut engine, script)
}

/// So many copies of a text behind each other.
pub(crate) fn copies(alloc: Global, text: &str, count: u32) -> Result<String, Memory> {
    let mut all = String::new(alloc);
    for _ in 0..count {
        all.put(text)?;
    }
    Ok(all)
}
