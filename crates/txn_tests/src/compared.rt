//! Requests over both engines.
use crate::memory_engine::engine_over;
use crate::reply::put_reply;
use crate::request::read_request;
use crate::script::replied;
use plain_engine::PlainEngine;
use row_model::Reply;
use shadow_keeper::MemoryKeeper;
use std::alloc::Global;
use std::marker::Sync;
use std::thread::Threads;
use txn_core::Engine;
use vec_base::Memory;
use vec_text::put_number;

/// The numbers of refusals end below this one.
const REFUSALS: usize = 26;

/// What came of requests that both engines answered.
#[derive(Drop)]
pub(crate) struct Compared {
    /// How many requests there were.
    pub(crate) count: u32,
    /// Whether a refusal of each number was given.
    pub(crate) refused: [bool; REFUSALS],
    /// A line for each request that was answered with two replies.
    pub(crate) unlike: String,
}

impl Compared {
    fn new(alloc: Global) -> Compared {
        Compared {
            count: 0,
            refused: [false; REFUSALS],
            unlike: String::new(alloc),
        }
    }

    /// Counts a request and notes the number of its refusal.
    fn note(&mut self, reply: &Reply) {
        self.count = self.count.saturating_add(1);
        if let Reply::Refused(refusal) = reply {
            if let Some(given) = self.refused.get_mut(usize::from(refusal.number())) {
                *given = true;
            }
        }
    }

    /// The numbers of the refusals that were given, each with a space behind it.
    pub(crate) fn numbers(&self, alloc: Global) -> Result<String, Memory> {
        let mut text = String::new(alloc);
        for (number, given) in self.refused.iter().enumerate() {
            if *given {
                put_number(&mut text, number as u64)?;
                text.push_str(" ")?;
            }
        }
        Ok(text)
    }
}

/// A reply as a line.
fn line_of(alloc: Global, reply: &Reply) -> Result<String, Memory> {
    let mut line = String::new(alloc);
    put_reply(&mut line, reply)?;
    Ok(line)
}

/// The plain engine's reply to what a text asks for.
fn replied_plainly(alloc: Global, plain: &mut PlainEngine, text: &str) -> Reply {
    match read_request(alloc, text) {
        Ok(request) => plain.answer(request),
        Err(refusal) => Reply::Refused(refusal),
    }
}

/// Both engines answer what a text asks for.
fn compare_one<R: Threads + Sync>(
    rt: &R,
    alloc: Global,
    plain: &mut PlainEngine,
    engine: &mut Engine<MemoryKeeper>,
    text: &str,
    compared: &mut Compared,
) -> Result<(), Memory> {
    let reply = replied(rt, alloc, engine, text);
    let wanted = line_of(alloc, &replied_plainly(alloc, plain, text))?;
    let given = line_of(alloc, &reply)?;
    compared.note(&reply);
    if wanted != given {
        let line = format!(in alloc; "{text} => {wanted} and {given}\n")?;
        compared.unlike.push_str(line.as_str())?;
    }
    Ok(())
}

/// Both engines, new and without tables, answer the requests of the lines.
pub(crate) fn compare_all<R: Threads + Sync>(
    rt: &R,
    alloc: Global,
    lines: &str,
) -> Result<Compared, Memory> {
    let mut plain = PlainEngine::new(alloc)?;
    let mut engine = engine_over(alloc, &[])?;
    let mut compared = Compared::new(alloc);
    for text in lines.lines() {
        compare_one(rt, alloc, &mut plain, &mut engine, text, &mut compared)?;
    }
    Ok(compared)
}
