//! A session over the engine.

ghost use Rattle.std.specs.Prelude.{◌≡◌, ◌≤◌, [], IfOk};
ghost use Rattle.row_model.specs.declared.request.Request.TheVariants.{OpenSession};
ghost use Rattle.row_model.specs.declared.request.Reply.TheVariants.{Session as Opened};
ghost use Rattle.row_model.specs.Machine.{first_state, no_tables};
ghost use Rattle.row_model.specs.Shelled.{Answers};
ghost use Rattle.row_model.specs.Step.{answer_of};
ghost use Rattle.vec_shell.specs.ShellTexts.{Reads};
ghost use Rattle.vec_shell.specs.declared.engine_session.TheConstants.{FIRST};

use crate::sure_keeper::SureKeeper;
use row_model::Reply;
use sql_reader::read_statement;
use std::alloc::Global;
use std::marker::Sync;
use std::thread::Threads;
use topk_merge::NoGate;
use txn_core::Engine;
use vec_base::{List, Memory, Steps, Value};

/// The id of the first session that is opened.
pub(crate) const FIRST: u32 = 1;

/// The first session that is opened over an engine whose tables are kept in memory, and how many workers search for the nearest rows.
#[derive(Drop)]
pub(crate) struct EngineSession {
    alloc: Global,
    pub(crate) engine: Engine<SureKeeper>,
    no_parameters: List<Value>,
    workers: u8,
    ghost none: { no_parameters ≡ [] },
    ghost some: { 1 ≤ workers },
}

impl EngineSession {
    /// Opens the session over no tables.
    pub(crate) fn open(alloc: Global, workers: u8) -> Result<EngineSession, Memory>
        requires { 1 ≤ workers }
        ensures { IfOk result (λ session. answer_of (first_state no_tables) OpenSession ≡ (Opened FIRST, session.engine.state)) }
    {
        let mut engine = Engine::over(alloc, SureKeeper::new(alloc)?);
        match engine.open_session() {
            Reply::Refused(_) => Err(Memory),
            _ => Ok(EngineSession {
                alloc,
                engine,
                no_parameters: List::new(alloc),
                workers,
            }),
        }
    }

    /// The reply to a text. Want of memory is refusal 25 and leaves the state.
    pub(crate) fn answer<R: Threads + Sync>(&mut self, rt: &R, text: &[u8]) -> Reply
        ensures { Answers Reads FIRST self.old.engine.state text.now result self.new.engine.state }
    {
        match read_statement(self.alloc, text, &self.no_parameters) {
            Ok(statement) => self.engine.execute(
                rt,
                FIRST,
                statement,
                self.workers,
                &NoGate,
                &mut Steps::new(),
            ),
            Err(refusal) => Reply::Refused(refusal),
        }
    }
}
