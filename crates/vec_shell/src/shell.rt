//! The loop of the shell: from the source's blocks to the replies.

ghost use Rattle.std.specs.Prelude.{◌≡◌, ◌≢◌, ℕ, ◌<◌, List, [], ◌∷◌, length};
ghost use Rattle.vec_base.specs.Streams.{Rose};
ghost use Rattle.row_model.specs.Shelled.{Answers, AnswersAll};
ghost use Rattle.vec_shell.specs.declared.shell.Ending.TheVariants.{ReadFault};
ghost use Rattle.vec_shell.specs.ShellTexts.{Reads};
ghost use Rattle.vec_shell.specs.declared.engine_session.TheConstants.{FIRST};
ghost use Rattle.vec_shell.specs.Runs.{IsRun, change_of};
ghost use Rattle.vec_shell.specs.inner.Cutting.{CutterHolds};
ghost use Rattle.vec_shell.specs.Pieces.{trim};
ghost use Rattle.vec_shell.specs.inner.Progress.{moment, AnswersPiece, TakesBytes};
ghost use Rattle.vec_shell.specs.inner.LoopRuns.{LoopOutcome, StatusOf};

use crate::cutter::Cutter;
use crate::engine_session::EngineSession;
use crate::output::Output;
use crate::printer::write_reply;
use crate::tally::Tally;
use row_model::Reply;
use std::alloc::Global;
use std::marker::Sync;
use std::thread::Threads;
use vec_base::{Memory, ReadOutcome, Refusal, Sink, Source};

/// How many bytes are asked of the source at once.
const BLOCK: usize = 65_536;

/// How a run ended that read its input: at the input's end, at a read that failed, or at a write that failed.
#[derive(Clone, Copy, Debug)]
pub enum Ending {
    Whole,
    ReadFault,
    WriteFault,
}

/// A session, and what has been read of the next statement.
pub(crate) struct Shell {
    session: EngineSession,
    cutter: Cutter,
    tally: Tally,
    output: Output,
}

/// The reply to the piece, which is a text.
fn reply_to<R: Threads + Sync>(rt: &R, session: &mut EngineSession, cutter: &Cutter) -> Reply
    ensures { (piece : List ℕ) → CutterHolds cutter.now piece → Answers Reads FIRST session.old.engine.state (trim piece) result session.new.engine.state }
{
    if cutter.lost {
        return Reply::Refused(Refusal::WantOfMemory);
    }
    session.answer(rt, cutter.text.as_slice())
}

impl Shell {
    /// Answers the piece as it stands, if it is a text. Answers whether the sink took the reply.
    fn answer_piece<R: Threads + Sync, O: Sink>(&mut self, rt: &R, sink: &mut O) -> bool
        ensures { AnswersPiece FIRST result
            (moment self.old.session.engine.state self.old.cutter self.old.tally (O.taken sink.old) (O.faults sink.old))
            (moment self.new.session.engine.state self.new.cutter self.new.tally (O.taken sink.new) (O.faults sink.new)) }
    {
        if self.cutter.is_blank() {
            self.cutter.begin();
            return true;
        }
        let reply = reply_to(rt, &mut self.session, &self.cutter);
        self.tally.count(&reply);
        self.cutter.begin();
        write_reply(&mut self.output, sink, &reply)
    }

    /// Takes a byte, and answers the text that it ends. Answers whether the sink took the reply.
    fn take_byte<R: Threads + Sync, O: Sink>(&mut self, rt: &R, sink: &mut O, byte: u8) -> bool
        ensures { TakesBytes FIRST (byte ∷ []) result
            (moment self.old.session.engine.state self.old.cutter self.old.tally (O.taken sink.old) (O.faults sink.old))
            (moment self.new.session.engine.state self.new.cutter self.new.tally (O.taken sink.new) (O.faults sink.new)) }
    {
        if self.cutter.ends(byte) {
            return self.answer_piece(rt, sink);
        }
        self.cutter.add(byte);
        true
    }

    /// Takes bytes, and answers each text that they end. Answers whether the sink took all replies.
    fn take_bytes<R: Threads + Sync, O: Sink>(&mut self, rt: &R, sink: &mut O, bytes: &[u8]) -> bool
        ensures { TakesBytes FIRST bytes.now result
            (moment self.old.session.engine.state self.old.cutter self.old.tally (O.taken sink.old) (O.faults sink.old))
            (moment self.new.session.engine.state self.new.cutter self.new.tally (O.taken sink.new) (O.faults sink.new)) }
    {
        let mut at = 0;
        while at < bytes.len() {
            at += self.cutter.add_run(&bytes[at..]);
            if at < bytes.len() {
                if !self.take_byte(rt, sink, bytes[at]) {
                    return false;
                }
                at += 1;
            }
        }
        true
    }

    /// Reads the source to its end, a block at a time, and answers each text.
    fn serve<R: Threads + Sync, S: Source, O: Sink>(
        &mut self,
        rt: &R,
        source: &mut S,
        sink: &mut O,
        block: &mut [u8],
    ) -> Ending
        requires { 0 < length block.old }
        ensures outcome { LoopOutcome FIRST result (S.left source.old) (S.left source.new) (S.given source.old) (S.given source.new)
            (moment self.old.session.engine.state self.old.cutter self.old.tally (O.taken sink.old) (O.faults sink.old))
            (moment self.new.session.engine.state self.new.cutter self.new.tally (O.taken sink.new) (O.faults sink.new)) }
        ensures cause { result ≡ ReadFault → Rose (S.faults source.old) (S.faults source.new) }
    {
        'reading: loop {
            match source.read(block) {
                ReadOutcome::Failed => return Ending::ReadFault,
                ReadOutcome::End => {
                    return if self.answer_piece(rt, sink) {
                        Ending::Whole
                    } else {
                        Ending::WriteFault
                    };
                }
                ReadOutcome::Took(count) => {
                    if !self.take_bytes(rt, sink, &block[..count]) {
                        return Ending::WriteFault;
                    }
                }
            }
        }
    }
}

fn status_of(ending: Ending, tally: &Tally) -> u8
    ensures { StatusOf ending tally.now result }
{
    match ending {
        Ending::Whole => tally.status(),
        Ending::ReadFault => 3,
        Ending::WriteFault => 4,
    }
}

/// The memory of a run: a block for what is read, and room for what is written.
#[derive(Drop)]
pub(crate) struct Room {
    block: Vec<u8>,
    output: Output,
    ghost some: { 0 < length block.items },
}

impl Room {
    /// Takes the memory.
    pub(crate) fn new(alloc: Global) -> Result<Room, Memory> {
        Ok(Room {
            block: vec![in alloc; 0; BLOCK]?,
            output: Output::with_room(alloc)?,
        })
    }
}

/// The status of a run, and the session after it.
#[derive(Drop)]
pub(crate) struct Finished {
    pub(crate) status: u8,
    pub(crate) session: EngineSession,
}

/// Answers the statements that the source gives, until its end or a fault.
pub(crate) fn run_session<R: Threads + Sync, S: Source, O: Sink>(
    rt: &R,
    alloc: Global,
    room: Room,
    session: EngineSession,
    source: &mut S,
    sink: &mut O,
) -> Finished
    ensures ran { IsRun (AnswersAll Reads FIRST session.engine.state) result.session.engine.state
        (change_of S.left S.given O.taken source.old source.new sink.old sink.new) result.status }
    ensures read { result.status ≡ 3 → Rose (S.faults source.old) (S.faults source.new) }
    ensures write { result.status ≡ 4 → Rose (O.faults sink.old) (O.faults sink.new) }
{
    let Room { mut block, output } = room;
    let mut shell = Shell {
        session,
        cutter: Cutter::new(alloc),
        tally: Tally::new(),
        output,
    };
    let ending = shell.serve(rt, source, sink, block.as_mut_slice());
    let Shell {
        session,
        cutter: _,
        tally,
        output: _,
    } = shell;
    Finished {
        status: status_of(ending, &tally),
        session,
    }
}
