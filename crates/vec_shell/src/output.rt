//! What is held in front of a sink.

ghost use Rattle.std.specs.Prelude.{◌≡◌, ◌≤◌, ℕ, List, [], true, MatchBool, IfOk, OnOk, OnErr};
ghost use Rattle.std.specs.declared.option.Option.{Option};
ghost use Rattle.vec_base.specs.Streams.{Rose, Gains};
ghost use Rattle.vec_shell.specs.inner.Puts.{Puts};
ghost use Rattle.vec_shell.specs.inner.Sending.{CutOff, Sent, Buffered};

use std::alloc::Global;
use vec_base::{Bytes, Memory, Sink, WriteOutcome};

/// How many bytes are held before they go to the sink.
const PIECE: usize = 4 << 10;

/// The room that is taken at once: for less than a piece that is held, and a further one.
const ROOM: usize = 2 * PIECE;

/// What is to be written and not yet handed to the sink, and whether the sink has taken all that it was handed.
#[derive(Drop)]
pub(crate) struct Output {
    pub(crate) held: Bytes,
    pub(crate) going: bool,
}

/// The sink failed, or took nothing.
#[derive(Clone, Copy)]
pub(crate) struct Stopped;

/// Writes all bytes, in as many calls as the sink needs.
pub(crate) fn write_all<O: Sink>(sink: &mut O, bytes: &[u8]) -> Result<(), Stopped>
    ensures ok { OnOk result (Gains (O.taken sink.old) bytes.now (O.taken sink.new)) }
    ensures err { OnErr result (CutOff (O.taken sink.old) bytes.now (O.taken sink.new)) }
    ensures cause { OnErr result (Rose (O.faults sink.old) (O.faults sink.new)) }
    ensures later { O.faults sink.old ≤ O.faults sink.new }
{
    let mut at = 0;
    while at < bytes.len() {
        match sink.write(&bytes[at..]) {
            WriteOutcome::Took(0) => return Err(Stopped),
            WriteOutcome::Took(count) => at += count,
            WriteOutcome::Failed => return Err(Stopped),
        }
    }
    Ok(())
}

/// Writes all bytes. Answers whether the sink took them.
fn takes_all<O: Sink>(sink: &mut O, bytes: &[u8]) -> bool
    ensures written { MatchBool result
        (Gains (O.taken sink.old) bytes.now (O.taken sink.new))
        (CutOff (O.taken sink.old) bytes.now (O.taken sink.new) × Rose (O.faults sink.old) (O.faults sink.new)) }
    ensures later { O.faults sink.old ≤ O.faults sink.new }
{
    match write_all(sink, bytes) {
        Ok(()) => true,
        Err(Stopped) => false,
    }
}

impl Output {
    /// An output that holds nothing, with room for what it holds of any reply.
    pub(crate) fn with_room(alloc: Global) -> Result<Output, Memory>
        ensures held { IfOk result (λ output. output.held ≡ []) }
        ensures going { IfOk result (λ output. output.going ≡ true) }
    {
        Ok(Output {
            held: Bytes::from_vec(Vec::with_capacity(alloc, ROOM)?),
            going: true,
        })
    }

    /// Prepares the output for a new reply.
    pub(crate) fn begin(&mut self)
        ensures { (base : Option (List ℕ)) (start : ℕ) → Buffered base start [] self.new base start }
    {
        self.held.clear();
        self.going = true;
    }

    /// Hands what is held to the sink. Nothing is held then where the output still goes.
    pub(crate) fn flush<O: Sink>(&mut self, sink: &mut O)
        ensures keeps { (base : Option (List ℕ)) (start : ℕ) (bytes : List ℕ) →
            Buffered base start bytes self.old (O.taken sink.old) (O.faults sink.old) →
            Buffered base start bytes self.new (O.taken sink.new) (O.faults sink.new) }
        ensures held { self.new.going ≡ true → self.new.held ≡ [] }
    {
        if !self.going {
            return;
        }
        self.going = takes_all(sink, self.held.as_slice());
        self.held.clear();
    }

    /// Flushes where a piece or more is held.
    fn flush_piece<O: Sink>(&mut self, sink: &mut O)
        ensures { (base : Option (List ℕ)) (start : ℕ) (bytes : List ℕ) →
            Buffered base start bytes self.old (O.taken sink.old) (O.faults sink.old) →
            Buffered base start bytes self.new (O.taken sink.new) (O.faults sink.new) }
    {
        if self.held.len() >= PIECE {
            self.flush(sink);
        }
    }

    /// Writes a part without holding it, behind what is held.
    fn put_directly<O: Sink>(&mut self, sink: &mut O, part: &[u8])
        ensures { Puts part.now
            self.old (O.taken sink.old) (O.faults sink.old)
            self.new (O.taken sink.new) (O.faults sink.new) }
    {
        self.flush(sink);
        if self.going {
            self.going = takes_all(sink, part);
        }
    }

    /// Adds a part of at most a piece to what is held. Where there is no memory to hold it, it is written at once.
    fn hold<O: Sink>(&mut self, sink: &mut O, part: &[u8])
        ensures { Puts part.now
            self.old (O.taken sink.old) (O.faults sink.old)
            self.new (O.taken sink.new) (O.faults sink.new) }
    {
        if !self.going {
            return;
        }
        match self.held.extend(part) {
            Ok(()) => self.flush_piece(sink),
            Err(Memory) => self.put_directly(sink, part),
        }
    }

    /// Adds a part to what is to be written, piece by piece, so that what is held stays within its room. After a fault
    /// of the sink it does nothing.
    pub(crate) fn put<O: Sink>(&mut self, sink: &mut O, part: &[u8])
        ensures { Puts part.now
            self.old (O.taken sink.old) (O.faults sink.old)
            self.new (O.taken sink.new) (O.faults sink.new) }
    {
        let mut at = 0;
        while at < part.len() {
            let upto = at + PIECE.min(part.len() - at);
            self.hold(sink, &part[at..upto]);
            at = upto;
        }
    }

    /// Hands the rest to the sink. Answers whether the sink has taken all.
    pub(crate) fn end<O: Sink>(&mut self, sink: &mut O) -> bool
        ensures { (base : Option (List ℕ)) (start : ℕ) (bytes : List ℕ) →
            Buffered base start bytes self.old (O.taken sink.old) (O.faults sink.old) →
            Sent base start bytes result (O.taken sink.new) (O.faults sink.new) }
    {
        self.flush(sink);
        self.going
    }
}
