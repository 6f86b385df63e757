//! Standard output, or any writer, as a sink.
ghost use Rattle.std.specs.Prelude.{◌≡◌, ◌≤◌, ◌<◌, length, take, IfOk, OnOk, OnErr, None};
ghost use Rattle.std.specs.Io.KnownBytes.{Appends};
ghost use Rattle.vec_base.specs.declared.sink.WriteOutcome.TheVariants.{Took, Failed};
ghost use Rattle.vec_base.specs.Streams.{Rose};

use std::io::{self, Write};
use vec_base::{Sink, WriteOutcome};

/// A writer that is flushed at each write. It holds no bytes itself. Where the flush fails, the
/// write has failed, though the writer may have taken bytes.
#[derive(Drop)]
pub(crate) struct StdSink<W: Write + Drop> {
    writer: W,
    faults: u64,
}

impl<W: Write + Drop> StdSink<W> {
    pub(crate) fn new(writer: W) -> StdSink<W>
        ensures writer { result.writer ≡ writer }
        ensures faults { result.faults ≡ 0 }
    {
        StdSink { writer, faults: 0 }
    }

    /// Writes once and flushes. A write that takes nothing is an error.
    fn write_once(&mut self, bytes: &[u8]) -> io::Result<usize>
        ensures some { IfOk result (λ n. 0 < n) }
        ensures within { IfOk result (λ n. n ≤ length bytes.now) }
        ensures bytes { IfOk result (λ n. Appends (W.contents self.old.writer) (W.contents self.new.writer) (take n bytes.now)) }
        ensures faults { self.new.faults ≡ self.old.faults }
    {
        let count = self.writer.write(bytes)?;
        if count == 0 {
            return Err(io::ErrorKind::WriteZero.into());
        }
        self.writer.flush()?;
        Ok(count)
    }

    /// Turns the writer's outcome into an answer, and counts a failure.
    fn answer(&mut self, outcome: io::Result<usize>) -> WriteOutcome
        ensures took { IfOk outcome (λ n. result ≡ Took n) }
        ensures failed { OnErr outcome (result ≡ Failed) }
        ensures faults { OnErr outcome (Rose self.old.faults self.new.faults) }
        ensures same { OnOk outcome (self.new.faults ≡ self.old.faults) }
        ensures later { self.old.faults ≤ self.new.faults }
    {
        match outcome {
            Ok(count) => WriteOutcome::Took(count),
            Err(_) => {
                self.faults = self.faults.saturating_add(1);
                WriteOutcome::Failed
            }
        }
    }
}

impl<W: Write + Drop> Sink for StdSink<W> {
    ghost taken = { λ _. None };

    ghost faults = { λ s. s.faults };

    fn write(&mut self, bytes: &[u8]) -> WriteOutcome {
        let outcome = self.write_once(bytes);
        self.answer(outcome)
    }
}

#[cfg(test)]
mod tests;
