//! Standard input, or any reader, as a source.
ghost use Rattle.std.specs.Prelude.{◌≡◌, ◌↔◌, ◌+◌, ◌<◌, ◌≤◌, ◌^◌, length, IfOk, OnOk, OnErr, None};
ghost use Rattle.std.specs.Io.KnownBytes.{ReadConsumes};
ghost use Rattle.vec_base.specs.declared.source.ReadOutcome.TheVariants.{Took, End, Failed};
ghost use Rattle.vec_base.specs.declared.limits.TheConstants.{MOST_SOURCE_BYTES};
ghost use Rattle.vec_base.specs.Streams.{Rose};

use std::io::{self, Read};
use vec_base::{MOST_SOURCE_BYTES, ReadOutcome, Source};

/// The bytes of a reader, at most the first `MOST_SOURCE_BYTES`. It holds none itself. A read past those fails.
#[derive(Drop)]
pub(crate) struct StdSource<R: Read + Drop> {
    reader: R,
    given: u64,
    faults: u64,
    ghost most: { given ≤ MOST_SOURCE_BYTES },
}

impl<R: Read + Drop> StdSource<R> {
    pub(crate) fn new(reader: R) -> StdSource<R>
        ensures reader { result.reader ≡ reader }
        ensures given { result.given ≡ 0 }
        ensures faults { result.faults ≡ 0 }
    {
        StdSource {
            reader,
            given: 0,
            faults: 0,
        }
    }

    /// Reads once, straight into the room, and no more than may still be given.
    fn read_once(&mut self, room: &mut [u8]) -> io::Result<usize>
        requires { self.old.given < MOST_SOURCE_BYTES }
        ensures within { IfOk result (λ n. (n ≤ length room.new) × (self.old.given + n ≤ MOST_SOURCE_BYTES)) }
        ensures bytes { ReadConsumes (R.remaining self.old.reader) (R.remaining self.new.reader) result room.new }
        ensures given { self.new.given ≡ self.old.given }
        ensures faults { self.new.faults ≡ self.old.faults }
    {
        let left = MOST_SOURCE_BYTES - self.given as usize;
        let asked = room.len().min(left);
        self.reader.read(&mut room[..asked])
    }

    /// Turns the reader's outcome into an answer, and counts the bytes or the failure.
    fn answer(&mut self, outcome: io::Result<usize>) -> ReadOutcome
        requires { IfOk outcome (λ n. self.old.given + n ≤ MOST_SOURCE_BYTES) }
        ensures took { IfOk outcome (λ n. 0 < n → result ≡ Took n) }
        ensures end { (result ≡ End) ↔ (outcome ≡ Ok 0) }
        ensures failed { OnErr outcome (result ≡ Failed) }
        ensures given { IfOk outcome (λ n. self.new.given ≡ self.old.given + n) }
        ensures kept { OnErr outcome (self.new.given ≡ self.old.given) }
        ensures faults { OnErr outcome (Rose self.old.faults self.new.faults) }
        ensures same { OnOk outcome (self.new.faults ≡ self.old.faults) }
        ensures later { self.old.faults ≤ self.new.faults }
    {
        match outcome {
            Ok(0) => ReadOutcome::End,
            Ok(count) => {
                self.given += count as u64;
                ReadOutcome::Took(count)
            }
            Err(_) => self.fail(),
        }
    }

    fn fail(&mut self) -> ReadOutcome
        ensures failed { result ≡ Failed }
        ensures given { self.new.given ≡ self.old.given }
        ensures faults { Rose self.old.faults self.new.faults }
        ensures later { self.old.faults ≤ self.new.faults }
    {
        self.faults = self.faults.saturating_add(1);
        ReadOutcome::Failed
    }
}

impl<R: Read + Drop> Source for StdSource<R> {
    ghost left = { λ _. None };

    ghost given = { λ s. s.given };

    ghost faults = { λ s. s.faults };

    fn read(&mut self, room: &mut [u8]) -> ReadOutcome {
        if self.given == MOST_SOURCE_BYTES as u64 {
            return self.fail();
        }
        let outcome = self.read_once(room);
        self.answer(outcome)
    }
}

#[cfg(test)]
mod tests;
