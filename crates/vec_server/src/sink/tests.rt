//! A test of standard output.
use super::StdSink;
use std::io::{self, Write};
use vec_base::{Sink, WriteOutcome};

/// Takes at most two bytes at a call. The second write fails, the third takes nothing, and the
/// flush after the fourth fails.
#[derive(Drop)]
struct ShortWriter {
    calls: u32,
}

impl Write for ShortWriter {
    fn write(&mut self, bytes: &[u8]) -> io::Result<usize> {
        self.calls = self.calls.saturating_add(1);
        match self.calls {
            2 => Err(io::ErrorKind::Other.into()),
            3 => Ok(0),
            _ => Ok(bytes.len().min(2)),
        }
    }

    fn flush(&mut self) -> io::Result<()> {
        if self.calls == 4 {
            return Err(io::ErrorKind::Other.into());
        }
        Ok(())
    }
}

#[test]
fn counts_what_fails(rt: HostRuntime) {
    let mut sink = StdSink::new(ShortWriter { calls: 0 });
    let wanted = [
        (WriteOutcome::Took(2), 0),
        (WriteOutcome::Failed, 1),
        (WriteOutcome::Failed, 2),
        (WriteOutcome::Failed, 3),
        (WriteOutcome::Took(2), 3),
    ];
    for (wrote, faults) in wanted {
        assert_eq!(rt; sink.write(b"abc"), wrote, "before {faults} faults");
        assert_eq!(rt; sink.faults, faults);
    }
}
