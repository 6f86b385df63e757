//! A test of standard input.
ghost use Rattle.std.specs.Prelude.{◌≤◌};
ghost use Rattle.vec_base.specs.declared.limits.TheConstants.{MOST_SOURCE_BYTES};

use super::StdSource;
use std::io::{self, Read};
use std::process::Abort;
use vec_base::{MOST_SOURCE_BYTES, ReadOutcome, Source};

/// Gives at most two bytes at a call, and fails at the second call.
#[derive(Drop)]
struct ShortReader {
    bytes: &'static [u8],
    calls: u32,
}

impl Read for ShortReader {
    fn read(&mut self, room: &mut [u8]) -> io::Result<usize> {
        self.calls = self.calls.saturating_add(1);
        if self.calls == 2 {
            return Err(io::ErrorKind::Other.into());
        }
        let count = self.bytes.len().min(room.len()).min(2);
        room[..count].copy_from_slice(&self.bytes[..count]);
        self.bytes = &self.bytes[count..];
        Ok(count)
    }
}

/// Reads "abc" by a source that has given so many bytes: each answer, the first bytes of the room
/// and the faults by then.
fn reads_abc(rt: &impl Abort, given: u64, wanted: &[(ReadOutcome, &[u8], u64)])
    requires { given ≤ MOST_SOURCE_BYTES }
{
    let mut source = StdSource {
        reader: ShortReader {
            bytes: b"abc",
            calls: 0,
        },
        given,
        faults: 0,
    };
    for (got, bytes, faults) in wanted {
        let mut room = [0u8; 4];
        assert_eq!(rt; source.read(&mut room), *got);
        assert!(rt; room.starts_with(bytes));
        assert_eq!(rt; source.faults, *faults);
    }
}

#[test]
fn counts_what_fails(rt: HostRuntime) {
    let short = [
        (ReadOutcome::Took(2), &b"ab"[..], 0),
        (ReadOutcome::Failed, &[], 1),
        (ReadOutcome::Took(1), b"c", 1),
        (ReadOutcome::End, &[], 1),
    ];
    reads_abc(&rt, 0, &short);
    let full = [
        (ReadOutcome::Took(1), &b"a\0"[..], 0),
        (ReadOutcome::Failed, &[], 1),
    ];
    reads_abc(&rt, MOST_SOURCE_BYTES as u64 - 1, &full);
}
