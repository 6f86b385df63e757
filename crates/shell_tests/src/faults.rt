//! Inputs that are cut in any way, and faults of sources and sinks.

use std::alloc::Global;
use std::marker::Sync;
use std::test::Fail;
use std::thread::Threads;
use vec_base::{Bytes, List, MemorySink, MemorySource, ReadOutcome, Sink, Source, WriteOutcome};
use vec_shell::run;

/// How a source and a sink in memory behave: bytes in a read, the read and the write that fail, and the sink's room.
#[derive(Clone, Copy)]
struct Setting {
    piece: usize,
    failing_read: u64,
    failing_write: u64,
    room: usize,
}

/// A list of one number.
fn only(alloc: Global, number: u64) -> Result<List<u64>, Fail> {
    let mut numbers = List::new(alloc);
    numbers.push(number).or(Err("no memory"))?;
    Ok(numbers)
}

/// The status and the output of a run.
fn ran<R: Threads + Sync>(
    rt: &R,
    alloc: Global,
    word: &str,
    input: &[u8],
    setting: Setting,
) -> Result<(u8, Vec<u8>), Fail> {
    let words = [
        String::from_str(alloc, "vec_server")?,
        String::from_str(alloc, word)?,
    ];
    let bytes = Bytes::from_slice(alloc, input).or(Err("no memory"))?;
    let reads = only(alloc, setting.failing_read)?;
    let writes = only(alloc, setting.failing_write)?;
    let mut source = MemorySource::new(bytes, setting.piece.max(1), reads);
    let mut sink = MemorySink::new(alloc, setting.room, writes).or(Err("no memory"))?;
    let status = run(rt, alloc, words.as_slice(), &mut source, &mut sink);
    Ok((status, sink.bytes().to_vec(alloc)?))
}

/// Statements, each filled up to 64 bytes, and their replies.
const EXCHANGES: [(&str, &str); 6] = [
    ("CREATE VIRTUAL TABLE v USING vec0(a int8[2]);", "ok\n"),
    (
        " INSERT INTO v(rowid, a) VALUES (7, vec_int8('[1,2]'));",
        "ok inserted 1 last 7\n",
    ),
    (";SELECT rowid FROM v WHERE m = 'a;b'", ""),
    (" ; ", "error 8 no column at 2\n"),
    ("COMMIT;", "error 4 transaction state\n"),
    ("SELECT rowid, a FROM v", "7|vec_int8('[1,2]')\nrows 1\n"),
];

/// All statements, and the replies to the first of them.
fn exchanges(alloc: Global, count: usize) -> Result<(Vec<u8>, Vec<u8>), Fail> {
    let mut input = Vec::new(alloc);
    let mut replies = Vec::new(alloc);
    for (place, (statement, reply)) in EXCHANGES.iter().enumerate() {
        let filled = format!(in alloc; "{statement:64}")?;
        input.extend_from_slice(filled.as_bytes())?;
        if place < count {
            replies.extend_from_slice(reply.as_bytes())?;
        }
    }
    Ok((input, replies))
}

#[test]
fn replies_are_the_same_however_the_input_is_cut(rt: HostRuntime) -> Result<(), Fail> {
    let alloc = rt.alloc();
    let (input, replies) = exchanges(alloc, 6)?;
    for piece in [1, 2, 3, 5, 7, 64, 65_536usize] {
        let setting = Setting {
            piece,
            failing_read: 0,
            failing_write: 0,
            room: 4096,
        };
        let (status, out) = ran(&rt, alloc, "shell", input.as_slice(), setting)?;
        assert_eq!(rt; status, 2);
        assert_eq!(rt; out.as_slice(), replies.as_slice(), "{piece}");
    }
    Ok(())
}

#[test]
fn a_fault_leaves_the_replies_before_it(rt: HostRuntime) -> Result<(), Fail> {
    let alloc = rt.alloc();
    for (failing_read, failing_write, room, replied, more, wanted_status) in [
        (1, 0, 4096, 0, "", 3),
        (2, 0, 4096, 1, "", 3),
        (6, 0, 4096, 5, "", 3),
        (0, 1, 4096, 0, "", 4),
        (0, 3, 4096, 2, "", 4),
        (0, 5, 4096, 5, "", 4),
        (0, 0, 0, 0, "", 4),
        (0, 0, 5, 1, "ok", 4),
    ] {
        let (input, mut wanted) = exchanges(alloc, replied)?;
        wanted.extend_from_slice(more.as_bytes())?;
        let setting = Setting {
            piece: 64,
            failing_read,
            failing_write,
            room,
        };
        let (status, out) = ran(&rt, alloc, "shell", input.as_slice(), setting)?;
        assert_eq!(rt; status, wanted_status);
        assert_eq!(rt; out.as_slice(), wanted.as_slice());
    }
    Ok(())
}

#[test]
fn other_words_are_refused(rt: HostRuntime) -> Result<(), Fail> {
    let setting = Setting {
        piece: 1,
        failing_read: 0,
        failing_write: 0,
        room: 5,
    };
    let (status, out) = ran(&rt, rt.alloc(), "serve", b";", setting)?;
    assert_eq!(rt; status, 1);
    assert_eq!(rt; out.as_slice(), b"error".as_slice());
    Ok(())
}

/// A sink that takes nothing, and counts how often it is asked.
#[derive(Drop)]
struct Silent {
    asked: u64,
}

impl Sink for Silent {
    ghost use Rattle.std.specs.Prelude.{None};

    ghost taken = { λ s. None };

    ghost faults = { λ s. s.asked };

    fn write(&mut self, _bytes: &[u8]) -> WriteOutcome {
        self.asked = self.asked.saturating_add(1);
        WriteOutcome::Took(0)
    }
}

#[test]
fn nothing_is_asked_again_after_a_fault(rt: HostRuntime) -> Result<(), Fail> {
    let alloc = rt.alloc();
    let words = [
        String::from_str(alloc, "vec_server")?,
        String::from_str(alloc, "shell")?,
    ];
    let (input, _) = exchanges(alloc, 0)?;
    let bytes = Bytes::from_vec(input);
    let mut source = MemorySource::new(bytes, 64, only(alloc, 2)?);
    let mut sink = Silent { asked: 0 };
    assert_eq!(rt; run(&rt, alloc, &words, &mut source, &mut sink), 4);
    assert_eq!(rt; sink.asked, 1);
    let mut taken = MemorySink::new(alloc, 4096, List::new(alloc)).or(Err("no memory"))?;
    assert_eq!(rt; run(&rt, alloc, &words, &mut source, &mut taken), 3);
    let mut room = [0u8; 256];
    assert_eq!(rt; source.read(&mut room), ReadOutcome::Took(64));
    Ok(())
}
