//! The link in memory, over the calls of a link.
ghost use Rattle.std.specs.Prelude.{◌≡◌, ◌<◌, true, length};

use http_link::{Link, MemoryLink, Next};
use std::alloc::Global;
use std::test::Fail;
use vec_base::{Bytes, List, ReadOutcome, WriteOutcome};

/// A link over the connections `abc` and `d`, of which the calls of these numbers fail.
fn two_connections(alloc: Global, fails: &[u64]) -> Result<MemoryLink, Fail> {
    let mut connections = List::new(alloc);
    for bytes in [b"abc".as_slice(), b"d".as_slice()] {
        let copied = Bytes::from_slice(alloc, bytes).or(Err("no memory"))?;
        connections.push(copied).or(Err("no memory"))?;
    }
    let fails = Vec::from_slice(alloc, fails).or(Err("no memory"))?;
    Ok(MemoryLink::new(alloc, connections, 2, 3, List::from_vec(fails)).or(Err("no memory"))?)
}

/// Takes the next connection, if there is one, and reads and writes on it.
fn one_round<L: Link>(link: &mut L, room: &mut [u8]) -> (Next, ReadOutcome, WriteOutcome)
    requires { 0 < length room.old }
{
    let next = link.next();
    if next != Next::Conn {
        return (next, ReadOutcome::End, WriteOutcome::Failed);
    }
    let read = link.read(room);
    (next, read, link.write(b"xy"))
}

#[test]
fn connections_come_one_after_another(rt: HostRuntime) -> Result<(), Fail> {
    let mut link = two_connections(rt.alloc(), &[])?;
    let mut room = [0u8; 4];
    let first = one_round(&mut link, &mut room);
    assert_eq!(rt;
        first,
        (Next::Conn, ReadOutcome::Took(2), WriteOutcome::Took(2))
    );
    assert_eq!(rt; room[1], b'b');
    let second = one_round(&mut link, &mut room);
    assert_eq!(rt;
        second,
        (Next::Conn, ReadOutcome::Took(1), WriteOutcome::Took(2))
    );
    assert_eq!(rt; room[0], b'd');
    assert_eq!(rt; link.next(), Next::End);
    assert_eq!(rt; link.sent().len(), 2);
    Ok(())
}

#[test]
fn listed_calls_fail(rt: HostRuntime) -> Result<(), Fail> {
    let mut link = two_connections(rt.alloc(), &[1, 3, 4])?;
    let mut room = [0u8; 4];
    assert_eq!(rt; link.next(), Next::Failed);
    let first = one_round(&mut link, &mut room);
    assert_eq!(rt;
        first,
        (Next::Conn, ReadOutcome::Failed, WriteOutcome::Failed)
    );
    let second = one_round(&mut link, &mut room);
    assert_eq!(rt;
        second,
        (Next::Conn, ReadOutcome::Took(1), WriteOutcome::Took(2))
    );
    Ok(())
}

/// Takes the next connection and writes twice on it.
fn two_writes<L: Link>(link: &mut L) -> [WriteOutcome; 2] {
    if link.next() != Next::Conn {
        return [WriteOutcome::Failed; 2];
    }
    [link.write(b"xy"), link.write(b"zw")]
}

#[test]
fn a_connection_takes_what_fits(rt: HostRuntime) -> Result<(), Fail> {
    let mut link = two_connections(rt.alloc(), &[])?;
    assert_eq!(rt;
        two_writes(&mut link),
        [WriteOutcome::Took(2), WriteOutcome::Took(1)]
    );
    let Some(sent) = link.sent().get(0) else {
        return Err(Fail::from("nothing was sent"));
    };
    assert_eq!(rt; sent.as_slice(), b"xyz".as_slice());
    Ok(())
}
