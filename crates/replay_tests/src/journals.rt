//! Journals that the encoder wrote, whole, cut and with bytes changed.
ghost use Rattle.std.specs.Prelude.{IfOk};
ghost use Rattle.shadow_keeper.specs.Keeping.{AreShort};

use journal_disk::MemoryDisk;
use journal_format::{EMPTY_JOURNAL, put_batch};
use journal_replay::{Opened, open_journal};
use std::alloc::Global;
use std::test::Fail;
use vec_base::{Bytes, Change, List, Memory, ShadowKey};

/// How long the file on the disk may get.
const ROOM: usize = 1000;

/// The places of the gates of the journal with both batches.
const FIRST_GATE: usize = 16;

const SECOND_GATE: usize = 90;

const LAST_GATE: usize = 161;

/// What opening gave: the place of the gate, the number of the next batch and how many records there are, or where the journal is damaged.
#[derive(Clone, Copy, Debug, PartialEq, Eq)]
enum Gave {
    Tables(u64, u64, usize),
    Damaged(u64),
    Nothing,
}

fn opened(alloc: Global, bytes: &[u8]) -> Result<Gave, Memory> {
    if bytes.len() > ROOM {
        return Ok(Gave::Nothing);
    }
    let file = Bytes::from_slice(alloc, bytes)?;
    let mut disk = MemoryDisk::new(alloc, file, ROOM, List::new(alloc))?;
    Ok(match open_journal(alloc, &mut disk) {
        Opened::Ready(gate, number, tables) => Gave::Tables(gate, number, tables.len()),
        Opened::Damaged(place) => Gave::Damaged(place),
        Opened::Failed => Gave::Nothing,
        Opened::Memory => return Err(Memory),
    })
}

fn key(a: i64) -> ShadowKey {
    ShadowKey {
        table: 1,
        kind: 4,
        a,
        b: -1,
    }
}

/// A record of five bytes and one of six zeros.
fn first_batch(alloc: Global) -> Result<List<Change>, Memory>
    ensures { IfOk result (λ changes. AreShort changes) }
{
    let mut changes = List::new(alloc);
    changes.push(Change::Put(key(1), Bytes::from_slice(alloc, b"abcde")?))?;
    changes.push(Change::Fill(key(-2), 6))?;
    Ok(changes)
}

/// Two bytes written over the first record's, and the other record removed.
fn second_batch(alloc: Global) -> Result<List<Change>, Memory>
    ensures { IfOk result (λ changes. AreShort changes) }
{
    let mut changes = List::new(alloc);
    changes.push(Change::Patch(key(1), 3, Bytes::from_slice(alloc, b"XY")?))?;
    changes.push(Change::Remove(key(-2)))?;
    Ok(changes)
}

/// The header, both batches behind open gates, and a closed gate. The first batch gets this number.
fn journal(alloc: Global, number: u64) -> Result<Vec<u8>, Memory> {
    let mut file = Vec::from_slice(alloc, &EMPTY_JOURNAL[..16])?;
    file.push(1)?;
    put_batch(&mut file, number, first_batch(alloc)?.as_slice())?;
    let _ = file.pop();
    file.push(1)?;
    put_batch(&mut file, 2, second_batch(alloc)?.as_slice())?;
    Ok(file)
}

/// The journal with both batches, cut to a length.
fn cut(alloc: Global, len: usize) -> Result<Gave, Memory> {
    let mut file = journal(alloc, 1)?;
    file.truncate(len);
    opened(alloc, &file)
}

/// What the journal with both batches gives, cut to a length.
fn wanted(len: usize) -> Gave {
    if len <= FIRST_GATE + 1 {
        Gave::Tables(16, 1, 0)
    } else if len <= SECOND_GATE {
        Gave::Damaged(16)
    } else if len <= LAST_GATE {
        Gave::Damaged(90)
    } else {
        Gave::Tables(161, 3, 1)
    }
}

/// Whether each length gives what is wanted.
fn cuts_agree(alloc: Global) -> Result<bool, Memory> {
    for len in 0..163usize {
        if cut(alloc, len)? != wanted(len) {
            return Ok(false);
        }
    }
    Ok(true)
}

/// The journal with both batches and another byte at a place.
fn changed(alloc: Global, place: usize, byte: u8) -> Result<Gave, Memory> {
    let mut file = journal(alloc, 1)?;
    if let Some(there) = file.get_mut(place) {
        *there = byte;
    }
    opened(alloc, &file)
}

/// Whether each place from one on and before another gives this where its byte is 255.
fn all_give(alloc: Global, from: usize, to: usize, gave: Gave) -> Result<bool, Memory> {
    for place in from..to {
        if changed(alloc, place, 255)? != gave {
            return Ok(false);
        }
    }
    Ok(true)
}

/// An open gate with these eight bytes of length, and 100 zeros.
fn with_length(alloc: Global, len: [u8; 8]) -> Result<Gave, Memory> {
    let mut file = Vec::from_slice(alloc, &EMPTY_JOURNAL[..16])?;
    file.push(1)?;
    file.extend_from_slice(&len)?;
    file.extend_from_slice(&[0; 100])?;
    opened(alloc, &file)
}

/// A journal of any length gives its whole batches, or is damaged at the gate whose batch is cut.
#[test]
fn every_length(rt: HostRuntime) -> Result<(), Fail> {
    let alloc = rt.alloc();
    let agree = cuts_agree(alloc)?;
    assert!(rt; agree);
    Ok(())
}

/// The header, and the length, the number and the changes behind a gate: each byte counts.
#[test]
fn every_byte(rt: HostRuntime) -> Result<(), Fail> {
    let alloc = rt.alloc();
    let header = all_give(alloc, 0, 16, Gave::Damaged(0))?;
    assert!(rt; header);
    let first = all_give(alloc, 17, 34, Gave::Damaged(16))?;
    assert!(rt; first);
    let second = all_give(alloc, 91, 108, Gave::Damaged(90))?;
    assert!(rt; second);
    Ok(())
}

/// A gate with any value but 1 is closed, and what is behind it means nothing.
#[test]
fn closed_gates(rt: HostRuntime) -> Result<(), Fail> {
    let alloc = rt.alloc();
    let first = changed(alloc, FIRST_GATE, 255)?;
    assert_eq!(rt; first, Gave::Tables(16, 1, 0));
    let second = changed(alloc, SECOND_GATE, 2)?;
    assert_eq!(rt; second, Gave::Tables(90, 2, 2));
    let last = changed(alloc, LAST_GATE, 255)?;
    assert_eq!(rt; last, Gave::Tables(161, 3, 1));
    Ok(())
}

/// A gate that is open with nothing behind it, a batch with another number, and a patch past its body.
#[test]
fn damaged_places(rt: HostRuntime) -> Result<(), Fail> {
    let alloc = rt.alloc();
    let last = changed(alloc, LAST_GATE, 1)?;
    assert_eq!(rt; last, Gave::Damaged(161));
    let file = journal(alloc, 2)?;
    let number = opened(alloc, &file)?;
    assert_eq!(rt; number, Gave::Damaged(16));
    let past = changed(alloc, 129, 4)?;
    assert_eq!(rt; past, Gave::Damaged(90));
    Ok(())
}

/// Lengths near the greatest number reach past the end of the file.
#[test]
fn great_lengths(rt: HostRuntime) -> Result<(), Fail> {
    let alloc = rt.alloc();
    for least in 240..=255u8 {
        let gave = with_length(alloc, [least, 255, 255, 255, 255, 255, 255, 255]).or(Err(
            "no memory",
        ))?;
        assert_eq!(rt; gave, Gave::Damaged(16));
    }
    Ok(())
}
