//! A disk in memory. It keeps what it was asked to do, so that clauses can say what a stop may leave.
ghost use Rattle.std.specs.Prelude.{if◌then◌else◌, ◌^◌, ◌≡◌, ◌≤◌, ◌<◌, ◌+◌, ◌++◌, ◌∷◌, [], true, Some, None, IsTrue, MatchBool, length, IfOk, vec_capacity};
ghost use Rattle.vec_base.specs.Streams.{Rose};
ghost use Rattle.journal_disk.specs.declared.memory.Event.TheVariants.{Write, Sync};
ghost use Rattle.journal_disk.specs.History.{put, replayed, events_of, Images, Since, since_now, only_since};
ghost use Rattle.journal_disk.specs.HistoryLaws.{now_images, only_kept};

use crate::{Disk, Length, MOST_DISK_BYTES, Synced};
use std::alloc::Global;
use vec_base::{Bytes, List, Memory, ReadOutcome, WriteOutcome};

/// What a disk was asked to do: a write of so many bytes at a place, or a sync.
#[derive(Clone, Copy, Debug, PartialEq, Eq)]
pub(crate) enum Event {
    Write(usize, usize),
    Sync,
}

/// Which calls fail, by their numbers from 1, how many calls there were, and how many of them failed.
#[derive(Debug, Drop)]
struct Faults {
    fails: List<u64>,
    stop: Option<u64>,
    calls: u64,
    count: u64,
}

impl Faults {
    /// Counts a call, and answers whether it is to fail.
    fn next(&mut self) -> bool
        ensures count { self.new.count ≡ self.old.count }
    {
        self.calls = self.calls.saturating_add(1);
        let call = self.calls;
        self.fails.as_slice().contains(&call) || self.stop.is_some_and(|stop| stop <= call)
    }

    /// Counts a failure.
    fn raise(&mut self)
        ensures rose { Rose self.old.count self.new.count }
        ensures later { self.old.count ≤ self.new.count }
    {
        self.count = self.count.saturating_add(1);
    }

    /// Whether the call that is counted last is the first of all those that fail.
    fn stops_here(&self) -> bool {
        let call = self.calls;
        self.stop.is_some_and(|stop| stop == call)
    }
}

/// Writes a piece at a place and records it, or changes nothing where the room is passed.
fn write_to(
    bytes: &mut Vec<u8>,
    events: &mut Vec<Event>,
    log: &mut Vec<u8>,
    room: usize,
    at: usize,
    piece: &[u8],
) -> bool
    requires start { at ≤ length bytes.old.items }
    requires bytes { room ≤ vec_capacity bytes.old }
    requires events { room ≤ vec_capacity events.old }
    requires log { room ≤ vec_capacity log.old }
    ensures bytes { bytes.new.items ≡ (if result then put bytes.old.items at piece.now else bytes.old.items) }
    ensures events { events.new.items ≡ (if result then events.old.items ++ Write at (length piece.now) ∷ [] else events.old.items) }
    ensures log { log.new.items ≡ (if result then log.old.items ++ piece.now else log.old.items) }
    ensures within { IsTrue result → at + length piece.now ≤ 2 ^ 40 }
    ensures bytes_room { room ≤ vec_capacity bytes.new }
    ensures events_room { room ≤ vec_capacity events.new }
    ensures log_room { room ≤ vec_capacity log.new }
{
    let end = at + piece.len();
    if end as u64 > MOST_DISK_BYTES
        || end > room
        || events.len() >= room
        || log.len() + piece.len() > room
    {
        return false;
    }
    if end > bytes.len() && bytes.resize(end, 0).is_err() {
        unreachable!();
    }
    bytes[at..end].copy_from_slice(piece);
    if events.push(Event::Write(at, piece.len())).is_err() {
        unreachable!();
    }
    if log.extend_from_slice(piece).is_err() {
        unreachable!();
    }
    true
}

/// Records a sync, or changes nothing where the room is passed.
fn note_sync(events: &mut Vec<Event>, room: usize) -> bool
    requires { room ≤ vec_capacity events.old }
    ensures events { events.new.items ≡ (if result then events.old.items ++ Sync ∷ [] else events.old.items) }
    ensures events_room { room ≤ vec_capacity events.new }
{
    if events.len() >= room {
        return false;
    }
    if events.push(Event::Sync).is_err() {
        unreachable!();
    }
    true
}

/// A disk in memory. It takes all its memory when it is made: it has room for a file of `room` bytes, and for a record of `room` writes and syncs,
/// which write `room` bytes in all. A write or a sync that would pass this room fails and changes nothing, and so do the calls that are listed,
/// counted from 1 over all methods.
#[derive(Drop)]
pub struct MemoryDisk {
    base: Bytes,
    bytes: Vec<u8>,
    events: Vec<Event>,
    log: Vec<u8>,
    room: usize,
    faults: Faults,
    ghost same: { bytes.items ≡ replayed base (events_of events.items) log.items },
    ghost bytes_room: { room ≤ vec_capacity bytes },
    ghost events_room: { room ≤ vec_capacity events },
    ghost log_room: { room ≤ vec_capacity log },
}

impl MemoryDisk {
    ghost use Rattle.journal_disk.specs.Forms.{disk_bytes, disk_faults, disk_fails, disk_calls, disk_stop, disk_room, is_quiet};

    /// A disk that holds these bytes, of which none waits for a sync. The calls of these numbers, counted from 1, fail.
    pub fn new(
        alloc: Global,
        bytes: Bytes,
        room: usize,
        fails: List<u64>,
    ) -> Result<MemoryDisk, Memory>
        requires { length bytes ≤ room }
        ensures bytes { IfOk result (λ disk. disk_bytes disk ≡ bytes) }
        ensures quiet { IfOk result (λ disk. is_quiet disk) }
        ensures faults { IfOk result (λ disk. disk_faults disk ≡ 0) }
        ensures room { IfOk result (λ disk. disk_room disk ≡ room) }
        ensures fails { IfOk result (λ disk. disk_fails disk ≡ fails) }
        ensures calls { IfOk result (λ disk. disk_calls disk ≡ 0) }
        ensures stop { IfOk result (λ disk. disk_stop disk ≡ None) }
    {
        let mut now = Vec::with_capacity(alloc, room)?;
        now.extend_from_slice(bytes.as_slice())?;
        let events = Vec::with_capacity(alloc, room)?;
        let log = Vec::with_capacity(alloc, room)?;
        Ok(MemoryDisk {
            base: bytes,
            bytes: now,
            events,
            log,
            room,
            faults: Faults {
                fails,
                stop: None,
                calls: 0,
                count: 0,
            },
        })
    }

    /// The same disk, on which the machine stops in the call of this number, counted from 1: it fails and every call after it. Where it is a write
    /// that there is room for, the first half of its bytes, rounded down, is written.
    pub fn stopped_in(self, call: u64) -> MemoryDisk
        ensures bytes { disk_bytes result ≡ disk_bytes self }
        ensures faults { disk_faults result ≡ disk_faults self }
        ensures room { disk_room result ≡ disk_room self }
        ensures fails { disk_fails result ≡ disk_fails self }
        ensures calls { disk_calls result ≡ disk_calls self }
        ensures stop { disk_stop result ≡ Some call }
    {
        let mut disk = self;
        disk.faults.stop = Some(call);
        disk
    }

    /// What a read gives.
    pub fn bytes(&self) -> &[u8]
        ensures { result.now ≡ disk_bytes self.now }
    {
        &self.bytes
    }

    /// Whether there is room for a write of so many bytes up to this end.
    fn has_room(&self, at: usize, count: usize) -> bool {
        let end = at.saturating_add(count);
        end as u64 <= MOST_DISK_BYTES
            && end <= self.room
            && self.events.len() < self.room
            && self.log.len().saturating_add(count) <= self.room
    }
}

impl Disk for MemoryDisk {
    ghost use Rattle.journal_disk.specs.Forms.{disk_bytes, disk_faults, disk_leaves, disk_left, disk_moment};

    ghost tells = { λ _. true };

    ghost reads = { disk_bytes };

    ghost may_leave = { disk_leaves };

    ghost moment = { disk_moment };

    ghost left_since = { disk_left };

    ghost faults = { disk_faults };

    ghost counts_now = { λ d t c le now. since_now t d.base (events_of d.events.items) d.log.items c now };

    ghost only_now = { λ d c left. only_kept d.base d.events.items d.log.items c left };

    ghost reads_now = { λ d _. now_images d.base d.bytes.items (events_of d.events.items) d.log.items d.same };

    fn length(&mut self) -> Length {
        if self.faults.next() || self.bytes.len() as u64 > MOST_DISK_BYTES {
            self.faults.raise();
            return Length::Failed;
        }
        Length::Is(self.bytes.len() as u64)
    }

    fn read(&mut self, at: u64, room: &mut [u8]) -> ReadOutcome {
        if self.faults.next() {
            self.faults.raise();
            return ReadOutcome::Failed;
        }
        if at >= self.bytes.len() as u64 {
            return ReadOutcome::End;
        }
        let start = at as usize;
        let count = room.len().min(self.bytes.len() - start);
        room[..count].copy_from_slice(&self.bytes[start..start + count]);
        ReadOutcome::Took(count)
    }

    fn write_at(&mut self, at: u64, bytes: &[u8]) -> WriteOutcome {
        if self.faults.next() {
            self.faults.raise();
            if self.faults.stops_here() && self.has_room(at as usize, bytes.len()) {
                let half = &bytes[..bytes.len() / 2];
                let _ = write_to(
                    &mut self.bytes,
                    &mut self.events,
                    &mut self.log,
                    self.room,
                    at as usize,
                    half,
                );
            }
            return WriteOutcome::Failed;
        }
        if !write_to(
            &mut self.bytes,
            &mut self.events,
            &mut self.log,
            self.room,
            at as usize,
            bytes,
        ) {
            self.faults.raise();
            return WriteOutcome::Failed;
        }
        WriteOutcome::Took(bytes.len())
    }

    fn sync(&mut self) -> Synced {
        if self.faults.next() || !note_sync(&mut self.events, self.room) {
            self.faults.raise();
            return Synced::Failed;
        }
        Synced::Done
    }
}
