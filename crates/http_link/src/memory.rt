//! A link over connections in memory.
ghost use Rattle.std.specs.Prelude.{◌≡◌, ◌≤◌, ◌<◌, ◌⊎◌, [], ◌∷◌, ◌++◌, ◌||◌, length, if◌then◌else◌, true, false, IfOk, Some};
ghost use Rattle.vec_base.specs.declared.source.ReadOutcome.TheVariants.{Failed as ReadFailed};
ghost use Rattle.vec_base.specs.declared.sink.WriteOutcome.{WriteOutcome};
ghost use Rattle.vec_base.specs.Counts.{raised};
ghost use Rattle.vec_base.specs.Forms.{next_call, is_listed};
ghost use Rattle.vec_base.specs.Streams.{Rose, ReadsFrom, WroteCause};
ghost use Rattle.http_link.specs.declared.link.Next.TheVariants.{Failed};
ghost use Rattle.http_link.specs.Links.{left_on, coming_on, sent_on, risen_on, has_risen, is_conn, on_last, FitsRoom, NextComes, sent_next, risen_next, SendsTo, risen_by};

use crate::{Link, Next};
use std::alloc::Global;
use std::collections::VecDeque;
use std::mem;
use vec_base::{Bytes, List, Memory, ReadOutcome, WriteOutcome};

/// Which calls fail, by their numbers from 1, and how many calls there were and how many of them failed.
#[derive(Debug, Drop)]
struct Faults {
    fails: List<u64>,
    calls: u64,
    count: u64,
}

impl Faults {
    /// Counts a failure.
    fn raise(&mut self)
        ensures rose { Rose self.old.count self.new.count }
        ensures later { self.old.count ≤ self.new.count }
        ensures fails { self.new.fails ≡ self.old.fails }
        ensures calls { self.new.calls ≡ self.old.calls }
    {
        self.count = self.count.saturating_add(1);
    }

    /// Counts a call, and answers whether it is to fail.
    fn next(&mut self) -> bool
        ensures listed { result ≡ is_listed self.old.fails (next_call self.old.calls) }
        ensures count { self.new.count ≡ self.old.count }
        ensures fails { self.new.fails ≡ self.old.fails }
        ensures calls { self.new.calls ≡ next_call self.old.calls }
    {
        self.calls = self.calls.saturating_add(1);
        self.fails.as_slice().contains(&self.calls)
    }
}

/// Whether a count of faults has risen, or stands at the last number.
fn has_risen(before: u64, now: u64) -> bool
    ensures { result ≡ has_risen before now }
{
    before.saturating_add(1) <= now
}

/// Puts bytes behind others, or changes nothing where there is no memory.
fn extend(bytes: &mut Bytes, more: &[u8]) -> bool
    ensures { bytes.new ≡ (if result then bytes.old ++ more.now else bytes.old) }
{
    match bytes.extend(more) {
        Ok(()) => true,
        Err(_) => false,
    }
}

/// Puts bytes behind those of the last list, or changes nothing where there is no memory or no list.
fn extend_last(alloc: Global, lists: &mut List<Bytes>, more: &[u8]) -> bool
    ensures { lists.new ≡ (if result then on_last (λ before. before ++ more.now) lists.old else lists.old) }
{
    let mut items = mem::replace(lists, List::new(alloc)).into_vec();
    let count = items.len();
    if count == 0 {
        return false;
    }
    let extended = extend(&mut items[count - 1], more);
    *lists = List::from_vec(items);
    extended
}

/// Says of the last connection that the count rose, where it did.
fn mark_last(risen: &mut List<bool>, rose: bool)
    ensures { risen.new ≡ on_last (λ before. before || rose) risen.old }
{
    let count = risen.len();
    if rose && count > 0 {
        risen.set(count - 1, true);
    }
}

/// Adds a connection with nothing sent and no rise, or nothing where there is no memory.
fn add_connection(sent: &mut List<Bytes>, risen: &mut List<bool>, empty: Bytes) -> bool
    requires { empty ≡ [] }
    ensures sent { sent.new ≡ (if result then sent.old ++ [] ∷ [] else sent.old) }
    ensures risen { risen.new ≡ (if result then risen.old ++ false ∷ [] else risen.old) }
{
    if risen.push(false).is_err() {
        return false;
    }
    if sent.push(empty).is_ok() {
        return true;
    }
    let last = risen.len() - 1;
    risen.remove(last);
    false
}

/// That many lists without bytes, each with room for that many.
fn with_rooms(alloc: Global, count: usize, room: usize) -> Result<Vec<Bytes>, Memory> {
    let mut rooms = Vec::with_capacity(alloc, count)?;
    for _ in 0..count {
        rooms.push(Bytes::from_vec(Vec::with_capacity(alloc, room)?))?;
    }
    Ok(rooms)
}

/// A link over connections in memory. The calls that are listed, counted from 1 over all methods, fail, and a write where no
/// byte fits. It takes all its memory when it is made.
#[derive(Drop)]
pub struct MemoryLink {
    alloc: Global,
    here: bool,
    bytes: Bytes,
    at: usize,
    coming: VecDeque<Bytes>,
    piece: usize,
    room: usize,
    taken: usize,
    rooms: Vec<Bytes>,
    sent: List<Bytes>,
    risen: List<bool>,
    faults: Faults,
    ghost within: { at ≤ length bytes },
    ghost some: { 0 < piece },
    ghost most: { taken ≤ room },
}

impl MemoryLink {
    ghost use Rattle.http_link.specs.Forms.{link_here, link_coming, link_sent, link_risen, link_faults, link_piece, link_room, link_fails, link_calls, link_taken, link_left, told_of, next_of, read_of, write_of, taken_more};

    /// A link over connections of these bytes. A read gives at most `piece` bytes, and each connection takes at most `room`
    /// bytes. The calls of these numbers, counted from 1, fail.
    pub fn new(
        alloc: Global,
        connections: List<Bytes>,
        piece: usize,
        room: usize,
        fails: List<u64>,
    ) -> Result<MemoryLink, Memory>
        requires { 0 < piece }
        ensures here { IfOk result (λ link. link_here link ≡ false) }
        ensures coming { IfOk result (λ link. link_coming link ≡ connections) }
        ensures sent { IfOk result (λ link. link_sent link ≡ []) }
        ensures risen { IfOk result (λ link. link_risen link ≡ []) }
        ensures faults { IfOk result (λ link. link_faults link ≡ 0) }
        ensures piece { IfOk result (λ link. link_piece link ≡ piece) }
        ensures room { IfOk result (λ link. link_room link ≡ room) }
        ensures fails { IfOk result (λ link. link_fails link ≡ fails) }
        ensures calls { IfOk result (λ link. link_calls link ≡ 0) }
    {
        let count = connections.len();
        let rooms = with_rooms(alloc, count, room)?;
        let sent = List::from_vec(Vec::with_capacity(alloc, count)?);
        let risen = List::from_vec(Vec::with_capacity(alloc, count)?);
        Ok(MemoryLink {
            alloc,
            here: false,
            bytes: Bytes::new(alloc),
            at: 0,
            coming: VecDeque::from_vec(connections.into_vec()),
            piece,
            room,
            taken: 0,
            rooms,
            sent,
            risen,
            faults: Faults {
                fails,
                calls: 0,
                count: 0,
            },
        })
    }

    /// The bytes sent on each connection that came.
    pub fn sent(&self) -> &List<Bytes>
        ensures { result.now ≡ link_sent self.now }
    {
        &self.sent
    }

    /// Ends the present connection and takes the next. It answers `next_of`, or fails where there is no memory.
    pub fn take_next(&mut self) -> Next
        ensures gives { (result ≡ next_of self.old) ⊎ (result ≡ Failed) }
        ensures here { link_here self.new ≡ is_conn result }
        ensures comes { NextComes (Some (told_of self.old)) result (Some (told_of self.new)) }
        ensures sent { Some (link_sent self.new) ≡ sent_next result (Some (link_sent self.old)) }
        ensures risen { Some (link_risen self.new) ≡ risen_next result (Some (link_risen self.old)) }
        ensures taken { link_taken self.new ≡ (if is_conn result then 0 else link_taken self.old) }
        ensures piece { link_piece self.new ≡ link_piece self.old }
        ensures room { link_room self.new ≡ link_room self.old }
        ensures fails { link_fails self.new ≡ link_fails self.old }
        ensures calls { link_calls self.new ≡ next_call (link_calls self.old) }
        ensures later { link_faults self.old ≤ link_faults self.new }
        ensures failed { result ≡ Failed → Rose (link_faults self.old) (link_faults self.new) }
    {
        self.here = false;
        if self.faults.next() {
            self.faults.raise();
            return Next::Failed;
        }
        if self.coming.is_empty() {
            return Next::End;
        }
        let mut empty = self.rooms.pop().unwrap_or(Bytes::new(self.alloc));
        empty.clear();
        if !add_connection(&mut self.sent, &mut self.risen, empty) {
            self.faults.raise();
            return Next::Failed;
        }
        let Some(bytes) = self.coming.pop_front() else {
            return Next::End;
        };
        self.here = true;
        self.bytes = bytes;
        self.at = 0;
        self.taken = 0;
        Next::Conn
    }

    /// Gives the next bytes of the connection.
    fn give(&mut self, room: &mut [u8]) -> ReadOutcome
        requires { 0 < length room.old }
        ensures gives { result ≡ read_of self.old (length room.old) }
        ensures here { link_here self.new ≡ link_here self.old }
        ensures count { FitsRoom (length room.old) result }
        ensures bytes { ReadsFrom (Some (link_left self.old)) result room.new (Some (link_left self.new)) }
        ensures coming { link_coming self.new ≡ link_coming self.old }
        ensures sent { link_sent self.new ≡ link_sent self.old }
        ensures risen { link_risen self.new ≡ link_risen self.old }
        ensures taken { link_taken self.new ≡ link_taken self.old }
        ensures piece { link_piece self.new ≡ link_piece self.old }
        ensures room { link_room self.new ≡ link_room self.old }
        ensures fails { link_fails self.new ≡ link_fails self.old }
        ensures calls { link_calls self.new ≡ next_call (link_calls self.old) }
        ensures later { link_faults self.old ≤ link_faults self.new }
        ensures failed { result ≡ ReadFailed → Rose (link_faults self.old) (link_faults self.new) }
    {
        if self.faults.next() {
            self.faults.raise();
            return ReadOutcome::Failed;
        }
        let left = self.bytes.len() - self.at;
        if left == 0 {
            return ReadOutcome::End;
        }
        let count = left.min(self.piece).min(room.len());
        let from = self.at;
        room[..count].copy_from_slice(&self.bytes.as_slice()[from..from + count]);
        self.at += count;
        ReadOutcome::Took(count)
    }

    /// The next read on the connection, which answers exactly `read_of`.
    pub fn read_next(&mut self, room: &mut [u8]) -> ReadOutcome
        requires { 0 < length room.old }
        ensures gives { result ≡ read_of self.old (length room.old) }
        ensures here { link_here self.new ≡ link_here self.old }
        ensures count { FitsRoom (length room.old) result }
        ensures bytes { ReadsFrom (Some (link_left self.old)) result room.new (Some (link_left self.new)) }
        ensures coming { link_coming self.new ≡ link_coming self.old }
        ensures sent { link_sent self.new ≡ link_sent self.old }
        ensures risen { Some (link_risen self.new) ≡ risen_by (has_risen (link_faults self.old) (link_faults self.new)) (Some (link_risen self.old)) }
        ensures taken { link_taken self.new ≡ link_taken self.old }
        ensures piece { link_piece self.new ≡ link_piece self.old }
        ensures room { link_room self.new ≡ link_room self.old }
        ensures fails { link_fails self.new ≡ link_fails self.old }
        ensures calls { link_calls self.new ≡ next_call (link_calls self.old) }
        ensures later { link_faults self.old ≤ link_faults self.new }
        ensures failed { result ≡ ReadFailed → Rose (link_faults self.old) (link_faults self.new) }
    {
        let before = self.faults.count;
        let answer = self.give(room);
        mark_last(&mut self.risen, has_risen(before, self.faults.count));
        answer
    }

    /// Takes the next bytes for the connection.
    fn take(&mut self, bytes: &[u8]) -> WriteOutcome
        requires { 0 < length bytes.now }
        ensures gives { (result ≡ write_of self.old (length bytes.now)) ⊎ (result ≡ WriteOutcome.Failed) }
        ensures here { link_here self.new ≡ link_here self.old }
        ensures sent { SendsTo (Some (link_sent self.old)) bytes.now result (Some (link_sent self.new)) }
        ensures left { link_left self.new ≡ link_left self.old }
        ensures coming { link_coming self.new ≡ link_coming self.old }
        ensures risen { link_risen self.new ≡ link_risen self.old }
        ensures taken { link_taken self.new ≡ taken_more result (link_taken self.old) }
        ensures piece { link_piece self.new ≡ link_piece self.old }
        ensures room { link_room self.new ≡ link_room self.old }
        ensures fails { link_fails self.new ≡ link_fails self.old }
        ensures calls { link_calls self.new ≡ next_call (link_calls self.old) }
        ensures later { link_faults self.old ≤ link_faults self.new }
        ensures cause { WroteCause result (link_faults self.old) (link_faults self.new) }
    {
        if self.faults.next() {
            self.faults.raise();
            return WriteOutcome::Failed;
        }
        let count = bytes.len().min(self.room - self.taken);
        if count == 0 || !extend_last(self.alloc, &mut self.sent, &bytes[..count]) {
            self.faults.raise();
            return WriteOutcome::Failed;
        }
        self.taken += count;
        WriteOutcome::Took(count)
    }

    /// The next write on the connection. It answers `write_of`, or fails where there is no memory.
    pub fn write_next(&mut self, bytes: &[u8]) -> WriteOutcome
        requires { 0 < length bytes.now }
        ensures gives { (result ≡ write_of self.old (length bytes.now)) ⊎ (result ≡ WriteOutcome.Failed) }
        ensures here { link_here self.new ≡ link_here self.old }
        ensures sent { SendsTo (Some (link_sent self.old)) bytes.now result (Some (link_sent self.new)) }
        ensures left { link_left self.new ≡ link_left self.old }
        ensures coming { link_coming self.new ≡ link_coming self.old }
        ensures risen { Some (link_risen self.new) ≡ risen_by (has_risen (link_faults self.old) (link_faults self.new)) (Some (link_risen self.old)) }
        ensures taken { link_taken self.new ≡ taken_more result (link_taken self.old) }
        ensures piece { link_piece self.new ≡ link_piece self.old }
        ensures room { link_room self.new ≡ link_room self.old }
        ensures fails { link_fails self.new ≡ link_fails self.old }
        ensures calls { link_calls self.new ≡ next_call (link_calls self.old) }
        ensures later { link_faults self.old ≤ link_faults self.new }
        ensures cause { WroteCause result (link_faults self.old) (link_faults self.new) }
    {
        let before = self.faults.count;
        let answer = self.take(bytes);
        mark_last(&mut self.risen, has_risen(before, self.faults.count));
        answer
    }
}

impl Link for MemoryLink {
    ghost use Rattle.http_link.specs.Forms.{link_here, link_faults, told_of};

    ghost here = { link_here };

    ghost told = { λ link. Some (told_of link) };

    ghost faults = { link_faults };

    fn next(&mut self) -> Next {
        self.take_next()
    }

    fn read(&mut self, room: &mut [u8]) -> ReadOutcome {
        self.read_next(room)
    }

    fn write(&mut self, bytes: &[u8]) -> WriteOutcome {
        self.write_next(bytes)
    }
}
