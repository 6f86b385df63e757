//! Reading the body of a request.
ghost use Rattle.std.specs.Prelude.{◌≡◌, ◌≤◌, ◌<◌, ◌+◌, true, length, take, slice_range, Err, IfOk, OnOk};
ghost use Rattle.http_link.specs.Links.{left_on, coming_on, sent_on, risen_on, risen_by, has_risen, RisenSince};
ghost use Rattle.vec_base.specs.Streams.{Loses, NoneLeft};
ghost use Rattle.http_exchanges.specs.inner.Behind.{joined, AreFewer, IfBodyTold, FailedBy};

use http_link::Link;
use std::alloc::{AllocError, Global};
use vec_base::{Bytes, Memory, ReadOutcome};

/// Why a body was not read: the connection ended before its end, a read failed, or memory was wanted.
#[derive(Clone, Copy, Debug, PartialEq, Eq)]
pub(crate) enum Unread {
    Short,
    Lost,
    Memory,
}

impl From<Memory> for Unread {
    ghost use Rattle.http_exchanges.specs.declared.body.Unread.TheVariants.{Memory as WantOfMemory};

    ghost from_gives = { λ _ e. e ≡ WantOfMemory };

    fn from(_: Memory) -> Self {
        Unread::Memory
    }
}

impl From<AllocError> for Unread {
    ghost use Rattle.http_exchanges.specs.declared.body.Unread.TheVariants.{Memory as WantOfMemory};

    ghost from_gives = { λ _ e. e ≡ WantOfMemory };

    fn from(_: AllocError) -> Self {
        Unread::Memory
    }
}

/// Reads once, at most so many bytes, and puts what came behind the body.
fn read_more<L: Link>(
    link: &mut L,
    room: &mut [u8],
    body: &mut Bytes,
    most: usize,
) -> Result<(), Unread>
    requires connection { L.here link.old ≡ true }
    requires room { 0 < length room.old }
    requires some { 0 < most }
    ensures here { L.here link.new ≡ true }
    ensures grown { OnOk result ((length body.old < length body.new) × (length body.new ≤ length body.old + most)) }
    ensures read { OnOk result (Loses (joined body.old (left_on (L.told link.old))) body.new (left_on (L.told link.new))) }
    ensures short { result ≡ Err Unread.Short → NoneLeft (left_on (L.told link.old)) }
    ensures coming { coming_on (L.told link.new) ≡ coming_on (L.told link.old) }
    ensures sent { sent_on (L.told link.new) ≡ sent_on (L.told link.old) }
    ensures risen { risen_on (L.told link.new) ≡ risen_by (has_risen (L.faults link.old) (L.faults link.new)) (risen_on (L.told link.old)) }
    ensures later { L.faults link.old ≤ L.faults link.new }
    ensures failed { FailedBy (L.faults link.old) result (L.faults link.new) }
{
    let asked = room.len().min(most);
    match link.read(&mut room[..asked]) {
        ReadOutcome::Took(count) => {
            body.extend(&room[..count])?;
            Ok(())
        }
        ReadOutcome::End => Err(Unread::Short),
        ReadOutcome::Failed => Err(Unread::Lost),
    }
}

/// Reads the rest of a body, which is to have so many bytes in all.
fn read_rest<L: Link>(
    link: &mut L,
    room: &mut [u8],
    body: &mut Bytes,
    size: usize,
) -> Result<(), Unread>
    requires connection { L.here link.old ≡ true }
    requires room { 0 < length room.old }
    requires begun { length body.old ≤ size }
    ensures here { L.here link.new ≡ true }
    ensures whole { OnOk result (length body.new ≡ size) }
    ensures read { OnOk result (Loses (joined body.old (left_on (L.told link.old))) body.new (left_on (L.told link.new))) }
    ensures short { result ≡ Err Unread.Short → AreFewer (joined body.old (left_on (L.told link.old))) size }
    ensures coming { coming_on (L.told link.new) ≡ coming_on (L.told link.old) }
    ensures sent { sent_on (L.told link.new) ≡ sent_on (L.told link.old) }
    ensures risen { RisenSince (risen_on (L.told link.old)) (L.faults link.old) (risen_on (L.told link.new)) (L.faults link.new) }
    ensures later { L.faults link.old ≤ L.faults link.new }
    ensures failed { FailedBy (L.faults link.old) result (L.faults link.new) }
{
    while body.len() < size {
        let most = size - body.len();
        read_more(link, room, body, most)?;
    }
    Ok(())
}

/// The first bytes behind a head, at most so many, with room for so many in all.
fn begun_body(alloc: Global, behind: &[u8], size: usize) -> Result<Bytes, Memory>
    ensures { IfOk result (λ body. body ≡ take size behind.now) }
{
    let mut body = Bytes::from_vec(Vec::with_capacity(alloc, size)?);
    body.extend(behind.get(..size).unwrap_or(behind))?;
    Ok(body)
}

/// The body of this many bytes: the bytes of the buffer from `from` to `filled`, and then those of the connection.
pub(crate) fn read_body<L: Link>(
    alloc: Global,
    link: &mut L,
    buffer: &mut [u8],
    from: usize,
    filled: usize,
    size: usize,
) -> Result<Bytes, Unread>
    requires connection { L.here link.old ≡ true }
    requires room { 0 < length buffer.old }
    requires ordered { from ≤ filled }
    requires within { filled ≤ length buffer.old }
    ensures here { L.here link.new ≡ true }
    ensures exact { IfBodyTold (joined (slice_range buffer.old from filled) (left_on (L.told link.old))) size result }
    ensures coming { coming_on (L.told link.new) ≡ coming_on (L.told link.old) }
    ensures sent { sent_on (L.told link.new) ≡ sent_on (L.told link.old) }
    ensures risen { RisenSince (risen_on (L.told link.old)) (L.faults link.old) (risen_on (L.told link.new)) (L.faults link.new) }
    ensures later { L.faults link.old ≤ L.faults link.new }
    ensures failed { FailedBy (L.faults link.old) result (L.faults link.new) }
{
    let mut body = begun_body(alloc, &buffer[from..filled], size)?;
    read_rest(link, buffer, &mut body, size)?;
    Ok(body)
}
