//! The place in a row's body.
ghost use Rattle.std.specs.Prelude.{◌≡◌, IfOk};
ghost use Rattle.record_bodies.specs.Bodies.{place_bytes, place_in};

use std::alloc::Global;
use vec_base::{Bytes, Memory};

/// The chunk and the slot in the first six bytes of a row's body; none where it has fewer.
pub fn read_place(body: &[u8]) -> Option<(u32, u16)>
    ensures { result ≡ place_in body.now }
{
    let [a, b, c, d, e, f, ..] = body else {
        return None;
    };
    Some((
        u32::from_le_bytes([*a, *b, *c, *d]),
        u16::from_le_bytes([*e, *f]),
    ))
}

/// The six bytes of a chunk and a slot.
pub fn write_place(alloc: Global, chunk: u32, slot: u16) -> Result<Bytes, Memory>
    ensures { IfOk result (λ body. body ≡ place_bytes chunk slot) }
{
    let [a, b, c, d] = chunk.to_le_bytes();
    let [e, f] = slot.to_le_bytes();
    Bytes::from_slice(alloc, &[a, b, c, d, e, f])
}
