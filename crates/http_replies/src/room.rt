//! A room of a fixed size, as what takes a text part by part.

ghost use Rattle.std.specs.Prelude.{[], ◌≡◌, ◌≤◌, ℕ, List as Seq, length};
ghost use Rattle.http_replies.specs.inner.Rooms.{Holds, Puts};

use std::alloc::AllocError;
use vec_text::Takes;

/// How many bytes a room has.
pub(crate) const SIZE: usize = 512;

/// A room, and how many of its bytes are filled. A part that has no place in it any more is left out.
#[derive(Drop)]
pub(crate) struct Room {
    pub(crate) bytes: [u8; SIZE],
    pub(crate) filled: usize,
}

impl Room {
    /// An empty room.
    pub(crate) fn new() -> Room
        ensures { Holds [] result }
    {
        Room {
            bytes: [0; SIZE],
            filled: 0,
        }
    }

    /// The bytes that are filled.
    pub(crate) fn content(&self) -> &[u8]
        ensures { (bytes : Seq ℕ) → Holds bytes self.now → length bytes ≤ 512 → result.now ≡ bytes }
    {
        &self.bytes[..self.filled.min(SIZE)]
    }

    /// Adds bytes behind the filled ones.
    pub(crate) fn add(&mut self, part: &[u8])
        ensures { Puts part.now self.old self.new }
    {
        if self.filled > SIZE || part.len() > SIZE - self.filled {
            return;
        }
        let end = self.filled + part.len();
        self.bytes[self.filled..end].copy_from_slice(part);
        self.filled = end;
    }
}

impl Takes for Room {
    ghost use Rattle.http_replies.specs.inner.Rooms.{Puts, puts_none, puts_both};

    ghost adds = { Puts };

    ghost may_want = { ⊥ };

    ghost none = { puts_none };

    ghost both = { puts_both };

    fn put(&mut self, part: &str) -> Result<(), AllocError> {
        self.add(part.as_bytes());
        Ok(())
    }
}
