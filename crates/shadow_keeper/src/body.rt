//! Bodies of records, which can be patched in their place.
ghost use Rattle.std.specs.Prelude.{◌≡◌, ◌+◌, ◌≤◌, length, replicate, IfOk};
ghost use Rattle.shadow_records.specs.Batches.{patched};

use std::alloc::Global;
use std::marker::Model;
use vec_base::Memory;

/// The bytes of a record.
#[derive(Debug, Drop)]
pub(crate) struct Body {
    bytes: Vec<u8>,
}

impl Model for Body {
    ghost use Rattle.std.specs.Prelude.{List, ℕ};

    ghost Value = { List ℕ };

    ghost view = { λ b. b.bytes.items };
}

impl Body {
    /// A copy of the bytes.
    pub(crate) fn copied(alloc: Global, bytes: &[u8]) -> Result<Body, Memory>
        ensures { IfOk result (λ body. body ≡ bytes.now) }
    {
        Ok(Body {
            bytes: Vec::from_slice(alloc, bytes)?,
        })
    }

    /// So many zero bytes.
    pub(crate) fn zeros(alloc: Global, count: u32) -> Result<Body, Memory>
        ensures { IfOk result (λ body. body ≡ replicate count 0) }
    {
        Ok(Body {
            bytes: vec![in alloc; 0; count as usize]?,
        })
    }

    pub(crate) fn as_slice(&self) -> &[u8]
        ensures { result.now ≡ self.now }
    {
        self.bytes.as_slice()
    }

    /// Writes the bytes over those from a place on.
    pub(crate) fn patch(&mut self, at: usize, bytes: &[u8])
        requires { at + length bytes.now ≤ length self.old }
        ensures { self.new ≡ patched self.old at bytes.now }
    {
        self.bytes[at..at + bytes.len()].copy_from_slice(bytes);
    }
}
