//! Why words are not read.
use std::alloc::AllocError;
use vec_base::Memory;

/// Why words are not read.
#[derive(Clone, Copy, Debug, PartialEq, Eq)]
pub enum WordsFault {
    /// They are no words of the program.
    Words,
    /// Want of memory.
    Memory,
}

impl From<AllocError> for WordsFault {
    ghost use Rattle.std.specs.Prelude.{◌≡◌};
    ghost use Rattle.vec_words.specs.declared.fault.WordsFault.TheVariants.{Memory};

    ghost from_gives = { λ _ e. e ≡ Memory };

    fn from(_: AllocError) -> Self {
        WordsFault::Memory
    }
}
