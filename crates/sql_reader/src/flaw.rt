//! Why the meaning of a given statement is not found.
ghost use Rattle.std.specs.Prelude.{◌≡◌};

use vec_base::Memory;

/// Why no statement is made of what a text gives.
#[derive(Clone, Copy, Debug, Drop)]
pub(crate) enum Flaw {
    /// There was not enough memory.
    Memory,
    /// The text of a vector spells none, or a row has another number of values than there are names; the place.
    Place(usize),
    /// The columns break a rule of schemas; the least such rule.
    Rule(u8),
}

impl From<Memory> for Flaw {
    ghost use Rattle.sql_reader.specs.declared.flaw.Flaw.TheVariants.{Memory as want};

    ghost from_gives = { λ _ e. e ≡ want };

    fn from(_: Memory) -> Flaw {
        Flaw::Memory
    }
}
