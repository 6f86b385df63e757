//! A counter of the work of a search.
ghost use Rattle.std.specs.Prelude.{◌≡◌};
ghost use Rattle.vec_base.specs.Counts.{raised, summed};

/// How many vectors were read, and into how many pieces a search was split. Each number stays at its greatest value.
#[derive(Debug, PartialEq, Eq, Drop)]
pub struct Steps {
    pub reads: u64,
    pub pieces: u64,
}

impl Steps {
    /// Nothing was counted.
    pub fn new() -> Steps
        ensures reads { result.reads ≡ 0 }
        ensures pieces { result.pieces ≡ 0 }
    {
        Steps {
            reads: 0,
            pieces: 0,
        }
    }

    /// Counts one read.
    #[inline]
    pub fn tick(&mut self)
        ensures reads { self.new.reads ≡ raised self.old.reads }
        ensures pieces { self.new.pieces ≡ self.old.pieces }
    {
        self.reads = self.reads.saturating_add(1);
    }

    /// A counter for one piece of a search, which this one counts.
    pub fn split(&mut self) -> Steps
        ensures reads { self.new.reads ≡ self.old.reads }
        ensures pieces { self.new.pieces ≡ raised self.old.pieces }
        ensures piece_reads { result.reads ≡ 0 }
        ensures piece_pieces { result.pieces ≡ 0 }
    {
        self.pieces = self.pieces.saturating_add(1);
        Steps::new()
    }

    /// Adds the numbers of another counter.
    pub fn join(&mut self, other: Steps)
        ensures reads { self.new.reads ≡ summed self.old.reads other.reads }
        ensures pieces { self.new.pieces ≡ summed self.old.pieces other.pieces }
    {
        self.reads = self.reads.saturating_add(other.reads);
        self.pieces = self.pieces.saturating_add(other.pieces);
    }
}
