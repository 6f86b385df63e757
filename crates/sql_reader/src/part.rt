//! The parts of which lists of a given statement are made: their parameters, and what they mean.
ghost use Rattle.std.specs.Prelude.{◌≡◌, ℕ, IfOk, List as Seq};
ghost use Rattle.std.specs.List.{flat_map};
ghost use Rattle.vec_base.specs.declared.value.Value.{Value as Spelled};
ghost use Rattle.sql_reader.specs.GivenStatements.{Check, Use};
ghost use Rattle.sql_reader.specs.inner.PartMeanings.{AreTaken, IsPartMeaning};
ghost use Rattle.sql_reader.specs.inner.ParameterSummaries.{SummarizesMore};
ghost use Rattle.sql_reader.specs.StatementReading.{Each};

use crate::flaw::Flaw;
use crate::parameters::UseSummary;
use std::alloc::Global;
use vec_base::{List, Memory, Value};

/// A part of a given statement.
pub(crate) trait GivenPart: Drop + Sized {
    /// What the part means.
    type Meaning: Drop;

    /// What the grammar does not tell of the part, where an INSERT has so many names.
    ghost checks: { ℕ → Self → Seq Check };

    /// What its parameters are used for.
    ghost uses: { Self → Seq Use };

    /// What the part means, with these parameters.
    ghost means: { Seq Spelled → Self → Self.Meaning → Type 0 };

    /// The summary with the parameters of the part.
    fn summarize(
        &self,
        alloc: Global,
        summary: UseSummary,
        params: &[Value],
    ) -> Result<UseSummary, Memory>
        ensures { IfOk result (λ new. SummarizesMore params.now (uses self.now) summary new) };

    /// What the part means, where an INSERT has so many names. A parameter that is not taken counts as NULL.
    fn meaning(self, alloc: Global, names: usize, params: &[Value]) -> Result<Self::Meaning, Flaw>
        ensures { IsPartMeaning (checks names self) (AreTaken params.now (uses self)) (means params.now self) result };
}

/// The summary with the parameters of the parts.
pub(crate) fn summarize_each<P: GivenPart>(
    alloc: Global,
    summary: UseSummary,
    parts: &[P],
    params: &[Value],
) -> Result<UseSummary, Memory>
    ensures { IfOk result (λ new. SummarizesMore params.now (flat_map P.uses parts.now) summary new) }
{
    let mut more = summary;
    for part in parts {
        more = part.summarize(alloc, more, params)?;
    }
    Ok(more)
}

/// What the parts mean, in their order.
pub(crate) fn meanings<P: GivenPart>(
    alloc: Global,
    parts: List<P>,
    names: usize,
    params: &[Value],
) -> Result<List<P::Meaning>, Flaw>
    ensures { IsPartMeaning (flat_map (P.checks names) parts) (AreTaken params.now (flat_map P.uses parts)) (Each (P.means params.now) parts) result }
{
    let mut meanings = List::new(alloc);
    for part in parts.into_vec() {
        let meaning = part.meaning(alloc, names, params)?;
        meanings.push(meaning)?;
    }
    Ok(meanings)
}
