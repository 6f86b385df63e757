//! The trait of what takes a text, and a text in memory as one of its kinds.

ghost use Rattle.std.specs.Prelude.{ℕ, ◌++◌, List as Seq, [], OnOk, OnErr};

use std::alloc::AllocError;

/// What takes a text part by part.
pub trait Takes {
    /// Between the two states this part was added.
    ghost adds: { Seq ℕ → Self → Self → Type 0 };

    /// Whether memory may be wanted.
    ghost may_want: { Type 0 };

    /// Adds the part.
    fn put(&mut self, part: &str) -> Result<(), AllocError>
        ensures added { OnOk result (adds part.now self.old self.new) }
        ensures want { OnErr result may_want };

    /// Where nothing is done, nothing is added.
    ghost none: { (x : Self) → adds [] x x };

    /// A part that is added after another one stands behind it.
    ghost both: { (a b : Seq ℕ) (x y z : Self) → adds a x y → adds b y z → adds (a ++ b) x z };
}

impl Takes for String {
    ghost use Rattle.std.specs.Prelude.{◌≡◌, ◌++◌, string_bytes, ⊤};
    ghost use Rattle.std.proofs.Common.{sym, ◌∙◌, ap, append_assoc};
    ghost use Rattle.std.proofs.lemmas.List.{append-nil};

    ghost adds = { λ part old new. string_bytes new ≡ string_bytes old ++ part };

    ghost may_want = { ⊤ };

    ghost none = { λ x. sym (append-nil (string_bytes x)) };

    ghost both = { λ a b x y z p q. q ∙ ap (λ t. t ++ b) p ∙ append_assoc (string_bytes x) a b };

    fn put(&mut self, part: &str) -> Result<(), AllocError> {
        self.push_str(part)
    }
}
