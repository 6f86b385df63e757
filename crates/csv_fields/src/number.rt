//! Numbers in decimal.

ghost use Rattle.std.specs.Prelude.{◌≡◌, ◌==◌, ℤ, FitsSigned, MatchOption, slice_index};
ghost use Rattle.std.specs.Int.{w64};
ghost use Rattle.csv_fields.specs.Fields.{SpellsInteger};

/// The number of 64 bits that the field spells.
pub(crate) fn integer(field: &str) -> Option<i64>
    ensures { MatchOption result ((n : ℤ) → SpellsInteger field.now n → FitsSigned w64 n → ⊥) (λ n. SpellsInteger field.now n × FitsSigned w64 n) }
{
    if has_plus(field) {
        return None;
    }
    match field.parse::<i64>() {
        Ok(number) => Some(number),
        Err(_) => None,
    }
}

/// Whether a `+` stands in front, which `parse` takes.
fn has_plus(field: &str) -> bool
    ensures { result ≡ (slice_index field.now 0 == 43) }
{
    match field.as_bytes().first() {
        Some(first) => *first == b'+',
        None => false,
    }
}
