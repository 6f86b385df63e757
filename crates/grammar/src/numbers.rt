//! Numbers that digits write.
ghost use Rattle.std.specs.Prelude.{◌≡◌, ◌<◌, ◌≤◌, ◌^◌, max, IsTrue, MatchOption, ℤ, pos, ◌-ℤ◌};
ghost use Rattle.std.specs.Option.{option_map};
ghost use Rattle.std.specs.Str.Parse.{digits_value};
ghost use Rattle.vec_literal.specs.Tokens.{is_number_text};
ghost use Rattle.grammar.specs.inner.ReaderResults.{WritesParameter};

use vec_base::MOST_PARAMETERS;

/// The greatest number.
pub(crate) const GREATEST_NUMBER: u64 = i64::MAX as u64;

/// The greatest number behind `-`.
pub(crate) const GREATEST_AFTER_MINUS: u64 = 9_223_372_036_854_775_808;

/// The number that the digits write, if it is at most `greatest`.
pub(crate) fn decimal_value(digits: &[u8], greatest: u64) -> Option<u64>
    requires { IsTrue (is_number_text digits.now) }
    ensures { MatchOption result (greatest < digits_value 10 digits.now) (λ n. (n ≡ digits_value 10 digits.now) × (n ≤ greatest)) }
{
    match str::from_utf8(digits) {
        Ok(text) => match text.parse::<u64>() {
            Ok(value) => { if value <= greatest { Some(value) } else { None } }
            Err(_) => None,
        },
        Err(_) => None,
    }
}

/// The number of a parameter that the digits write, if they write one that a parameter may have.
pub(crate) fn parameter_number(digits: &[u8]) -> Option<u16>
    requires { IsTrue (is_number_text digits.now) }
    ensures { WritesParameter result digits.now }
{
    match decimal_value(digits, u64::from(MOST_PARAMETERS)) {
        Some(number) if number > 0 => Some(number as u16),
        _ => None,
    }
}

/// The number below zero of this magnitude.
pub(crate) fn negated(magnitude: u64) -> i64
    requires { magnitude ≤ 2 ^ 63 }
    ensures { result ≡ pos 0 -ℤ pos magnitude }
{
    if magnitude == GREATEST_AFTER_MINUS {
        i64::MIN
    } else {
        -(magnitude as i64)
    }
}

/// The greatest number, where there is one, once the number is seen.
pub(crate) fn raised(greatest: Option<u16>, number: u16) -> Option<u16>
    ensures { result ≡ option_map (λ g. max g number) greatest }
{
    match greatest {
        Some(greatest) => Some(greatest.max(number)),
        None => None,
    }
}
