//! Numbers among the words.
ghost use Rattle.std.specs.Prelude.{◌≡◌, ◌≤◌, ◌<◌, ◌^◌, IfSome};
ghost use Rattle.std.specs.List.{list_all};
ghost use Rattle.std.specs.Char.{is_ascii_digit};
ghost use Rattle.vec_words.specs.Configs.{is_numeral, number_in, number_or};
ghost use Rattle.vec_words.specs.inner.Given.{lent};

/// The most digits of a number.
const MOST_DIGITS: usize = 20;

/// Whether all bytes are decimal digits.
fn are_digits(bytes: &[u8]) -> bool
    ensures { result ≡ list_all is_ascii_digit bytes.now }
{
    bytes.iter().all(|byte| byte.is_ascii_digit())
}

/// Whether a text has 1 to 20 bytes, each of which is a decimal digit.
fn has_digits(text: &str) -> bool
    ensures { result ≡ is_numeral text.now }
{
    let bytes = text.as_bytes();
    !bytes.is_empty() && bytes.len() <= MOST_DIGITS && are_digits(bytes)
}

/// The number that a text spells, from `low` to `high`.
pub(crate) fn number_within(text: &str, low: u64, high: u64) -> Option<u64>
    ensures exact { result ≡ number_in low high text.now }
    ensures range { IfSome result (λ n. (low ≤ n) × (n ≤ high)) }
{
    if !has_digits(text) {
        return None;
    }
    match text.parse::<u64>() {
        Ok(number) => {
            if low <= number && number <= high {
                Some(number)
            } else {
                None
            }
        }
        Err(_) => None,
    }
}

/// The number that is given, from `low` to `high`, or `default` where none is given.
pub(crate) fn number_given(text: Option<&str>, default: u64, low: u64, high: u64) -> Option<u64>
    requires { (low ≤ default) × (default ≤ high) }
    ensures exact { result ≡ number_or default low high (lent text.entry) }
    ensures range { IfSome result (λ n. (low ≤ n) × (n ≤ high)) }
{
    match text {
        None => Some(default),
        Some(text) => number_within(text, low, high),
    }
}
