//! Numbers of decimal digits.
ghost use Rattle.std.specs.Prelude.{◌≡◌, ◌≤◌, IfSome};
ghost use Rattle.std.specs.List.{list_all};
ghost use Rattle.std.specs.Char.{is_ascii_digit};
ghost use Rattle.http_requests.specs.Numbers.{is_numeral, begins_with_zero, number_in, id_in};

/// The most digits of a number.
const MOST_DIGITS: usize = 10;

/// Whether all bytes are decimal digits.
fn are_digits(bytes: &[u8]) -> bool
    ensures { result ≡ list_all is_ascii_digit bytes.now }
{
    bytes.iter().all(|byte| byte.is_ascii_digit())
}

/// Whether there are 1 to 10 bytes, each of which is a decimal digit.
fn has_digits(bytes: &[u8]) -> bool
    ensures { result ≡ is_numeral bytes.now }
{
    !bytes.is_empty() && bytes.len() <= MOST_DIGITS && are_digits(bytes)
}

/// The number that the digits write, from `low` to `high`.
pub(crate) fn number_in(digits: &[u8], low: u64, high: u64) -> Option<u64>
    ensures exact { result ≡ number_in low high digits.now }
    ensures range { IfSome result (λ n. (low ≤ n) × (n ≤ high)) }
{
    if !has_digits(digits) {
        return None;
    }
    let Ok(text) = str::from_utf8(digits) else {
        return None;
    };
    match text.parse::<u64>() {
        Ok(number) => {
            if low <= number && number <= high {
                Some(number)
            } else {
                None
            }
        }
        Err(_) => None,
    }
}

/// Whether the first byte is the digit 0.
fn begins_with_zero(bytes: &[u8]) -> bool
    ensures { result ≡ begins_with_zero bytes.now }
{
    match bytes {
        [] => false,
        [first, ..] => *first == b'0',
    }
}

/// The number of a session or a cursor, from 1 to `high`, without a zero in front.
pub(crate) fn id_in(digits: &[u8], high: u32) -> Option<u32>
    ensures { result ≡ id_in high digits.now }
{
    if begins_with_zero(digits) {
        return None;
    }
    match number_in(digits, 1, u64::from(high)) {
        Some(number) => Some(number as u32),
        None => None,
    }
}
