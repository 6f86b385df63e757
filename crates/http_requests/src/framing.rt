//! How long a body is, by the fields of a head.
ghost use Rattle.std.specs.Prelude.{◌≡◌, bytes_eq, map, codes};
ghost use Rattle.http_requests.specs.Framings.{lowered, with_length, after_field};

use crate::number::number_in;

/// The greatest number of 10 digits.
const MOST_LENGTH: u64 = 9_999_999_999;

/// What the fields say of the length of the body: nothing, that many bytes, or what no request may say.
#[derive(Clone, Copy, Debug, PartialEq, Eq)]
pub enum Framing {
    Unknown,
    Length(u64),
    Bad,
}

/// Whether a name is another one, which is in lower case, without regard to case.
fn is_name(name: &[u8], lower: &[u8]) -> bool
    ensures { result ≡ bytes_eq (lowered name.now) lower.now }
{
    match (name, lower) {
        ([], []) => true,
        ([first, others @ ..], [wanted, others_wanted @ ..]) => {
            first.to_ascii_lowercase() == *wanted && is_name(others, others_wanted)
        }
        _ => false,
    }
}

/// What a field `Content-Length` makes of what is known.
fn with_length(known: Framing, value: &[u8]) -> Framing
    ensures { result ≡ with_length value.now known }
{
    match known {
        Framing::Unknown => match number_in(value, 0, MOST_LENGTH) {
            Some(length) => Framing::Length(length),
            None => Framing::Bad,
        },
        Framing::Length(_) => Framing::Bad,
        Framing::Bad => Framing::Bad,
    }
}

impl Framing {
    /// What one field more says. Of the names `Transfer-Encoding` and `Content-Length` the case does not matter.
    pub fn after_field(self, name: &[u8], value: &[u8]) -> Framing
        ensures exact { result ≡ after_field self name.now value.now }
    {
        if is_name(name, b"transfer-encoding") {
            return Framing::Bad;
        }
        if is_name(name, b"content-length") {
            return with_length(self, value);
        }
        self
    }
}
