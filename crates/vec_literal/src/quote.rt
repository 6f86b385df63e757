//! The search for quotes.

ghost use Rattle.std.specs.Prelude.{◌≡◌, ◌≤◌, length};
ghost use Rattle.std.specs.List.{prefix_len};
ghost use Rattle.vec_literal.specs.inner.Stretches.{is_plain};

use memchr::memchr;

/// How many bytes stand before the first quote, or how many there are.
pub(crate) fn before_quote(text: &[u8]) -> usize
    ensures run { result ≡ prefix_len is_plain text.now }
    ensures inside { result ≤ length text.now }
{
    memchr(b'\'', text).unwrap_or(text.len())
}
