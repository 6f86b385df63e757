//! Strings in JSON.

ghost use Rattle.std.specs.Prelude.{◌≡◌, ◌<◌, ◌≤◌, false, [], length, map, get_or, MatchOption, OnOk, OnErr};
ghost use Rattle.std.specs.List.{prefix_len};
ghost use Rattle.json.specs.Print.{escape, escape_byte, quoted};
ghost use Rattle.http_replies.specs.inner.Plain.{SplitsText, is_plain};

use std::alloc::AllocError;
use vec_text::Takes;

/// What stands in a string for each control character.
const CONTROLS: [&str; 32] = [
    "\\u0000", "\\u0001", "\\u0002", "\\u0003", "\\u0004", "\\u0005", "\\u0006", "\\u0007", "\\b",
    "\\t", "\\n", "\\u000b", "\\f", "\\r", "\\u000e", "\\u000f", "\\u0010", "\\u0011", "\\u0012",
    "\\u0013", "\\u0014", "\\u0015", "\\u0016", "\\u0017", "\\u0018", "\\u0019", "\\u001a",
    "\\u001b", "\\u001c", "\\u001d", "\\u001e", "\\u001f",
];

/// Writes a text as a string.
pub(crate) fn put_string<W: Takes>(to: &mut W, text: &str) -> Result<(), AllocError>
    ensures added { OnOk result (W.adds (quoted text.now) to.old to.new) }
    ensures want { OnErr result W.may_want }
{
    to.put("\"")?;
    put_escaped(to, text)?;
    to.put("\"")
}

/// Writes the text of a string, with escapes for what cannot stand in it.
fn put_escaped<W: Takes>(to: &mut W, text: &str) -> Result<(), AllocError>
    ensures added { OnOk result (W.adds (escape text.now) to.old to.new) }
    ensures want { OnErr result W.may_want }
{
    let mut left = text;
    while let Some((plain, special, behind)) = split_special(left) {
        to.put(plain)?;
        to.put(escape_of(special))?;
        left = behind;
    }
    to.put(left)
}

/// Splits the text at the first byte that cannot stand in a string as it is.
fn split_special(text: &str) -> Option<(&str, u8, &str)>
    ensures { MatchOption result (escape text.now ≡ text.now)
        (λ parts. SplitsText text.now parts.0.now parts.1 parts.2.now) }
{
    let at = plain_length(text.as_bytes());
    if at >= text.len() {
        return None;
    }
    let special = text.as_bytes()[at];
    Some((&text[..at], special, &text[at + 1..]))
}

/// How many bytes from the front on stand in a string as they are.
fn plain_length(bytes: &[u8]) -> usize
    ensures plain { result ≡ prefix_len is_plain bytes.now }
    ensures inside { result ≤ length bytes.now }
{
    bytes.iter().take_while(|byte| is_plain(**byte)).count()
}

/// Whether the byte stands in a string as it is.
fn is_plain(byte: u8) -> bool
    ensures { result ≡ is_plain byte }
{
    byte >= b' ' && byte != b'"' && byte != b'\\'
}

/// What stands in a string for a byte that cannot.
fn escape_of(byte: u8) -> &'static str
    requires { is_plain byte ≡ false }
    ensures { result.now ≡ escape_byte byte }
{
    match byte {
        b'"' => "\\\"",
        b'\\' => "\\\\",
        _ => control(byte),
    }
}

/// What stands in a string for a control character.
fn control(byte: u8) -> &'static str
    requires { byte < 32 }
    ensures { result.now ≡ escape_byte byte }
{
    text_at(&CONTROLS, usize::from(byte))
}

/// The text at a place.
fn text_at(texts: &[&'static str], at: usize) -> &'static str
    requires { at < length texts.now }
    ensures { result.now ≡ get_or (map (λ text. text.now) texts.now) at [] }
{
    texts[at]
}
