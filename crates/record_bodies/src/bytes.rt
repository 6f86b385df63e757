//! Numbers, texts and cells in bytes.
ghost use Rattle.std.specs.Prelude.{◌≡◌, ◌<◌, ◌^◌, drop, IfOk, option_copied, slice_index, take};
ghost use Rattle.record_bodies.specs.Bodies.{bool_in, cell_in, int_in, length_in, text_in};

use std::alloc::Global;
use vec_base::{Memory, Txt, Value};

/// The byte at a place, or 0 past the end.
pub(crate) fn byte_at(bytes: &[u8], at: usize) -> u8
    ensures { result ≡ slice_index bytes.now at }
{
    if at < bytes.len() { bytes[at] } else { 0 }
}

/// So many bytes from the front, as far as there are.
pub(crate) fn front(bytes: &[u8], width: usize) -> &[u8]
    ensures { result.now ≡ take width bytes.now }
{
    if width >= bytes.len() {
        return bytes;
    }
    &bytes[..width]
}

/// What stands behind so many bytes.
pub(crate) fn behind(bytes: &[u8], width: usize) -> &[u8]
    ensures { result.now ≡ drop width bytes.now }
{
    if width >= bytes.len() {
        return &[];
    }
    &bytes[width..]
}

/// The length in the first four bytes.
pub(crate) fn length_in(bytes: &[u8]) -> u32
    ensures { result ≡ length_in bytes.now }
{
    u32::from_le_bytes([
        byte_at(bytes, 0),
        byte_at(bytes, 1),
        byte_at(bytes, 2),
        byte_at(bytes, 3),
    ])
}

/// The number that eight bytes are.
pub(crate) fn int_in(bytes: &[u8]) -> Option<Value>
    ensures { result ≡ int_in bytes.now }
{
    let [a, b, c, d, e, f, g, h] = bytes else {
        return None;
    };
    Some(Value::Int(i64::from_le_bytes([*a, *b, *c, *d, *e, *f, *g, *h])))
}

/// The text that bytes in UTF-8 are.
pub(crate) fn text_in(alloc: Global, bytes: &[u8]) -> Result<Option<Value>, Memory>
    ensures { IfOk result (λ value. value ≡ text_in bytes.now) }
{
    match str::from_utf8(bytes) {
        Ok(text) => Ok(Some(Value::Text(Txt::from_text(alloc, text)?))),
        Err(_) => Ok(None),
    }
}

/// The cell of a slot, where all cells have one width.
pub(crate) fn cell_in(width: u16, slot: u16, body: &[u8]) -> Option<&[u8]>
    ensures { option_copied result ≡ cell_in width slot body.now }
{
    let from = usize::from(slot) * usize::from(width);
    let end = from + usize::from(width);
    if end <= body.len() {
        Some(&body[from..end])
    } else {
        None
    }
}

/// The truth value of a slot.
pub(crate) fn bool_in(slot: u16, body: &[u8]) -> Option<Value>
    ensures { result ≡ bool_in slot body.now }
{
    let byte = *body.get(usize::from(slot / 8))?;
    if byte / power(slot % 8) % 2 == 1 {
        Some(Value::Int(1))
    } else {
        Some(Value::Int(0))
    }
}

/// The bit of a number below 8, in a byte.
fn power(number: u16) -> u8
    requires { number < 8 }
    ensures { result ≡ 2 ^ number }
{
    match number {
        0 => 1,
        1 => 2,
        2 => 4,
        3 => 8,
        4 => 16,
        5 => 32,
        6 => 64,
        _ => 1 << 7,
    }
}
