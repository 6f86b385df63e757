//! Bytes seen as truth values.
ghost use Rattle.std.specs.Prelude.{◌≡◌, ◌≤◌, ◌<◌, ◌*◌, ◌/◌, ◌%◌, ℕ, MatchOption, ◌&&◌, true, false, length, slice_index_or, slice_set};
ghost use Rattle.std.specs.Int.{bit_at};
ghost use Rattle.std.specs.List.{count_by};
ghost use Rattle.std.specs.Simd.Lanes.{zip2};
ghost use Rattle.chunk_bitmap.specs.BitsOfBytes.{bits_of, first_clear_of, next_set_of};

use vec_base::MOST_CHUNK_SIZE;

/// The most bytes of a bitmap.
pub(crate) const MOST_BYTES: usize = MOST_CHUNK_SIZE as usize / 8;

/// The truth value at a place.
#[inline]
#[tactic(auto, using(crate::proofs::BitLaws::length_bits))]
pub(crate) fn is_set(bytes: &[u8], place: usize) -> bool
    requires { place < length (bits_of bytes.now) }
    ensures { result ≡ slice_index_or (bits_of bytes.now) place false }
{
    (bytes[place / 8] >> (place % 8)) & 1 == 1
}

/// Makes a place true.
#[inline]
#[tactic(auto, using(crate::proofs::BitLaws::length_bits))]
pub(crate) fn set(bytes: &mut [u8], place: usize)
    requires { place < length (bits_of bytes.old) }
    ensures { bits_of bytes.new ≡ slice_set (bits_of bytes.old) place true }
{
    bytes[place / 8] |= 1 << (place % 8);
}

/// Makes a place false.
#[inline]
#[tactic(auto, using(crate::proofs::BitLaws::length_bits))]
pub(crate) fn clear(bytes: &mut [u8], place: usize)
    requires { place < length (bits_of bytes.old) }
    ensures { bits_of bytes.new ≡ slice_set (bits_of bytes.old) place false }
{
    bytes[place / 8] &= !(1 << (place % 8));
}

/// How many places are true.
pub(crate) fn count(bytes: &[u8]) -> u16
    requires { length bytes.now ≤ MOST_BYTES }
    ensures { result ≡ count_by (λ bit. bit) (bits_of bytes.now) }
{
    let mut count = 0;
    for byte in bytes {
        count += byte.count_ones() as u16;
    }
    count
}

/// The least place that is false.
pub(crate) fn first_clear(bytes: &[u8]) -> Option<u16>
    requires { length bytes.now ≤ MOST_BYTES }
    ensures { result ≡ first_clear_of (bits_of bytes.now) }
{
    for (index, byte) in bytes.iter().enumerate() {
        if *byte != u8::MAX {
            return Some(8 * index as u16 + byte.trailing_ones() as u16);
        }
    }
    None
}

/// The least place from one on in the byte of a place that is true.
fn set_in_byte(byte: u8, place: u16) -> Option<u16>
    requires { place < MOST_CHUNK_SIZE }
    ensures { MatchOption result
        ((j : ℕ) → place % 8 ≤ j → j < 8 → bit_at byte j ≡ 0)
        (λ found. (bit_at byte (found % 8) ≡ 1) × (found / 8 ≡ place / 8) × (place ≤ found) × ((j : ℕ) → place % 8 ≤ j → j < found % 8 → bit_at byte j ≡ 0)) }
{
    let rest = byte >> (place % 8);
    if rest == 0 {
        return None;
    }
    Some(place + rest.trailing_zeros() as u16)
}

/// The least place from one on that is true.
pub(crate) fn next_set(bytes: &[u8], from: u16) -> Option<u16>
    requires short { length bytes.now ≤ MOST_BYTES }
    requires within { from ≤ 8 * length bytes.now }
    ensures { result ≡ next_set_of from (bits_of bytes.now) }
{
    let mut place = from;
    while usize::from(place) < 8 * bytes.len() {
        if let Some(found) = set_in_byte(bytes[usize::from(place / 8)], place) {
            return Some(found);
        }
        place = 8 * (place / 8 + 1);
    }
    None
}

/// Leaves true what is true in both.
pub(crate) fn and(bytes: &mut [u8], other: &[u8])
    requires { length bytes.old ≡ length other.now }
    ensures { bits_of bytes.new ≡ zip2 (λ a b. a && b) (bits_of bytes.old) (bits_of other.now) }
{
    for place in 0..bytes.len() {
        bytes[place] &= other[place];
    }
}
