//! Reading the fields of a journal. Nothing is copied.
ghost use Rattle.std.specs.Prelude.{◌≡◌, ◌≤◌, take, length, bytes_eq};
ghost use Rattle.std.specs.Int.{w32, w64};
ghost use Rattle.journal_format.specs.Fields.{Reads, number_at, byte_at, bytes_at, key_at, counted_at, change_with, change_at};
ghost use Rattle.journal_format.specs.Format.{header};
ghost use Rattle.journal_format.specs.Views.{change_of};

use crate::EMPTY_JOURNAL;
use vec_base::ShadowKey;

/// A change as it lies in the bytes of a journal.
#[derive(Clone, Copy)]
pub enum ChangeView<'a> {
    /// The record gets this body.
    Put(ShadowKey, &'a [u8]),
    /// The record gets a body of that many zero bytes.
    Fill(ShadowKey, u32),
    /// The record goes.
    Remove(ShadowKey),
    /// The bytes are written into the record's body, at an offset from its beginning.
    Patch(ShadowKey, u32, &'a [u8]),
}

/// Whether the bytes begin with a journal's header.
#[tactic(auto, unfolding(crate::specs::Format::header))]
pub fn has_header(file: &[u8]) -> bool
    requires { 16 ≤ length file.now }
    ensures { result ≡ bytes_eq (take 16 file.now) header }
{
    file[..16] == EMPTY_JOURNAL[..16]
}

fn read_byte(bytes: &[u8]) -> Option<(u8, &[u8])>
    ensures { Reads (λ x. (x.0, x.1.now)) result (byte_at bytes.now) }
{
    match bytes {
        [] => None,
        [byte, rest @ ..] => Some((*byte, rest)),
    }
}

fn read_short_number(bytes: &[u8]) -> Option<(u32, &[u8])>
    ensures { Reads (λ x. (x.0, x.1.now)) result (number_at w32 bytes.now) }
{
    if bytes.len() < 4 {
        return None;
    }
    let (front, rest) = bytes.split_at(4);
    let number = u32::from_le_bytes([front[0], front[1], front[2], front[3]]);
    Some((number, rest))
}

/// The number in the first 8 bytes, and the bytes behind it.
pub fn read_number(bytes: &[u8]) -> Option<(u64, &[u8])>
    ensures { Reads (λ x. (x.0, x.1.now)) result (number_at w64 bytes.now) }
{
    if bytes.len() < 8 {
        return None;
    }
    let (front, rest) = bytes.split_at(8);
    let number = u64::from_le_bytes([
        front[0], front[1], front[2], front[3], front[4], front[5], front[6], front[7],
    ]);
    Some((number, rest))
}

fn read_bytes(count: usize, bytes: &[u8]) -> Option<(&[u8], &[u8])>
    ensures { Reads (λ x. (x.0.now, x.1.now)) result (bytes_at count bytes.now) }
{
    if bytes.len() < count {
        return None;
    }
    let (front, rest) = bytes.split_at(count);
    Some((front, rest))
}

#[tactic(auto, unfolding(crate::specs::Fields::key_at))]
fn read_key(bytes: &[u8]) -> Option<(ShadowKey, &[u8])>
    ensures { Reads (λ x. (x.0, x.1.now)) result (key_at bytes.now) }
{
    let (table, rest) = read_short_number(bytes)?;
    let (kind, rest) = read_byte(rest)?;
    let (a, rest) = read_number(rest)?;
    let (b, rest) = read_number(rest)?;
    Some((
        ShadowKey {
            table,
            kind,
            a: a.cast_signed(),
            b: b.cast_signed(),
        },
        rest,
    ))
}

#[tactic(auto, unfolding(crate::specs::Fields::counted_at))]
fn read_counted(bytes: &[u8]) -> Option<(&[u8], &[u8])>
    ensures { Reads (λ x. (x.0.now, x.1.now)) result (counted_at bytes.now) }
{
    let (count, rest) = read_short_number(bytes)?;
    read_bytes(count as usize, rest)
}

#[tactic(auto, unfolding(crate::specs::Fields::change_with))]
fn view_with(tag: u8, key: ShadowKey, bytes: &[u8]) -> Option<(ChangeView<'_>, &[u8])>
    ensures { Reads (λ x. (change_of x.0, x.1.now)) result (change_with tag key bytes.now) }
{
    if tag == 1 {
        let (body, rest) = read_counted(bytes)?;
        return Some((ChangeView::Put(key, body), rest));
    }
    if tag == 2 {
        let (count, rest) = read_short_number(bytes)?;
        return Some((ChangeView::Fill(key, count), rest));
    }
    if tag == 3 {
        return Some((ChangeView::Remove(key), bytes));
    }
    if tag == 4 {
        let (at, rest) = read_short_number(bytes)?;
        let (part, rest) = read_counted(rest)?;
        return Some((ChangeView::Patch(key, at, part), rest));
    }
    None
}

/// The change at the front of the bytes, and the bytes behind it.
#[tactic(auto, unfolding(crate::specs::Fields::change_at))]
pub fn change_view(bytes: &[u8]) -> Option<(ChangeView<'_>, &[u8])>
    ensures { Reads (λ x. (change_of x.0, x.1.now)) result (change_at bytes.now) }
{
    let (tag, rest) = read_byte(bytes)?;
    let (key, rest) = read_key(rest)?;
    view_with(tag, key, rest)
}
