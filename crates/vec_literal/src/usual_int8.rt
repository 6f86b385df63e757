//! A fast reader of int8 literals in their usual form: all elements in range, and no white space but spaces behind commas.

ghost use Rattle.std.specs.Prelude.{◌≡◌, ℕ, ◌+◌, ◌≤◌, ◌<◌, true, drop, length, slice_index, IfOk, IfSome};
ghost use Rattle.std.specs.Char.{is_ascii_digit};
ghost use Rattle.vec_literal.specs.inner.Int8Reading.{ReadsDigits, ReadsNumber, ReadsElement, ReadsWhole};

use crate::int8::{Number, TOO_LARGE};
use std::alloc::{AllocError, Global};

/// More bytes than an element and the mark behind it have.
const WINDOW: usize = 6;

/// How many bytes can be counted in one byte.
const COUNTED: usize = u8::MAX as usize;

/// The vector that a text in the usual form spells, `None` for any other text.
pub(crate) fn read_usual(alloc: Global, text: &[u8]) -> Result<Option<Vec<u8>>, AllocError>
    ensures { IfOk result (λ found. IfSome found (λ vector. ReadsWhole text.now vector.items)) }
{
    if text.is_empty() || text[0] != b'[' {
        return Ok(None);
    }
    let mut vector = Vec::with_capacity(alloc, commas_in(text).saturating_add(1))?;
    let mut from = 1;
    while let Some(element) = element_at(text, from) {
        vector.push(element.byte)?;
        let end = from + element.length;
        match text[end] {
            b',' => from = spaces_end(text, end + 1),
            b']' if end + 1 == text.len() => return Ok(Some(vector)),
            _ => return Ok(None),
        }
    }
    Ok(None)
}

/// How many commas stand in the text.
fn commas_in(text: &[u8]) -> usize {
    let mut commas = 0usize;
    for piece in text.chunks(COUNTED) {
        commas = commas.saturating_add(usize::from(few_commas_in(piece)));
    }
    commas
}

/// How many commas stand in a text of few bytes.
fn few_commas_in(text: &[u8]) -> u8
    requires { length text.now ≤ COUNTED }
{
    let mut commas = 0u8;
    for byte in text {
        commas += u8::from(*byte == b',');
    }
    commas
}

/// The end of the spaces from a place on.
fn spaces_end(text: &[u8], from: usize) -> usize
    requires { from ≤ length text.now }
    ensures inside { result ≤ length text.now }
    ensures passed { from ≤ result }
    ensures spaces { (k : ℕ) → from ≤ k → k < result → slice_index text.now k ≡ 32 }
{
    let mut at = from;
    while at < text.len() && text[at] == b' ' {
        at += 1;
    }
    at
}

/// An element that was read: its byte, and the number of bytes that spell it. More bytes follow them.
#[derive(Clone, Copy)]
struct Element {
    byte: u8,
    length: usize,
}

/// The element that stands at the place, if it is in range and the text goes on behind it.
#[inline(always)]
fn element_at(text: &[u8], from: usize) -> Option<Element>
    requires { from ≤ length text.now }
    ensures { IfSome result (λ element. ReadsElement (drop from text.now) element.length element.byte) }
{
    if text.len() - from >= WINDOW {
        first_element(&text[from..from + WINDOW])
    } else {
        first_element(&text[from..])
    }
}

/// The element at the beginning of the text, if it is in range and the text goes on behind it.
#[inline(always)]
fn first_element(text: &[u8]) -> Option<Element>
    ensures { IfSome result (λ element. ReadsElement text.now element.length element.byte) }
{
    let Some(ReadNumber { number, length }) = first_number(text) else {
        return None;
    };
    if length == text.len() {
        return None;
    }
    match number.byte() {
        Some(byte) => Some(Element { byte, length }),
        None => None,
    }
}

/// A number that was read, and the number of bytes that spell it.
#[derive(Clone, Copy)]
struct ReadNumber {
    number: Number,
    length: usize,
}

/// The number at the beginning of the text, if one stands there.
#[inline(always)]
fn first_number(text: &[u8]) -> Option<ReadNumber>
    ensures { IfSome result (λ read. ReadsNumber text.now read.length read.number) }
{
    if !text.is_empty() && text[0] == b'-' {
        digits_at(text, 1, true)
    } else {
        digits_at(text, 0, false)
    }
}

/// The number of this sign whose first digit stands at the place, if one does. At most three digits are read, and only one
/// where that is a zero.
#[inline(always)]
fn digits_at(text: &[u8], from: usize, negative: bool) -> Option<ReadNumber>
    requires { from ≤ length text.now }
    ensures { IfSome result (λ read. ReadsDigits negative text.now from read.length read.number) }
{
    let Some(one) = digit_at(text, from) else {
        return None;
    };
    if one == 0 {
        return Some(ReadNumber::new(negative, one, from + 1));
    }
    let Some(digit) = digit_at(text, from + 1) else {
        return Some(ReadNumber::new(negative, one, from + 1));
    };
    let two = one * 10 + digit;
    let Some(digit) = digit_at(text, from + 2) else {
        return Some(ReadNumber::new(negative, two, from + 2));
    };
    Some(ReadNumber::new(negative, two * 10 + digit, from + 3))
}

impl ReadNumber {
    #[inline(always)]
    fn new(negative: bool, magnitude: u32, length: usize) -> ReadNumber
        requires { magnitude < TOO_LARGE }
        ensures { result ≡ record { number = record { negative = negative; magnitude = magnitude }; length = length } }
    {
        ReadNumber {
            number: Number {
                negative,
                magnitude: magnitude as u16,
            },
            length,
        }
    }
}

/// The value of the decimal digit at the place, if one stands there.
#[inline(always)]
fn digit_at(text: &[u8], at: usize) -> Option<u32>
    requires { at ≤ length text.now }
    ensures inside { IfSome result (λ value. at < length text.now) }
    ensures digit { IfSome result (λ value. is_ascii_digit (slice_index text.now at) ≡ true) }
    ensures value { IfSome result (λ value. slice_index text.now at ≡ value + 48) }
    ensures small { IfSome result (λ value. value < 10) }
{
    if at < text.len() && text[at].is_ascii_digit() {
        Some(u32::from(text[at] - b'0'))
    } else {
        None
    }
}
