//! The literal of an int8 vector.
ghost use Rattle.std.specs.Prelude.{◌≡◌, ◌⊎◌, ℕ, [], List, IfOk, IfErr, OnOk};
ghost use Rattle.vec_literal.specs.Int8.{SpellsInt8, is_space};
ghost use Rattle.vec_text.specs.ValueTexts.{int8_text};
ghost use Rattle.vec_base.specs.Answers.{IsExactAnswer};
ghost use Rattle.vec_literal.specs.declared.int8.LitFault.TheVariants.{Memory as WantOfMemory};
ghost use Rattle.vec_literal.specs.Faults.{IsInt8Fault};
ghost use Rattle.vec_literal.specs.inner.Int8Reading.{number_start, first_digit, after_element};

use crate::usual_int8::read_usual;
use std::alloc::{AllocError, Global};
use vec_base::{Bytes, Memory, Txt};
use vec_text::put_int8;

/// Why a literal is not read.
#[derive(Clone, Copy, Debug, PartialEq, Eq)]
pub enum LitFault {
    /// The text is not in the form. Of an int8 literal the number of its first bytes that some literal begins with, of
    /// a bit literal the index of its first byte that is no hexadecimal digit.
    Place(usize),
    /// The form is right and an element is outside -128 to 127; the index of the first such element.
    Range(usize),
    /// The number of bytes is odd, in place of two digits for each byte.
    OddHex,
    /// There was not enough memory.
    Memory,
}

impl From<AllocError> for LitFault {
    ghost from_gives = { λ _ e. e ≡ WantOfMemory };

    fn from(_: AllocError) -> Self {
        LitFault::Memory
    }
}

impl From<Memory> for LitFault {
    ghost from_gives = { λ _ e. e ≡ WantOfMemory };

    fn from(_: Memory) -> Self {
        LitFault::Memory
    }
}

/// The vector that the text spells, one byte for each element.
/// `Place` where the text is not in the form, whatever its numbers, and `Range` where only a number is too large.
pub fn read_int8(alloc: Global, text: &[u8]) -> Result<Bytes, LitFault>
    ensures exact { IsExactAnswer WantOfMemory (λ vector. SpellsInt8 text.now vector) (λ fault. IsInt8Fault text.now fault) result }
{
    if let Some(vector) = read_usual(alloc, text)? {
        return Ok(Bytes::from_vec(vector));
    }
    read_exactly(alloc, text)
}

/// The same, byte by byte, for texts in any form.
fn read_exactly(alloc: Global, text: &[u8]) -> Result<Bytes, LitFault>
    ensures { IsExactAnswer WantOfMemory (λ vector. SpellsInt8 text.now vector) (λ fault. IsInt8Fault text.now fault) result }
{
    let mut reader = Reader::new(alloc);
    for (place, byte) in text.iter().enumerate() {
        if !reader.read(*byte)? {
            return Err(LitFault::Place(place));
        }
    }
    reader.finish(text.len())
}

/// The literal of the vector, without white space. Reading it gives the vector.
pub fn write_int8(alloc: Global, vector: &[u8]) -> Result<Txt, Memory>
    ensures text { IfOk result (λ t. t ≡ int8_text vector.now) }
    ensures reads_back { IfOk result (λ t. SpellsInt8 t vector.now) }
{
    let mut text = String::new(alloc);
    put_int8(&mut text, vector)?;
    Ok(Txt::from_string(text))
}

/// A literal of which the bytes so far are read.
#[derive(Drop)]
struct Reader {
    stage: Stage,
    /// The bytes of the elements before the first that does not fit.
    vector: Bytes,
    /// The index of the first element that does not fit.
    misfit: Option<usize>,
}

impl Reader {
    ghost use Rattle.vec_literal.specs.inner.Int8Reading.{ReadsByte, with_element, ended, reader_at, outcome_of};

    /// A reader that has read nothing.
    fn new(alloc: Global) -> Reader
        ensures { result ≡ reader_at Stage.Start [] }
    {
        Reader {
            stage: Stage::Start,
            vector: Bytes::new(alloc),
            misfit: None,
        }
    }

    /// Reads the next byte. Answers `false` where it does not fit the form.
    fn read(&mut self, byte: u8) -> Result<bool, Memory>
        ensures { IfOk result (λ fits. ReadsByte self.old byte fits self.new) }
    {
        let Some(next) = self.stage.after(byte) else {
            return Ok(false);
        };
        self.end_number(byte)?;
        self.stage = next;
        Ok(true)
    }

    /// Takes over the number that the byte ends, if it ends one.
    fn end_number(&mut self, byte: u8) -> Result<(), Memory>
        ensures { OnOk result (self.new ≡ ended self.old byte) }
    {
        match self.stage {
            Stage::Digits(number) if !byte.is_ascii_digit() => self.add(number),
            _ => Ok(()),
        }
    }

    /// Takes over an element.
    fn add(&mut self, number: Number) -> Result<(), Memory>
        ensures { OnOk result (self.new ≡ with_element self.old number) }
    {
        if self.misfit.is_some() {
            return Ok(());
        }
        match number.byte() {
            Some(byte) => self.vector.push(byte),
            None => {
                self.misfit = Some(self.vector.len());
                Ok(())
            }
        }
    }

    /// The vector of a text, of this length in bytes, that ends here.
    fn finish(self, length: usize) -> Result<Bytes, LitFault>
        ensures { result ≡ outcome_of self length }
    {
        if !matches!(self.stage, Stage::Closed) {
            return Err(LitFault::Place(length));
        }
        match self.misfit {
            Some(index) => Err(LitFault::Range(index)),
            None => Ok(self.vector),
        }
    }
}

/// What stands before the next byte, and so which bytes may come.
#[derive(Clone, Copy)]
enum Stage {
    /// Nothing but white space.
    Start,
    /// `[`, and maybe white space.
    Opened,
    /// `,`, and maybe white space.
    Comma,
    /// `-`.
    Minus,
    /// A digit.
    Digits(Number),
    /// An element and white space.
    Between,
    /// `]`, and maybe white space.
    Closed,
}

impl Stage {
    ghost use Rattle.vec_literal.specs.inner.Int8Reading.{after_space, after_mark, stage_after};

    /// The stage after the byte, or `None` where the byte does not fit the form.
    fn after(self, byte: u8) -> Option<Stage>
        ensures { result ≡ stage_after self byte }
    {
        if is_space(byte) {
            self.after_space()
        } else {
            self.after_mark(byte)
        }
    }

    /// The stage after white space.
    fn after_space(self) -> Option<Stage>
        ensures { result ≡ after_space self }
    {
        match self {
            Stage::Minus => None,
            Stage::Digits(_) => Some(Stage::Between),
            _ => Some(self),
        }
    }

    /// The stage after a byte that is no white space.
    fn after_mark(self, byte: u8) -> Option<Stage>
        ensures { result ≡ after_mark self byte }
    {
        match self {
            Stage::Start => (byte == b'[').then_some(Stage::Opened),
            Stage::Opened => {
                if byte == b']' {
                    Some(Stage::Closed)
                } else {
                    number_start(byte)
                }
            }
            Stage::Comma => number_start(byte),
            Stage::Minus => first_digit(true, byte),
            Stage::Digits(number) => {
                if byte.is_ascii_digit() {
                    number.next_digit(byte)
                } else {
                    after_element(byte)
                }
            }
            Stage::Between => after_element(byte),
            Stage::Closed => None,
        }
    }
}

/// Whether the byte is white space of JSON.
fn is_space(byte: u8) -> bool
    ensures { result ≡ is_space byte }
{
    matches!(byte, b' ' | b'\t' | b'\n' | b'\r')
}

/// The stage after the first byte of an element.
fn number_start(byte: u8) -> Option<Stage>
    ensures { result ≡ number_start byte }
{
    if byte == b'-' {
        Some(Stage::Minus)
    } else {
        first_digit(false, byte)
    }
}

/// The stage after the first digit of an element.
fn first_digit(negative: bool, byte: u8) -> Option<Stage>
    ensures { result ≡ first_digit negative byte }
{
    if byte.is_ascii_digit() {
        Some(Stage::Digits(Number {
            negative,
            magnitude: u16::from(byte - b'0'),
        }))
    } else {
        None
    }
}

/// The stage after the mark that ends an element.
fn after_element(byte: u8) -> Option<Stage>
    ensures { result ≡ after_element byte }
{
    match byte {
        b',' => Some(Stage::Comma),
        b']' => Some(Stage::Closed),
        _ => None,
    }
}

/// A number of which the digits so far are read.
#[derive(Clone, Copy)]
pub(crate) struct Number {
    pub(crate) negative: bool,
    /// The number without its sign. From `TOO_LARGE` on it grows no further.
    pub(crate) magnitude: u16,
}

/// A magnitude that fits no element, with any sign.
pub(crate) const TOO_LARGE: u16 = 1000;

/// The greatest element.
const GREATEST: u16 = i8::MAX as u16;

/// How many values a byte has.
const BYTES: u16 = 1 << 8;

impl Number {
    ghost use Rattle.std.specs.Prelude.{IsTrue};
    ghost use Rattle.std.specs.Char.{is_ascii_digit};
    ghost use Rattle.vec_literal.specs.inner.Int8Reading.{byte_of, next_digit};

    /// The byte of the element, or `None` where the number is outside -128 to 127.
    pub(crate) fn byte(self) -> Option<u8>
        ensures { result ≡ byte_of self }
    {
        if self.negative {
            if self.magnitude <= GREATEST + 1 {
                Some(((BYTES - self.magnitude) % BYTES) as u8)
            } else {
                None
            }
        } else if self.magnitude <= GREATEST {
            Some(self.magnitude as u8)
        } else {
            None
        }
    }

    /// The stage with one digit more, or `None` after a leading zero.
    fn next_digit(self, digit: u8) -> Option<Stage>
        requires { IsTrue (is_ascii_digit digit) }
        ensures { result ≡ next_digit self digit }
    {
        if self.magnitude == 0 {
            return None;
        }
        let magnitude = if self.magnitude < TOO_LARGE {
            self.magnitude * 10 + u16::from(digit - b'0')
        } else {
            self.magnitude
        };
        Some(Stage::Digits(Number {
            negative: self.negative,
            magnitude,
        }))
    }
}
