//! Tokens, one after another.
ghost use Rattle.std.specs.Char.{is_ascii_digit, is_ascii_hexdigit};
ghost use Rattle.std.specs.List.{prefix_len};
ghost use Rattle.std.specs.Prelude.{MatchOption, drop, length, true, ◌<◌, ◌≡◌, ◌≤◌};
ghost use Rattle.vec_literal.specs.inner.Stretches.{
  EndsNowhere,
  IsPart,
  IsTokenAt,
  LongestEnd,
  is_pair,
  is_plain,
  is_quoted_text,
  is_single,
  run_end,
  sort_at,
};
ghost use Rattle.vec_literal.specs.Tokens.{
  IsNext,
  NoneIn,
  after,
  begins_blob,
  is_hex_to_quote,
  is_letter,
  is_mark_text,
  is_right,
  is_white,
  is_word_byte,
  tokens,
};

use crate::quote::before_quote;

/// What a token is: a word, a number, a text in quotes, a blob in hexadecimal digits, a parameter or a mark.
#[derive(Clone, Copy, Debug, PartialEq, Eq)]
pub enum TokenSort {
    Word,
    Number,
    TextLit,
    BlobLit,
    Param,
    Mark,
}

/// A token's sort, the place of its first byte, and the place behind its last byte.
#[derive(Clone, Copy, Debug)]
pub struct Token {
    pub sort: TokenSort,
    pub from: usize,
    pub upto: usize,
}

/// What stands next in a text: a token, nothing but white space, or a byte at which no token can be read.
#[derive(Clone, Copy, Debug)]
pub enum Lexed {
    Found(Token),
    End,
    Bad(usize),
}

/// What stands next in the text from a place on. The longest spelling is taken. It takes no memory.
pub fn next_token(text: &[u8], from: usize) -> Lexed
    requires { from ≤ length text.now }
    ensures next { IsNext text.now from result }
    ensures tokens { tokens text.now from ≡ after text.now result }
    ensures right { is_right text.now result ≡ true }
{
    let start = white_end(text, from);
    if start == text.len() {
        return Lexed::End;
    }
    match token_at(text, start) {
        Some(token) => Lexed::Found(token),
        None => Lexed::Bad(start),
    }
}

/// The longest token that begins at the place, if one does.
fn token_at(text: &[u8], from: usize) -> Option<Token>
    requires { from < length text.now }
    ensures { MatchOption result (NoneIn (drop from text.now)) (IsTokenAt text.now from) }
{
    let sort = sort_at(text, from);
    let upto = match sort {
        TokenSort::Word => word_end(text, from + 1),
        TokenSort::Number | TokenSort::Param => digits_end(text, from + 1),
        TokenSort::TextLit => quoted_end(text, from + 1)?,
        TokenSort::BlobLit => hex_end(text, from + 2)?,
        TokenSort::Mark => mark_end(text, from)?,
    };
    Some(Token { sort, from, upto })
}

/// The only sort of which a token can begin at the place.
fn sort_at(text: &[u8], from: usize) -> TokenSort
    requires { from < length text.now }
    ensures { result ≡ sort_at (drop from text.now) }
{
    let first = text[from];
    if begins_blob(text, from) {
        TokenSort::BlobLit
    } else if is_letter(first) {
        TokenSort::Word
    } else if first.is_ascii_digit() {
        TokenSort::Number
    } else if first == b'\'' {
        TokenSort::TextLit
    } else if first == b'?' {
        TokenSort::Param
    } else {
        TokenSort::Mark
    }
}

/// Whether `x` or `X` and a quote stand at the place.
fn begins_blob(text: &[u8], from: usize) -> bool
    requires { from < length text.now }
    ensures { result ≡ begins_blob (drop from text.now) }
{
    from + 1 < text.len() && (text[from] == b'x' || text[from] == b'X') && text[from + 1] == b'\''
}

/// Whether a word can begin with the byte.
fn is_letter(byte: u8) -> bool
    ensures { result ≡ is_letter byte }
{
    byte.is_ascii_alphabetic() || byte == b'_'
}

/// Whether a word can go on with the byte.
fn is_word_byte(byte: u8) -> bool
    ensures { result ≡ is_word_byte byte }
{
    byte.is_ascii_alphanumeric() || byte == b'_'
}

/// Whether the byte is white space.
fn is_white(byte: u8) -> bool
    ensures { result ≡ is_white byte }
{
    const FORM_FEED: u8 = 12;
    matches!(byte, b' ' | b'\t' | b'\n' | FORM_FEED | b'\r')
}

/// How many bytes of white space the text begins with.
pub fn leading_white(text: &[u8]) -> usize
    ensures white { result ≡ prefix_len is_white text.now }
    ensures inside { result ≤ length text.now }
{
    text.iter().take_while(|byte| is_white(**byte)).count()
}

/// The end of the white space from a place on.
fn white_end(text: &[u8], from: usize) -> usize
    requires { from ≤ length text.now }
    ensures run { result ≡ run_end is_white text.now from }
    ensures inside { result ≤ length text.now }
{
    from + leading_white(&text[from..])
}

/// The end of the letters, digits and `_` from a place on.
fn word_end(text: &[u8], from: usize) -> usize
    requires { from ≤ length text.now }
    ensures run { result ≡ run_end is_word_byte text.now from }
    ensures inside { result ≤ length text.now }
{
    from + text[from..]
        .iter()
        .take_while(|byte| is_word_byte(**byte))
        .count()
}

/// The end of the digits from a place on.
fn digits_end(text: &[u8], from: usize) -> usize
    requires { from ≤ length text.now }
    ensures run { result ≡ run_end is_ascii_digit text.now from }
    ensures inside { result ≤ length text.now }
{
    from + text[from..]
        .iter()
        .take_while(|byte| byte.is_ascii_digit())
        .count()
}

/// The end of the hexadecimal digits from a place on.
fn hex_digits_end(text: &[u8], from: usize) -> usize
    requires { from ≤ length text.now }
    ensures run { result ≡ run_end is_ascii_hexdigit text.now from }
    ensures inside { result ≤ length text.now }
{
    from + text[from..]
        .iter()
        .take_while(|byte| byte.is_ascii_hexdigit())
        .count()
}

/// The place of the first quote from a place on, or the text's length where there is none.
fn quote_from(text: &[u8], from: usize) -> usize
    requires { from ≤ length text.now }
    ensures run { result ≡ run_end is_plain text.now from }
    ensures inside { result ≤ length text.now }
{
    from + before_quote(&text[from..])
}

/// The end of the longest mark that begins at the place, if one does.
fn mark_end(text: &[u8], from: usize) -> Option<usize>
    requires { from < length text.now }
    ensures { LongestEnd is_mark_text text.now from (length text.now) result }
{
    if from + 1 < text.len() && is_pair(text[from], text[from + 1]) {
        return Some(from + 2);
    }
    if is_single(text[from]) {
        return Some(from + 1);
    }
    None
}

/// Whether the byte is a mark.
fn is_single(byte: u8) -> bool
    ensures { result ≡ is_single byte }
{
    matches!(
        byte,
        b'(' | b')' | b'[' | b']' | b',' | b';' | b'*' | b'+' | b'-' | b'=' | b'<' | b'>'
    )
}

/// Whether the two bytes are a mark.
fn is_pair(first: u8, second: u8) -> bool
    ensures { result ≡ is_pair first second }
{
    match first {
        b'=' | b'!' | b'>' => second == b'=',
        b'<' => second == b'=' || second == b'>',
        _ => false,
    }
}

/// The end of the pairs of hexadecimal digits that stand at the place, with the quote that closes them, if there is one.
fn hex_end(text: &[u8], from: usize) -> Option<usize>
    requires { from ≤ length text.now }
    ensures { LongestEnd is_hex_to_quote text.now from (length text.now) result }
{
    let quote = hex_digits_end(text, from);
    if (quote - from) % 2 == 0 && quote < text.len() && text[quote] == b'\'' {
        Some(quote + 1)
    } else {
        None
    }
}

/// The end of the longest text that stands at the place, with the quote that closes it, if there is one. The text is UTF-8
/// in which each quote is doubled.
fn quoted_end(text: &[u8], from: usize) -> Option<usize>
    requires { from ≤ length text.now }
    ensures { LongestEnd is_quoted_text text.now from (length text.now) result }
{
    let mut end = None;
    let mut start = from;
    while let Some(quote) = part_end(text, start) {
        end = Some(quote + 1);
        if quote + 1 == text.len() || text[quote + 1] != b'\'' {
            break;
        }
        start = quote + 2;
    }
    end
}

/// The place of the first quote from a place on, if what stands before it is UTF-8.
fn part_end(text: &[u8], from: usize) -> Option<usize>
    requires { from ≤ length text.now }
    ensures { MatchOption result (EndsNowhere is_quoted_text text.now from (length text.now)) (IsPart text.now from) }
{
    let quote = quote_from(text, from);
    if quote < text.len() && str::from_utf8(&text[from..quote]).is_ok() {
        Some(quote)
    } else {
        None
    }
}
