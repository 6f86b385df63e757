//! Names of tables.
ghost use Rattle.std.specs.Prelude.{◌≡◌, ok_or, map, bytes_eq};
ghost use Rattle.std.specs.List.{list_all, list_any};
ghost use Rattle.vec_base.specs.Answers.{Gives};
ghost use Rattle.vec_base.specs.Words.{is_name_byte, is_small_letter, is_small_word, is_reserved, is_name};
ghost use Rattle.vec_words.specs.declared.fault.WordsFault.TheVariants.{Memory, Words};
ghost use Rattle.vec_words.specs.Configs.{name_in};

use crate::WordsFault;
use std::alloc::Global;
use vec_base::{MOST_NAME_BYTES, RESERVED_UNSUPPORTED, STATEMENT_WORDS, Txt, UNSUPPORTED_WORDS};

/// Whether the byte is a small letter or `_`.
fn is_first(byte: u8) -> bool
    ensures { result ≡ is_small_letter byte }
{
    byte.is_ascii_lowercase() || byte == b'_'
}

/// Whether all bytes are small letters, `_` or digits.
fn are_further(bytes: &[u8]) -> bool
    ensures { result ≡ list_all is_name_byte bytes.now }
{
    bytes
        .iter()
        .all(|byte| is_first(*byte) || byte.is_ascii_digit())
}

/// Whether a word begins with a small letter or `_`, and goes on with these and digits.
fn is_small(word: &[u8]) -> bool
    ensures { result ≡ is_small_word word.now }
{
    match word {
        [] => false,
        [first, rest @ ..] => is_first(*first) && are_further(rest),
    }
}

/// Whether the word is one of these.
fn is_among(word: &str, words: &[&str]) -> bool
    ensures { result ≡ list_any (bytes_eq word.now) (map (λ known. known.now) words.now) }
{
    for known in words {
        if word == *known {
            return true;
        }
    }
    false
}

/// Whether the word is no name, since statements use it.
fn is_taken(word: &str) -> bool
    ensures { result ≡ is_reserved word.now }
{
    is_among(word, &STATEMENT_WORDS) || is_among(word, &UNSUPPORTED_WORDS[..RESERVED_UNSUPPORTED])
}

/// Whether the word is a name.
fn can_name(word: &str) -> bool
    ensures { result ≡ is_name word.now }
{
    is_small(word.as_bytes()) && word.len() <= MOST_NAME_BYTES && !is_taken(word)
}

/// The name that a text spells in any case, in lower case.
pub(crate) fn name_lowered(alloc: Global, text: &str) -> Result<Txt, WordsFault>
    ensures { Gives Memory result (ok_or (name_in text.now) Words) }
{
    let lowered = text.to_ascii_lowercase(alloc)?;
    if can_name(&lowered) {
        Ok(Txt::from_string(lowered))
    } else {
        Err(WordsFault::Words)
    }
}
