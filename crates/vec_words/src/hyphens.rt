//! Words with hyphens that name no option.
ghost use Rattle.std.specs.Prelude.{◌≡◌, map, string_bytes};
ghost use Rattle.vec_words.specs.inner.CommandLine.{is_short, has_short_word};

/// Whether a word is `-`, `--`, or one hyphen with other bytes behind it.
fn is_short_flag(word: &[u8]) -> bool
    ensures { result ≡ is_short word.now }
{
    match word {
        [b'-'] | [b'-', _] => true,
        [b'-', second, _, ..] => *second != b'-',
        _ => false,
    }
}

/// Whether some word is.
pub(crate) fn has_short_flag(words: &[String]) -> bool
    ensures { result ≡ has_short_word (map string_bytes words.now) }
{
    for word in words {
        if is_short_flag(word.as_bytes()) {
            return true;
        }
    }
    false
}
