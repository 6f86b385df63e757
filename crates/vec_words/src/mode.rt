//! The mode, with the options that go with it alone.
ghost use Rattle.std.specs.Prelude.{◌≡◌, ok_or};
ghost use Rattle.vec_base.specs.Answers.{Gives};
ghost use Rattle.vec_words.specs.declared.fault.WordsFault.TheVariants.{Memory, Words};
ghost use Rattle.vec_words.specs.Configs.{has_of_serve, has_of_sample, serve_of, shell_of, table_of, sample_of, mode_at};
ghost use Rattle.vec_words.specs.inner.Given.{values_in};

use crate::WordsFault;
use crate::config::{MOST_EXCHANGES, MOST_SAMPLE_ROWS, Mode};
use crate::given::Given;
use crate::name::name_lowered;
use crate::number::{number_given, number_within};
use std::alloc::Global;
use vec_base::Txt;

/// Whether an option of `serve` is given.
fn has_serving(given: &Given) -> bool
    ensures { result ≡ has_of_serve (values_in given.now) }
{
    given.exchanges.is_some() || given.listen.is_some()
}

/// Whether an option of `sample` is given.
fn has_sampling(given: &Given) -> bool
    ensures { result ≡ has_of_sample (values_in given.now) }
{
    given.seed.is_some() || given.rows.is_some()
}

/// The mode `serve`.
fn serve(given: &Given) -> Option<Mode>
    ensures { result ≡ serve_of (values_in given.now) }
{
    if given.table.is_some() || has_sampling(given) {
        return None;
    }
    let most = u64::from(MOST_EXCHANGES);
    match number_given(given.exchanges, most, 1, most) {
        Some(count) => Some(Mode::Serve(count as u32)),
        None => None,
    }
}

/// The mode `shell`.
fn shell(given: &Given) -> Option<Mode>
    ensures { result ≡ shell_of (values_in given.now) }
{
    if has_serving(given) || given.table.is_some() || has_sampling(given) {
        return None;
    }
    Some(Mode::Shell)
}

/// The mode `sample`.
fn sample(given: &Given) -> Option<Mode>
    ensures { result ≡ sample_of (values_in given.now) }
{
    if has_serving(given) || given.table.is_some() {
        return None;
    }
    let seed = number_within(given.seed?, 0, u64::MAX)?;
    let rows = number_within(given.rows?, 1, u64::from(MOST_SAMPLE_ROWS))?;
    Some(Mode::Sample(seed, rows as u32))
}

/// The table of `load` and `dump`.
fn table(alloc: Global, given: &Given) -> Result<Txt, WordsFault>
    ensures { Gives Memory result (ok_or (table_of (values_in given.now)) Words) }
{
    if has_serving(given) || has_sampling(given) {
        return Err(WordsFault::Words);
    }
    match given.table {
        Some(text) => name_lowered(alloc, text),
        None => Err(WordsFault::Words),
    }
}

/// The mode that a word names, with the options that go with it.
pub(crate) fn mode_named(alloc: Global, given: &Given, word: &str) -> Result<Mode, WordsFault>
    ensures { Gives Memory result (ok_or (mode_at (values_in given.now) word.now) Words) }
{
    match word {
        "serve" => serve(given).ok_or(WordsFault::Words),
        "shell" => shell(given).ok_or(WordsFault::Words),
        "load" => table(alloc, given).map(Mode::Load),
        "dump" => table(alloc, given).map(Mode::Dump),
        "sample" => sample(given).ok_or(WordsFault::Words),
        _ => Err(WordsFault::Words),
    }
}
