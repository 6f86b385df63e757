//! The words of the command line.
ghost use Rattle.std.specs.Prelude.{◌≡◌, ◌≤◌, ok_or, map, string_bytes, IfOk};
ghost use Rattle.vec_base.specs.Answers.{Gives};
ghost use Rattle.vec_words.specs.declared.fault.WordsFault.TheVariants.{Memory, Words};
ghost use Rattle.vec_words.specs.Configs.{config_at, config_of};
ghost use Rattle.vec_words.specs.inner.Given.{values_in};

use crate::WordsFault;
use crate::command::matched;
use crate::config::{Config, DEFAULT_LISTEN, MOST_WORKERS};
use crate::given::Given;
use crate::hyphens::has_short_flag;
use crate::mode::mode_named;
use crate::number::number_given;
use crate::store::{copied, store_named};
use std::alloc::Global;

/// The configuration of what is given.
fn config_given(alloc: Global, given: &Given) -> Result<Config, WordsFault>
    ensures exact { Gives Memory result (ok_or (config_at (values_in given.now)) Words) }
    ensures least { IfOk result (λ config. 1 ≤ config.workers) }
    ensures most { IfOk result (λ config. config.workers ≤ 64) }
{
    let word = given.mode.ok_or(WordsFault::Words)?;
    let mode = mode_named(alloc, given, word)?;
    let store = store_named(alloc, given.journal, given.sqlite)?;
    let workers = number_given(given.workers, 1, 1, u64::from(MOST_WORKERS)).ok_or(
        WordsFault::Words,
    )?;
    let listen = copied(alloc, given.listen.unwrap_or(DEFAULT_LISTEN))?;
    Ok(Config {
        mode,
        store,
        workers: workers as u8,
        listen,
    })
}

/// Reads the words of the command line, the program's name first. Answers the configuration that they spell, or that they
/// spell none.
///
/// # Errors
/// `Words` where they are no words of the program, and `Memory` for want of memory.
pub fn read_words(alloc: Global, words: &[String]) -> Result<Config, WordsFault>
    ensures exact { Gives Memory result (ok_or (config_of (map string_bytes words.now)) Words) }
    ensures least { IfOk result (λ config. 1 ≤ config.workers) }
    ensures most { IfOk result (λ config. config.workers ≤ 64) }
{
    let [_, others @ ..] = words else {
        return Err(WordsFault::Words);
    };
    if has_short_flag(others) {
        return Err(WordsFault::Words);
    }
    let matches = matched(alloc, words)?;
    config_given(alloc, &Given::from_matches(&matches))
}
