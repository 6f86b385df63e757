//! The command that the words are read for.
ghost use Rattle.std.specs.Prelude.{◌≡◌, ◌≢◌, ◌⊎◌, [], map, string_bytes, IfOk, IfErr};
ghost use Rattle.clap.specs.Words.{app_of, fault_of, found_of, matches_of, rows_of};
ghost use Rattle.clap.specs.Simple.{with_rule};
ghost use Rattle.vec_words.specs.declared.fault.WordsFault.TheVariants.{Memory, Words};
ghost use Rattle.vec_words.specs.inner.CommandLine.{command_line, mode_line, option_rule};

use crate::WordsFault;
use clap::error::ErrorKind;
use clap::{Arg, ArgMatches, Command};
use std::alloc::{AllocError, Global};

/// A command with one more option, which has a value.
fn with_option<'a>(
    alloc: Global,
    command: Command<'a>,
    name: &'a str,
) -> Result<Command<'a>, AllocError>
    ensures { IfOk result (λ made. app_of made ≡ with_rule (app_of command.entry) (option_rule name.entry.now)) }
{
    let option = Arg::new(alloc, name).long(name);
    command.arg(option)
}

/// A command with one word that is the mode, and no help.
fn with_mode<'a>(alloc: Global) -> Result<Command<'a>, AllocError>
    ensures { IfOk result (λ made. app_of made ≡ mode_line) }
{
    let mode = Arg::new(alloc, "mode");
    Command::new(alloc, "vec_server")
        .disable_help_flag(true)
        .arg(mode)
}

/// The mode, and eight options with a value each.
fn whole_command<'a>(alloc: Global) -> Result<Command<'a>, AllocError>
    ensures { IfOk result (λ made. app_of made ≡ command_line) }
{
    let command = with_mode(alloc)?;
    let command = with_option(alloc, command, "exchanges")?;
    let command = with_option(alloc, command, "listen")?;
    let command = with_option(alloc, command, "table")?;
    let command = with_option(alloc, command, "seed")?;
    let command = with_option(alloc, command, "rows")?;
    let command = with_option(alloc, command, "workers")?;
    let command = with_option(alloc, command, "journal")?;
    with_option(alloc, command, "sqlite")
}

/// What `clap` makes of the words.
pub(crate) fn matched<'a>(alloc: Global, words: &'a [String]) -> Result<ArgMatches<'a>, WordsFault>
    ensures ok { IfOk result (λ matches. (fault_of command_line (map string_bytes words.entry.now) ≡ [])
        × (rows_of (found_of matches) ≡ matches_of command_line (map string_bytes words.entry.now))) }
    ensures err { IfErr result (λ fault. (fault ≡ Memory) ⊎ ((fault ≡ Words) × (fault_of command_line (map string_bytes words.entry.now) ≢ []))) }
{
    let command = whole_command(alloc)?;
    match command.try_get_matches_from(words) {
        Ok(matches) => Ok(matches),
        Err(error) => match error.kind() {
            ErrorKind::OutOfMemory => Err(WordsFault::Memory),
            _ => Err(WordsFault::Words),
        },
    }
}
