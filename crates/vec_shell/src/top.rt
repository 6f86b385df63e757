//! All that the program does.

ghost use Rattle.std.specs.Prelude.{◌≡◌, ◌⊎◌, ◌≤◌, true, false, is_some, map, codes, string_bytes, IfOk, IfSome, Some};
ghost use Rattle.vec_base.specs.Streams.{Rose};
ghost use Rattle.vec_shell.specs.Runs.{change_of};
ghost use Rattle.row_model.specs.declared.request.Request.TheVariants.{OpenSession};
ghost use Rattle.row_model.specs.declared.request.Reply.TheVariants.{Session as Opened};
ghost use Rattle.row_model.specs.declared.state.State.{State};
ghost use Rattle.row_model.specs.Machine.{first_state, no_tables};
ghost use Rattle.row_model.specs.Step.{answer_of};
ghost use Rattle.vec_shell.specs.Outcome.{is_in_memory, is_served_config, is_shell, is_shell_mode, LastLine, NoneRefused, OnlyStarved, IsShellRun, IsWholeRun, SomeRefused};

use crate::engine_session::{EngineSession, FIRST};
use crate::output::write_all;
use crate::shell::{Room, run_session};
use std::alloc::Global;
use std::marker::Sync;
use std::thread::Threads;
use vec_base::{Memory, Sink, Source};
use vec_words::{Config, Mode, Store, WordsFault, read_words};

fn is_shell_mode(mode: &Mode) -> bool
    ensures { result ≡ is_shell_mode mode.now }
{
    match mode {
        Mode::Shell => true,
        Mode::Serve(_) => false,
        Mode::Load(_) => false,
        Mode::Dump(_) => false,
        Mode::Sample(_, _) => false,
    }
}

fn is_in_memory(store: &Store) -> bool
    ensures { result ≡ is_in_memory store.now }
{
    match store {
        Store::InMemory => true,
        Store::Journal(_) => false,
        Store::Sqlite(_) => false,
    }
}

/// How many workers a configuration gives the shell over tables in memory, where it asks for that. No other mode and no other store stands yet.
fn workers_in(config: &Config) -> Option<u8>
    ensures asked { is_some result ≡ is_served_config (Some config.now) }
    ensures same { IfSome result (λ workers. workers ≡ config.now.workers) }
{
    if is_shell_mode(&config.mode) && is_in_memory(&config.store) {
        Some(config.workers)
    } else {
        None
    }
}

/// How many workers the words give the shell over tables in memory, where they ask for it.
fn workers_of(alloc: Global, words: &[String]) -> Result<Option<u8>, Memory>
    ensures asked { IfOk result (λ workers. is_some workers ≡ is_shell (map string_bytes words.now)) }
    ensures least { IfOk result (λ workers. IfSome workers (λ count. 1 ≤ count)) }
{
    match read_words(alloc, words) {
        Ok(config) => Ok(workers_in(&config)),
        Err(WordsFault::Words) => Ok(None),
        Err(WordsFault::Memory) => Err(Memory),
    }
}

/// The memory of a run, and its session.
fn open(alloc: Global, workers: u8) -> Result<(Room, EngineSession), Memory>
    requires { 1 ≤ workers }
    ensures { IfOk result (λ opened. answer_of (first_state no_tables) OpenSession ≡ (Opened FIRST, opened.1.engine.state)) }
{
    Ok((Room::new(alloc)?, EngineSession::open(alloc, workers)?))
}

/// What the words ask for: the memory of a run of the shell and its session. None where they ask for no such run.
fn opened(alloc: Global, words: &[String]) -> Result<Option<(Room, EngineSession)>, Memory>
    ensures asked { IfOk result (λ found. is_some found ≡ is_shell (map string_bytes words.now)) }
    ensures session { IfOk result (λ found. IfSome found (λ opened. answer_of (first_state no_tables) OpenSession ≡ (Opened FIRST, opened.1.engine.state))) }
{
    match workers_of(alloc, words)? {
        Some(workers) => Ok(Some(open(alloc, workers)?)),
        None => Ok(None),
    }
}

/// All that the program does; the words are those of its command line, its own name first. Answers the exit status.
///
/// Where they ask for the shell over tables in memory, it reads statements from the source to its end and writes their replies to the sink, and
/// searches by as many workers as they say.
pub fn run<R: Threads + Sync, S: Source, O: Sink>(
    rt: &R,
    alloc: Global,
    words: &[String],
    source: &mut S,
    sink: &mut O,
) -> u8
    ensures words { result ≡ 1 → is_shell (map string_bytes words.now) ≡ false }
    ensures words_refused { is_shell (map string_bytes words.now) ≡ false → (source.new ≡ source.old)
        × (((result ≡ 1) × LastLine (codes "error words\n") (O.taken sink.old) (O.taken sink.new) (O.faults sink.old) (O.faults sink.new))
        ⊎ ((result ≡ 7) × LastLine (codes "error memory\n") (O.taken sink.old) (O.taken sink.new) (O.faults sink.old) (O.faults sink.new))) }

    // The run itself, or want of memory before the source is touched.
    ensures shell { is_shell (map string_bytes words.now) ≡ true →
        ((last : State) × IsShellRun last (change_of S.left S.given O.taken source.old source.new sink.old sink.new) result)
        ⊎ ((result ≡ 7) × (source.new ≡ source.old)
        × LastLine (codes "error memory\n") (O.taken sink.old) (O.taken sink.new) (O.faults sink.old) (O.faults sink.new)) }

    // What each status is caused by.
    ensures none_refused { result ≡ 0 → IsWholeRun NoneRefused (change_of S.left S.given O.taken source.old source.new sink.old sink.new) result }
    ensures some_refused { result ≡ 2 → IsWholeRun SomeRefused (change_of S.left S.given O.taken source.old source.new sink.old sink.new) result }
    ensures read_failed { result ≡ 3 → Rose (S.faults source.old) (S.faults source.new) }
    ensures write_failed { result ≡ 4 → Rose (O.faults sink.old) (O.faults sink.new) }
    ensures starved { result ≡ 7 →
        IsWholeRun OnlyStarved (change_of S.left S.given O.taken source.old source.new sink.old sink.new) result
        ⊎ ((source.new ≡ source.old)
        × LastLine (codes "error memory\n") (O.taken sink.old) (O.taken sink.new) (O.faults sink.old) (O.faults sink.new)) }
{
    match opened(alloc, words) {
        Ok(Some((room, session))) => run_session(rt, alloc, room, session, source, sink).status,
        Ok(None) => {
            let _ = write_all(sink, b"error words\n");
            1
        }
        Err(Memory) => {
            let _ = write_all(sink, b"error memory\n");
            7
        }
    }
}
