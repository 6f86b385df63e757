//! Where the tables are kept.
ghost use Rattle.std.specs.Prelude.{◌≡◌, Ok, ok_or};
ghost use Rattle.vec_base.specs.Answers.{Gives};
ghost use Rattle.vec_words.specs.declared.fault.WordsFault.TheVariants.{Memory, Words};
ghost use Rattle.vec_words.specs.Configs.{path_in, store_of};
ghost use Rattle.vec_words.specs.inner.Given.{lent};

use crate::WordsFault;
use crate::config::Store;
use std::alloc::Global;
use vec_base::Txt;

/// A copy of the text.
pub(crate) fn copied(alloc: Global, text: &str) -> Result<Txt, WordsFault>
    ensures { Gives Memory result (Ok text.now) }
{
    match Txt::from_text(alloc, text) {
        Ok(copy) => Ok(copy),
        Err(_) => Err(WordsFault::Memory),
    }
}

/// The path that a text spells.
fn path(alloc: Global, text: &str) -> Result<Txt, WordsFault>
    ensures { Gives Memory result (ok_or (path_in text.now) Words) }
{
    if text.is_empty() {
        return Err(WordsFault::Words);
    }
    copied(alloc, text)
}

/// The store that the paths of a journal and of a database name.
pub(crate) fn store_named(
    alloc: Global,
    journal: Option<&str>,
    sqlite: Option<&str>,
) -> Result<Store, WordsFault>
    ensures { Gives Memory result (ok_or (store_of (lent journal.entry) (lent sqlite.entry)) Words) }
{
    match (journal, sqlite) {
        (None, None) => Ok(Store::InMemory),
        (Some(text), None) => path(alloc, text).map(Store::Journal),
        (None, Some(text)) => path(alloc, text).map(Store::Sqlite),
        (Some(_), Some(_)) => Err(WordsFault::Words),
    }
}
