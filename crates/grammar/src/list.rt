//! Lists of a grammar, read by one loop.
ghost use Rattle.std.specs.Prelude.{◌≡◌, ◌<◌, Bool, true, IfOk, [], ◌∷◌, length};
ghost use Rattle.std.specs.List.{list_all};
ghost use Rattle.grammar.specs.inner.ReaderResults.{rest_of, Gives};
ghost use Rattle.grammar.specs.Grammar.{Class, Part, a_token, parts_with, ◌▸◌};
ghost use Rattle.grammar.specs.inner.Reading.{next_in, read};

use crate::reader::{Reader, Stop};
use std::alloc::Global;
use vec_base::{List, Txt};

/// One item of a list of the grammar.
pub trait Item<'a>: Drop + Sized {
    /// The part that spells an item.
    ghost part: { Part Self };

    /// What holds of each item that is read.
    ghost well_formed: { Self → Bool };

    /// The token between two items.
    ghost between: { Class };

    /// Reads an item.
    fn read(alloc: Global, reader: &mut Reader<'a>) -> Result<Self, Stop>
        ensures reads { Gives (λ x. x) result (read part (rest_of reader.old)) (rest_of reader.new) }
        ensures well_formed { IfOk result (λ x. well_formed x ≡ true) };

    /// Whether the token between two items is at hand.
    fn at_next(reader: &Reader<'a>) -> bool
        ensures { result ≡ next_in (between ∷ []) (rest_of reader.now) };

    /// Passes the token between two items.
    fn pass(reader: &mut Reader<'a>) -> Result<(), Stop>
        ensures { Gives (λ x. x) result (read (a_token between) (rest_of reader.old)) (rest_of reader.new) };
}

/// Passes the token between two items and reads an item.
fn next<'a, I: Item<'a>>(alloc: Global, reader: &mut Reader<'a>) -> Result<I, Stop>
    ensures reads { Gives (λ x. x) result (read (a_token I.between ▸ I.part) (rest_of reader.old)) (rest_of reader.new) }
    ensures well_formed { IfOk result (λ x. I.well_formed x ≡ true) }
{
    I::pass(reader)?;
    I::read(alloc, reader)
}

/// Reads one item or more, with the token between each two of them.
pub fn listed<'a, I: Item<'a>>(alloc: Global, reader: &mut Reader<'a>) -> Result<List<I>, Stop>
    ensures reads { Gives (λ x. x) result (read (parts_with I.between I.part) (rest_of reader.old)) (rest_of reader.new) }
    ensures well_formed { IfOk result (λ xs. list_all I.well_formed xs ≡ true) }
    ensures filled { IfOk result (λ xs. 0 < length xs) }
{
    let first = I::read(alloc, reader)?;
    let mut items = List::new(alloc);
    items.push(first)?;
    while I::at_next(reader) {
        let item = next::<I>(alloc, reader)?;
        items.push(item)?;
    }
    Ok(items)
}

impl<'a> Item<'a> for Txt {
    ghost use Rattle.std.specs.Prelude.{codes};
    ghost use Rattle.vec_base.specs.Words.{is_name};
    ghost use Rattle.grammar.specs.Grammar.{a_name, sign};

    ghost part = { a_name };

    ghost well_formed = { is_name };

    ghost between = { sign (codes ",") };

    fn read(_alloc: Global, reader: &mut Reader<'a>) -> Result<Txt, Stop> {
        reader.name()
    }

    fn at_next(reader: &Reader<'a>) -> bool {
        reader.at_mark(b",")
    }

    fn pass(reader: &mut Reader<'a>) -> Result<(), Stop> {
        reader.mark(b",")
    }
}
