//! Numbers of tables: by name, the least free one, and how many there are.
ghost use Rattle.std.specs.Prelude.{◌≡◌, ℕ, ◌<◌, ◌≤◌, None, length, IfNone, IfSome};
ghost use Rattle.row_model.specs.Change.{table_named};
ghost use Rattle.version_shelf.specs.Numbers.{is_named_in, numbered, IsFreeFrom, IsNumberFrom};
ghost use Rattle.version_shelf.specs.OnShelf.{at_place, shown};
ghost use Rattle.version_shelf.specs.inner.Origins.{versions};

use crate::slots::{Kept, is_there, named_at};
use row_model::is_same_name;
use vec_base::Txt;

/// Whether the version at the place has the name.
fn is_named(slots: &[Option<Kept>], place: Option<usize>, name: &Txt) -> bool
    ensures { result ≡ is_named_in name.now (at_place (versions slots.now) place) }
{
    match named_at(slots, place) {
        Some(version) => is_same_name(version.name(), name),
        None => false,
    }
}

/// Where the version of the name stands.
#[tactic(auto, using(crate::proofs::NumberLaws::number_first, crate::proofs::NumberLaws::number_later, crate::proofs::NumberLaws::number_none))]
pub(crate) fn number_in(
    slots: &[Option<Kept>],
    places: &[Option<usize>],
    name: &Txt,
) -> Option<usize>
    ensures within { IfSome result (λ at. at < length places.now) }
    ensures none { IfNone result ((base : ℕ) → table_named name.now (numbered base (shown (versions slots.now) places.now)) ≡ None) }
    ensures some { IfSome result (λ at. (base : ℕ) → IsNumberFrom base name.now (shown (versions slots.now) places.now) at) }
{
    let (place, others) = places.split_first()?;
    if is_named(slots, *place, name) {
        return Some(0);
    }
    match number_in(slots, others, name) {
        Some(at) => Some(at + 1),
        None => None,
    }
}

/// Where the first version is missing.
#[tactic(auto, using(crate::proofs::NumberLaws::free_first, crate::proofs::NumberLaws::free_later))]
pub(crate) fn free_in(slots: &[Option<Kept>], places: &[Option<usize>]) -> Option<usize>
    ensures within { IfSome result (λ at. at < length places.now) }
    ensures free { IfSome result (λ at. (base : ℕ) → IsFreeFrom base (shown (versions slots.now) places.now) at) }
{
    let (place, others) = places.split_first()?;
    if !is_there(slots, *place) {
        return Some(0);
    }
    match free_in(slots, others) {
        Some(at) => Some(at + 1),
        None => None,
    }
}

/// How many versions there are.
#[tactic(auto, using(crate::proofs::NumberLaws::count_more, crate::proofs::NumberLaws::count_less))]
pub(crate) fn count_in(slots: &[Option<Kept>], places: &[Option<usize>]) -> usize
    ensures few { result ≤ length places.now }
    ensures count { (base : ℕ) → result ≡ length (numbered base (shown (versions slots.now) places.now)) }
{
    match places.split_first() {
        Some((place, others)) => {
            let more = count_in(slots, others);
            if is_there(slots, *place) {
                more + 1
            } else {
                more
            }
        }
        None => 0,
    }
}
