//! Binary search in shared lists.
ghost use Rattle.std.specs.Prelude.{◌≡◌, ◌≤◌, ◌<◌, length, MatchResult};
ghost use Rattle.std.specs.Cmp.Lexicographic.{slice_cmp};
ghost use Rattle.std.specs.List.{HoldsAt};
ghost use Rattle.std.specs.List.Sorted.{IsNonDecreasingBy, IsSearchInRange};
ghost use Rattle.std.specs.Ordering.{nat_cmp, int_cmp, ordering_index};
ghost use Rattle.std.specs.declared.cmp.Ordering.{Ordering as TheOrdering};
ghost use Rattle.row_index.specs.inner.Keys.{IsGap};

use crate::entry::{Entry, IdPair};
use shared_leaves::{Copied, Leaves};
use std::cmp::Ordering;

/// A key by which items are ordered.
pub(crate) trait Key<T> {
    /// How the key of an item compares to this one.
    ghost compared: { Self → T → TheOrdering };

    fn compare(&self, item: &T) -> Ordering
        ensures { result ≡ compared self.now item.now };
}

impl Key<Entry> for i64 {
    ghost compared = { λ rowid entry. int_cmp entry.rowid rowid };

    fn compare(&self, entry: &Entry) -> Ordering {
        entry.rowid.cmp(self)
    }
}

impl Key<IdPair> for &str {
    ghost compared = { λ id pair. slice_cmp nat_cmp pair.id id.now };

    fn compare(&self, pair: &IdPair) -> Ordering {
        pair.id.get().as_text().cmp(self)
    }
}

/// The place of the item of a key, or else the one where it would go. A key above all others costs one comparison.
pub(crate) fn search<T: Copied, K: Key<T>>(items: &Leaves<T>, key: &K) -> Result<usize, usize>
    requires { IsNonDecreasingBy (λ item. ordering_index (K.compared key.now item)) items.now }
    ensures within { IsSearchInRange result (length items.now) }
    ensures place { MatchResult result (HoldsAt (λ item. K.compared key.now item ≡ Ordering.Equal) items.now) (IsGap (λ item. K.compared key.now item) items.now) }
{
    let mut low = 0;
    let mut high = items.len();
    if let Some(last) = high.checked_sub(1) {
        if key.compare(items.get(last)).is_lt() {
            return Err(high);
        }
    }
    while low < high {
        let middle = low + (high - low) / 2;
        match key.compare(items.get(middle)) {
            Ordering::Less => low = middle + 1,
            Ordering::Equal => return Ok(middle),
            Ordering::Greater => high = middle,
        }
    }
    Err(low)
}
