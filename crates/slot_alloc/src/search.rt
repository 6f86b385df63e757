//! Searches in lists that are in order.
ghost use Rattle.std.specs.Prelude.{◌≡◌, ℕ, ◌<◌, ◌≤◌, Bool, true, false, length, slice_index_or};
ghost use Rattle.std.specs.List.{AllWithin};
ghost use Rattle.slot_alloc.specs.inner.Searches.{IsSplit, IsSplitPlace};

use shared_leaves::{Copied, Leaves};

/// A test that the first items of a list pass, and no later ones.
pub(crate) trait Front<T> {
    /// Whether an item at a place passes.
    ghost in_front: { Self → ℕ → T → Bool };

    fn is_in_front(&self, at: usize, item: &T) -> bool
        ensures { result ≡ in_front self.now at item.now };
}

/// How many items pass the test.
pub(crate) fn front_len<T: Copied, F: Front<T>>(items: &Leaves<T>, test: &F) -> usize
    requires { IsSplit (F.in_front test.now) items.now }
    ensures { IsSplitPlace (F.in_front test.now) items.now result }
{
    let mut low = 0;
    let mut high = items.len();
    while low < high {
        let middle = low + (high - low) / 2;
        if test.is_in_front(middle, items.get(middle)) {
            low = middle + 1;
        } else {
            high = middle;
        }
    }
    low
}
