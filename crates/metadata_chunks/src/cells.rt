//! One value for each slot, and the slots whose values pass a test.
ghost use Rattle.std.specs.Prelude.{◌≡◌, ◌+◌, ◌<◌, ◌≤◌, Bool, length, replicate, IfOk};
ghost use Rattle.metadata_chunks.specs.Columns.{kept};
ghost use Rattle.metadata_chunks.specs.inner.Filtering.{GoesOn};

use chunk_bitmap::Bitmap;
use shared_leaves::{Copied, Leaves};
use std::alloc::Global;
use vec_base::{MOST_CHUNK_SIZE, Memory};

/// A test of the value of a slot.
pub(crate) trait Test<T> {
    /// Whether a value passes.
    ghost passed: { Self → T → Bool };

    fn passes(&self, value: &T) -> bool
        ensures { result ≡ passed self.now value.now };
}

/// An equal value for each slot.
pub(crate) fn filled<T: Copied>(alloc: Global, size: u16, value: &T) -> Result<Leaves<T>, Memory>
    ensures { IfOk result (λ cells. cells ≡ replicate size value.now) }
{
    let mut cells = Leaves::new(alloc);
    for _ in 0..size {
        cells.insert(cells.len(), value.copied(alloc)?)?;
    }
    Ok(cells)
}

/// How many slots are gone through one by one from a set bit on.
const RUN_SLOTS: u16 = 8;

/// Clears the bit of a slot whose value does not pass.
#[inline]
fn keep_if_passing<T: Copied, C: Test<T>>(cells: &Leaves<T>, test: &C, keep: &mut Bitmap, slot: u16)
    requires size { length keep.old ≡ length cells.now }
    requires slot { slot < length cells.now }
    ensures size { length keep.new ≡ length keep.old }
    ensures kept { GoesOn (C.passed test.now) cells.now slot keep.old (slot + 1) keep.new }
{
    if keep.get(slot) && !test.passes(cells.get(usize::from(slot))) {
        keep.clear(slot);
    }
}

/// Clears the bits of the slots from one up to another one whose values do not pass.
#[inline]
fn keep_run<T: Copied, C: Test<T>>(
    cells: &Leaves<T>,
    test: &C,
    keep: &mut Bitmap,
    from: u16,
    end: u16,
)
    requires size { length keep.old ≡ length cells.now }
    requires order { from ≤ end }
    requires end { end ≤ length cells.now }
    ensures size { length keep.new ≡ length keep.old }
    ensures kept { GoesOn (C.passed test.now) cells.now from keep.old end keep.new }
{
    for slot in from..end {
        keep_if_passing(cells, test, keep, slot);
    }
}

/// Clears the bits of the slots whose values do not pass. The values of slots whose bits are clear are not looked at.
pub(crate) fn keep_passing<T: Copied, C: Test<T>>(cells: &Leaves<T>, test: &C, keep: &mut Bitmap)
    requires size { length keep.old ≡ length cells.now }
    requires short { length cells.now ≤ MOST_CHUNK_SIZE }
    ensures { keep.new ≡ kept (C.passed test.now) cells.now keep.old }
{
    let size = cells.len() as u16;
    let mut from = 0;
    while let Some(slot) = keep.next_set(from) {
        from = (slot / RUN_SLOTS * RUN_SLOTS + RUN_SLOTS).min(size);
        keep_run(cells, test, keep, slot, from);
    }
}
