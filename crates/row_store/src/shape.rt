//! What all chunks of a store have alike.
ghost use Rattle.std.specs.Prelude.{◌≡◌, IfOk};

use row_model::Kind;
use std::alloc::Global;
use vec_base::{List, Memory};

/// The number of slots of a chunk, the bytes of a vector of each vector column, and the kinds of the columns that have cells.
#[derive(Drop)]
pub struct Shape {
    pub size: u16,
    pub widths: List<u16>,
    pub kinds: List<Kind>,
}

/// Equal items.
fn copied<T: Copy + Drop>(alloc: Global, items: &[T]) -> Result<List<T>, Memory>
    ensures { IfOk result (λ copy. copy ≡ items.now) }
{
    let mut copy = Vec::with_capacity(alloc, items.len())?;
    for item in items {
        copy.push(*item)?;
    }
    Ok(List::from_vec(copy))
}

impl Shape {
    /// An equal shape.
    pub(crate) fn share(&self, alloc: Global) -> Result<Shape, Memory>
        ensures { IfOk result (λ other. other ≡ self.now) }
    {
        Ok(Shape {
            size: self.size,
            widths: copied(alloc, self.widths.as_slice())?,
            kinds: copied(alloc, self.kinds.as_slice())?,
        })
    }
}
