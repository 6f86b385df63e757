//! Values that can be copied where there is memory.
ghost use Rattle.std.specs.Prelude.{◌≡◌, IfOk};

use std::alloc::Global;
use vec_base::{Bytes, Memory, Txt, Value};

/// A type whose values can be copied.
pub trait Copied: Drop {
    /// An equal value.
    fn copied(&self, alloc: Global) -> Result<Self, Memory>
        ensures same { IfOk result (λ value. value ≡ self.now) };
}

impl Copied for u8 {
    fn copied(&self, _alloc: Global) -> Result<u8, Memory> {
        Ok(*self)
    }
}

impl Copied for u32 {
    fn copied(&self, _alloc: Global) -> Result<u32, Memory> {
        Ok(*self)
    }
}

impl Copied for i64 {
    fn copied(&self, _alloc: Global) -> Result<i64, Memory> {
        Ok(*self)
    }
}

impl Copied for bool {
    fn copied(&self, _alloc: Global) -> Result<bool, Memory> {
        Ok(*self)
    }
}

impl Copied for Txt {
    fn copied(&self, alloc: Global) -> Result<Txt, Memory> {
        self.copy(alloc)
    }
}

impl Copied for Bytes {
    fn copied(&self, alloc: Global) -> Result<Bytes, Memory> {
        self.copy(alloc)
    }
}

impl Copied for Value {
    fn copied(&self, alloc: Global) -> Result<Value, Memory> {
        self.copy(alloc)
    }
}

impl<T: Copied> Copied for Option<T> {
    fn copied(&self, alloc: Global) -> Result<Option<T>, Memory> {
        match self {
            Some(value) => Ok(Some(value.copied(alloc)?)),
            None => Ok(None),
        }
    }
}
