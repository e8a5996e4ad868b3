//! Copies of values that hold memory.
ghost use Rattle.std.specs.Prelude.{◌≡◌, IfOk};

use crate::lists::List;
use crate::memory::NoMemory;
use std::alloc::Global;

/// A value that can be copied where memory allows it.
pub trait Copying {
    /// An equal value. An error is want of memory.
    fn copy(&self, alloc: Global) -> Result<Self, NoMemory>
        ensures { IfOk result (λ copy. copy ≡ self.now) };
}

impl Copying for u32 {
    fn copy(&self, _alloc: Global) -> Result<u32, NoMemory> {
        Ok(*self)
    }
}

impl<T: Copying + Drop> Copying for List<T> {
    fn copy(&self, alloc: Global) -> Result<List<T>, NoMemory> {
        let mut copy = List::new(alloc);
        for item in self.as_slice() {
            copy.push(item.copy(alloc)?)?;
        }
        Ok(copy)
    }
}

impl<T: Copying> Copying for Option<T> {
    fn copy(&self, alloc: Global) -> Result<Option<T>, NoMemory> {
        match self {
            None => Ok(None),
            Some(value) => Ok(Some(value.copy(alloc)?)),
        }
    }
}

impl<A: Copying + Drop, B: Copying> Copying for (A, B) {
    fn copy(&self, alloc: Global) -> Result<(A, B), NoMemory> {
        Ok((self.0.copy(alloc)?, self.1.copy(alloc)?))
    }
}

impl<A: Copying + Drop, B: Copying + Drop, C: Copying> Copying for (A, B, C) {
    fn copy(&self, alloc: Global) -> Result<(A, B, C), NoMemory> {
        Ok((
            self.0.copy(alloc)?,
            self.1.copy(alloc)?,
            self.2.copy(alloc)?,
        ))
    }
}
