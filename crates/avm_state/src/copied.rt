ghost use Rattle.std.specs.Prelude.{◌≡◌, IfOk};

use puya_base::{Blob, Memory, Value};
use std::alloc::Global;

/// What stands under a key and can be copied.
pub(crate) trait Copied: Sized {
    /// An equal value of its own.
    fn copied(&self, alloc: Global) -> Result<Self, Memory>
        ensures { IfOk result (λ copy. copy ≡ self.now) };
}

impl Copied for Value {
    fn copied(&self, alloc: Global) -> Result<Value, Memory> {
        self.copy(alloc)
    }
}

impl Copied for Blob {
    fn copied(&self, alloc: Global) -> Result<Blob, Memory> {
        self.copy(alloc)
    }
}

impl Copied for () {
    fn copied(&self, _alloc: Global) -> Result<(), Memory> {
        Ok(())
    }
}
