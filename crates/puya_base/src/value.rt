ghost use Rattle.std.specs.Prelude.{◌≡◌, IfOk};

use crate::blob::Blob;
use crate::memory::Memory;
use sqlite_items::Items;
use std::alloc::Global;

/// A value of the machine's stack (AVM specification, "The stack"): a number, or at most 4096 bytes.
#[derive(Debug, PartialEq, Eq, Drop)]
pub enum Value {
    Int(u64),
    Bytes(Blob),
}

pub type Blobs = Items<Blob>;

pub type Values = Items<Value>;

impl Value {
    /// An equal value of its own.
    pub fn copy(&self, alloc: Global) -> Result<Value, Memory>
        ensures { IfOk result (λ v. v ≡ self.now) }
    {
        match self {
            Value::Int(n) => Ok(Value::Int(*n)),
            Value::Bytes(b) => Ok(Value::Bytes(b.copy(alloc)?)),
        }
    }
}
