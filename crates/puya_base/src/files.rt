ghost use Rattle.std.specs.Prelude.{◌≡◌, ℕ, ◌≤◌, if◌then◌else◌, List, [], length, Option, OnErr, IfSome};
ghost use Rattle.std.specs.FinMap as map;
ghost use Rattle.puya_base.specs.InMemory.{first_half};
ghost use Rattle.puya_base.specs.Files.{Held, ReadGives, WriteGives, Told, FailsOnlyBy, WriteFailsOnlyBy, PutGives, ToldBytes, PutFailsOnlyBy, max_length, IsFront};

use crate::blob::Blob;
use crate::faults::{FileFault, SinkFault};

/// The files outside, by what they hold and by how often they have failed.
pub trait Files {
    /// The bytes under each name, where that is told.
    ghost contents: { Self → Option Held };

    /// How often a read or a write has failed.
    ghost faults: { Self → ℕ };

    /// Replaces `into` by the file's bytes, of which there are at most 1,048,576. After a refusal `into` is empty.
    /// Where contents are told, `Missing` and `TooLong` come exactly where the name is absent or the file is longer.
    fn read(&mut self, name: &str, into: &mut Blob) -> Result<(), FileFault>
        ensures told { IfSome (contents self.old) (λ held. ReadGives (map.get held name.now) result into.new) }
        ensures within { length into.new ≤ max_length }
        ensures empty { OnErr result (into.new ≡ []) }
        ensures kept { contents self.new ≡ contents self.old }
        ensures cause { FailsOnlyBy (faults self.old) (faults self.new) result };

    /// Makes the name hold the bytes. After `Failed` it holds a front of them, or what it held before; no other name changes.
    /// `Missing` and `TooLong` never come.
    fn write(&mut self, name: &str, bytes: &[u8]) -> Result<(), FileFault>
        ensures told { Told (contents self.old) (contents self.new) (λ old new. WriteGives old new name.now bytes.now result) }
        ensures cause { WriteFailsOnlyBy (faults self.old) (faults self.new) result };
}

/// Where text goes, by the bytes that it has taken and by how often it has failed.
pub trait Sink {
    /// The bytes so far, where that is told.
    ghost taken: { Self → Option (List ℕ) };

    /// How often a call has failed.
    ghost faults: { Self → ℕ };

    /// Takes all the bytes, or a front of them and fails.
    fn put(&mut self, bytes: &[u8]) -> Result<(), SinkFault>
        ensures told { ToldBytes (taken self.old) (taken self.new) (λ old new. PutGives old new bytes.now result) }
        ensures cause { PutFailsOnlyBy (faults self.old) (faults self.new) result };
}

/// The length of the longest file that is read, in bytes.
pub(crate) const MAX_LENGTH: usize = 1048576;

/// What of the bytes a call in memory keeps: the first half, rounded down, where it is to fail.
pub(crate) fn kept_of(bytes: &[u8], fails: bool) -> &[u8]
    ensures front { IsFront result.now bytes.now }
    ensures value { result.now ≡ (if fails then first_half bytes.now else bytes.now) }
{
    if fails {
        &bytes[..bytes.len() / 2]
    } else {
        bytes
    }
}
