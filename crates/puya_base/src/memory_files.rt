ghost use Rattle.std.specs.Option.{option_copied};
ghost use Rattle.std.specs.Str.{bytes_eq};
ghost use Rattle.std.specs.Prelude.{◌≡◌, ◌≤◌, [], ◌∷◌, ◌++◌, Some, OnErr, OnOk, find, length, option_map, reverse};
ghost use Rattle.std.specs.FinMap as map;
ghost use Rattle.puya_base.specs.Files.{ReadGives, WriteGives, FailsOnlyBy, WriteFailsOnlyBy, max_length};
ghost use Rattle.puya_base.specs.Calls.{CountsFileCall};
ghost use Rattle.puya_base.specs.InMemory.{WritesInMemory};
ghost use Rattle.puya_base.specs.Written.{held_of};

use crate::blob::Blob;
use crate::call_counter::CallCounter;
use crate::faults::FileFault;
use crate::files::{Files, MAX_LENGTH, kept_of};
use crate::memory::Memory;
use crate::name::Name;
use std::alloc::Global;
use std::marker::Model;

/// One write.
#[derive(Debug, Drop)]
pub(crate) struct Written {
    name: Name,
    bytes: Blob,
}

/// Files in memory. They tell what they hold, and any of their calls can be made to fail.
#[derive(Drop)]
pub struct MemoryFiles {
    alloc: Global,
    written: Vec<Written>,
    calls: CallCounter,
}

impl Model for MemoryFiles {
    ghost use Rattle.puya_base.specs.InMemory.{Stored, stored_code};

    ghost Value = { Stored };

    ghost coded = { stored_code };

    ghost use Rattle.puya_base.specs.Written.{held_of};

    ghost view = { λ f. record { held = held_of f.written.items; calls = f.calls } };
}

fn found<'a>(written: &'a [Written], name: &str) -> Option<&'a Written>
    ensures { option_copied result ≡ find (λ w. bytes_eq name.now w.name) (reverse written.now) }
{
    written.iter().rev().find(|w| name == w.name.as_str())
}

fn newest<'a>(written: &'a [Written], name: &str) -> Option<&'a [u8]>
    ensures { option_map (λ b. b.now) result ≡ map.get (held_of written.now) name.now }
{
    match found(written, name) {
        Some(w) => Some(w.bytes.as_slice()),
        None => None,
    }
}

fn store(alloc: Global, written: &mut Vec<Written>, name: &str, bytes: &[u8]) -> Result<(), Memory>
    ensures ok { OnOk result (held_of written.new.items ≡ map.insert (held_of written.old.items) name.now bytes.now) }
    ensures err { OnErr result (held_of written.new.items ≡ held_of written.old.items) }
{
    let name = Name::new(alloc, name)?;
    let bytes = Blob::from_slice(alloc, bytes)?;
    written.push(Written { name, bytes })?;
    Ok(())
}

impl MemoryFiles {
    /// No files, no calls so far, and no call that is to fail.
    pub fn new(alloc: Global) -> MemoryFiles
        ensures { result ≡ record { held = map.empty; calls = record { count = 0; failing = []; faults = 0 } } }
    {
        MemoryFiles {
            alloc,
            written: Vec::new(alloc),
            calls: CallCounter::new(alloc),
        }
    }

    /// Makes the name hold the bytes, of any length. It is no call of those that are counted.
    pub fn add(&mut self, name: &str, bytes: &[u8]) -> Result<(), Memory>
        ensures ok { OnOk result (self.new ≡ record self.old { held = map.insert self.old.held name.now bytes.now }) }
        ensures err { OnErr result (self.new ≡ self.old) }
    {
        store(self.alloc, &mut self.written, name, bytes)
    }

    /// Makes a call fail, counted from 1 over reads and writes together.
    pub fn fail_at(&mut self, call: u64) -> Result<(), Memory>
        ensures ok { OnOk result (self.new ≡ record self.old { calls = record self.old.calls { failing = self.old.calls.failing ++ call ∷ [] } }) }
        ensures err { OnErr result (self.new ≡ self.old) }
    {
        self.calls.fail_at(call)
    }

    /// The bytes under the name, or none exactly where it is absent.
    pub fn get(&self, name: &str) -> Option<&[u8]>
        ensures { option_map (λ b. b.now) result ≡ map.get self.now.held name.now }
    {
        newest(self.written.as_slice(), name)
    }
}

impl Files for MemoryFiles {
    ghost contents = { λ f. Some f.held };

    ghost faults = { λ f. f.calls.faults };

    fn read(&mut self, name: &str, into: &mut Blob) -> Result<(), FileFault>
        ensures told { ReadGives (map.get self.old.held name.now) result into.new }
        ensures within { length into.new ≤ max_length }
        ensures empty { OnErr result (into.new ≡ []) }
        ensures kept { self.new.held ≡ self.old.held }
        ensures cause { FailsOnlyBy self.old.calls.faults self.new.calls.faults result }
        ensures calls { CountsFileCall self.old.calls self.new.calls result }
    {
        into.clear();
        let fails = self.calls.begin();
        let Some(bytes) = newest(self.written.as_slice(), name) else {
            return Err(FileFault::Missing);
        };
        if bytes.len() > MAX_LENGTH {
            return Err(FileFault::TooLong);
        }
        if fails {
            self.calls.fault();
            return Err(FileFault::Failed);
        }
        match into.extend(bytes) {
            Ok(()) => Ok(()),
            Err(_) => Err(FileFault::Memory),
        }
    }

    fn write(&mut self, name: &str, bytes: &[u8]) -> Result<(), FileFault>
        ensures told { WriteGives self.old.held self.new.held name.now bytes.now result }
        ensures cause { WriteFailsOnlyBy self.old.calls.faults self.new.calls.faults result }
        ensures calls { CountsFileCall self.old.calls self.new.calls result }
        ensures half { WritesInMemory self.old.held self.new.held name.now bytes.now result }
    {
        let fails = self.calls.begin();
        match store(self.alloc, &mut self.written, name, kept_of(bytes, fails)) {
            Err(_) => Err(FileFault::Memory),
            Ok(()) => {
                if fails {
                    self.calls.fault();
                    Err(FileFault::Failed)
                } else {
                    Ok(())
                }
            }
        }
    }
}
