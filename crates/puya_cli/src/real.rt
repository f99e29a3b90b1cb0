//! Real files and standard output. Nothing is told of what they hold: this is the trusted edge.
ghost use Rattle.std.specs.Prelude.{◌≡◌, ◌≢◌, ◌≤◌, [], length, None, OnErr};
ghost use Rattle.puya_base.specs.Causes.{Rose};

use puya_base::{Blob, FileFault, Files, Sink, SinkFault};
use std::fs;
use std::io::{self, ErrorKind, Read, Write};
use std::rt::Files as System;

/// The length of the longest file that is read, in bytes.
const MAX_LENGTH: usize = 1048576;

/// A count of faults with one more; at its type's last value it stands still.
fn one_more(faults: u64) -> u64
    ensures later { faults ≤ result }
    ensures rose { Rose faults result }
{
    faults.saturating_add(1)
}

/// The files of the system. A failure counts as a fault, absence and excess length do not.
#[derive(Drop)]
pub struct RealFiles<'a, R> {
    rt: &'a R,
    faults: u64,
}

impl<'a, R: System> RealFiles<'a, R> {
    pub fn new(rt: &'a R) -> RealFiles<'a, R> {
        RealFiles { rt, faults: 0 }
    }
}

/// What is left of the reader, as far as a file may be long. A read that gives nothing is the end.
fn read_rest<F: Read>(file: &mut F, into: &mut Blob) -> Result<(), FileFault>
    requires { into.old ≡ [] }
    ensures within { length into.new ≤ 1048576 }
{
    let mut buf = [0u8; 4096];
    for _ in 0..u64::MAX {
        let Ok(count) = file.read(&mut buf) else {
            return Err(FileFault::Failed);
        };
        if count == 0 {
            break;
        }
        if MAX_LENGTH - into.len() < count {
            return Err(FileFault::TooLong);
        }
        if into.extend(&buf[..count]).is_err() {
            return Err(FileFault::Memory);
        }
    }
    Ok(())
}

/// The whole file of that name; nothing after a refusal.
fn read_file<R: System>(rt: &R, name: &str, into: &mut Blob) -> Result<(), FileFault>
    ensures within { length into.new ≤ 1048576 }
    ensures empty { OnErr result (into.new ≡ []) }
{
    into.clear();
    let read = match fs::open(rt, name) {
        Ok(mut file) => read_rest(&mut file, into),
        Err(e) => {
            if e.kind() == ErrorKind::NotFound {
                Err(FileFault::Missing)
            } else {
                Err(FileFault::Failed)
            }
        }
    };
    if read.is_err() {
        into.clear();
    }
    read
}

impl<'a, R: System> Files for RealFiles<'a, R> {
    ghost contents = { λ _. None };

    ghost faults = { λ f. f.faults };

    fn read(&mut self, name: &str, into: &mut Blob) -> Result<(), FileFault> {
        match read_file(self.rt, name, into) {
            Err(FileFault::Failed) => {
                self.faults = one_more(self.faults);
                Err(FileFault::Failed)
            }
            other => other,
        }
    }

    fn write(&mut self, name: &str, bytes: &[u8]) -> Result<(), FileFault> {
        if let Ok(mut file) = fs::create(self.rt, name) {
            if file.write_all(bytes).is_ok() {
                return Ok(());
            }
        }
        self.faults = one_more(self.faults);
        Err(FileFault::Failed)
    }
}

/// Standard output.
#[derive(Drop)]
pub struct RealSink<'a, R> {
    rt: &'a R,
    faults: u64,
}

impl<'a, R: Print> RealSink<'a, R> {
    pub fn new(rt: &'a R) -> RealSink<'a, R> {
        RealSink { rt, faults: 0 }
    }
}

impl<'a, R: Print> Sink for RealSink<'a, R> {
    ghost taken = { λ _. None };

    ghost faults = { λ s. s.faults };

    fn put(&mut self, bytes: &[u8]) -> Result<(), SinkFault> {
        match io::writer(self.rt).write_all(bytes) {
            Ok(()) => Ok(()),
            Err(_) => {
                self.faults = one_more(self.faults);
                Err(SinkFault::Failed)
            }
        }
    }
}
