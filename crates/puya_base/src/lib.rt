//! What every crate of the compiler speaks of: lists, bytes, names, values, places in a source, and the files and sinks outside.
#![tactic(auto)]

mod blob;
mod call_counter;
mod faults;
mod files;
mod list;
mod memory;
mod memory_files;
mod memory_sink;
mod name;
mod source;
mod value;

pub use blob::Blob;
pub use faults::{FileFault, SinkFault, StepFault};
pub use files::{Files, Sink};
pub use list::{At, split_off};
pub use memory::Memory;
pub use memory_files::MemoryFiles;
pub use memory_sink::MemorySink;
pub use name::Name;
pub use source::{Level, Place, Refusal, Rule, SourceFault};
pub use sqlite_items::{Boxed, Items as List};
pub use value::{Blobs, Value, Values};
