//! Sources, sinks and files: their traits, and over memory, the library's streams and the disk.
#![tactic(auto)]

mod disk;
mod error;
mod memory;
mod standard;
mod streams;

pub use disk::{DiskFiles, LateFile};
pub use error::{Failed, FetchError};
pub use memory::{MemFiles, MemSink, MemSource};
pub use standard::{StdSink, StdSource};
pub use streams::{Files, Sink, Source};
