//! The outside of a run: files by name, the bytes of a script, the bytes that are written.
#![tactic(auto)]

mod byte_sink;
mod byte_source;
mod calls;
mod file_map;
mod memory_files;
mod memory_sink;
mod memory_source;
mod real_files;
mod streams;
mod whole;

pub use byte_sink::{Sink, SinkEnd};
pub use byte_source::{Failed, Source};
pub use file_map::{Files, FilesEnd, Found, MOST_READ};
pub use memory_files::MemFiles;
pub use memory_sink::MemSink;
pub use memory_source::MemSource;
pub use real_files::DiskFiles;
pub use streams::{StreamSink, StreamSource};
pub use whole::{SourceEnd, take_up_to, write_all};
