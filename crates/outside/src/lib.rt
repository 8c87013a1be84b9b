//! The outside of a program: files, bytes that come in and bytes that go out. Each has a count of
//! its faults, and a call fails only where its count rises in it. There are objects in memory, which
//! tell all and fail at stated calls alone, and objects over std's files and streams, which tell
//! nothing. Besides, the numbers that a user writes.
#![tactic(auto)]

mod calls;
mod faults;
mod files;
mod host_files;
mod host_streams;
mod memory_files;
mod memory_streams;
mod numerals;
mod replacing;
mod streams;

pub use files::{FileFault, Files};
pub use host_files::HostFiles;
pub use host_streams::{HostSink, HostSource};
pub use memory_files::MemFiles;
pub use memory_streams::{MemSink, MemSource};
pub use numerals::decimal;
pub use streams::{Failed, Sink, Source, put_all};
