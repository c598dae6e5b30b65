//! The outside of the program: where bytes come from, where they go, and where they are kept.
//!
//! Each device counts the faults that it met, and a call answers `Failed` only where that count rose. A source
//! may tell the bytes that it has left and a sink those that were written; what is read and written is then
//! exact. The devices in memory tell all of it, and fail the calls that they are told to fail.
#![tactic(auto)]

mod disk;
mod failed;
mod gate;
mod sink;
mod source;

pub use disk::{Disk, MemDisk};
pub use failed::Failed;
pub use gate::Gate;
pub use sink::{MemSink, Sink, write_all};
pub use source::{MemSource, ReadFail, Source, read_all};
