//! The program's outside: where bytes come from and where they go, with each fault counted.
#![tactic(auto)]

mod disks;
mod files;
pub mod laws;
mod memory;
mod real;
mod shelf;
mod slots;
mod stream;
mod system;

pub use disks::{BLOCK_SIZE, DiskFault, Disks};
pub use files::FileDisks;
pub use memory::{MemSink, MemSource};
pub use real::{NoSink, StderrSink, StdinSource, StdoutSink};
pub use shelf::MemDisks;
pub use slots::MemDisk;
pub use stream::{Got, MOST_TEXT, Sink, Source, Text, Wrote};

#[cfg(test)]
mod tests;
