//! What an application asks of a device and its classes, what it is answered, what is done at a request, and what a class has of its
//! pipes.
#![tactic(auto)]

mod call;
mod classes;
mod decision;
pub mod laws;
mod memory;
mod phase;
mod pipes;
mod reply;
mod said;

pub use call::{CdcDeviceCall, HidDeviceCall, MidiCall, MscDeviceCall};
pub use classes::DevClasses;
pub use decision::Decision;
pub use memory::MemoryPipes;
pub use phase::Phase;
pub use pipes::DevPipes;
pub use reply::{HostWord, Reply};
pub use said::{Said, reply_of};
