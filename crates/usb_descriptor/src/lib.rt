//! Descriptor sets: which ones are accepted, what stands in them, and to whom their interfaces and
//! endpoints belong (USB 2.0, 9.5 and 9.6).
#![tactic(auto)]

mod broken;
mod endpoint;
pub mod laws;
mod limits;
mod rule;
mod set;
mod strings;
mod verdict;

pub use endpoint::{Endpoint, EpKind, is_core};
pub use limits::{EpLimits, SetFault};
pub use set::{DescSet, SetParts, read_set};
pub use strings::StringPart;
pub use usb_packet::Owner;

#[cfg(test)]
mod tests;
