//! The DWC2 USB controller in host mode (after RM0090, OTG_FS): its registers and FIFOs, and what it does on the bus.
//!
//! [`HostCore`] is a controller with eight channels. Each register access and each bus event is a step of the definitions
//! in the crate `host_table`. No call takes memory, and no work grows with what was done before: FIFOs are as deep as the
//! plan says.
#![tactic(auto)]

mod bus;
mod controller;
mod host_core;
mod read;
mod write;

pub use host_core::HostCore;
