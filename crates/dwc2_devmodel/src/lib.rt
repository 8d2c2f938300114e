//! The DWC2 USB controller in device mode (after RM0090, OTG_FS): its registers and FIFOs, and what it does on the bus.
//!
//! [`DevCore`] is a controller with three endpoints in each direction beside endpoint 0. Each register access and each
//! bus event is a step of the definitions in the crate `device_table`. No call takes memory, and no work grows with
//! what was done before: FIFOs are as deep as the plan says.
#![tactic(auto)]

mod access_list;
mod bus;
mod controller;
mod device_core;
mod read;
mod write;

pub use device_core::DevCore;
