//! The driver of a device's DWC2 controller (after RM0090, OTG_FS; USB 2.0, 5.3.2, 8.5.3 and 8.6): it serves endpoint 0
//! through the registers alone, and moves the packets of the other endpoints between the registers and their rings.
//!
//! [`DevPort`] works over any [`dwc2_access::Regs`]. Its contracts say, of the device that controller, software and rings are
//! together, what a handler run and each call make of it; the definitions are those of the crate
//! `device_relation`.
#![tactic(auto)]

mod calls;
mod endpoints;
mod halts;
mod handler;
mod init;
mod ins;
mod notes;
mod outs;
mod port;
mod ready;
mod receive;
mod reset;
mod send;
mod serve;
mod words;

pub use notes::{Note, notes_keep};
pub use port::DevPort;
