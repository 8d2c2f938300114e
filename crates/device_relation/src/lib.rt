//! How the software of a device's driver and the registers of its DWC2 controller stand for the device that the bus sees
//! (after RM0090, OTG_FS; USB 2.0, 8.5.3), as definitions that the driver and the device core cite.
//!
//! `Software` has what the driver keeps, `Relation` the device that software and controller are together, and what holds
//! of them, `Port` what a handler run and each call make of that device, and `Run` what they do to registers and software.
//! Nothing runs here but the enums that the definitions speak of.
#![tactic(auto)]

pub mod laws;
mod software;

pub use software::{Heard, Ready};
