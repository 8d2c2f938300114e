//! What the DWC2 USB controller does in host mode (after RM0090, OTG_FS), as definitions that the controller model and
//! the host driver cite: a step for each register read, each register write and each bus event. It is the twin of
//! `device_table`: the files have the same names, and what both modes share is defined there.
//!
//! `State` has the controller's state and the plan of its FIFOs, `Words` the bits of registers, `Read` and `Write` the
//! steps by register, first by the offset and then by cases on the register, and `Bus` which channel takes the bus, what
//! it sends and what each answer changes. Nothing runs here: the functions of [`laws`] do nothing, and their contracts are
//! laws of the definitions.
#![tactic(auto)]

pub mod laws;
mod sent;

pub use sent::HostSent;
