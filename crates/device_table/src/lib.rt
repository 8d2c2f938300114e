//! What the DWC2 USB controller does in device mode (after RM0090, OTG_FS), as definitions that the controller model
//! and the device driver cite: a step for each register read, each register write and each bus event.
//!
//! `State` has the controller's state and the plan of its FIFOs, `Words` the bits of registers and status words, `Read`
//! and `Write` the steps by register, first by the offset and then by cases on the register, and `Bus` the answer to each
//! bus event and what the event changes. Nothing runs here: the functions of [`laws`] do nothing, and their contracts are
//! laws of the definitions.
#![tactic(auto)]

pub mod laws;
