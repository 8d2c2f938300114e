//! How one endpoint other than 0 of a DWC2 controller in device mode, what its driver keeps of it and its ring stand for its pipe
//! (after RM0090, OTG_FS; USB 2.0, 5.3.2, 8.4.5 and 8.6), as definitions that the driver and the device core cite, and as laws.
//!
//! Of an OUT endpoint `OutRelation` says which pipe it is and what holds of it, `OutWords` which words the driver writes,
//! `OutSteps` what the bus, a handler run, a task and each call make of registers and software, and `OutLaws` that each of
//! these is the pipe's step. Of an IN endpoint the files of the same names with `In` do so. Nothing runs here but the types that
//! the definitions speak of.
#![tactic(auto)]

pub mod in_;
pub mod out_;

pub use in_::{InEndpoint, InState};
pub use out_::{OutEndpoint, OutState};
