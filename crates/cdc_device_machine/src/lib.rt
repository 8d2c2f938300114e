//! A serial port as a device has it: what it holds, what it does at each request, call and task, as definitions
//! (CDC 1.2, CDC PSTN 1.2), and laws of them.
#![tactic(auto)]

pub mod laws;
