//! One OUT pipe and one IN pipe of a USB device, each on an endpoint other than 0, as definitions (USB 2.0, 5.3.2 and 8.6),
//! with the host at their other end, and the laws of both over whole runs.
#![tactic(auto)]

pub mod laws;
