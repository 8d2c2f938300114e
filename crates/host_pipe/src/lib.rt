//! One OUT pipe and one IN pipe of a USB host, each to an endpoint other than 0, as definitions (USB 2.0, 5.3.2 and 8.6), with
//! the device at their other end, and the laws of both over whole runs. It is the twin of `device_pipe`: the files have the same
//! names. Three tries in a row without an answer end a pipe.
#![tactic(auto)]

pub mod laws;
