//! A MIDI port as a device has it: what it holds, what it does at each request, call and task, as definitions
//! (USB MIDI 1.0), and laws of them.
#![tactic(auto)]

pub mod laws;
