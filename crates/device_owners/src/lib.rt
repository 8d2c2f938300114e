//! A device with its classes, as the machine of each owner, and why owners are kept apart.
#![tactic(auto)]

pub mod classes;
pub mod laws;
pub mod steps;
