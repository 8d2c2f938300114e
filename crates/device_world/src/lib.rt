//! The world of a device: which class each owner has, what it does, and what it holds at the start, as definitions.
#![tactic(auto)]

pub mod laws;
