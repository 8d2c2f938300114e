//! The plan of a controller's FIFOs for a set of descriptors: how many words of 32 bits each has.
#![tactic(auto)]

mod plan;
#[cfg(test)]
mod tests;

pub use plan::{FifoPlan, fifo_plan};
