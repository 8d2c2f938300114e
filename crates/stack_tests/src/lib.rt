//! Tests of the controller's model, the driver, the device's software and its run together. They stand here and not in
//! those crates, so that no crate waits for the proofs of another's tests.
#![tactic(auto)]

#[cfg(test)]
mod bench;
#[cfg(test)]
mod driver;
#[cfg(test)]
mod endpoints;
#[cfg(test)]
mod host;
#[cfg(test)]
mod model;
#[cfg(test)]
mod run;
#[cfg(test)]
mod sets;
#[cfg(test)]
mod stack;
