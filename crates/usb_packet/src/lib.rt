//! Packets, SETUP fields, and what happens on the bus of a full-speed device (USB 2.0, 8.3 to 8.6 and 9.3).
#![tactic(auto)]

mod bus;
mod packet;
mod setup;

pub use bus::{BusAnswer, BusEvent, Owner, Toggle};
pub use packet::{Packet, TooLong};
pub use setup::{Setup, setup_bytes, setup_of};

#[cfg(test)]
mod tests;
