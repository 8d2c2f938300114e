//! MIDI streams as event packets of USB MIDI 1.0, section 4, and back.
//!
//! A [`Packer`] takes the bytes of a stream one by one and gives an event of four bytes wherever one is whole; [`unpack`]
//! gives the bytes that an event carries. The packer sends on cable 0. Nothing here takes memory.
#![tactic(auto)]

pub use packing::Packer;
pub use unpacking::unpack;

pub mod laws;
mod packing;
#[cfg(test)]
mod tests;
mod unpacking;
