//! The groups of interfaces that a class drives together, and what a set of descriptors must have of them (CDC 1.2,
//! HID 1.11, Mass Storage Bulk-Only 1.0, USB MIDI 1.0).
#![tactic(auto)]

mod group;
pub mod laws;
mod parts;
mod report;

pub use group::{group_owner, is_built, lead_number, owner_of_number};
pub use parts::{endpoints, following_place, has_wrong_hid, has_wrong_pair, has_wrong_serial};
pub use report::{has_wrong_report, hid_descriptor};
pub use usb_packet::Owner;

#[cfg(test)]
mod tests;
