//! What a USB device does at each bus event, handler run and task run, as definitions that the code above
//! cites, with the enums that they speak of (USB 2.0, chapters 8 and 9).
#![tactic(auto)]

mod control;
pub mod laws;

pub use control::{Side, Stage};
