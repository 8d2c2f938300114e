//! A device's run: one line of its schedule after another, over the device core and its classes.
#![tactic(auto)]

mod ask;
pub mod laws;
mod run;

pub use run::DeviceRun;
