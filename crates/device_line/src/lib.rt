//! A line of a device's schedule, and what it is answered.
#![tactic(auto)]

mod call;
mod line;

pub use call::DevCall;
pub use line::{Answer, DevLine};
