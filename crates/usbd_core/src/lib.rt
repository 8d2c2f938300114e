//! The core of a USB device: requests on endpoint 0, the address, sessions and halts, over the controller (USB 2.0,
//! 8.5.3, 9.1 and 9.4).
#![tactic(auto)]

mod calls;
mod changes;
mod data;
pub mod laws;
mod numbers;
mod pipe;
mod port;
mod stack;
mod state;
mod task;
mod transfer;
mod view;
mod works;

pub use stack::DevStack;
pub use state::DevState;
pub use usb_control::CoreState;
pub use view::DevView;
