//! What the classes of a device have in common: when a pipe is armed, when what is queued on one starts, what a call that
//! starts a transfer is answered, and when a class is shut, as definitions and over [`usb_pipe::DevPipes`].
#![tactic(auto)]

pub mod laws;
mod pipes;
#[cfg(test)]
mod tests;

pub use pipes::{
    DATA_IN, DATA_OUT, arm_with_room, is_at_rest, is_pipe_closed, is_shut_down, said_at,
    start_queued,
};
