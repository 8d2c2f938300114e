//! The classes of a device, each with its owner's name: what the core tells one and what an application asks of one goes to it
//! alone. They reach their pipes through [`usb_pipe::DevPipes`].
#![tactic(auto)]

mod calls;
mod classes;
#[cfg(test)]
mod tests;
mod told;

pub use classes::DeviceClasses;
