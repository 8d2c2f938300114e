//! The device side of a serial port: its requests, its work on its pipes, and the calls of an application (CDC 1.2,
//! CDC PSTN 1.2). It reaches its pipes through [`usb_pipe::DevPipes`] alone.
#![tactic(auto)]

mod calls;
mod coding;
mod device;
#[cfg(test)]
mod tests;
mod work;

pub use device::CdcDevice;
