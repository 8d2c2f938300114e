//! The device side of a keyboard or a mouse: its requests, its work on its pipes, and the calls of an application (HID 1.11). It
//! reaches its pipes through [`usb_pipe::DevPipes`] alone.
#![tactic(auto)]

mod calls;
mod device;
mod reports;
mod requests;
#[cfg(test)]
mod tests;
mod work;

pub use device::HidDevice;
