//! A MIDI port (USB MIDI 1.0): its requests, its work on its pipes, and the calls of an application. On a device it reaches its
//! pipes through [`usb_pipe::DevPipes`] alone.
#![tactic(auto)]

mod calls;
mod device;
#[cfg(test)]
mod tests;

pub use device::MidiDevice;
