use crate::call::DevCall;
use usb_packet::{BusAnswer, BusEvent};
use usb_pipe::Reply;

/// A line of a device's schedule: what happens on the bus, one handler run, one task run, or one call.
#[derive(Drop)]
pub enum DevLine {
    Bus(BusEvent),
    Irq,
    Task,
    Call(DevCall),
}

/// The answer to a line: what the device answers on the bus, or what a call is answered. Handler runs and
/// task runs are answered `Bus(Done)`.
#[derive(Drop)]
pub enum Answer {
    Bus(BusAnswer),
    Reply(Reply),
}
