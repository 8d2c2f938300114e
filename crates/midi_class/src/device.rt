ghost use Rattle.std.specs.Prelude.{◌≡◌, ◌+◌, ◌≤◌};
ghost use Rattle.usb_pipe.specs.Own.{work_accesses};
ghost use Rattle.midi_device_machine.specs.Port.{first, decided, accepts, pipes_after_work};

use class_pipes::{DATA_IN, arm_with_room, start_queued};
use midi_events::Packer;
use std::marker::Model;
use usb_packet::Setup;
use usb_pipe::{Decision, DevPipes};

/// The device side of a MIDI port (USB MIDI 1.0, 3): the packer of the stream that it sends.
#[derive(Drop)]
pub struct MidiDevice {
    pub(crate) packer: Packer,
}

impl Model for MidiDevice {
    ghost use Rattle.midi_device_machine.specs.Port.{Port};

    ghost Value = { Port };

    ghost view = { λ d. record { packer = d.packer } };
}

impl MidiDevice {
    /// A MIDI port. No session stands.
    pub fn new() -> MidiDevice
        ensures { result ≡ first }
    {
        MidiDevice {
            packer: Packer::new(),
        }
    }

    /// A session begins (USB 2.0, 9.1.1.5): no running status and no message of an earlier one is left.
    pub fn opened(&mut self)
        ensures { self.new ≡ first }
    {
        self.closed();
    }

    /// The session ends, and what is kept of the stream with it.
    pub fn closed(&mut self)
        ensures { self.new ≡ first }
    {
        *self = MidiDevice::new();
    }

    /// A packet came on a pipe: its events wait there until a call takes them.
    pub fn came(&mut self, _pipe: u8)
        ensures { self.new ≡ self.old }
    {}

    /// A transfer of so many bytes ended on a pipe. No empty packet follows it: events need no end (USB MIDI 1.0, 4).
    pub fn ended(&mut self, _pipe: u8, _len: u16)
        ensures { self.new ≡ self.old }
    {}

    /// The halt of a pipe was cleared (USB 2.0, 9.4.5).
    pub fn cleared(&mut self, _pipe: u8)
        ensures { self.new ≡ self.old }
    {}

    /// A request on endpoint 0: all are refused (USB 2.0, 9.2.7).
    pub fn setup(&mut self, setup: &Setup) -> Decision
        ensures decision { result ≡ decided setup.now }
        ensures port { self.new ≡ self.old }
    {
        let _ = setup;
        Decision::Stall
    }

    /// The data of a request. None is taken, since no request is.
    pub fn data(&mut self, _setup: &Setup, bytes: &[u8]) -> bool
        ensures accepted { result ≡ accepts bytes.now }
        ensures port { self.new ≡ self.old }
    {
        let _ = bytes;
        false
    }

    /// One turn of its work. The pipe that receives takes another packet where it has room for one, and events that are queued start
    /// for the host where no transfer runs.
    pub fn work<P: DevPipes>(&mut self, pipes: &mut P)
        requires sound { P.sound pipes.old }
        requires spare { work_accesses ≤ P.spare pipes.old }
        ensures pipes { P.pipes pipes.new ≡ pipes_after_work (P.pipes pipes.old) }
        ensures port { self.new ≡ self.old }
        ensures beside { P.beside pipes.old pipes.new }
        ensures sound { P.sound pipes.new }
        ensures spends { P.spare pipes.old ≤ P.spare pipes.new + work_accesses }
    {
        arm_with_room(pipes);
        start_queued(pipes, DATA_IN);
    }
}
