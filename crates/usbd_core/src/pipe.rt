//! The calls of a class on its pipes, by the numbers of their endpoints, over the whole device (USB 2.0, 5.3.2).
ghost use Rattle.std.specs.Prelude.{◌≡◌, ◌≤◌, ◌+◌, ◌-◌, true, length, min, take};
ghost use Rattle.dwc2_regs.specs.declared.access.TheConstants.{FS4};
ghost use Rattle.usb_pipe.specs.declared.phase.Phase.TheVariants as phase;
ghost use Rattle.usb_pipe.specs.Own.{packet_room};
ghost use Rattle.device_machine.specs.Pipes.{out_slot, in_slot, is_out_open, in_hears};
ghost use Rattle.device_rings.specs.Sizes.{ring_size};
ghost use Rattle.device_relation.specs.PipeRelation.{IsSound};
ghost use Rattle.device_relation.specs.Port.{read_at, written_at, started_at, armed_at, dropped_at, halted_at};
ghost use Rattle.dwc2_device.specs.Driver.{joint, Has};
ghost use Rattle.usbd_core.specs.Device.{port_in};
ghost use Rattle.usbd_core.specs.Shown.{out_shown, in_shown, IsSender, IsReceiver};
ghost use Rattle.usbd_core.specs.View.{Becomes};

use crate::port::halt;
use crate::{DevStack, calls};
use dwc2_access::Regs;
use usb_pipe::Phase;

impl<R: Regs + Drop> DevStack<R> {
    /// What a pipe that receives does.
    pub(crate) fn out_phase(&self, number: u8) -> Phase
        requires sound { IsSound FS4 (joint self.now.port) self.now.rings }
        ensures { result ≡ out_shown (out_slot (port_in self.now).pipes number) }
    {
        calls::out_phase(&self.port, &self.rings, number)
    }

    /// What a pipe that sends does.
    pub(crate) fn in_phase(&self, number: u8) -> Phase
        requires sound { IsSound FS4 (joint self.now.port) self.now.rings }
        ensures { result ≡ in_shown (in_slot (port_in self.now).pipes number) }
    {
        calls::in_phase(&self.port, &self.rings, number)
    }

    /// How many bytes a pipe holds that receives.
    pub(crate) fn out_held(&self, number: u8) -> u16
        requires sound { IsSound FS4 (joint self.now.port) self.now.rings }
        requires receiver { IsReceiver (port_in self.now).pipes self.now.rings number }
        ensures { result ≡ length (out_slot (port_in self.now).pipes number).pipe.held }
    {
        calls::out_held(&self.port, &self.rings, number)
    }

    /// How many bytes a pipe has queued that sends.
    pub(crate) fn in_held(&self, number: u8) -> u16
        requires sound { IsSound FS4 (joint self.now.port) self.now.rings }
        requires sender { IsSender (port_in self.now).pipes self.now.rings number }
        ensures { result ≡ length (in_slot (port_in self.now).pipes number).pipe.queue }
    {
        calls::in_held(&self.port, &self.rings, number)
    }

    /// How many more bytes a pipe has room for that receives.
    pub(crate) fn out_room(&self, number: u8) -> u16
        requires sound { IsSound FS4 (joint self.now.port) self.now.rings }
        requires receiver { IsReceiver (port_in self.now).pipes self.now.rings number }
        ensures { result ≡ ring_size (out_slot (port_in self.now).pipes number).endpoint - length (out_slot (port_in self.now).pipes number).pipe.held }
    {
        calls::out_room(&self.port, &self.rings, number)
    }

    /// How many more bytes a pipe has room for that sends.
    pub(crate) fn in_room(&self, number: u8) -> u16
        requires sound { IsSound FS4 (joint self.now.port) self.now.rings }
        requires sender { IsSender (port_in self.now).pipes self.now.rings number }
        ensures { result ≡ ring_size (in_slot (port_in self.now).pipes number).endpoint - length (in_slot (port_in self.now).pipes number).pipe.queue }
    {
        calls::in_room(&self.port, &self.rings, number)
    }

    /// Queues the first bytes, as many as there is room for: how many.
    pub(crate) fn write_pipe(&mut self, number: u8, bytes: &[u8]) -> u16
        requires sound { IsSound FS4 (joint self.old.port) self.old.rings }
        requires has { Has 0 self.old.port.bank }
        requires sender { IsSender (port_in self.old).pipes self.old.rings number }
        requires open { in_hears (in_slot (port_in self.old).pipes number) ≡ true }
        ensures took { result ≡ min (length bytes.now) (ring_size (in_slot (port_in self.old).pipes number).endpoint - length (in_slot (port_in self.old).pipes number).pipe.queue) }
        ensures becomes { Becomes 0 self.old self.new (written_at (port_in self.old) number (ring_size (in_slot (port_in self.old).pipes number).endpoint) bytes.now) }
        ensures bank { self.new.port.bank ≡ self.old.port.bank }
    {
        calls::write(&self.port, &mut self.rings, number, bytes)
    }

    /// Takes the first bytes that came, as many as the buffer has room for: how many.
    pub(crate) fn read_pipe(&mut self, number: u8, buf: &mut [u8]) -> u16
        requires sound { IsSound FS4 (joint self.old.port) self.old.rings }
        requires has { Has 0 self.old.port.bank }
        requires receiver { IsReceiver (port_in self.old).pipes self.old.rings number }
        requires open { is_out_open (out_slot (port_in self.old).pipes number).pipe.phase ≡ true }
        ensures gave { result ≡ length (take (length buf.old) (out_slot (port_in self.old).pipes number).pipe.held) }
        ensures bytes { take result buf.new ≡ take (length buf.old) (out_slot (port_in self.old).pipes number).pipe.held }
        ensures size { length buf.new ≡ length buf.old }
        ensures becomes { Becomes 0 self.old self.new (read_at (port_in self.old) number (length buf.old)) }
        ensures bank { self.new.port.bank ≡ self.old.port.bank }
    {
        calls::read(&self.port, &mut self.rings, number, buf)
    }

    /// Makes all queued bytes one transfer.
    pub(crate) fn start_pipe(&mut self, number: u8)
        requires sound { IsSound FS4 (joint self.old.port) self.old.rings }
        requires has { Has 0 self.old.port.bank }
        requires sender { IsSender (port_in self.old).pipes self.old.rings number }
        requires rests { in_shown (in_slot (port_in self.old).pipes number) ≡ phase.Rest }
        ensures { Becomes 0 self.old self.new (started_at (port_in self.old) number) }
    {
        calls::start(&mut self.port, &self.rings, number);
    }

    /// Takes the next packet.
    pub(crate) fn arm_pipe(&mut self, number: u8)
        requires sound { IsSound FS4 (joint self.old.port) self.old.rings }
        requires has { Has 2 self.old.port.bank }
        requires receiver { IsReceiver (port_in self.old).pipes self.old.rings number }
        requires rests { out_shown (out_slot (port_in self.old).pipes number) ≡ phase.Rest }
        requires room { packet_room ≤ ring_size (out_slot (port_in self.old).pipes number).endpoint - length (out_slot (port_in self.old).pipes number).pipe.held }
        ensures { Becomes 2 self.old self.new (armed_at (port_in self.old) number) }
    {
        calls::arm(&mut self.port, &self.rings, number);
    }

    /// Halts the endpoint at an address (USB 2.0, 9.4.5).
    pub(crate) fn halt_pipe(&mut self, addr: u8)
        requires sound { IsSound FS4 (joint self.old.port) self.old.rings }
        requires has { Has 1 self.old.port.bank }
        ensures { Becomes 1 self.old self.new (halted_at (port_in self.old) addr) }
    {
        halt(&mut self.port, &self.rings, addr);
    }

    /// Drops all that a pipe holds that receives.
    pub(crate) fn drop_out(&mut self, number: u8)
        requires sound { IsSound FS4 (joint self.old.port) self.old.rings }
        requires has { Has 3 self.old.port.bank }
        requires receiver { IsReceiver (port_in self.old).pipes self.old.rings number }
        requires open { is_out_open (out_slot (port_in self.old).pipes number).pipe.phase ≡ true }
        ensures { Becomes 3 self.old self.new (dropped_at (port_in self.old) number) }
    {
        calls::drop_out(&mut self.port, &mut self.rings, number);
    }

    /// Drops all that a pipe has queued that sends, with the transfer that runs.
    pub(crate) fn drop_in(&mut self, number: u8)
        requires sound { IsSound FS4 (joint self.old.port) self.old.rings }
        requires has { Has 3 self.old.port.bank }
        requires sender { IsSender (port_in self.old).pipes self.old.rings number }
        requires open { in_hears (in_slot (port_in self.old).pipes number) ≡ true }
        ensures { Becomes 3 self.old self.new (dropped_at (port_in self.old) (128 + number)) }
    {
        calls::drop_in(&mut self.port, &mut self.rings, number);
    }
}
