//! The calls of a class on its pipes, by the numbers of their endpoints, said of the device that driver and rings are together
//! (USB 2.0, 5.3.2).
ghost use Rattle.std.specs.Prelude.{◌≡◌, ◌<◌, ◌≤◌, ◌-◌, ◌+◌, ℕ, true, length, min, take, slice_index};
ghost use Rattle.dwc2_regs.specs.declared.access.TheConstants.{FS4};
ghost use Rattle.usb_pipe.specs.declared.phase.Phase.TheVariants as phase;
ghost use Rattle.usb_pipe.specs.Own.{packet_room};
ghost use Rattle.device_machine.specs.Pipes.{out_slot, in_slot, is_out_open, in_hears};
ghost use Rattle.device_rings.specs.Sizes.{ring_size};
ghost use Rattle.device_rings.specs.Capacities.{capacities_of};
ghost use Rattle.device_relation.specs.PipeRelation.{IsSound};
ghost use Rattle.device_relation.specs.Port.{port_of, read_at, written_at, started_at, armed_at, dropped_at};
ghost use Rattle.dwc2_device.specs.Driver.{joint, Has, Spends};
ghost use Rattle.usbd_core.specs.Task.{GoesInOrder};
ghost use Rattle.usbd_core.specs.Shown.{out_kept_shown, in_kept_shown, out_shown, in_shown, IsSender, IsReceiver};

use crate::numbers::IN;
use device_rings::DevRings;
use dwc2_access::Regs;
use dwc2_device::DevPort;
use endpoint_relation::{InEndpoint, InState, OutEndpoint, OutState};
use usb_pipe::Phase;

/// What a pipe that receives shows, by what the driver keeps of it. Whether a packet landed the driver learns in its next
/// handler run.
fn out_kept_phase(kept: &OutEndpoint) -> Phase
    ensures { result ≡ out_kept_shown kept.now }
{
    if kept.halted {
        return Phase::Halted;
    }
    match kept.state {
        OutState::Closed => Phase::Closed,
        OutState::Rest => Phase::Rest,
        OutState::Armed => Phase::Running,
        OutState::Posted => Phase::Posted,
        OutState::Stale => Phase::Running,
    }
}

/// What a pipe that sends shows, by what the driver keeps of it.
fn in_kept_phase(kept: &InEndpoint) -> Phase
    ensures { result ≡ in_kept_shown kept.now }
{
    if kept.halted {
        return Phase::Halted;
    }
    match kept.state {
        InState::Closed => Phase::Closed,
        InState::Rest => Phase::Rest,
        InState::Running => Phase::Running,
        InState::Posted => Phase::Posted,
    }
}

/// What a pipe that receives does.
pub fn out_phase<R: Regs + Drop>(port: &DevPort<R>, rings: &DevRings, number: u8) -> Phase
    requires sound { IsSound FS4 (joint port.now) rings.now }
    ensures { result ≡ out_shown (out_slot (port_of (joint port.now) rings.now).pipes number) }
{
    let _ = rings;
    let kept = port.out_at(number);
    out_kept_phase(&kept)
}

/// What a pipe that sends does.
pub fn in_phase<R: Regs + Drop>(port: &DevPort<R>, rings: &DevRings, number: u8) -> Phase
    requires sound { IsSound FS4 (joint port.now) rings.now }
    ensures { result ≡ in_shown (in_slot (port_of (joint port.now) rings.now).pipes number) }
{
    let _ = rings;
    let kept = port.in_at(number);
    in_kept_phase(&kept)
}

/// How many bytes a pipe holds that receives.
pub fn out_held<R: Regs + Drop>(port: &DevPort<R>, rings: &DevRings, number: u8) -> u16
    requires sound { IsSound FS4 (joint port.now) rings.now }
    requires receiver { IsReceiver (port_of (joint port.now) rings.now).pipes rings.now number }
    ensures { result ≡ length (out_slot (port_of (joint port.now) rings.now).pipes number).pipe.held }
{
    let _ = port;
    if number == 0 {
        return 0;
    }
    rings.held(number)
}

/// How many bytes a pipe has queued that sends.
pub fn in_held<R: Regs + Drop>(port: &DevPort<R>, rings: &DevRings, number: u8) -> u16
    requires sound { IsSound FS4 (joint port.now) rings.now }
    requires sender { IsSender (port_of (joint port.now) rings.now).pipes rings.now number }
    ensures { result ≡ length (in_slot (port_of (joint port.now) rings.now).pipes number).pipe.queue }
{
    let _ = port;
    if number == 0 {
        return 0;
    }
    rings.held(IN + number)
}

/// How many more bytes a pipe has room for that receives: none where it is closed.
pub fn out_room<R: Regs + Drop>(port: &DevPort<R>, rings: &DevRings, number: u8) -> u16
    requires sound { IsSound FS4 (joint port.now) rings.now }
    requires receiver { IsReceiver (port_of (joint port.now) rings.now).pipes rings.now number }
    ensures { result ≡ ring_size (out_slot (port_of (joint port.now) rings.now).pipes number).endpoint - length (out_slot (port_of (joint port.now) rings.now).pipes number).pipe.held }
{
    if port.is_open_at(number) {
        return rings.room(number);
    }
    0
}

/// How many more bytes a pipe has room for that sends: none where it is closed.
pub fn in_room<R: Regs + Drop>(port: &DevPort<R>, rings: &DevRings, number: u8) -> u16
    requires sound { IsSound FS4 (joint port.now) rings.now }
    requires sender { IsSender (port_of (joint port.now) rings.now).pipes rings.now number }
    ensures { result ≡ ring_size (in_slot (port_of (joint port.now) rings.now).pipes number).endpoint - length (in_slot (port_of (joint port.now) rings.now).pipes number).pipe.queue }
{
    if port.is_open_at(IN + number) {
        return rings.room(IN + number);
    }
    0
}

/// Bytes are numbers below 256.
fn below(bytes: &[u8])
    ensures { (i : ℕ) → slice_index bytes.now i < 256 }
{
    let _ = bytes;
}

/// Queues the first bytes, as many as there is room for: how many. The pipe is open.
pub fn write<R: Regs + Drop>(
    port: &DevPort<R>,
    rings: &mut DevRings,
    number: u8,
    bytes: &[u8],
) -> u16
    requires sound { IsSound FS4 (joint port.now) rings.old }
    requires sender { IsSender (port_of (joint port.now) rings.old).pipes rings.old number }
    requires open { in_hears (in_slot (port_of (joint port.now) rings.old).pipes number) ≡ true }
    ensures took { result ≡ min (length bytes.now) (ring_size (in_slot (port_of (joint port.now) rings.old).pipes number).endpoint - length (in_slot (port_of (joint port.now) rings.old).pipes number).pipe.queue) }
    ensures port { port_of (joint port.now) rings.new ≡ written_at (port_of (joint port.now) rings.old) number (ring_size (in_slot (port_of (joint port.now) rings.old).pipes number).endpoint) bytes.now }
    ensures sound { IsSound FS4 (joint port.now) rings.new }
    ensures capacities { capacities_of rings.new ≡ capacities_of rings.old }
{
    let _ = port;
    below(bytes);
    rings.write(IN + number, bytes)
}

/// Takes the first bytes that came, as many as the buffer has room for: how many. The pipe is open.
pub fn read<R: Regs + Drop>(
    port: &DevPort<R>,
    rings: &mut DevRings,
    number: u8,
    buf: &mut [u8],
) -> u16
    requires sound { IsSound FS4 (joint port.now) rings.old }
    requires receiver { IsReceiver (port_of (joint port.now) rings.old).pipes rings.old number }
    requires open { is_out_open (out_slot (port_of (joint port.now) rings.old).pipes number).pipe.phase ≡ true }
    ensures gave { result ≡ length (take (length buf.old) (out_slot (port_of (joint port.now) rings.old).pipes number).pipe.held) }
    ensures bytes { take result buf.new ≡ take (length buf.old) (out_slot (port_of (joint port.now) rings.old).pipes number).pipe.held }
    ensures size { length buf.new ≡ length buf.old }
    ensures port { port_of (joint port.now) rings.new ≡ read_at (port_of (joint port.now) rings.old) number (length buf.old) }
    ensures sound { IsSound FS4 (joint port.now) rings.new }
    ensures capacities { capacities_of rings.new ≡ capacities_of rings.old }
{
    let _ = port;
    rings.read(number, buf)
}

/// Makes all queued bytes one transfer, an empty packet where none is queued (USB 2.0, 5.8.3). The pipe rests.
pub fn start<R: Regs + Drop>(port: &mut DevPort<R>, rings: &DevRings, number: u8)
    requires sound { IsSound FS4 (joint port.old) rings.now }
    requires sender { IsSender (port_of (joint port.old) rings.now).pipes rings.now number }
    requires rests { in_shown (in_slot (port_of (joint port.old) rings.now).pipes number) ≡ phase.Rest }
    ensures port { port_of (joint port.new) rings.now ≡ started_at (port_of (joint port.old) rings.now) number }
    ensures sound { IsSound FS4 (joint port.new) rings.now }
    ensures order { GoesInOrder port.old port.new }
    ensures bank { port.new.bank ≡ port.old.bank }
{
    let held = rings.held(IN + number);
    port.start_in(number, held, rings);
}

/// Takes the next packet (USB 2.0, 8.4.5). The pipe rests and has room for one.
pub fn arm<R: Regs + Drop>(port: &mut DevPort<R>, rings: &DevRings, number: u8)
    requires sound { IsSound FS4 (joint port.old) rings.now }
    requires receiver { IsReceiver (port_of (joint port.old) rings.now).pipes rings.now number }
    requires rests { out_shown (out_slot (port_of (joint port.old) rings.now).pipes number) ≡ phase.Rest }
    requires room { packet_room ≤ ring_size (out_slot (port_of (joint port.old) rings.now).pipes number).endpoint - length (out_slot (port_of (joint port.old) rings.now).pipes number).pipe.held }
    requires has { Has 2 port.old.bank }
    ensures port { port_of (joint port.new) rings.now ≡ armed_at (port_of (joint port.old) rings.now) number }
    ensures sound { IsSound FS4 (joint port.new) rings.now }
    ensures order { GoesInOrder port.old port.new }
    ensures spends { Spends 2 port.old.bank port.new.bank }
{
    port.arm_out(number, rings);
}

/// Drops all that a pipe holds that receives. The pipe is open.
pub fn drop_out<R: Regs + Drop>(port: &mut DevPort<R>, rings: &mut DevRings, number: u8)
    requires sound { IsSound FS4 (joint port.old) rings.old }
    requires receiver { IsReceiver (port_of (joint port.old) rings.old).pipes rings.old number }
    requires open { is_out_open (out_slot (port_of (joint port.old) rings.old).pipes number).pipe.phase ≡ true }
    requires has { Has 3 port.old.bank }
    ensures port { port_of (joint port.new) rings.new ≡ dropped_at (port_of (joint port.old) rings.old) number }
    ensures sound { IsSound FS4 (joint port.new) rings.new }
    ensures capacities { capacities_of rings.new ≡ capacities_of rings.old }
    ensures order { GoesInOrder port.old port.new }
    ensures spends { Spends 3 port.old.bank port.new.bank }
{
    port.drop_all(number, rings);
}

/// Drops all that a pipe has queued that sends, with the transfer that runs. The pipe is open.
pub fn drop_in<R: Regs + Drop>(port: &mut DevPort<R>, rings: &mut DevRings, number: u8)
    requires sound { IsSound FS4 (joint port.old) rings.old }
    requires sender { IsSender (port_of (joint port.old) rings.old).pipes rings.old number }
    requires open { in_hears (in_slot (port_of (joint port.old) rings.old).pipes number) ≡ true }
    requires has { Has 3 port.old.bank }
    ensures port { port_of (joint port.new) rings.new ≡ dropped_at (port_of (joint port.old) rings.old) (128 + number) }
    ensures sound { IsSound FS4 (joint port.new) rings.new }
    ensures capacities { capacities_of rings.new ≡ capacities_of rings.old }
    ensures order { GoesInOrder port.old port.new }
    ensures spends { Spends 3 port.old.bank port.new.bank }
{
    port.drop_all(IN + number, rings);
}
