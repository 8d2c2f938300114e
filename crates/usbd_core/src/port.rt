//! Calls of the driver that aren't handed the rings, said of the device that driver and rings are together.
ghost use Rattle.std.specs.Prelude.{◌≡◌, ◌<◌, true, false, IsTrue};
ghost use Rattle.usb_descriptor.specs.Served.{IsServed};
ghost use Rattle.device_machine.specs.Pipes.{is_open_at};
ghost use Rattle.dwc2_regs.specs.declared.access.TheConstants.{FS4};
ghost use Rattle.device_relation.specs.PipeRelation.{IsSound};
ghost use Rattle.device_relation.specs.Port.{port_of, may_start, started, armed, stalled, addressed, halted_at, with_endpoint};
ghost use Rattle.dwc2_device.specs.Driver.{joint, Has, Spends};
ghost use Rattle.usbd_core.specs.Device.{tops};
ghost use Rattle.usbd_core.specs.Task.{GoesInOrder};

use device_rings::DevRings;
use dwc2_access::Regs;
use dwc2_device::DevPort;
use usb_descriptor::Endpoint;
use usb_packet::Packet;

/// Endpoint 0 has this packet for the host. `last` is true exactly for the last packet of data for the host.
pub fn start<R: Regs + Drop>(port: &mut DevPort<R>, rings: &DevRings, packet: &Packet, last: bool)
    requires sound { IsSound FS4 (joint port.old) rings.now }
    requires free { IsTrue (may_start (port_of (joint port.old) rings.now).bus.side) }
    requires heard { (port_of (joint port.old) rings.now).heard ≡ true }
    requires has { Has 2 port.old.bank }
    ensures port { port_of (joint port.new) rings.now ≡ started (port_of (joint port.old) rings.now) packet.now last }
    ensures sound { IsSound FS4 (joint port.new) rings.now }
    ensures order { GoesInOrder port.old port.new }
    ensures spends { Spends 2 port.old.bank port.new.bank }
{
    let _ = rings;
    port.start_ep0(packet, last);
}

/// Endpoint 0 takes a packet from the host.
pub fn arm<R: Regs + Drop>(port: &mut DevPort<R>, rings: &DevRings)
    requires sound { IsSound FS4 (joint port.old) rings.now }
    requires free { IsTrue (may_start (port_of (joint port.old) rings.now).bus.side) }
    requires heard { (port_of (joint port.old) rings.now).heard ≡ true }
    requires has { Has 4 port.old.bank }
    ensures port { port_of (joint port.new) rings.now ≡ armed (port_of (joint port.old) rings.now) }
    ensures sound { IsSound FS4 (joint port.new) rings.now }
    ensures order { GoesInOrder port.old port.new }
    ensures spends { Spends 4 port.old.bank port.new.bank }
{
    let _ = rings;
    port.arm_ep0();
}

/// Endpoint 0 answers STALL until the next SETUP.
pub fn stall<R: Regs + Drop>(port: &mut DevPort<R>, rings: &DevRings)
    requires sound { IsSound FS4 (joint port.old) rings.now }
    requires free { IsTrue (may_start (port_of (joint port.old) rings.now).bus.side) }
    requires has { Has 2 port.old.bank }
    ensures port { port_of (joint port.new) rings.now ≡ stalled (port_of (joint port.old) rings.now) }
    ensures sound { IsSound FS4 (joint port.new) rings.now }
    ensures order { GoesInOrder port.old port.new }
    ensures spends { Spends 2 port.old.bank port.new.bank }
{
    let _ = rings;
    port.stall_ep0();
}

/// The packet that endpoint 0 has for the host brings this address.
pub fn bring<R: Regs + Drop>(port: &mut DevPort<R>, rings: &DevRings, address: u8)
    requires sound { IsSound FS4 (joint port.old) rings.now }
    requires address { address < 128 }
    ensures port { port_of (joint port.new) rings.now ≡ addressed (port_of (joint port.old) rings.now) address }
    ensures sound { IsSound FS4 (joint port.new) rings.now }
    ensures order { GoesInOrder port.old port.new }
    ensures bank { port.new.bank ≡ port.old.bank }
{
    let _ = rings;
    port.set_address(address);
}

/// The endpoint at an address is halted, where one is open.
pub fn halt<R: Regs + Drop>(port: &mut DevPort<R>, rings: &DevRings, addr: u8)
    requires sound { IsSound FS4 (joint port.old) rings.now }
    requires has { Has 1 port.old.bank }
    ensures port { port_of (joint port.new) rings.now ≡ halted_at (port_of (joint port.old) rings.now) addr }
    ensures sound { IsSound FS4 (joint port.new) rings.now }
    ensures order { GoesInOrder port.old port.new }
    ensures spends { Spends 1 port.old.bank port.new.bank }
{
    let _ = rings;
    port.halt(addr);
}

/// An endpoint is opened. None with its address is open.
pub fn open_one<R: Regs + Drop>(port: &mut DevPort<R>, rings: &DevRings, endpoint: &Endpoint)
    requires sound { IsSound FS4 (joint port.old) rings.now }
    requires served { IsServed (tops FS4) endpoint.now }
    requires shut { is_open_at (port_of (joint port.old) rings.now).pipes endpoint.now.addr ≡ false }
    requires has { Has 1 port.old.bank }
    ensures port { port_of (joint port.new) rings.now ≡ with_endpoint (port_of (joint port.old) rings.now) endpoint.now }
    ensures sound { IsSound FS4 (joint port.new) rings.now }
    ensures order { GoesInOrder port.old port.new }
    ensures spends { Spends 1 port.old.bank port.new.bank }
{
    let _ = rings;
    port.open_ep(endpoint);
}
