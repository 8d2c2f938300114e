//! The calls on endpoints other than 0.
ghost use Rattle.std.specs.Prelude.{◌≡◌, ◌+◌, ◌-◌, ◌/◌, ◌≤◌, ◌<◌, [], true, false, length, max};
ghost use Rattle.usb_descriptor.specs.Set.{is_core};
ghost use Rattle.dwc2_regs.specs.declared.access.TheConstants.{FS4};
ghost use Rattle.device_rings.specs.Rings.{in_ring, out_ring, with_in_ring, ring_at, with_ring_at, emptied};
ghost use Rattle.device_rings.specs.Capacities.{capacities_of};
ghost use Rattle.endpoint_relation.specs.declared.out_.OutState.TheVariants as out_state;
ghost use Rattle.endpoint_relation.specs.declared.in_.InState.TheVariants as in_state;
ghost use Rattle.endpoint_relation.specs.InRelation.{InStands};
ghost use Rattle.endpoint_relation.specs.InSteps.{ring_beyond};
ghost use Rattle.device_relation.specs.Software.{out_kept, in_kept};
ghost use Rattle.device_relation.specs.PipeRelation.{IsSound};
ghost use Rattle.device_relation.specs.Port.{port_of, with_endpoint, without_endpoints, halted_at, cleared_at, armed_at, started_at, dropped_at};
ghost use Rattle.device_relation.specs.Run.{in_joint_of};
ghost use Rattle.dwc2_device.specs.Driver.{joint, whole, Has, Spends};
ghost use Rattle.dwc2_device.specs.Keeps.{Keeps};
ghost use Rattle.access_order.specs.Phase.{serving};
ghost use Rattle.dwc2_device.specs.Order.{Goes};
ghost use Rattle.dwc2_device.specs.Writes.{begins, closes_out, closes_in};
ghost use Rattle.dwc2_device.specs.Calls.{IsNumbered, is_open_at};

use crate::DevPort;
use device_rings::DevRings;
use dwc2_access::Regs;
use endpoint_relation::InState;
use usb_descriptor::Endpoint;

/// Bit 7 of an endpoint's address, which says IN (USB 2.0, 9.6.6).
const IN: u8 = 0x80;

impl<R: Regs + Drop> DevPort<R> {
    /// Opens an endpoint with a number from 1 to 3 and packets of 1 to 64 bytes. None with its address may be open.
    pub fn open_ep(&mut self, ep: &Endpoint)
        requires numbered { IsNumbered ep.now.addr }
        requires some { 1 ≤ ep.now.size }
        requires most { ep.now.size ≤ 64 }
        requires shut { is_open_at self.old.software ep.now.addr ≡ false }
        requires has { Has 1 self.old.bank }
        ensures keeps { Keeps (λ port. with_endpoint port ep.now) (joint self.old) (joint self.new) }
        ensures order { Goes (serving 0) (serving 0) self.old self.new }
        ensures spends { Spends 1 self.old.bank self.new.bank }
    {
        if ep.addr < IN {
            self.add_out(ep);
        } else {
            self.add_in(ep, ep.addr - IN);
        }
    }

    /// Halts the endpoint at an address, where one is open (USB 2.0, 9.4.5).
    pub fn halt(&mut self, addr: u8)
        requires has { Has 1 self.old.bank }
        ensures keeps { Keeps (λ port. halted_at port addr) (joint self.old) (joint self.new) }
        ensures order { Goes (serving 0) (serving 0) self.old self.new }
        ensures spends { Spends 1 self.old.bank self.new.bank }
    {
        if self.is_open_at(addr) {
            self.halt_open(addr);
        }
    }

    fn halt_open(&mut self, addr: u8)
        requires numbered { IsNumbered addr }
        requires open_ { is_open_at self.old.software addr ≡ true }
        requires has { Has 1 self.old.bank }
        ensures keeps { Keeps (λ port. halted_at port addr) (joint self.old) (joint self.new) }
        ensures order { Goes (serving 0) (serving 0) self.old self.new }
        ensures spends { Spends 1 self.old.bank self.new.bank }
    {
        if addr < IN {
            self.halt_out(addr);
        } else {
            self.halt_in(addr - IN);
        }
    }

    /// Ends the halt of the endpoint at an address, where one is open, with DATA0 next; of an IN endpoint a transfer that runs
    /// ends, and its bytes leave the ring (USB 2.0, 9.4.5).
    pub fn clear_halt(&mut self, addr: u8, rings: &mut DevRings)
        requires sound { IsSound FS4 (joint self.old) rings.old }
        requires has { Has 3 self.old.bank }
        ensures port { port_of (joint self.new) rings.new ≡ cleared_at (port_of (joint self.old) rings.old) addr }
        ensures capacities { capacities_of rings.new ≡ capacities_of rings.old }
        ensures sound { IsSound FS4 (joint self.new) rings.new }
        ensures order { Goes (serving 0) (serving 0) self.old self.new }
        ensures spends { Spends 3 self.old.bank self.new.bank }
    {
        if self.is_open_at(addr) {
            self.clear_open(addr, rings);
        }
    }

    fn clear_open(&mut self, addr: u8, rings: &mut DevRings)
        requires sound { IsSound FS4 (joint self.old) rings.old }
        requires numbered { IsNumbered addr }
        requires open_ { is_open_at self.old.software addr ≡ true }
        requires has { Has 3 self.old.bank }
        ensures port { port_of (joint self.new) rings.new ≡ cleared_at (port_of (joint self.old) rings.old) addr }
        ensures capacities { capacities_of rings.new ≡ capacities_of rings.old }
        ensures sound { IsSound FS4 (joint self.new) rings.new }
        ensures order { Goes (serving 0) (serving 0) self.old self.new }
        ensures spends { Spends 3 self.old.bank self.new.bank }
    {
        if addr < IN {
            self.clear_out(addr);
        } else {
            self.end_transfer(addr - IN, rings);
            self.clear_in(addr - IN);
        }
    }

    /// The bytes of a transfer that runs leave the ring.
    #[tactic(auto, using(crate::proofs::Loaded::same_ring, crate::proofs::Loaded::is_transfer, crate::proofs::Loaded::transfer))]
    fn end_transfer(&mut self, number: u8, rings: &mut DevRings)
        requires from { 1 ≤ number }
        requires to { number ≤ 3 }
        requires stands { InStands number (in_joint_of (whole self.old rings.old) number) }
        ensures same { self.new ≡ self.old }
        ensures rings { rings.new ≡ with_in_ring rings.old number (record (in_ring rings.old number) { bytes = ring_beyond (in_kept self.old.software number).state (in_kept self.old.software number).bytes (in_ring rings.old number).bytes }) }
    {
        let kept = self.in_kept(number);
        match kept.state {
            InState::Running => rings.commit(number, kept.bytes),
            InState::Closed => {}
            InState::Rest => {}
            InState::Posted => {}
        }
    }

    /// Drops what an open endpoint of a class holds: the bytes in its ring, and the packets that are loaded.
    pub fn drop_all(&mut self, addr: u8, rings: &mut DevRings)
        requires sound { IsSound FS4 (joint self.old) rings.old }
        requires numbered { IsNumbered addr }
        requires open_ { is_open_at self.old.software addr ≡ true }
        requires has { Has 3 self.old.bank }
        ensures port { port_of (joint self.new) rings.new ≡ dropped_at (port_of (joint self.old) rings.old) addr }
        ensures rings { rings.new ≡ with_ring_at rings.old addr (emptied (ring_at rings.old addr)) }
        ensures sound { IsSound FS4 (joint self.new) rings.new }
        ensures order { Goes (serving 0) (serving 0) self.old self.new }
        ensures spends { Spends 3 self.old.bank self.new.bank }
    {
        if addr < IN {
            rings.clear_out(addr);
        } else {
            self.drop_in(addr - IN);
            rings.clear_in(addr - IN);
        }
    }

    /// An OUT endpoint of a class takes the next packet. It is open, at rest and not halted, and its ring has room for a packet.
    pub fn arm_out(&mut self, ep: u8, rings: &DevRings)
        requires sound { IsSound FS4 (joint self.old) rings.now }
        requires from { 1 ≤ ep }
        requires to { ep ≤ 3 }
        requires rests { (out_kept self.old.software ep).state ≡ out_state.Rest }
        requires moves { (out_kept self.old.software ep).halted ≡ false }
        requires class { is_core (out_kept self.old.software ep).endpoint.owner ≡ false }
        requires room { length (out_ring rings.now ep).bytes + (out_kept self.old.software ep).endpoint.size ≤ (out_ring rings.now ep).capacity }
        requires has { Has 2 self.old.bank }
        ensures port { port_of (joint self.new) rings.now ≡ armed_at (port_of (joint self.old) rings.now) ep }
        ensures sound { IsSound FS4 (joint self.new) rings.now }
        ensures order { Goes (serving 0) (serving 0) self.old self.new }
        ensures spends { Spends 2 self.old.bank self.new.bank }
    {
        let _ = rings;
        self.arm_one(ep);
    }

    /// An IN endpoint of a class begins a transfer of the `len` bytes that lie in its ring. It is open and at rest.
    #[tactic(auto, using(crate::proofs::Sound::sized))]
    pub fn start_in(&mut self, ep: u8, len: u16, rings: &DevRings)
        requires sound { IsSound FS4 (joint self.old) rings.now }
        requires from { 1 ≤ ep }
        requires to { ep ≤ 3 }
        requires rests { (in_kept self.old.software ep).state ≡ in_state.Rest }
        requires class { is_core (in_kept self.old.software ep).endpoint.owner ≡ false }
        requires held { len ≡ length (in_ring rings.now ep).bytes }
        ensures port { port_of (joint self.new) rings.now ≡ started_at (port_of (joint self.old) rings.now) ep }
        ensures sound { IsSound FS4 (joint self.new) rings.now }
        ensures order { Goes (serving 0) (serving 0) self.old self.new }
        ensures bank { self.new.bank ≡ self.old.bank }
    {
        let _ = rings;
        self.begin_transfer(ep, len);
    }

    fn begin_transfer(&mut self, number: u8, bytes: u16)
        requires from { 1 ≤ number }
        requires to { number ≤ 3 }
        requires some { 1 ≤ (in_kept self.old.software number).endpoint.size }
        requires most { (in_kept self.old.software number).endpoint.size ≤ 64 }
        ensures joint { joint self.new ≡ begins (joint self.old) number bytes }
        ensures order { (in_kept self.old.software number).state ≡ in_state.Rest → Goes (serving 0) (serving 0) self.old self.new }
        ensures bank { self.new.bank ≡ self.old.bank }
    {
        let mut kept = self.in_kept(number);
        kept.state = InState::Running;
        kept.bytes = bytes;
        kept.sent = 0;
        kept.left = packets_of(bytes, kept.endpoint.size as u16);
        kept.loaded = 0;
        self.keep_in(number, kept);
    }

    /// A session ends: all endpoints but endpoint 0 are closed, and all rings are emptied.
    pub fn close_all(&mut self, rings: &mut DevRings)
        requires sound { IsSound FS4 (joint self.old) rings.old }
        requires has { Has 18 self.old.bank }
        ensures port { port_of (joint self.new) rings.new ≡ without_endpoints (port_of (joint self.old) rings.old) }
        ensures capacities { capacities_of rings.new ≡ capacities_of rings.old }
        ensures sound { IsSound FS4 (joint self.new) rings.new }
        ensures order { Goes (serving 0) (serving 0) self.old self.new }
        ensures spends { Spends 18 self.old.bank self.new.bank }
    {
        self.close_outs();
        self.close_ins();
        rings.clear_all();
    }

    fn close_outs(&mut self)
        requires has { Has 9 self.old.bank }
        ensures joint { joint self.new ≡ closes_out (closes_out (closes_out (joint self.old) 1) 2) 3 }
        ensures order { Goes (serving 0) (serving 0) self.old self.new }
        ensures spends { Spends 9 self.old.bank self.new.bank }
    {
        self.close_out(1);
        self.close_out(2);
        self.close_out(3);
    }

    fn close_ins(&mut self)
        requires has { Has 9 self.old.bank }
        ensures joint { joint self.new ≡ closes_in (closes_in (closes_in (joint self.old) 1) 2) 3 }
        ensures order { Goes (serving 0) (serving 0) self.old self.new }
        ensures spends { Spends 9 self.old.bank self.new.bank }
    {
        self.close_in(1);
        self.close_in(2);
        self.close_in(3);
    }
}

/// How many packets some bytes have; no bytes have an empty one.
fn packets_of(bytes: u16, size: u16) -> u16
    requires some { 1 ≤ size }
    requires most { size ≤ 64 }
    ensures { result ≡ max 1 ((bytes + (size - 1)) / size) }
{
    let packets = (bytes as u32 + (size as u32 - 1)) / size as u32;
    packets.max(1) as u16
}
