//! The driver with its rings over the model of the controller, which agree.
ghost use Rattle.std.specs.Prelude.{◌≡◌, ℕ, ◌<◌, ◌≤◌, true, slice_index};
ghost use Rattle.device_rings.specs.Sizes.{rings_of};
ghost use Rattle.dwc2_device.specs.Calls.{is_open_at};

use device_relation::laws::{bus_keeps, event_fits};
use device_rings::DevRings;
use dwc2_access::Regs;
use dwc2_device::{DevPort, Note, notes_keep};
use dwc2_devmodel::DevCore;
use dwc2_regs::FS4;
use std::alloc::Global;
use std::marker::Model;
use std::process::Abort;
use usb_compose::FifoPlan;
use usb_descriptor::Endpoint;
use usb_packet::{BusAnswer, BusEvent};

/// The plan of an `FS4`.
pub const PLAN: FifoPlan = FifoPlan {
    rx: 84,
    tx0: 16,
    tx: 32,
    ins: 3,
};

/// Bit 7 of an endpoint's address, which says IN.
const IN: u8 = 0x80;

/// A driver with its rings. A clause sees the driver with the controller.
#[derive(Drop)]
pub struct Bench {
    port: DevPort<DevCore>,
    rings: DevRings,
}

impl Model for Bench {
    ghost use Rattle.std.specs.Prelude.{◌≡◌, []};
    ghost use Rattle.dwc2_regs.specs.declared.access.TheConstants.{FS4};
    ghost use Rattle.device_relation.specs.PipeRelation.{IsSound};
    ghost use Rattle.dwc2_device.specs.Driver.{Driver, joint};

    ghost Value = { Driver };

    ghost view = { λ b. b.port };

    ghost invariant = { λ b. IsSound FS4 (joint b.port) b.rings × (b.port.bank.due ≡ []) };
}

impl Bench {
    /// A driver over a controller that is opened, and isn't woken yet, with rings for these endpoints.
    pub fn new(rt: &impl Abort, alloc: Global, endpoints: &[Endpoint]) -> Bench {
        let rings = empty_rings(rt, alloc, endpoints);
        let mut port = DevPort::new(DevCore::new(FS4), FS4);
        port.init(&PLAN);
        Bench { port, rings }
    }

    /// One that a reset has woken, with these endpoints open.
    pub fn open(rt: &impl Abort, alloc: Global, endpoints: &[Endpoint]) -> Bench {
        let mut bench = Bench::new(rt, alloc, endpoints);
        let _ = bench.bus(&BusEvent::Reset);
        bench.irq();
        let _ = bench.note();
        bench.add(endpoints);
        bench
    }

    /// A bus event, with the controller's answer.
    pub fn bus(&mut self, event: &BusEvent) -> BusAnswer {
        event_fits(event);
        bus_keeps();
        self.port.regs().bus(event)
    }

    /// A handler run, and how many accesses it makes.
    pub fn irq(&mut self) -> usize {
        self.port.regs().begin();
        self.port.run_handler(&mut self.rings);
        self.port.controller().accesses().len()
    }

    /// The next note is taken.
    pub fn note(&mut self) -> Option<Note> {
        notes_keep();
        self.port.next_note()
    }

    /// A task takes up all notes of endpoints other than 0.
    pub fn task(&mut self) {
        self.port.take_pipe_notes();
    }

    /// Arms an OUT endpoint, where that may be, and tells how many accesses that took.
    pub fn arm(&mut self, ep: u8) -> Option<usize> {
        self.port.regs().begin();
        if !self.port.may_arm(ep, &self.rings) {
            return None;
        }
        self.port.arm_out(ep, &self.rings);
        Some(self.port.controller().accesses().len())
    }

    /// Writes bytes to the ring of an IN endpoint and starts it, where that may be.
    pub fn send(&mut self, ep: u8, bytes: &[u8]) -> bool {
        if !self.port.may_start(ep) {
            return false;
        }
        self.write(ep + IN, bytes);
        self.start(ep)
    }

    fn write(&mut self, addr: u8, bytes: &[u8]) {
        if addr >= 129 && addr <= 131 && self.port.is_open_at(addr) {
            self.write_ring(addr, bytes);
        }
    }

    fn write_ring(&mut self, addr: u8, bytes: &[u8])
        requires from { 129 ≤ addr }
        requires to { addr ≤ 131 }
        requires open_ { is_open_at self.old.software addr ≡ true }
    {
        below(bytes);
        if !self.rings.has_ring(addr) {
            return;
        }
        let _ = self.rings.write(addr, bytes);
    }

    fn start(&mut self, ep: u8) -> bool {
        if !self.port.may_start(ep) || !self.rings.has_ring(ep + IN) {
            return false;
        }
        let len = self.rings.held(ep + IN);
        self.port.start_in(ep, len, &self.rings);
        true
    }

    /// The bytes that the ring of an OUT endpoint holds, at most 64 of them, are read, and how many they are.
    pub fn read(&mut self, ep: u8, buf: &mut [u8; 64]) -> u16 {
        if ep >= 1 && ep <= 3 {
            self.read_ring(ep, buf)
        } else {
            0
        }
    }

    fn read_ring(&mut self, ep: u8, buf: &mut [u8; 64]) -> u16
        requires from { 1 ≤ ep }
        requires to { ep ≤ 3 }
    {
        if !self.rings.has_ring(ep) {
            return 0;
        }
        self.rings.read(ep, buf.as_mut_slice())
    }

    /// How many bytes the ring of an endpoint holds.
    pub fn held(&self, addr: u8) -> u16 {
        if !self.rings.has_ring(addr) {
            return 0;
        }
        self.rings.held(addr)
    }

    /// All endpoints but endpoint 0 are closed.
    pub fn close(&mut self) {
        self.port.regs().begin();
        self.port.close_all(&mut self.rings);
    }

    /// Endpoints are opened, each that has a number and a size which the controller has, and whose address none has.
    pub fn add(&mut self, endpoints: &[Endpoint]) {
        for endpoint in endpoints {
            self.add_one(endpoint);
        }
    }

    fn add_one(&mut self, endpoint: &Endpoint) {
        let number = endpoint.addr % IN;
        if number == 0 || number > 3 || endpoint.size == 0 || endpoint.size > 64 {
            return;
        }
        self.port.regs().begin();
        if !self.port.is_open_at(endpoint.addr) {
            self.port.open_ep(endpoint);
        }
    }

    /// The addresses of the halted endpoints are none.
    pub fn none_halted(&self) -> bool {
        self.port.halted_addresses().is_empty()
    }

    /// An address is brought.
    pub fn bring(&mut self, address: u8) {
        if address < 128 {
            self.port.set_address(address);
        }
    }

    /// The endpoint at an address is halted, where one is open.
    pub fn halt(&mut self, addr: u8) {
        self.port.regs().begin();
        self.port.halt(addr);
    }

    /// Its halt ends.
    pub fn clear(&mut self, addr: u8) {
        self.port.regs().begin();
        self.port.clear_halt(addr, &mut self.rings);
    }
}

/// Rings for these endpoints, which hold nothing.
fn empty_rings(rt: &impl Abort, alloc: Global, endpoints: &[Endpoint]) -> DevRings
    ensures { result ≡ rings_of endpoints.now }
{
    DevRings::of(alloc, endpoints).expect(rt, "memory")
}

/// Bytes are numbers below 256.
fn below(bytes: &[u8])
    ensures { (i : ℕ) → slice_index bytes.now i < 256 }
{
    let _ = bytes;
}
