ghost use Rattle.std.specs.Prelude.{◌≡◌, ◌/◌, ◌%◌};
ghost use Rattle.cdc_device_machine.specs.Port.{first, decided, after_setup, accepts, after_data, after_ended, is_whole};
ghost use Rattle.cdc_device_machine.specs.Coding.{coding_bytes};

use crate::coding::{self, LineCoding};
use arrayvec::ArrayVec;
use class_pipes::DATA_IN;
use std::marker::Model;
use usb_packet::Setup;
use usb_pipe::Decision;

/// The size of the packets of the data pipes.
const DATA_PACKET: u16 = 64;

/// The notification pipe.
pub(crate) const NOTICES: u8 = 2;

/// The device side of a serial port (CDC PSTN 1.2): its line coding, its control lines, and whether the end of its last transfer is
/// still to be told.
#[derive(Drop)]
pub struct CdcDevice {
    pub(crate) interface: u8,
    pub(crate) coding: LineCoding,
    pub(crate) dtr: u8,
    pub(crate) rts: u8,
    pub(crate) is_open_ended: bool,
}

impl Model for CdcDevice {
    ghost use Rattle.cdc_device_machine.specs.Port.{Serial};
    ghost use Rattle.cdc_device.specs.Views.{view_of};

    ghost Value = { Serial };

    ghost view = { λ d. record {
      interface = d.interface;
      port = record { coding = view_of d.coding; dtr = d.dtr; rts = d.rts; is_open_ended = d.is_open_ended };
    } };
}

impl CdcDevice {
    /// A serial port whose communication interface has this number. No session stands.
    pub fn new(interface: u8) -> CdcDevice
        ensures interface { result.interface ≡ interface }
        ensures port { result.port ≡ first }
    {
        CdcDevice {
            interface,
            coding: coding::first(),
            dtr: 0,
            rts: 0,
            is_open_ended: false,
        }
    }

    /// A session begins (USB 2.0, 9.1.1.5): nothing of an earlier one is left.
    pub fn opened(&mut self)
        ensures port { self.new.port ≡ first }
        ensures interface { self.new.interface ≡ self.old.interface }
    {
        self.closed();
    }

    /// The session ends, and its line coding and lines with it.
    pub fn closed(&mut self)
        ensures port { self.new.port ≡ first }
        ensures interface { self.new.interface ≡ self.old.interface }
    {
        *self = CdcDevice::new(self.interface);
    }

    /// A packet came on a pipe: its bytes wait there until a call reads them.
    pub fn came(&mut self, _pipe: u8)
        ensures { self.new ≡ self.old }
    {}

    /// The halt of a pipe was cleared (USB 2.0, 9.4.5).
    pub fn cleared(&mut self, _pipe: u8)
        ensures { self.new ≡ self.old }
    {}

    /// A transfer of so many bytes ended on a pipe. The host can't tell the end of one of whole packets (USB 2.0, 5.8.3).
    pub fn ended(&mut self, pipe: u8, len: u16)
        ensures port { self.new.port ≡ after_ended self.old.port pipe len }
        ensures interface { self.new.interface ≡ self.old.interface }
    {
        if pipe == DATA_IN {
            self.is_open_ended = is_whole_packets(len);
        }
    }

    /// A request on endpoint 0 (CDC PSTN 1.2, 6.3.10 to 6.3.12). It is refused where another interface is named.
    pub fn setup(&mut self, setup: &Setup) -> Decision
        ensures decision { result ≡ decided self.old.interface self.old.port setup.now }
        ensures port { self.new.port ≡ after_setup self.old.interface self.old.port setup.now }
        ensures interface { self.new.interface ≡ self.old.interface }
    {
        if setup.index % 256 != self.interface as u16 {
            return Decision::Stall;
        }
        match (setup.request_type, setup.request, setup.length) {
            (0x21, 0x20, 7) => Decision::Take(7),
            (0xa1, 0x21, _) => self.coding_told(),
            (0x21, 0x22, 0) => self.lines_set(setup.value),
            _ => Decision::Stall,
        }
    }

    /// GET_LINE_CODING (CDC PSTN 1.2, 6.3.11).
    fn coding_told(&self) -> Decision
        ensures { result ≡ Decision.Data (record { items = coding_bytes self.now.port.coding }) }
    {
        let mut bytes = ArrayVec::new();
        let _ = bytes.try_extend_from_slice(&coding::bytes_of(&self.coding));
        Decision::Data(bytes)
    }

    /// SET_CONTROL_LINE_STATE (CDC PSTN 1.2, 6.3.12): bit 0 is DTR, bit 1 RTS.
    fn lines_set(&mut self, value: u16) -> Decision
        ensures decision { result ≡ Decision.Status }
        ensures after { self.new ≡ record self.old { port = record self.old.port { dtr = value % 2; rts = (value / 2) % 2 } } }
    {
        self.dtr = (value % 2) as u8;
        self.rts = (value / 2 % 2) as u8;
        Decision::Status
    }

    /// The bytes of SET_LINE_CODING (CDC PSTN 1.2, 6.3.10), which alone has any: whether they are taken. Others than table 17's
    /// are refused and change nothing.
    pub fn data(&mut self, _setup: &Setup, bytes: &[u8]) -> bool
        ensures accepted { result ≡ accepts bytes.now }
        ensures port { self.new.port ≡ after_data self.old.port bytes.now }
        ensures interface { self.new.interface ≡ self.old.interface }
    {
        if !coding::are_valid(bytes) {
            return false;
        }
        self.coding = coding::read(bytes);
        true
    }
}

/// Whether so many bytes are whole packets, of which there is one at least.
fn is_whole_packets(bytes: u16) -> bool
    ensures { result ≡ is_whole bytes }
{
    bytes != 0 && bytes % DATA_PACKET == 0
}
