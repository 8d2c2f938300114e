// The requests of its class (HID 1.11, 7.2).
ghost use Rattle.std.specs.Prelude.{◌≡◌, ◌≤◌, ◌/◌, ◌%◌, ◌==◌, ◌&&◌, nat_le, [], ◌∷◌, Some, IsTrue, length, if◌then◌else◌};
ghost use Rattle.hid_device_machine.specs.Reports.{type_of};
ghost use Rattle.hid_device_machine.specs.Device.{decided, after_setup, accepts, after_data, report_told, takes_report, may_set, set_as};

use crate::device::HidDevice;
use crate::reports::{copy_of, type_of};
use arrayvec::ArrayVec;
use hid_device_machine::{ReportType, SetReport};
use usb_packet::Setup;
use usb_pipe::Decision;

/// The most bytes of a report that a request gives: one packet on endpoint 0.
const MOST_SET: u16 = 64;

impl HidDevice {
    /// A request on endpoint 0 to its interface (HID 1.11, 7.2.1 to 7.2.6).
    pub fn setup(&mut self, setup: &Setup) -> Decision
        ensures decision { result ≡ decided self.old setup.now }
        ensures after { self.new ≡ after_setup self.old setup.now }
    {
        match (setup.request_type, setup.request) {
            (0xa1, 0x01) => self.report_told(setup.value),
            (0xa1, 0x02) => told(self.idle),
            (0xa1, 0x03) => told(self.protocol),
            (0x21, 0x09) => self.report_asked(setup),
            (0x21, 0x0a) => self.idle_set(setup),
            (0x21, 0x0b) => self.protocol_set(setup),
            _ => Decision::Stall,
        }
    }

    /// GET_REPORT (HID 1.11, 7.2.1) of the type in the high byte of wValue and the id in the low one.
    fn report_told(&self, value: u16) -> Decision
        ensures { result ≡ report_told self.now (type_of (value / 256)) (value % 256) }
    {
        let [high, low] = value.to_be_bytes();
        match type_of(high) {
            Some(report_type) => self.report_of(report_type, low),
            None => Decision::Stall,
        }
    }

    /// GET_REPORT of a type and id.
    fn report_of(&self, report_type: ReportType, id: u8) -> Decision
        ensures { result ≡ report_told self.now (Some report_type) id }
    {
        if self.length(report_type, id) == 0 {
            return Decision::Stall;
        }
        Decision::Data(self.bytes_told(report_type, id))
    }

    /// Whether it is SET_REPORT (HID 1.11, 7.2.2) of a report that there is and that the host may set, with all its bytes.
    fn takes_report(&self, setup: &Setup) -> bool
        ensures value { result ≡ takes_report self.now setup.now }
        ensures bound { IsTrue result → setup.now.length ≤ 64 }
    {
        if setup.request_type != 0x21 || setup.request != 0x09 {
            return false;
        }
        let [high, low] = setup.value.to_be_bytes();
        match type_of(high) {
            Some(report_type) => self.may_set(report_type, low, setup.length),
            None => false,
        }
    }

    /// Whether the host may set so many bytes as the report of a type and id.
    fn may_set(&self, report_type: ReportType, id: u8, size: u16) -> bool
        ensures value { result ≡ may_set self.now (Some report_type) id size }
    {
        report_type != ReportType::Input
            && self.length(report_type, id) >= 1
            && size == self.wire_size(report_type, id)
            && size <= MOST_SET
    }

    /// SET_REPORT: its data follows.
    fn report_asked(&self, setup: &Setup) -> Decision
        ensures { result ≡ if takes_report self.now setup.now then Decision.Take setup.now.length else Decision.Stall }
    {
        if !self.takes_report(setup) {
            return Decision::Stall;
        }
        Decision::Take(setup.length as u8)
    }

    /// SET_IDLE (HID 1.11, 7.2.4): the high byte of wValue is the rate.
    fn idle_set(&mut self, setup: &Setup) -> Decision
        ensures decision { result ≡ if setup.now.length == 0 then Decision.Status else Decision.Stall }
        ensures after { self.new ≡ if setup.now.length == 0 then record self.old { idle = setup.now.value / 256 } else self.old }
    {
        if setup.length != 0 {
            return Decision::Stall;
        }
        let [high, _] = setup.value.to_be_bytes();
        self.idle = high;
        Decision::Status
    }

    /// SET_PROTOCOL (HID 1.11, 7.2.6): 0 is the boot protocol, 1 the report protocol.
    fn protocol_set(&mut self, setup: &Setup) -> Decision
        ensures decision { result ≡ if nat_le setup.now.value 1 && (setup.now.length == 0) then Decision.Status else Decision.Stall }
        ensures after { self.new ≡ if nat_le setup.now.value 1 && (setup.now.length == 0) then record self.old { protocol = setup.now.value } else self.old }
    {
        if setup.length != 0 || setup.value > 1 {
            return Decision::Stall;
        }
        self.protocol = setup.value as u8;
        Decision::Status
    }

    /// The data of SET_REPORT (HID 1.11, 7.2.2), which alone has any: whether it is taken. Data of another length than the request
    /// said is refused and changes nothing.
    pub fn data(&mut self, setup: &Setup, bytes: &[u8]) -> bool
        ensures accepted { result ≡ accepts self.old setup.now bytes.now }
        ensures after { self.new ≡ after_data self.old setup.now bytes.now }
    {
        if !self.takes_report(setup) || bytes.len() != usize::from(setup.length) {
            return false;
        }
        self.last_set = set_report(setup.value, bytes);
        true
    }
}

/// One byte for the host.
fn told(byte: u8) -> Decision
    ensures { result ≡ Decision.Data (record { items = byte ∷ [] }) }
{
    let mut bytes = ArrayVec::new();
    bytes.push(byte);
    Decision::Data(bytes)
}

/// What SET_REPORT gave, by its type in the high byte of wValue and its id in the low one.
fn set_report(value: u16, bytes: &[u8]) -> Option<SetReport>
    requires { length bytes.now ≤ 64 }
    ensures { result ≡ set_as (type_of (value / 256)) (value % 256) bytes.now }
{
    let [high, id] = value.to_be_bytes();
    match type_of(high) {
        Some(report_type) => Some(SetReport {
            report_type,
            id,
            bytes: copy_of(bytes),
        }),
        None => None,
    }
}
