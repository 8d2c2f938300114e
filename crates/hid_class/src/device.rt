ghost use Rattle.std.specs.Prelude.{◌≡◌, map};
ghost use Rattle.hid_items.specs.declared.ReportLen.{ReportLen};
ghost use Rattle.hid_device_machine.specs.declared.reports.IdReports.{IdReports};
ghost use Rattle.hid_device_machine.specs.Device.{first, anew};
ghost use Rattle.hid_device_machine.specs.Reports.{fresh};

use arrayvec::ArrayVec;
use hid_device_machine::{IdReports, SetReport};
use hid_items::ReportLen;
use std::marker::Model;

/// The report protocol (HID 1.11, 7.2.6).
const REPORT_PROTOCOL: u8 = 1;

/// The device side of a keyboard or a mouse (HID 1.11): the reports that were sent last, the idle rate and the protocol.
#[derive(Drop)]
pub struct HidDevice {
    /// The reports of each id, in the order of the report descriptor.
    pub(crate) rows: ArrayVec<IdReports, 8>,
    pub(crate) last_set: Option<SetReport>,
    /// In units of 4 milliseconds (7.2.4).
    pub(crate) idle: u8,
    pub(crate) protocol: u8,
}

impl Model for HidDevice {
    ghost use Rattle.hid_device_machine.specs.Device.{Hid};

    ghost Value = { Hid };

    ghost view = { λ d. record { rows = d.rows.items; last_set = d.last_set; idle = d.idle; protocol = d.protocol } };
}

impl HidDevice {
    /// A device whose report descriptor gives these lengths. No session stands.
    pub fn new(lengths: &ArrayVec<ReportLen, 8>) -> HidDevice
        ensures { result ≡ first lengths.now.items }
    {
        HidDevice {
            rows: rows_of(lengths),
            last_set: None,
            idle: 0,
            protocol: REPORT_PROTOCOL,
        }
    }

    /// A session begins (USB 2.0, 9.1.1.5): nothing of an earlier one is left.
    pub fn opened(&mut self)
        ensures { self.new ≡ anew self.old }
    {
        self.closed();
    }

    /// The session ends, and its reports, its idle rate and its protocol with it.
    pub fn closed(&mut self)
        ensures { self.new ≡ anew self.old }
    {
        *self = HidDevice::new(&self.lengths());
    }

    /// A packet came on a pipe: its bytes wait there until a call takes them.
    pub fn came(&mut self, _pipe: u8)
        ensures { self.new ≡ self.old }
    {}

    /// A transfer of so many bytes ended on a pipe.
    pub fn ended(&mut self, _pipe: u8, _len: u16)
        ensures { self.new ≡ self.old }
    {}

    /// The halt of a pipe was cleared (USB 2.0, 9.4.5).
    pub fn cleared(&mut self, _pipe: u8)
        ensures { self.new ≡ self.old }
    {}

    /// The lengths of its reports.
    fn lengths(&self) -> ArrayVec<ReportLen, 8>
        ensures { result.items ≡ map (λ (row : IdReports). row.lengths) self.now.rows }
    {
        let mut lengths = ArrayVec::new();
        for row in self.rows.as_slice() {
            lengths.push(row.lengths);
        }
        lengths
    }
}

/// The reports of each id of some lengths, before any was sent.
fn rows_of(lengths: &ArrayVec<ReportLen, 8>) -> ArrayVec<IdReports, 8>
    ensures { result.items ≡ map fresh lengths.now.items }
{
    let mut rows = ArrayVec::new();
    for lengths in lengths.as_slice() {
        rows.push(IdReports {
            lengths: *lengths,
            last_input: None,
        });
    }
    rows
}
