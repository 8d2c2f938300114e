ghost use Rattle.std.specs.Prelude.{◌≡◌, ◌≤◌, length, IfSome};
ghost use Rattle.std.specs.Option.{option_map};
ghost use Rattle.device_world.specs.World.{first, lengths_in};

use arrayvec::ArrayVec;
use cdc_device::CdcDevice;
use hid_class::HidDevice;
use hid_items::{ReportLen, report_lengths};
use midi_class::MidiDevice;
use std::marker::Model;
use usb_descriptor::DescSet;
use usb_packet::Owner;

/// The classes that are built into a device. A clause sees what each holds, at its owner's place.
#[derive(Drop)]
pub struct DeviceClasses {
    pub(crate) serial: CdcDevice,
    pub(crate) human: HidDevice,
    pub(crate) music: MidiDevice,
}

impl Model for DeviceClasses {
    ghost use Rattle.usb_pipe.specs.Classes.{Classes};
    ghost use Rattle.device_world.specs.State.{State, Absent, Serial, Human, Music};

    ghost Value = { Classes State };

    ghost view = { λ c. record { core = Absent; cdc = Serial c.serial; hid = Human c.human; msc = Absent; midi = Music c.music } };
}

impl DeviceClasses {
    /// The classes of a device with these descriptors, at the start. A class without an interface has the number 0: no request
    /// names it, and it has no pipes.
    pub fn new(set: &DescSet) -> DeviceClasses
        ensures { result ≡ first set.now }
    {
        DeviceClasses {
            serial: CdcDevice::new(set.interface_of(Owner::Cdc).unwrap_or(0)),
            human: HidDevice::new(&lengths_in(set.report())),
            music: MidiDevice::new(),
        }
    }
}

/// The lengths of the reports of a report descriptor (HID 1.11, 6.2.2), none without a right one.
fn lengths_in(report: Option<&[u8]>) -> ArrayVec<ReportLen, 8>
    requires { IfSome report (λ r. length r.now ≤ 512) }
    ensures { result.items ≡ lengths_in (option_map (λ r. r.now) report.entry) }
{
    match report {
        None => ArrayVec::new(),
        Some(bytes) => match report_lengths(bytes) {
            Ok(lengths) => lengths,
            Err(_) => ArrayVec::new(),
        },
    }
}
