ghost use Rattle.std.specs.Prelude.{◌≡◌, ◌≤◌, length, map, IfOk, IfErr, IfSome};
ghost use Rattle.std.specs.Option.{option_map};
ghost use Rattle.std.specs.Prelude.{Some, None};
ghost use Rattle.usb_descriptor.specs.Strings.{Ascend, string_descriptor, string_of};
ghost use Rattle.usb_descriptor.specs.Verdict.{verdict};
ghost use Rattle.usb_descriptor.specs.Set.{Set, IsAccepted, interfaces_of, endpoints_of, is_numbered, owner_of_interface, owner_of_endpoint, has_owner, has_endpoint, interface_of, bytes_in, hid_bytes};
ghost use Rattle.std.specs.List.{list_any};
ghost use Rattle.descriptor_groups.specs.Reports.{hid_descriptor};

use crate::endpoint::{
    Endpoint, Interface, any_addressed, any_belongs, any_numbered, endpoint_owner, endpoints_in,
    interface_owner, interface_row, interfaces_in, is_core,
};
use crate::limits::{EpLimits, SetFault};
use crate::strings::{StringDescriptor, StringPart, descriptors_of, string_of};
use crate::verdict::verdict;
use arrayvec::ArrayVec;
use descriptor_groups::{hid_descriptor, lead_number};
use descriptor_row::{Descriptor, left_of, read_row, whole_at};
use std::marker::Model;
use usb_packet::Owner;

/// The bytes that a set is made of.
#[derive(Clone, Copy)]
pub struct SetParts<'a> {
    /// The device descriptor (USB 2.0, 9.6.1).
    pub device: &'a [u8],
    /// The configuration descriptor with all that comes with it (9.6.3).
    pub config: &'a [u8],
    /// The strings but string 0, by ascending indices.
    pub strings: &'a [StringPart],
    /// The report descriptor of the HID interface (HID 1.11, 6.2.2).
    pub report: Option<&'a [u8]>,
}

/// An accepted set of descriptors.
#[derive(Drop)]
pub struct DescSet {
    device: ArrayVec<u8, 18>,
    config: ArrayVec<u8, 512>,
    strings: ArrayVec<StringDescriptor, 8>,
    report: Option<ArrayVec<u8, 512>>,
    interfaces: ArrayVec<Interface, 251>,
    endpoints: ArrayVec<Endpoint, 30>,
}

impl Model for DescSet {
    ghost use Rattle.std.specs.Prelude.{◌≡◌, ◌≤◌, length};
    ghost use Rattle.std.specs.Option.{option_map};
    ghost use Rattle.usb_descriptor.specs.Set.{Set, interfaces_of, endpoints_of};

    ghost Value = { Set };

    ghost view = { λ s. record {
      device = s.device.items;
      config = s.config.items;
      strings = s.strings.items;
      report = option_map (λ r. r.items) s.report;
    } };

    ghost invariant = { λ s. (9 ≤ length s.config.items) × (s.interfaces.items ≡ interfaces_of s.config.items) × (s.endpoints.items ≡ endpoints_of s.config.items) };
}

/// Reads a set. It is refused exactly where a rule is broken, and the fault names the lowest one.
pub fn read_set(parts: &SetParts<'_>, limits: EpLimits) -> Result<DescSet, SetFault>
    requires few { length parts.now.strings.now ≤ 8 }
    requires ascending { Ascend 1 parts.now.strings.now }
    requires report { IfSome parts.now.report (λ r. length r.now ≤ 512) }
    ensures refused { IfErr result (λ fault. verdict parts.now.device.now parts.now.config.now (option_map (λ r. r.now) parts.now.report) limits ≡ Some fault) }
    ensures accepted { IfOk result (λ _. verdict parts.now.device.now parts.now.config.now (option_map (λ r. r.now) parts.now.report) limits ≡ None) }
    ensures meets { IfOk result (λ set. IsAccepted set limits) }
    ensures shows { IfOk result (λ set. set ≡ record {
      device = parts.now.device.now;
      config = parts.now.config.now;
      strings = map string_descriptor parts.now.strings.now;
      report = option_map (λ r. r.now) parts.now.report;
    }) }
{
    if let Some(fault) = verdict(parts.device, parts.config, parts.report, limits) {
        return Err(fault);
    }
    let (row, _) = read_row(parts.config);
    let left = left_of(row.as_slice());
    Ok(DescSet {
        device: bytes_of(parts.device),
        config: bytes_of(parts.config),
        strings: descriptors_of(parts.strings),
        report: report_of(parts.report),
        interfaces: interfaces_in(left.as_slice()),
        endpoints: endpoints_in(left.as_slice()),
    })
}

/// The same bytes.
fn bytes_of<const N: usize>(bytes: &[u8]) -> ArrayVec<u8, N>
    requires { length bytes.now ≤ N }
    ensures { result.items ≡ bytes.now }
{
    let mut copy = ArrayVec::new();
    let _ = copy.try_extend_from_slice(bytes);
    copy
}

/// The same bytes, where there are any.
fn report_of(report: Option<&[u8]>) -> Option<ArrayVec<u8, 512>>
    requires { IfSome report (λ r. length r.now ≤ 512) }
    ensures { option_map (λ r. r.items) result ≡ option_map (λ r. r.now) report.entry }
{
    match report {
        None => None,
        Some(bytes) => Some(bytes_of(bytes)),
    }
}

/// The bytes of a descriptor of a configuration, whole, where they lie.
fn bytes_in(config: &[u8], d: Option<Descriptor>) -> Option<&[u8]>
    ensures bytes { option_map (λ d. d.now) result ≡ bytes_in config.now d }
    ensures size { IfSome result (λ d. length d.now ≤ 255) }
{
    match d {
        None => None,
        Some(d) => whole_at(config, usize::from(d.at)),
    }
}

impl DescSet {
    /// The device descriptor.
    pub fn device(&self) -> &[u8]
        ensures value { result.now ≡ self.now.device }
        ensures size { length result.now ≤ 18 }
    {
        self.device.as_slice()
    }

    /// The configuration descriptor with all that comes with it.
    pub fn config(&self) -> &[u8]
        ensures value { result.now ≡ self.now.config }
        ensures low { 9 ≤ length result.now }
        ensures high { length result.now ≤ 512 }
    {
        self.config.as_slice()
    }

    /// The descriptor of the string with an index. String 0 is there where another one is, and has the codes
    /// of the languages (USB 2.0, 9.6.7).
    pub fn string(&self, index: u8) -> Option<&[u8]>
        ensures value { option_map (λ s. s.now) result ≡ string_of self.now.strings index }
        ensures size { IfSome result (λ s. length s.now ≤ 62) }
    {
        string_of(self.strings.as_slice(), index)
    }

    /// The report descriptor of the HID interface.
    pub fn report(&self) -> Option<&[u8]>
        ensures value { option_map (λ r. r.now) result ≡ self.now.report }
        ensures size { IfSome result (λ r. length r.now ≤ 512) }
    {
        match &self.report {
            None => None,
            Some(report) => Some(report.as_slice()),
        }
    }

    /// The HID descriptor of the first HID interface, whole, where it lies in the configuration. It has more than 9 bytes where
    /// it names more than the report descriptor (HID 1.11, 6.2.1).
    pub fn hid_descriptor(&self) -> Option<&[u8]>
        ensures bytes { option_map (λ d. d.now) result ≡ hid_bytes self.now.config }
        ensures size { IfSome result (λ d. length d.now ≤ 255) }
    {
        let config = self.config.as_slice();
        let (row, _) = read_row(config);
        let left = left_of(row.as_slice());
        bytes_in(config, hid_descriptor(left.as_slice()))
    }

    /// The endpoints, in the order of the configuration, without those of passed-over alternate settings.
    pub fn endpoints(&self) -> &[Endpoint]
        ensures value { result.now ≡ endpoints_of self.now.config }
        ensures few { length result.now ≤ 30 }
    {
        self.endpoints.as_slice()
    }

    /// Whether the set has an owner: the core, or a class that drives one of its interfaces.
    pub fn has(&self, owner: Owner) -> bool
        ensures { result ≡ has_owner self.now.config owner }
    {
        is_core(owner) || any_belongs(self.interfaces.as_slice(), owner)
    }

    /// The owner of the interface with a number; the core where there is none.
    pub fn owner_of_interface(&self, number: u8) -> Owner
        ensures { result ≡ owner_of_interface self.now.config number }
    {
        interface_owner(self.interfaces.as_slice(), number)
    }

    /// The owner of the endpoint at an address; the core where there is none.
    pub fn owner_of_endpoint(&self, addr: u8) -> Owner
        ensures { result ≡ owner_of_endpoint self.now.config addr }
    {
        endpoint_owner(self.endpoints.as_slice(), addr)
    }

    /// Whether there is an interface with a number.
    pub fn is_interface(&self, number: u8) -> bool
        ensures { result ≡ list_any (is_numbered number) (interfaces_of self.now.config) }
    {
        any_numbered(self.interfaces.as_slice(), number)
    }

    /// Whether the interface with a number has an endpoint at an address.
    pub fn has_endpoint(&self, number: u8, addr: u8) -> bool
        ensures { result ≡ has_endpoint self.now.config number addr }
    {
        let (row, _) = read_row(self.config.as_slice());
        let left = left_of(row.as_slice());
        any_addressed(interface_row(left.as_slice(), number), addr)
    }

    /// The number of the interface that stands for a class that is built: of a serial port its communications
    /// interface, of MIDI the streaming interface. The core is no class.
    pub fn interface_of(&self, owner: Owner) -> Option<u8>
        ensures { result ≡ interface_of self.now.config owner }
    {
        let (row, _) = read_row(self.config.as_slice());
        let left = left_of(row.as_slice());
        lead_number(left.as_slice(), owner)
    }
}
