ghost use Rattle.std.specs.Prelude.{◌≡◌, ◌<◌, ◌≤◌, ◌+◌, count_by};
ghost use Rattle.std.specs.List.{list_any};
ghost use Rattle.descriptor_row.specs.Kinds.{is_interface};
ghost use Rattle.usb_descriptor.specs.Rules.{has_wrong_size, has_wrong_number, has_wrong_count, is_endpoint_at, has_wrong_address, has_wrong_packets, has_wrong_top, has_wrong_span};

use crate::limits::EpLimits;
use descriptor_groups::endpoints;
use descriptor_row::{BULK, Descriptor, following};

/// The rules on the descriptors of a row, in their order: A8 to A18.
#[derive(Clone, Copy)]
pub enum Rule {
    /// Lengths of interfaces, endpoints and associations.
    Sizes,
    /// Numbers of interfaces.
    Numbers,
    /// Endpoints after each interface.
    Counts,
    /// Addresses and transfer types of endpoints.
    Addresses,
    /// Packet sizes of endpoints.
    Packets,
    /// The highest endpoint numbers.
    Tops,
    /// Interfaces of associations.
    Spans,
    /// The group of a serial port.
    Serial,
    /// The group of a HID interface.
    Hid,
    /// The report descriptor of the set.
    Reports,
    /// Mass storage and MIDI: a bulk endpoint in each direction.
    Pairs,
}

/// How many interfaces there are.
pub fn interfaces(row: &[Descriptor]) -> usize
    ensures { result ≡ count_by is_interface row.now }
{
    row.iter().filter(|d| d.is_interface()).count()
}

/// Whether there is an interface.
fn any_interface(row: &[Descriptor]) -> bool
    ensures { result ≡ list_any is_interface row.now }
{
    row.iter().any(|d| d.is_interface())
}

/// An interface has 9 bytes (USB 2.0, 9.6.5), an endpoint 7 (9.6.6), or 9 as the audio class writes it, and an
/// association 8.
pub fn has_wrong_size(d: &Descriptor) -> bool
    ensures { result ≡ has_wrong_size d.now }
{
    let size = d.head[0];
    if d.is_interface() {
        size != 9
    } else if d.is_endpoint() {
        size != 7 && size != 9
    } else {
        d.is_association() && size != 8
    }
}

/// An interface's number is how many come before it (USB 2.0, 9.6.5).
pub fn has_wrong_number(before: &[Descriptor], d: &Descriptor) -> bool
    ensures { result ≡ has_wrong_number before.now d.now }
{
    d.is_interface() && usize::from(d.head[2]) != interfaces(before)
}

/// An endpoint comes after an interface, and after an interface as many as it says (USB 2.0, 9.6.5).
pub fn has_wrong_count(before: &[Descriptor], d: &Descriptor, after: &[Descriptor]) -> bool
    ensures { result ≡ has_wrong_count before.now d.now after.now }
{
    if d.is_endpoint() {
        !any_interface(before)
    } else {
        d.is_interface() && endpoints(following(after)) != usize::from(d.head[4])
    }
}

/// Whether there is an endpoint at an address.
fn any_at(address: u8, row: &[Descriptor]) -> bool
    ensures { result ≡ list_any (is_endpoint_at address) row.now }
{
    row.iter().any(|e| e.is_endpoint() && e.head[2] == address)
}

/// Bits 6 to 4 of an endpoint's address are 0, its number isn't, no endpoint before it has its address, and it
/// is bulk or interrupt (USB 2.0, 9.6.6).
pub fn has_wrong_address(before: &[Descriptor], d: &Descriptor) -> bool
    ensures { result ≡ has_wrong_address before.now d.now }
{
    let address = d.head[2];
    d.is_endpoint()
        && (address / 16 % 8 != 0
            || d.endpoint_number() == 0
            || any_at(address, before)
            || d.transfer() < BULK)
}

/// Packets have 64 bytes for bulk, and 1 to 64 for interrupt (USB 2.0, 5.7.3 and 5.8.3).
pub fn has_wrong_packets(d: &Descriptor) -> bool
    ensures { result ≡ has_wrong_packets d.now }
{
    let bytes = d.word(4);
    d.is_endpoint()
        && if d.transfer() == BULK {
            bytes != 64
        } else {
            bytes == 0 || bytes > 64
        }
}

/// No number is above the highest that the controller has in that direction.
pub fn has_wrong_top(limits: EpLimits, d: &Descriptor) -> bool
    ensures { result ≡ has_wrong_top limits d.now }
{
    let top = if d.is_in() {
        limits.in_top
    } else {
        limits.out_top
    };
    d.is_endpoint() && d.endpoint_number() > top
}

/// An association has one interface or more, and each of them is there.
pub fn has_wrong_span(row: &[Descriptor], d: &Descriptor) -> bool
    ensures { result ≡ has_wrong_span row.now d.now }
{
    d.is_association()
        && (d.head[3] == 0 || usize::from(d.head[2]) + usize::from(d.head[3]) > interfaces(row))
}
