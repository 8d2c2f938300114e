ghost use Rattle.std.specs.Prelude.{◌≡◌, position, find};
ghost use Rattle.std.specs.Option.{option_map};
ghost use Rattle.descriptor_row.specs.Kinds.{number};
ghost use Rattle.descriptor_groups.specs.Parts.{is_serial};
ghost use Rattle.descriptor_groups.specs.Groups.{is_lead, lead, is_number_of, leads, union_behind, serial_union, is_subordinate, is_serial_data, group_owner, is_built, owner_of_number, lead_number};

use crate::parts::{following_place, is_hid, is_midi, is_serial, is_storage, union_of};
use descriptor_row::Descriptor;
use usb_packet::Owner;

/// Whether this is an interface that stands for a class.
fn is_lead(class: Owner, d: &Descriptor) -> bool
    ensures { result ≡ is_lead class d.now }
{
    match class {
        Owner::Core => false,
        Owner::Cdc => is_serial(d),
        Owner::Hid => is_hid(d),
        Owner::Msc => is_storage(d),
        Owner::Midi => is_midi(d),
    }
}

/// The first interface that stands for a class.
fn lead(class: Owner, row: &[Descriptor]) -> Option<Descriptor>
    ensures { result ≡ lead class row.now }
{
    for d in row {
        if is_lead(class, d) {
            return Some(*d);
        }
    }
    None
}

/// Whether a number is that of an interface, where there is one.
fn is_number_of(interface: Option<Descriptor>, number: u8) -> bool
    ensures { result ≡ is_number_of interface number }
{
    match interface {
        None => false,
        Some(d) => d.head[2] == number,
    }
}

/// Whether the interface with a number is the one that stands for a class.
fn leads(row: &[Descriptor], class: Owner, number: u8) -> bool
    ensures { result ≡ leads row.now class number }
{
    is_number_of(lead(class, row), number)
}

/// Where the first communications interface stands.
fn serial_place(row: &[Descriptor]) -> Option<usize>
    ensures { result ≡ position is_serial row.now }
{
    row.iter().position(|d| is_serial(d))
}

/// The first good union descriptor of the first communications interface (CDC 1.2, 5.2.3.2).
fn serial_union(row: &[Descriptor]) -> Option<Descriptor>
    ensures { result ≡ serial_union row.now }
{
    match lead(Owner::Cdc, row) {
        None => None,
        Some(d) => union_of(row, d.head[2], following_place(serial_place(row), row)),
    }
}

/// Whether a number is that of the data interface that a union descriptor names.
fn is_subordinate(union: Option<Descriptor>, number: u8) -> bool
    ensures { result ≡ is_subordinate union number }
{
    match union {
        None => false,
        Some(union) => union.head[4] == number,
    }
}

/// Whether the interface with a number is the data interface of the serial port.
fn is_serial_data(row: &[Descriptor], number: u8) -> bool
    ensures { result ≡ is_serial_data row.now number }
{
    is_subordinate(serial_union(row), number)
}

/// Whose group has the interface with a number.
pub fn group_owner(row: &[Descriptor], number: u8) -> Owner
    ensures { result ≡ group_owner row.now number }
{
    if leads(row, Owner::Cdc, number) || is_serial_data(row, number) {
        Owner::Cdc
    } else if leads(row, Owner::Hid, number) {
        Owner::Hid
    } else if leads(row, Owner::Msc, number) {
        Owner::Msc
    } else if leads(row, Owner::Midi, number) {
        Owner::Midi
    } else {
        Owner::Core
    }
}

/// Whether a class is built into the device. A group whose class isn't built stays the core's.
pub fn is_built(class: Owner) -> bool
    ensures { result ≡ is_built class }
{
    !matches!(class, Owner::Msc)
}

/// The owner of the interface with a number: the class whose group has it, where that is built; else the core.
pub fn owner_of_number(row: &[Descriptor], number: u8) -> Owner
    ensures { result ≡ owner_of_number row.now number }
{
    let owner = group_owner(row, number);
    if is_built(owner) { owner } else { Owner::Core }
}

/// The number of the interface that stands for a class that is built: of a serial port its communications interface,
/// of MIDI the streaming interface.
pub fn lead_number(row: &[Descriptor], class: Owner) -> Option<u8>
    ensures { result ≡ lead_number row.now class }
{
    if !is_built(class) {
        return None;
    }
    match lead(class, row) {
        None => None,
        Some(d) => Some(d.head[2]),
    }
}
