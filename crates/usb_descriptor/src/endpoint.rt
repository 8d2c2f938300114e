ghost use Rattle.std.specs.Prelude.{◌≡◌, ◌≤◌, length, position, find, filter};
ghost use Rattle.descriptor_row.specs.Kinds.{is_endpoint};
ghost use Rattle.descriptor_groups.specs.Groups.{owner_of_number};
ghost use Rattle.std.specs.List.{list_any};
ghost use Rattle.usb_descriptor.specs.Set.{kind_of, endpoint_of, interface_at, owner_behind, endpoints_in, interfaces_in, is_interface_of, interface_row, is_endpoint_at, is_numbered, is_addressed, is_core, same_owner, belongs, interface_owner, endpoint_owner};

use arrayvec::ArrayVec;
use descriptor_groups::{following_place, owner_of_number};
use descriptor_row::{BULK, Descriptor};
use usb_packet::Owner;

/// The transfer type of an endpoint other than 0 (USB 2.0, 5.7 and 5.8).
#[derive(Clone, Copy, Debug, PartialEq, Eq)]
pub enum EpKind {
    Bulk,
    Interrupt,
}

/// An endpoint of a set.
#[derive(Clone, Copy, Debug, PartialEq, Eq)]
pub struct Endpoint {
    /// Its address: IN in bit 7, the number in bits 3 to 0.
    pub addr: u8,
    pub kind: EpKind,
    /// The most bytes of a packet, from 1 to 64.
    pub size: u8,
    /// Who serves it.
    pub owner: Owner,
}

impl Default for Endpoint {
    fn default() -> Endpoint {
        Endpoint {
            addr: 0,
            kind: EpKind::Bulk,
            size: 0,
            owner: Owner::Core,
        }
    }
}

/// An interface of a set.
#[derive(Clone, Copy)]
pub struct Interface {
    pub number: u8,
    /// Who serves it.
    pub owner: Owner,
}

impl Default for Interface {
    fn default() -> Interface {
        Interface {
            number: 0,
            owner: Owner::Core,
        }
    }
}

fn kind_of(transfer: u8) -> EpKind
    ensures { result ≡ kind_of transfer }
{
    if transfer == BULK {
        EpKind::Bulk
    } else {
        EpKind::Interrupt
    }
}

fn endpoint_of(owner: Owner, d: &Descriptor) -> Endpoint
    ensures { result ≡ endpoint_of owner d.now }
{
    Endpoint {
        addr: d.head[2],
        kind: kind_of(d.transfer()),
        size: d.head[4],
        owner,
    }
}

fn interface_at(row: &[Descriptor], d: &Descriptor) -> Interface
    ensures { result ≡ interface_at (owner_of_number row.now) d.now }
{
    Interface {
        number: d.head[2],
        owner: owner_of_number(row, d.head[2]),
    }
}

/// Who has what stands behind a descriptor of a row, up to the next interface (USB 2.0, 9.6.5).
fn owner_behind(row: &[Descriptor], before: Owner, d: &Descriptor) -> Owner
    ensures { result ≡ owner_behind (owner_of_number row.now) before d.now }
{
    if d.is_interface() {
        owner_of_number(row, d.head[2])
    } else {
        before
    }
}

/// The endpoints of a row that has at most thirty. Each belongs to the owner of the interface that it stands
/// behind.
pub fn endpoints_in(row: &[Descriptor]) -> ArrayVec<Endpoint, 30>
    requires { length (filter is_endpoint row.now) ≤ 30 }
    ensures { result.items ≡ endpoints_in row.now }
{
    let mut endpoints = ArrayVec::new();
    let mut owner = Owner::Core;
    for d in row {
        if d.is_endpoint() {
            endpoints.push(endpoint_of(owner, d));
        } else {
            owner = owner_behind(row, owner, d);
        }
    }
    endpoints
}

/// The interfaces of a row.
pub fn interfaces_in(row: &[Descriptor]) -> ArrayVec<Interface, 251>
    requires { length row.now ≤ 251 }
    ensures { result.items ≡ interfaces_in row.now }
{
    let mut interfaces = ArrayVec::new();
    for d in row {
        if d.is_interface() {
            interfaces.push(interface_at(row, d));
        }
    }
    interfaces
}

/// Whether an interface has a number.
pub fn any_numbered(interfaces: &[Interface], number: u8) -> bool
    ensures { result ≡ list_any (is_numbered number) interfaces.now }
{
    interfaces.iter().any(|i| i.number == number)
}

/// The owner of the interface with a number; the core's where there is none.
pub fn interface_owner(interfaces: &[Interface], number: u8) -> Owner
    ensures { result ≡ interface_owner (find (is_numbered number) interfaces.now) }
{
    for i in interfaces {
        if i.number == number {
            return i.owner;
        }
    }
    Owner::Core
}

/// The owner of the endpoint at an address; the core's where there is none.
pub fn endpoint_owner(endpoints: &[Endpoint], addr: u8) -> Owner
    ensures { result ≡ endpoint_owner (find (is_addressed addr) endpoints.now) }
{
    for e in endpoints {
        if e.addr == addr {
            return e.owner;
        }
    }
    Owner::Core
}

/// The place of the interface with a number.
fn interface_place(row: &[Descriptor], number: u8) -> Option<usize>
    ensures { result ≡ position (is_interface_of number) row.now }
{
    row.iter()
        .position(|d| d.is_interface() && d.head[2] == number)
}

/// What follows the interface with a number, up to the next one; nothing where there is none.
pub fn interface_row(row: &[Descriptor], number: u8) -> &[Descriptor]
    ensures { result.now ≡ interface_row number row.now }
{
    following_place(interface_place(row, number), row)
}

/// Whether a row has an endpoint at an address.
pub fn any_addressed(row: &[Descriptor], addr: u8) -> bool
    ensures { result ≡ list_any (is_endpoint_at addr) row.now }
{
    row.iter().any(|d| d.is_endpoint() && d.head[2] == addr)
}

/// Whether an owner is the core, which is no class.
pub fn is_core(owner: Owner) -> bool
    ensures { result ≡ is_core owner }
{
    matches!(owner, Owner::Core)
}

/// Whether two owners are the same.
fn same_owner(a: Owner, b: Owner) -> bool
    ensures { result ≡ same_owner a b }
{
    match (a, b) {
        (Owner::Core, Owner::Core)
        | (Owner::Cdc, Owner::Cdc)
        | (Owner::Hid, Owner::Hid)
        | (Owner::Msc, Owner::Msc)
        | (Owner::Midi, Owner::Midi) => true,
        _ => false,
    }
}

/// Whether an interface belongs to an owner.
pub fn any_belongs(interfaces: &[Interface], owner: Owner) -> bool
    ensures { result ≡ list_any (belongs owner) interfaces.now }
{
    interfaces.iter().any(|i| same_owner(i.owner, owner))
}
