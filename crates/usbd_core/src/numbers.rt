//! Which endpoint of a set a pipe of an owner is (USB 2.0, 9.6.6).
ghost use Rattle.std.specs.Prelude.{◌≡◌, find, Some};
ghost use Rattle.usb_descriptor.specs.Set.{same_owner};
ghost use Rattle.device_owners.specs.Ends.{in_pipe, pipe_of, is_pipe, number_of};

use usb_descriptor::{Endpoint, EpKind};
use usb_packet::Owner;

/// Bit 7 of an endpoint's address, which says IN (USB 2.0, 9.6.6).
pub(crate) const IN: u8 = 0x80;

/// Whether two owners are the same.
fn same_owner(a: Owner, b: Owner) -> bool
    ensures { result ≡ same_owner a b }
{
    match (a, b) {
        (Owner::Core, Owner::Core)
        | (Owner::Cdc, Owner::Cdc)
        | (Owner::Hid, Owner::Hid)
        | (Owner::Msc, Owner::Msc)
        | (Owner::Midi, Owner::Midi) => true,
        _ => false,
    }
}

/// The pipe that an endpoint for the host is: a serial port's interrupt endpoint notifies (CDC 1.2, 3.4.1).
fn in_pipe(owner: Owner, kind: EpKind) -> u8
    ensures { result ≡ in_pipe owner kind }
{
    match (owner, kind) {
        (Owner::Cdc, EpKind::Interrupt) => 2,
        _ => 0,
    }
}

/// The pipe that an endpoint is.
pub(crate) fn pipe_of(endpoint: &Endpoint) -> u8
    ensures { result ≡ pipe_of endpoint.now }
{
    if endpoint.addr < IN {
        1
    } else {
        in_pipe(endpoint.owner, endpoint.kind)
    }
}

/// Whether an endpoint is this pipe of an owner.
fn is_pipe(owner: Owner, pipe: u8, endpoint: &Endpoint) -> bool
    ensures { result ≡ is_pipe owner pipe endpoint.now }
{
    same_owner(owner, endpoint.owner) && pipe_of(endpoint) == pipe
}

/// The number of an endpoint.
fn number_of(endpoint: &Endpoint) -> u8
    ensures { result ≡ number_of (Some endpoint.now) }
{
    if endpoint.addr < IN {
        endpoint.addr
    } else {
        endpoint.addr - IN
    }
}

/// The number of the endpoint that is this pipe of an owner, 0 where it has none.
pub fn number_at(endpoints: &[Endpoint], owner: Owner, pipe: u8) -> u8
    ensures { result ≡ number_of (find (is_pipe owner pipe) endpoints.now) }
{
    for endpoint in endpoints {
        if is_pipe(owner, pipe, endpoint) {
            return number_of(endpoint);
        }
    }
    0
}
