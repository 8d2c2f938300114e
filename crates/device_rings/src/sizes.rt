// How large the ring of an endpoint is, as a power of two.
ghost use Rattle.std.specs.Prelude.{◌≡◌, ◌≤◌, find, IfSome};
ghost use Rattle.usb_descriptor.specs.Set.{is_addressed};
ghost use Rattle.device_rings.specs.Sizes.{ring_size, size_of, size_at};
ghost use Rattle.device_rings.specs.Slots.{capacity_of};

use usb_descriptor::{Endpoint, EpKind, Owner};

/// The size for an endpoint of a class; the core's have no ring.
fn log2_for(endpoint: &Endpoint) -> Option<u8>
    ensures size { capacity_of result ≡ ring_size endpoint.now }
    ensures in_range { IfSome result (λ k. (2 ≤ k) × (k ≤ 12)) }
{
    match (endpoint.owner, endpoint.kind) {
        (Owner::Core, _) => None,
        (Owner::Cdc, EpKind::Interrupt) => Some(4),
        (Owner::Cdc, EpKind::Bulk) | (Owner::Midi, _) => Some(8),
        (Owner::Hid, _) => Some(6),
        (Owner::Msc, _) => Some(9),
    }
}

/// The size for the endpoint at an address, if there is one.
pub fn log2_at(endpoints: &[Endpoint], address: u8) -> Option<u8>
    ensures size { capacity_of result ≡ size_at endpoints.now address }
    ensures in_range { IfSome result (λ k. (2 ≤ k) × (k ≤ 12)) }
{
    match found(endpoints, address) {
        None => None,
        Some(endpoint) => log2_for(&endpoint),
    }
}

/// The endpoint at an address.
fn found(endpoints: &[Endpoint], address: u8) -> Option<Endpoint>
    ensures { result ≡ find (is_addressed address) endpoints.now }
{
    for endpoint in endpoints {
        if endpoint.addr == address {
            return Some(*endpoint);
        }
    }
    None
}
