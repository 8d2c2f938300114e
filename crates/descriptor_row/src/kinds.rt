ghost use Rattle.std.specs.Prelude.{◌≡◌, ◌<◌, ◌≤◌, length, position, IfSome};
ghost use Rattle.descriptor_row.specs.Row.{size, kind, word};
ghost use Rattle.descriptor_row.specs.Kinds.{is_interface, is_endpoint, is_association, is_of_class, is_of_subclass, is_of_protocol, address, is_in, endpoint_number, transfer, is_in_of, is_out_of, following, left_of};

use crate::descriptor::Descriptor;

/// bDescriptorType of an interface (USB 2.0, table 9-5).
pub const INTERFACE: u8 = 4;
/// bDescriptorType of an endpoint (USB 2.0, table 9-5).
pub const ENDPOINT: u8 = 5;
/// bDescriptorType of an interface association.
pub const ASSOCIATION: u8 = 11;
/// Bits 1 to 0 of bmAttributes for a bulk endpoint (USB 2.0, 9.6.6).
pub const BULK: u8 = 2;
/// The same for an interrupt endpoint.
pub const INTERRUPT: u8 = 3;

impl Descriptor {
    /// Whether this is an interface.
    pub fn is_interface(&self) -> bool
        ensures { result ≡ is_interface self.now }
    {
        self.head[1] == INTERFACE
    }

    /// Whether this is an endpoint.
    pub fn is_endpoint(&self) -> bool
        ensures { result ≡ is_endpoint self.now }
    {
        self.head[1] == ENDPOINT
    }

    /// Whether this is an association of interfaces.
    pub fn is_association(&self) -> bool
        ensures { result ≡ is_association self.now }
    {
        self.head[1] == ASSOCIATION
    }

    /// Two bytes, the lower one first.
    pub fn word(&self, k: usize) -> u16
        requires { k < 8 }
        ensures { result ≡ word self.now k }
    {
        u16::from(self.head[k]) + 256 * u16::from(self.head[k + 1])
    }

    /// Whether this is an interface of a class.
    pub fn is_of_class(&self, class: u8) -> bool
        ensures { result ≡ is_of_class class self.now }
    {
        self.is_interface() && self.head[5] == class
    }

    /// Whether this is an interface of a subclass.
    pub fn is_of_subclass(&self, class: u8, subclass: u8) -> bool
        ensures { result ≡ is_of_subclass class subclass self.now }
    {
        self.is_of_class(class) && self.head[6] == subclass
    }

    /// Whether this is an interface of a protocol.
    pub fn is_of_protocol(&self, class: u8, subclass: u8, protocol: u8) -> bool
        ensures { result ≡ is_of_protocol class subclass protocol self.now }
    {
        self.is_of_subclass(class, subclass) && self.head[7] == protocol
    }

    /// Whether an endpoint's direction is IN.
    pub fn is_in(&self) -> bool
        ensures { result ≡ is_in self.now }
    {
        self.head[2] >= 128
    }

    /// The number of an endpoint, from 0 to 15.
    pub fn endpoint_number(&self) -> u8
        ensures { result ≡ endpoint_number self.now }
    {
        self.head[2] % 16
    }

    /// The transfer type of an endpoint, from 0 to 3.
    pub fn transfer(&self) -> u8
        ensures { result ≡ transfer self.now }
    {
        self.head[3] % 4
    }

    /// Whether this is an IN endpoint of this transfer type.
    pub fn is_in_of(&self, transfer: u8) -> bool
        ensures { result ≡ is_in_of transfer self.now }
    {
        self.is_endpoint() && self.is_in() && self.transfer() == transfer
    }

    /// Whether this is an OUT endpoint of this transfer type.
    pub fn is_out_of(&self, transfer: u8) -> bool
        ensures { result ≡ is_out_of transfer self.now }
    {
        self.is_endpoint() && !self.is_in() && self.transfer() == transfer
    }
}

/// Where the next interface stands.
fn next_interface(row: &[Descriptor]) -> Option<usize>
    ensures { result ≡ position is_interface row.now }
{
    row.iter().position(|d| d.is_interface())
}

/// The descriptors up to the next interface.
pub fn following(row: &[Descriptor]) -> &[Descriptor]
    ensures { result.now ≡ following row.now }
{
    match next_interface(row) {
        Some(place) => &row[..place],
        None => row,
    }
}
