ghost use Rattle.std.specs.Prelude.{◌≡◌};

use byteorder::{ByteOrder, LittleEndian};

/// The fields of a SETUP packet (USB 2.0, 9.3, table 9-2).
#[derive(Clone, Copy, Debug, PartialEq, Eq)]
pub struct Setup {
    /// bmRequestType: direction in bit 7, type in bits 6 to 5, recipient in bits 4 to 0.
    pub request_type: u8,
    /// bRequest.
    pub request: u8,
    /// wValue.
    pub value: u16,
    /// wIndex.
    pub index: u16,
    /// wLength, the bytes of the data stage that the host allows.
    pub length: u16,
}

ghost use Rattle.usb_packet.specs.Setup.{fields_of, bytes_of};

/// The fields of a SETUP packet's eight bytes.
#[tactic(auto, using(crate::proofs::Fields::bytes_again))]
pub fn setup_of(bytes: &[u8; 8]) -> Setup
    ensures fields { result ≡ fields_of bytes.now }
    ensures again { bytes_of result ≡ bytes.now }
{
    Setup {
        request_type: bytes[0],
        request: bytes[1],
        value: LittleEndian::read_u16(&bytes[2..]),
        index: LittleEndian::read_u16(&bytes[4..]),
        length: LittleEndian::read_u16(&bytes[6..]),
    }
}

/// The eight bytes of a SETUP packet with these fields.
pub fn setup_bytes(setup: &Setup) -> [u8; 8]
    ensures bytes { result ≡ bytes_of setup.now }
    ensures again { fields_of result ≡ setup.now }
{
    let value = setup.value.to_le_bytes();
    let index = setup.index.to_le_bytes();
    let length = setup.length.to_le_bytes();
    [
        setup.request_type,
        setup.request,
        value[0],
        value[1],
        index[0],
        index[1],
        length[0],
        length[1],
    ]
}
