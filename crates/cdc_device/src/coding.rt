ghost use Rattle.std.specs.Prelude.{◌≡◌, length};
ghost use Rattle.cdc_device_machine.specs.Coding.{first_coding, coding_bytes, coding_of, are_coding};
ghost use Rattle.cdc_device.specs.Views.{view_of};

use byteorder::{ByteOrder, LittleEndian};

/// A line coding (CDC PSTN 1.2, 6.3.10 and table 17).
#[derive(Clone, Copy)]
pub struct LineCoding {
    /// dwDTERate: bits in a second.
    pub rate: u32,
    /// bCharFormat: 0 is one stop bit, 1 one and a half, 2 two.
    pub stop: u8,
    /// bParityType: 0 none, 1 odd, 2 even, 3 mark, 4 space.
    pub parity: u8,
    /// bDataBits.
    pub bits: u8,
}

/// The coding when a session begins: 115,200 bits in a second, one stop bit, no parity, 8 data bits.
pub fn first() -> LineCoding
    ensures { view_of result ≡ first_coding }
{
    LineCoding {
        rate: 115_200,
        stop: 0,
        parity: 0,
        bits: 8,
    }
}

/// The seven bytes of a coding.
pub fn bytes_of(coding: &LineCoding) -> [u8; 7]
    ensures { result ≡ coding_bytes (view_of coding.now) }
{
    let [b0, b1, b2, b3] = coding.rate.to_le_bytes();
    [b0, b1, b2, b3, coding.stop, coding.parity, coding.bits]
}

/// Whether bytes are a coding as table 17 has it.
pub fn are_valid(bytes: &[u8]) -> bool
    ensures { result ≡ are_coding bytes.now }
{
    if bytes.len() != 7 {
        return false;
    }
    bytes[4] <= 2 && bytes[5] <= 4 && matches!(bytes[6], 5 | 6 | 7 | 8 | 16)
}

/// The coding that seven bytes are.
pub fn read(bytes: &[u8]) -> LineCoding
    requires { length bytes.now ≡ 7 }
    ensures { view_of result ≡ coding_of bytes.now }
{
    LineCoding {
        rate: LittleEndian::read_u32(bytes),
        stop: bytes[4],
        parity: bytes[5],
        bits: bytes[6],
    }
}
