//! What a controller has, and what is done to it.
use arrayvec::ArrayVec;

/// How many IN endpoints, OUT endpoints (each beside endpoint 0) and host channels a controller has, and
/// how many words of 32 bits its FIFO memory has.
#[derive(Clone, Copy, Debug, PartialEq, Eq)]
pub struct Profile {
    pub in_eps: u8,
    pub out_eps: u8,
    pub channels: u8,
    pub ram_words: u16,
}

/// The full-speed controller OTG_FS of RM0090: three endpoints in each direction beside endpoint 0, eight
/// channels, and 1,280 bytes of FIFO memory.
pub const FS4: Profile = Profile {
    in_eps: 3,
    out_eps: 3,
    channels: 8,
    ram_words: 320,
};

/// One access to a register or a FIFO window: whether it wrote, the offset, and the word read or written.
#[derive(Clone, Copy, Debug, Default, PartialEq, Eq)]
pub struct Access {
    pub write: bool,
    pub off: u16,
    pub value: u32,
}

/// A transaction that the bus makes during a handler run, once `after` accesses were made: an IN token,
/// whose toggle is 0 and whose bytes are none, or an OUT packet, to an address and an endpoint. `good`
/// says of an OUT packet that it came undamaged, and of an IN token that the host acknowledges the data.
#[derive(Debug, PartialEq, Drop)]
pub struct During {
    pub after: u16,
    pub is_in: bool,
    pub addr: u8,
    pub ep: u8,
    pub toggle: u8,
    pub good: bool,
    pub bytes: ArrayVec<u8, 64>,
}
