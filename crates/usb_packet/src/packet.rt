ghost use Rattle.std.specs.Prelude.{◌≡◌, ℕ, ◌≤◌, ◌<◌, ◌↔◌, List, [], length, IsOk, IfOk};

use arrayvec::ArrayVec;
use std::marker::Model;

/// The bytes of one data packet, at most 64: the most that a full-speed bulk, interrupt or control
/// endpoint carries (USB 2.0, 5.5.3, 5.7.3 and 5.8.3).
#[derive(Drop)]
pub struct Packet {
    items: ArrayVec<u8, 64>,
}

impl Model for Packet {
    ghost Value = { List ℕ };

    ghost view = { λ p. p.items.items };

    ghost invariant = { λ p. length p.items.items ≤ 64 };

    ghost inverse = { λ bytes. record { items = record { items = bytes } } };
}

/// More than 64 bytes were given for one packet.
#[derive(Clone, Copy, Debug, PartialEq, Eq)]
pub struct TooLong;

impl Packet {
    /// The most bytes that a packet has.
    pub const MOST: usize = 64;

    /// A packet of these bytes. It is `TooLong` exactly where there are more than 64.
    pub fn new(bytes: &[u8]) -> Result<Packet, TooLong>
        ensures fits { IsOk result ↔ (length bytes.now ≤ 64) }
        ensures bytes { IfOk result (λ packet. packet ≡ bytes.now) }
    {
        let mut items = ArrayVec::new();
        match items.try_extend_from_slice(bytes) {
            Ok(()) => Ok(Packet { items }),
            Err(_) => Err(TooLong),
        }
    }

    /// The packet of bytes that are at most 64 already.
    pub fn of(items: ArrayVec<u8, 64>) -> Packet
        ensures { result ≡ items.items }
    {
        Packet { items }
    }

    /// The packet with no bytes, as in the status stage of a control transfer (USB 2.0, 8.5.3).
    pub fn empty() -> Packet
        ensures { result ≡ [] }
    {
        Packet {
            items: ArrayVec::new(),
        }
    }

    /// The packet's bytes, in the order of the bus.
    pub fn bytes(&self) -> &[u8]
        ensures value { result.now ≡ self.now }
        ensures size { length self.now ≤ 64 }
    {
        self.items.as_slice()
    }

    /// Another packet with the same bytes.
    pub fn copy(&self) -> Packet
        ensures { result ≡ self.now }
    {
        let mut items = ArrayVec::new();
        let _ = items.try_extend_from_slice(self.items.as_slice());
        Packet { items }
    }
}
