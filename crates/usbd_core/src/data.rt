ghost use Rattle.std.specs.Prelude.{◌≡◌, ◌≤◌, ◌*◌, ◌+◌, [], length, take};
ghost use Rattle.device_machine.specs.Packets.{data_packets, packet_count, packet_at, packet_size};

use arrayvec::ArrayVec;
use std::marker::Model;
use usb_packet::Packet;

/// A data stage for the host: the data with the packets of it that weren't handed over (USB 2.0, 8.5.3).
#[derive(Drop)]
pub struct DataStage {
    bytes: ArrayVec<u8, 512>,
    next: u16,
    left: u16,
}

impl Model for DataStage {
    ghost use Rattle.std.specs.Prelude.{ℕ, List, ◌≤◌, ◌*◌, ◌+◌, length};
    ghost use Rattle.usbd_core.specs.Stage.{packets_from};

    ghost Value = { List (List ℕ) };

    ghost view = { λ d. packets_from d.bytes.items d.next d.left };

    ghost invariant = { λ d. 64 * (d.next + d.left) ≤ length d.bytes.items + 64 };
}

impl DataStage {
    ghost use Rattle.device_machine.specs.Bus.{is_empty};
    ghost use Rattle.usbd_core.specs.Stage.{first_of, rest_of};

    /// A data stage that is over.
    pub fn new() -> DataStage
        ensures { result ≡ [] }
    {
        DataStage {
            bytes: ArrayVec::new(),
            next: 0,
            left: 0,
        }
    }

    #[tactic(auto, using(crate::proofs::Packets::packets_of))]
    /// Begins again with these bytes, of which the host allows so many. They are copied once, and no room is moved.
    pub fn begin(&mut self, bytes: &[u8], allowed: u16)
        requires { length bytes.now ≤ 512 }
        ensures { self.new ≡ data_packets bytes.now allowed }
    {
        let cut = cut(bytes, allowed);
        self.bytes.clear();
        let _ = self.bytes.try_extend_from_slice(cut);
        self.next = 0;
        self.left = packet_count(cut, allowed);
    }

    /// Whether each packet was handed over.
    pub fn is_over(&self) -> bool
        ensures { result ≡ is_empty self.now }
    {
        self.left == 0
    }

    #[tactic(auto, using(crate::proofs::Packets::none_left, crate::proofs::Packets::first_left, crate::proofs::Packets::rest_left))]
    /// Hands over the next packet, where there is one.
    pub fn take_packet(&mut self) -> Option<Packet>
        ensures first { result ≡ first_of self.old }
        ensures rest { self.new ≡ rest_of self.old }
    {
        if self.left == 0 {
            return None;
        }
        let packet = packet_at(self.bytes.as_slice(), self.next);
        self.next += 1;
        self.left -= 1;
        Some(packet)
    }
}

/// The bytes that the host allows.
fn cut(bytes: &[u8], allowed: u16) -> &[u8]
    ensures { result.now ≡ take allowed bytes.now }
{
    let n = bytes.len().min(usize::from(allowed));
    &bytes[..n]
}

/// How many packets a data stage of these bytes has, where the host allows so many.
fn packet_count(bytes: &[u8], allowed: u16) -> u16
    requires { length bytes.now ≤ 512 }
    ensures value { result ≡ packet_count (length bytes.now) allowed }
    ensures few { 64 * result ≤ length bytes.now + 64 }
{
    let n = bytes.len() as u16;
    if n < allowed {
        n / 64 + 1
    } else {
        (n + 63) / 64
    }
}

/// Packet number `i` of the data.
fn packet_at(bytes: &[u8], i: u16) -> Packet
    requires { 64 * i ≤ length bytes.now }
    ensures { result ≡ packet_at bytes.now i }
{
    let (_, rest) = bytes.split_at(64 * usize::from(i));
    first_packet(rest)
}

/// The first 64 of these bytes, or all where there are fewer.
fn first_packet(bytes: &[u8]) -> Packet
    ensures { result ≡ take packet_size bytes.now }
{
    let n = bytes.len().min(64);
    match Packet::new(&bytes[..n]) {
        Ok(packet) => packet,
        Err(_) => Packet::empty(),
    }
}
