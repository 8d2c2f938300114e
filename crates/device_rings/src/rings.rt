// The rings of a device's endpoints.
ghost use Rattle.std.specs.Prelude.{◌≡◌, ℕ, ◌+◌, ◌<◌, ◌≤◌, List, ◌∷◌, ◌++◌, length, take, drop, min, true, false, IfOk, IsTrue, ◌↔◌};
ghost use Rattle.usb_descriptor.specs.Set.{endpoints_of};
ghost use Rattle.usb_ring.specs.Ring.{Ring, room, appended, without_first, peeked, low_bytes};
ghost use Rattle.device_rings.specs.Rings.{Rings, out_ring, in_ring, with_out_ring, with_in_ring, is_in, ring_at, with_ring_at, IsRing, emptied, all_emptied};
ghost use Rattle.device_rings.specs.Sizes.{ring_for, rings_of};

use crate::sizes::log2_at;
use crate::slots::{InSlot, OutSlot};
use std::alloc::{AllocError, Global};
use std::marker::Model;
use usb_descriptor::{DescSet, Endpoint};

/// Bit 7 of an endpoint's address, which says IN (USB 2.0, 9.6.6).
const IN: u8 = 0x80;

/// A ring for each endpoint of a class, by direction and number. An endpoint is named by its address with the direction
/// bit, or by its number where the direction is plain, and it must have a ring.
#[derive(Drop)]
pub struct DevRings {
    outs: [OutSlot; 3],
    ins: [InSlot; 3],
}

impl Model for DevRings {
    ghost use Rattle.device_rings.specs.Rings.{Rings};

    ghost Value = { Rings };

    ghost view = { λ r. record { outs = r.outs; ins = r.ins } };
}

/// The place of a number among those of its direction.
fn place(number: u8) -> usize
    requires { 1 ≤ number }
    ensures { result + 1 ≡ number }
{
    (number - 1) as usize
}

/// An empty ring for the OUT endpoint of a number, if a class has it.
fn out_slot(alloc: Global, endpoints: &[Endpoint], number: u8) -> Result<OutSlot, AllocError>
    ensures { IfOk result (λ slot. slot ≡ ring_for endpoints.now number) }
{
    OutSlot::new(alloc, log2_at(endpoints, number))
}

/// An empty ring for the IN endpoint of a number, if a class has it.
fn in_slot(alloc: Global, endpoints: &[Endpoint], number: u8) -> Result<InSlot, AllocError>
    requires { number < 128 }
    ensures { IfOk result (λ slot. slot ≡ ring_for endpoints.now (128 + number)) }
{
    InSlot::new(alloc, log2_at(endpoints, IN + number))
}

impl DevRings {
    /// The rings of a set's endpoints, all empty. Fails only for want of memory.
    pub fn new(alloc: Global, set: &DescSet) -> Result<DevRings, AllocError>
        ensures { IfOk result (λ rings. rings ≡ rings_of (endpoints_of set.now.config)) }
    {
        DevRings::of(alloc, set.endpoints())
    }

    /// The rings of these endpoints, all empty. Fails only for want of memory.
    pub fn of(alloc: Global, endpoints: &[Endpoint]) -> Result<DevRings, AllocError>
        ensures { IfOk result (λ rings. rings ≡ rings_of endpoints.now) }
    {
        let outs = [
            out_slot(alloc, endpoints, 1)?,
            out_slot(alloc, endpoints, 2)?,
            out_slot(alloc, endpoints, 3)?,
        ];
        let ins = [
            in_slot(alloc, endpoints, 1)?,
            in_slot(alloc, endpoints, 2)?,
            in_slot(alloc, endpoints, 3)?,
        ];
        Ok(DevRings { outs, ins })
    }

    /// Whether an endpoint has a ring.
    pub fn has_ring(&self, ep: u8) -> bool
        ensures { IsTrue result ↔ IsRing (ring_at self.now ep) }
    {
        if ep >= IN {
            self.has_in(ep - IN)
        } else {
            self.has_out(ep)
        }
    }

    /// How many bytes an endpoint's ring holds.
    pub fn held(&self, ep: u8) -> u16
        requires { IsRing (ring_at self.now ep) }
        ensures { result ≡ length (ring_at self.now ep).bytes }
    {
        if ep >= IN {
            self.in_held(ep - IN)
        } else {
            self.out_held(ep)
        }
    }

    /// How many more it has room for.
    pub fn room(&self, ep: u8) -> u16
        requires { IsRing (ring_at self.now ep) }
        ensures { result + length (ring_at self.now ep).bytes ≡ (ring_at self.now ep).capacity }
    {
        if ep >= IN {
            self.in_room(ep - IN)
        } else {
            self.out_room(ep)
        }
    }

    /// Puts as many of the bytes, from the first on, into an IN endpoint's ring as have room, and tells how many.
    pub fn write(&mut self, ep: u8, bytes: &[u8]) -> u16
        requires is_in { is_in ep ≡ true }
        requires named { IsRing (ring_at self.old ep) }
        ensures count { result ≡ min (length bytes.now) (room (ring_at self.old ep)) }
        ensures written { self.new ≡ with_ring_at self.old ep (appended (ring_at self.old ep) (take result bytes.now)) }
    {
        self.push_bytes(ep - IN, bytes)
    }

    /// Takes the oldest bytes of an OUT endpoint's ring into the front of `buf`, as many as there are and as it takes,
    /// and tells how many.
    pub fn read(&mut self, ep: u8, buf: &mut [u8]) -> u16
        requires is_out { is_in ep ≡ false }
        requires named { IsRing (ring_at self.old ep) }
        ensures count { result ≡ min (length buf.old) (length (ring_at self.old ep).bytes) }
        ensures copied { buf.new ≡ take result (ring_at self.old ep).bytes ++ drop result buf.old }
        ensures removed { self.new ≡ with_ring_at self.old ep (without_first (ring_at self.old ep) result) }
    {
        self.pop_bytes(ep, buf)
    }

    /// Drops all bytes of an endpoint's ring.
    pub fn drop_all(&mut self, ep: u8)
        requires { IsRing (ring_at self.old ep) }
        ensures { self.new ≡ with_ring_at self.old ep (emptied (ring_at self.old ep)) }
    {
        if ep >= IN {
            self.drop_in(ep - IN);
        } else {
            self.drop_out(ep);
        }
    }

    /// For the handler: appends the n lowest bytes of a word, the lowest first, to the ring of an OUT endpoint's number; n
    /// is 1 to 4, and there must be room for them.
    #[tactic(auto, using(crate::proofs::Numbered::from_one_room, crate::proofs::Numbered::to_last_room))]
    pub fn push_word(&mut self, number: u8, word: u32, n: u8)
        requires counted { (1 ≤ n) × (n ≤ 4) }
        requires room { length (out_ring self.old number).bytes + n ≤ (out_ring self.old number).capacity }
        ensures { self.new ≡ with_out_ring self.old number (appended (out_ring self.old number) (low_bytes n word)) }
    {
        self.outs[place(number)].push_word(word, n);
    }

    /// For the handler: the n bytes from `at` on in the ring of an IN endpoint's number, as a word, the lowest byte first
    /// and filled with 0; n is 1 to 4, and the bytes must be there. The ring keeps them.
    #[tactic(auto, using(crate::proofs::Numbered::from_one_there, crate::proofs::Numbered::to_last_there))]
    pub fn peek_word(&self, number: u8, at: u16, n: u8) -> u32
        requires counted { (1 ≤ n) × (n ≤ 4) }
        requires there { at + n ≤ length (in_ring self.now number).bytes }
        ensures { result ≡ peeked (in_ring self.now number) at n }
    {
        self.ins[place(number)].peek_word(at, n)
    }

    /// For the handler: drops the n oldest bytes of the ring of an IN endpoint's number, which must be there. The number is 1
    /// to 3.
    pub fn commit(&mut self, number: u8, n: u16)
        requires numbered { (1 ≤ number) × (number ≤ 3) }
        requires there { n ≤ length (in_ring self.old number).bytes }
        ensures { self.new ≡ with_in_ring self.old number (without_first (in_ring self.old number) n) }
    {
        self.ins[place(number)].commit(n);
    }

    #[tactic(auto, using(crate::proofs::Numbered::from_one, crate::proofs::Numbered::to_last))]
    fn has_out(&self, number: u8) -> bool
        ensures { IsTrue result ↔ IsRing (out_ring self.now number) }
    {
        if number == 0 {
            return false;
        }
        match self.outs.get(place(number)) {
            None => false,
            Some(slot) => slot.is_ring(),
        }
    }

    #[tactic(auto, using(crate::proofs::Numbered::from_one, crate::proofs::Numbered::to_last))]
    fn has_in(&self, number: u8) -> bool
        ensures { IsTrue result ↔ IsRing (in_ring self.now number) }
    {
        if number == 0 {
            return false;
        }
        match self.ins.get(place(number)) {
            None => false,
            Some(slot) => slot.is_ring(),
        }
    }

    #[tactic(auto, using(crate::proofs::Numbered::from_one, crate::proofs::Numbered::to_last))]
    fn out_held(&self, number: u8) -> u16
        requires { IsRing (out_ring self.now number) }
        ensures { result ≡ length (out_ring self.now number).bytes }
    {
        self.outs[place(number)].len()
    }

    #[tactic(auto, using(crate::proofs::Numbered::from_one, crate::proofs::Numbered::to_last))]
    fn in_held(&self, number: u8) -> u16
        requires { IsRing (in_ring self.now number) }
        ensures { result ≡ length (in_ring self.now number).bytes }
    {
        self.ins[place(number)].len()
    }

    #[tactic(auto, using(crate::proofs::Numbered::from_one, crate::proofs::Numbered::to_last))]
    fn out_room(&self, number: u8) -> u16
        requires { IsRing (out_ring self.now number) }
        ensures { result + length (out_ring self.now number).bytes ≡ (out_ring self.now number).capacity }
    {
        self.outs[place(number)].free()
    }

    #[tactic(auto, using(crate::proofs::Numbered::from_one, crate::proofs::Numbered::to_last))]
    fn in_room(&self, number: u8) -> u16
        requires { IsRing (in_ring self.now number) }
        ensures { result + length (in_ring self.now number).bytes ≡ (in_ring self.now number).capacity }
    {
        self.ins[place(number)].free()
    }

    #[tactic(auto, using(crate::proofs::Numbered::from_one, crate::proofs::Numbered::to_last))]
    fn push_bytes(&mut self, number: u8, bytes: &[u8]) -> u16
        requires { IsRing (in_ring self.old number) }
        ensures count { result ≡ min (length bytes.now) (room (in_ring self.old number)) }
        ensures written { self.new ≡ with_in_ring self.old number (appended (in_ring self.old number) (take result bytes.now)) }
    {
        self.ins[place(number)].push_bytes(bytes)
    }

    #[tactic(auto, using(crate::proofs::Numbered::from_one, crate::proofs::Numbered::to_last))]
    fn pop_bytes(&mut self, number: u8, buf: &mut [u8]) -> u16
        requires { IsRing (out_ring self.old number) }
        ensures count { result ≡ min (length buf.old) (length (out_ring self.old number).bytes) }
        ensures copied { buf.new ≡ take result (out_ring self.old number).bytes ++ drop result buf.old }
        ensures removed { self.new ≡ with_out_ring self.old number (without_first (out_ring self.old number) result) }
    {
        self.outs[place(number)].pop_bytes(buf)
    }

    /// Drops all bytes of the ring of an OUT endpoint's number, which is 1 to 3.
    pub fn clear_out(&mut self, number: u8)
        requires numbered { (1 ≤ number) × (number ≤ 3) }
        ensures { self.new ≡ with_out_ring self.old number (emptied (out_ring self.old number)) }
    {
        self.outs[place(number)].clear();
    }

    /// Drops all bytes of the ring of an IN endpoint's number, which is 1 to 3.
    pub fn clear_in(&mut self, number: u8)
        requires numbered { (1 ≤ number) × (number ≤ 3) }
        ensures { self.new ≡ with_in_ring self.old number (emptied (in_ring self.old number)) }
    {
        self.ins[place(number)].clear();
    }

    #[tactic(auto, using(crate::proofs::Numbered::from_one, crate::proofs::Numbered::to_last))]
    fn drop_out(&mut self, number: u8)
        requires { IsRing (out_ring self.old number) }
        ensures { self.new ≡ with_out_ring self.old number (emptied (out_ring self.old number)) }
    {
        self.outs[place(number)].clear();
    }

    #[tactic(auto, using(crate::proofs::Numbered::from_one, crate::proofs::Numbered::to_last))]
    fn drop_in(&mut self, number: u8)
        requires { IsRing (in_ring self.old number) }
        ensures { self.new ≡ with_in_ring self.old number (emptied (in_ring self.old number)) }
    {
        self.ins[place(number)].clear();
    }

    /// Drops all bytes of all rings.
    pub fn clear_all(&mut self)
        ensures { self.new ≡ all_emptied self.old }
    {
        self.outs[0].clear();
        self.outs[1].clear();
        self.outs[2].clear();
        self.ins[0].clear();
        self.ins[1].clear();
        self.ins[2].clear();
    }
}
