// A place for a ring in each direction. Where there is none, it is seen as a ring without bytes and without room.
ghost use Rattle.std.specs.Prelude.{◌≡◌, ℕ, ◌+◌, ◌<◌, ◌≤◌, List, ◌∷◌, ◌++◌, length, take, drop, min, IfOk, IfSome, IsTrue, ◌↔◌};
ghost use Rattle.usb_ring.specs.Ring.{Ring, room, appended, without_first, peeked, low_bytes};
ghost use Rattle.device_rings.specs.Rings.{IsRing, emptied};
ghost use Rattle.device_rings.specs.Sizes.{empty};
ghost use Rattle.device_rings.specs.Slots.{capacity_of};

use std::alloc::{AllocError, Global};
use std::marker::Model;
use usb_ring::{RxRing, TxRing};

/// A place for bytes from the host.
#[derive(Drop)]
pub struct OutSlot {
    ring: Option<RxRing>,
}

impl Model for OutSlot {
    ghost use Rattle.usb_ring.specs.Ring.{Ring};
    ghost use Rattle.device_rings.specs.Slots.{ring_in};

    ghost Value = { Ring };

    ghost view = { λ s. ring_in s.ring };
}

impl OutSlot {
    /// A place with an empty ring of 2^log2 bytes, or with none.
    pub fn new(alloc: Global, log2: Option<u8>) -> Result<OutSlot, AllocError>
        requires in_range { IfSome log2 (λ k. (2 ≤ k) × (k ≤ 12)) }
        ensures { IfOk result (λ slot. slot ≡ empty (capacity_of log2)) }
    {
        let ring = match log2 {
            None => None,
            Some(k) => Some(RxRing::new(alloc, k)?),
        };
        Ok(OutSlot { ring })
    }

    /// Whether there is a ring.
    pub fn is_ring(&self) -> bool
        ensures { IsTrue result ↔ IsRing self.now }
    {
        let (held, free) = (self.len(), self.free());
        held > 0 || free > 0
    }

    /// How many bytes are held.
    pub fn len(&self) -> u16
        ensures { result ≡ length self.now.bytes }
    {
        match &self.ring {
            None => 0,
            Some(ring) => ring.len(),
        }
    }

    /// How many more have room.
    pub fn free(&self) -> u16
        ensures { result + length self.now.bytes ≡ self.now.capacity }
    {
        match &self.ring {
            None => 0,
            Some(ring) => ring.free(),
        }
    }

    /// Appends the n lowest bytes of a word, the lowest first; n is 1 to 4, and there must be room for them.
    pub fn push_word(&mut self, word: u32, n: u8)
        requires counted { (1 ≤ n) × (n ≤ 4) }
        requires room { length self.old.bytes + n ≤ self.old.capacity }
        ensures { self.new ≡ appended self.old (low_bytes n word) }
    {
        if let Some(ring) = &mut self.ring {
            ring.handler().push_word(word, n);
        }
    }

    /// Takes the oldest bytes into the front of `buf`, as many as there are and as it takes, and tells how many.
    pub fn pop_bytes(&mut self, buf: &mut [u8]) -> u16
        requires { IsRing self.old }
        ensures count { result ≡ min (length buf.old) (length self.old.bytes) }
        ensures copied { buf.new ≡ take result self.old.bytes ++ drop result buf.old }
        ensures removed { self.new ≡ without_first self.old result }
    {
        match &mut self.ring {
            None => 0,
            Some(ring) => ring.task().pop_bytes(buf),
        }
    }

    /// Drops all bytes.
    pub fn clear(&mut self)
        ensures { self.new ≡ emptied self.old }
    {
        if let Some(ring) = &mut self.ring {
            ring.clear();
        }
    }
}

/// A place for bytes to the host.
#[derive(Drop)]
pub struct InSlot {
    ring: Option<TxRing>,
}

impl Model for InSlot {
    ghost use Rattle.usb_ring.specs.Ring.{Ring};
    ghost use Rattle.device_rings.specs.Slots.{ring_in};

    ghost Value = { Ring };

    ghost view = { λ s. ring_in s.ring };
}

impl InSlot {
    /// A place with an empty ring of 2^log2 bytes, or with none.
    pub fn new(alloc: Global, log2: Option<u8>) -> Result<InSlot, AllocError>
        requires in_range { IfSome log2 (λ k. (2 ≤ k) × (k ≤ 12)) }
        ensures { IfOk result (λ slot. slot ≡ empty (capacity_of log2)) }
    {
        let ring = match log2 {
            None => None,
            Some(k) => Some(TxRing::new(alloc, k)?),
        };
        Ok(InSlot { ring })
    }

    /// Whether there is a ring.
    pub fn is_ring(&self) -> bool
        ensures { IsTrue result ↔ IsRing self.now }
    {
        let (held, free) = (self.len(), self.free());
        held > 0 || free > 0
    }

    /// How many bytes are held.
    pub fn len(&self) -> u16
        ensures { result ≡ length self.now.bytes }
    {
        match &self.ring {
            None => 0,
            Some(ring) => ring.len(),
        }
    }

    /// How many more have room.
    pub fn free(&self) -> u16
        ensures { result + length self.now.bytes ≡ self.now.capacity }
    {
        match &self.ring {
            None => 0,
            Some(ring) => ring.free(),
        }
    }

    /// Appends as many of the bytes, from the first on, as there is room for, and tells how many.
    pub fn push_bytes(&mut self, bytes: &[u8]) -> u16
        requires { IsRing self.old }
        ensures count { result ≡ min (length bytes.now) (room self.old) }
        ensures appended { self.new ≡ appended self.old (take result bytes.now) }
    {
        match &mut self.ring {
            None => 0,
            Some(ring) => ring.task().push_bytes(bytes),
        }
    }

    /// The n bytes from `at` on as a word, the lowest byte first and filled with 0; n is 1 to 4, and they must be there.
    pub fn peek_word(&self, at: u16, n: u8) -> u32
        requires counted { (1 ≤ n) × (n ≤ 4) }
        requires there { at + n ≤ length self.now.bytes }
        ensures { result ≡ peeked self.now at n }
    {
        match &self.ring {
            None => 0,
            Some(ring) => ring.peek_word(at, n),
        }
    }

    /// Drops the n oldest bytes, which must be there.
    pub fn commit(&mut self, n: u16)
        requires { n ≤ length self.old.bytes }
        ensures { self.new ≡ without_first self.old n }
    {
        if let Some(ring) = &mut self.ring {
            ring.handler().commit(n);
        }
    }

    /// Drops all bytes.
    pub fn clear(&mut self)
        ensures { self.new ≡ emptied self.old }
    {
        if let Some(ring) = &mut self.ring {
            ring.clear();
        }
    }
}
