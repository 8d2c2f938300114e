// The ring that the handler writes and the task reads.
ghost use Rattle.std.specs.Prelude.{◌≡◌, ℕ, ◌+◌, ◌^◌, ◌≤◌, List, [], ◌∷◌, ◌++◌, length, take, drop, min, IfOk};
ghost use Rattle.usb_ring.specs.Ends.{rx_handler_ring, rx_handler_lender, rx_task_ring, rx_task_lender};
ghost use Rattle.usb_ring.specs.Ring.{Ring, appended, without_first, low_bytes};

use crate::storage::ByteRing;
use std::alloc::{AllocError, Global};
use std::marker::Model;

/// The bytes that came in from the bus and that the task has yet to take.
#[derive(Drop)]
pub struct RxRing {
    ring: ByteRing,
}

impl Model for RxRing {
    ghost use Rattle.usb_ring.specs.Ring.{Ring};

    ghost Value = { Ring };

    ghost view = { λ r. r.ring };
}

impl RxRing {
    /// An empty ring with room for 2^log2 bytes. Fails only for want of memory.
    pub fn new(alloc: Global, log2: u8) -> Result<RxRing, AllocError>
        requires in_range { (2 ≤ log2) × (log2 ≤ 12) }
        ensures { IfOk result (λ ring. ring ≡ record { bytes = []; capacity = 2 ^ log2 }) }
    {
        let ring = ByteRing::new(alloc, log2)?;
        Ok(RxRing { ring })
    }

    /// Copies the oldest bytes into the front of `buf`, as many as there are and as it takes, and tells how many. The
    /// ring keeps them.
    pub fn peek_bytes(&self, buf: &mut [u8]) -> u16
        ensures count { result ≡ min (length buf.old) (length self.now.bytes) }
        ensures copied { buf.new ≡ take result self.now.bytes ++ drop result buf.old }
    {
        self.ring.copy_front(buf) as u16
    }

    /// The end for the handler, which writes.
    pub fn handler(&mut self) -> RxHandler<'_>
        ensures same_borrow { rx_handler_lender result ≡ self.entry.ghost_name }
        ensures value { rx_handler_ring result ≡ self.old }
    {
        RxHandler { ring: self }
    }

    /// The end for the task, which reads.
    pub fn task(&mut self) -> RxTask<'_>
        ensures same_borrow { rx_task_lender result ≡ self.entry.ghost_name }
        ensures value { rx_task_ring result ≡ self.old }
    {
        RxTask { ring: self }
    }

    /// Drops all bytes.
    pub fn clear(&mut self)
        ensures { self.new ≡ record self.old { bytes = [] } }
    {
        self.ring.clear();
    }

    /// How many bytes there are.
    pub fn len(&self) -> u16
        ensures { result ≡ length self.now.bytes }
    {
        self.ring.len() as u16
    }

    /// How many more bytes there is room for.
    pub fn free(&self) -> u16
        ensures { result + length self.now.bytes ≡ self.now.capacity }
    {
        self.ring.free() as u16
    }

    fn append_low(&mut self, word: u32, n: u8)
        requires counted { n ≤ 4 }
        requires room { length self.old.bytes + n ≤ self.old.capacity }
        ensures { self.new ≡ appended self.old (low_bytes n word) }
    {
        self.ring.append_low(word, n as usize);
    }

    fn remove_first(&mut self, n: u16)
        requires { n ≤ length self.old.bytes }
        ensures { self.new ≡ without_first self.old n }
    {
        self.ring.remove_first(n as usize);
    }
}

/// The handler's end of an [`RxRing`]: it adds bytes and never reads them.
#[derive(Drop)]
pub struct RxHandler<'a> {
    ring: &'a mut RxRing,
}

impl RxHandler<'_> {
    /// Appends the n lowest bytes of the word, the lowest first; n is 1 to 4, and there must be room for them.
    pub fn push_word(&mut self, word: u32, n: u8)
        requires counted { (1 ≤ n) × (n ≤ 4) }
        requires room { length (rx_handler_ring self.old).bytes + n ≤ (rx_handler_ring self.old).capacity }
        ensures appended { rx_handler_ring self.new ≡ appended (rx_handler_ring self.old) (low_bytes n word) }
        ensures same_borrow { rx_handler_lender self.new ≡ rx_handler_lender self.old }
    {
        self.ring.append_low(word, n);
    }

    /// How many more bytes there is room for.
    pub fn free(&self) -> u16
        ensures { result + length (rx_handler_ring self.now).bytes ≡ (rx_handler_ring self.now).capacity }
    {
        self.ring.free()
    }
}

/// The task's end of an [`RxRing`]: it takes bytes and never adds any.
#[derive(Drop)]
pub struct RxTask<'a> {
    ring: &'a mut RxRing,
}

impl RxTask<'_> {
    /// Takes the oldest bytes into the front of `buf`, as many as there are and as it takes, and tells how many.
    pub fn pop_bytes(&mut self, buf: &mut [u8]) -> u16
        ensures count { result ≡ min (length buf.old) (length (rx_task_ring self.old).bytes) }
        ensures copied { buf.new ≡ take result (rx_task_ring self.old).bytes ++ drop result buf.old }
        ensures removed { rx_task_ring self.new ≡ without_first (rx_task_ring self.old) result }
        ensures same_borrow { rx_task_lender self.new ≡ rx_task_lender self.old }
    {
        let count = self.ring.peek_bytes(buf);
        self.ring.remove_first(count);
        count
    }

    /// How many bytes there are.
    pub fn len(&self) -> u16
        ensures { result ≡ length (rx_task_ring self.now).bytes }
    {
        self.ring.len()
    }

    /// How many more bytes there is room for.
    pub fn free(&self) -> u16
        ensures { result + length (rx_task_ring self.now).bytes ≡ (rx_task_ring self.now).capacity }
    {
        self.ring.free()
    }
}
