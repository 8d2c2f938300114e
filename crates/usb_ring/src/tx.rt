// The ring that the task writes and the handler reads.
ghost use Rattle.std.specs.Prelude.{◌≡◌, ℕ, ◌+◌, ◌^◌, ◌≤◌, List, [], ◌∷◌, length, take, min, IfOk};
ghost use Rattle.usb_ring.specs.Ends.{tx_handler_ring, tx_handler_lender, tx_task_ring, tx_task_lender};
ghost use Rattle.usb_ring.specs.Ring.{Ring, room, appended, without_first, peeked};

use crate::storage::ByteRing;
use std::alloc::{AllocError, Global};
use std::marker::Model;

/// The bytes that the task queued and that the bus has yet to acknowledge.
#[derive(Drop)]
pub struct TxRing {
    ring: ByteRing,
}

impl Model for TxRing {
    ghost use Rattle.usb_ring.specs.Ring.{Ring};

    ghost Value = { Ring };

    ghost view = { λ r. r.ring };
}

impl TxRing {
    /// An empty ring with room for 2^log2 bytes. Fails only for want of memory.
    pub fn new(alloc: Global, log2: u8) -> Result<TxRing, AllocError>
        requires in_range { (2 ≤ log2) × (log2 ≤ 12) }
        ensures { IfOk result (λ ring. ring ≡ record { bytes = []; capacity = 2 ^ log2 }) }
    {
        let ring = ByteRing::new(alloc, log2)?;
        Ok(TxRing { ring })
    }

    /// The end for the handler, which reads.
    pub fn handler(&mut self) -> TxHandler<'_>
        ensures same_borrow { tx_handler_lender result ≡ self.entry.ghost_name }
        ensures value { tx_handler_ring result ≡ self.old }
    {
        TxHandler { ring: self }
    }

    /// The end for the task, which writes.
    pub fn task(&mut self) -> TxTask<'_>
        ensures same_borrow { tx_task_lender result ≡ self.entry.ghost_name }
        ensures value { tx_task_ring result ≡ self.old }
    {
        TxTask { ring: self }
    }

    /// Drops all bytes.
    pub fn clear(&mut self)
        ensures { self.new ≡ record self.old { bytes = [] } }
    {
        self.ring.clear();
    }

    /// How many bytes there are.
    pub fn len(&self) -> u16
        ensures { result ≡ length self.now.bytes }
    {
        self.ring.len() as u16
    }

    /// How many more bytes there is room for.
    pub fn free(&self) -> u16
        ensures { result + length self.now.bytes ≡ self.now.capacity }
    {
        self.ring.free() as u16
    }

    /// The n bytes from `at` on as a word, the lowest byte first and filled with 0; n is 1 to 4, and the bytes must be
    /// there. The ring keeps them.
    pub fn peek_word(&self, at: u16, n: u8) -> u32
        requires counted { (1 ≤ n) × (n ≤ 4) }
        requires there { at + n ≤ length self.now.bytes }
        ensures { result ≡ peeked self.now at n }
    {
        self.ring.number_at(at as usize, n as usize)
    }

    fn remove_first(&mut self, n: u16)
        requires { n ≤ length self.old.bytes }
        ensures { self.new ≡ without_first self.old n }
    {
        self.ring.remove_first(n as usize);
    }

    fn append_fitting(&mut self, bytes: &[u8]) -> u16
        ensures count { result ≡ min (length bytes.now) (room self.old) }
        ensures appended { self.new ≡ appended self.old (take result bytes.now) }
    {
        self.ring.append_front(bytes) as u16
    }
}

/// The handler's end of a [`TxRing`]: it reads bytes, gives up those that are done with, and never adds any.
#[derive(Drop)]
pub struct TxHandler<'a> {
    ring: &'a mut TxRing,
}

impl TxHandler<'_> {
    /// The n bytes from `at` on as a word, the lowest byte first and filled with 0; n is 1 to 4, and the bytes must be
    /// there. The ring keeps them.
    pub fn peek_word(&self, at: u16, n: u8) -> u32
        requires counted { (1 ≤ n) × (n ≤ 4) }
        requires there { at + n ≤ length (tx_handler_ring self.now).bytes }
        ensures { result ≡ peeked (tx_handler_ring self.now) at n }
    {
        self.ring.peek_word(at, n)
    }

    /// Drops the n oldest bytes, which must be there.
    pub fn commit(&mut self, n: u16)
        requires { n ≤ length (tx_handler_ring self.old).bytes }
        ensures removed { tx_handler_ring self.new ≡ without_first (tx_handler_ring self.old) n }
        ensures same_borrow { tx_handler_lender self.new ≡ tx_handler_lender self.old }
    {
        self.ring.remove_first(n);
    }

    /// How many bytes there are.
    pub fn len(&self) -> u16
        ensures { result ≡ length (tx_handler_ring self.now).bytes }
    {
        self.ring.len()
    }
}

/// The task's end of a [`TxRing`]: it adds bytes and never reads them.
#[derive(Drop)]
pub struct TxTask<'a> {
    ring: &'a mut TxRing,
}

impl TxTask<'_> {
    /// Appends as many of the bytes, from the first on, as there is room for, and tells how many.
    pub fn push_bytes(&mut self, bytes: &[u8]) -> u16
        ensures count { result ≡ min (length bytes.now) (room (tx_task_ring self.old)) }
        ensures appended { tx_task_ring self.new ≡ appended (tx_task_ring self.old) (take result bytes.now) }
        ensures same_borrow { tx_task_lender self.new ≡ tx_task_lender self.old }
    {
        self.ring.append_fitting(bytes)
    }

    /// How many bytes there are.
    pub fn len(&self) -> u16
        ensures { result ≡ length (tx_task_ring self.now).bytes }
    {
        self.ring.len()
    }

    /// How many more bytes there is room for.
    pub fn free(&self) -> u16
        ensures { result + length (tx_task_ring self.now).bytes ≡ (tx_task_ring self.now).capacity }
    {
        self.ring.free()
    }
}
