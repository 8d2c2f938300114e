// The bytes of a ring in a row of slots, which is used around its end: nothing is moved when bytes leave.
ghost use Rattle.std.specs.Prelude.{◌≡◌, ℕ, ◌+◌, ◌-◌, ◌*◌, ◌^◌, ◌<◌, ◌≤◌, List, [], ◌∷◌, ◌++◌, length, take, drop, min, slice_index, IfOk};
ghost use Rattle.usb_ring.specs.Ring.{Ring, room, appended, without_first, peeked, low_bytes};
ghost use Rattle.usb_ring.specs.Slots.{held, around, overwritten, overwritten_around};

use std::alloc::{AllocError, Global};
use std::marker::Model;

/// The greatest capacity of a ring, in bytes.
pub const MOST_BYTES: usize = 4096;

/// A queue of bytes in slots that were taken when it was made.
#[derive(Drop)]
pub struct ByteRing {
    slots: Vec<u8>,
    oldest: usize,
    len: usize,
}

// Clauses see the bytes, oldest first, and how many there is room for.
impl Model for ByteRing {
    ghost use Rattle.std.specs.Prelude.{ℕ, ◌≡◌, ◌<◌, ◌≤◌, length, vec_len};
    ghost use Rattle.usb_ring.specs.Ring.{Ring};
    ghost use Rattle.usb_ring.specs.Slots.{held, IsRow};

    ghost Value = { Ring };

    ghost view = { λ r. record { bytes = held r.oldest r.len r.slots.items; capacity = vec_len r.slots } };

    ghost invariant = { λ r. IsRow r.slots.items (vec_len r.slots) r.oldest r.len };
}

// A slot's number, counted on from the first slot where it is past the last.
fn around_end(place: usize, capacity: usize) -> usize
    requires { place < capacity + capacity }
    ensures { result ≡ around place capacity }
{
    if place < capacity {
        place
    } else {
        place - capacity
    }
}

// Puts the bytes into the slots from one on.
#[inline(always)]
fn overwrite(slots: &mut [u8], at: usize, bytes: &[u8])
    requires { at + length bytes.now ≤ length slots.old }
    ensures { slots.new ≡ overwritten slots.old at bytes.now }
{
    slots[at..at + bytes.len()].copy_from_slice(bytes);
}

// Puts the bytes into the slots from one on, and past the last slot from the first on.
#[tactic(auto, using(crate::proofs::Overwrites::all_before))]
#[inline(always)]
fn write_around(slots: &mut [u8], at: usize, bytes: &[u8])
    requires inside { at < length slots.old }
    requires room { length bytes.now ≤ length slots.old }
    ensures { slots.new ≡ overwritten_around slots.old at bytes.now }
{
    let before_end = slots.len() - at;
    if bytes.len() <= before_end {
        overwrite(slots, at, bytes);
    } else {
        let (front, back) = bytes.split_at(before_end);
        overwrite(slots, at, front);
        overwrite(slots, 0, back);
    }
}

// Copies what stands in the slots from one on, and past the last slot from the first on, into the whole of `buf`.
#[inline(always)]
fn read_around(slots: &[u8], at: usize, buf: &mut [u8])
    requires inside { at < length slots.now }
    requires enough { length buf.old ≤ length slots.now }
    ensures { buf.new ≡ held at (length buf.old) slots.now }
{
    let before_end = slots.len() - at;
    if buf.len() <= before_end {
        buf.copy_from_slice(&slots[at..at + buf.len()]);
    } else {
        let (front, back) = buf.split_at_mut(before_end);
        front.copy_from_slice(&slots[at..]);
        back.copy_from_slice(&slots[..back.len()]);
    }
}

impl ByteRing {
    /// An empty ring with room for 2^log2 bytes.
    pub fn new(alloc: Global, log2: u8) -> Result<ByteRing, AllocError>
        requires { log2 ≤ 12 }
        ensures { IfOk result (λ ring. ring ≡ record { bytes = []; capacity = 2 ^ log2 }) }
    {
        let slots = vec![in alloc; 0u8; 1usize << log2]?;
        Ok(ByteRing {
            slots,
            oldest: 0,
            len: 0,
        })
    }

    /// How many bytes stand in the ring.
    pub fn len(&self) -> usize
        ensures count { result ≡ length self.now.bytes }
        ensures small { result ≤ MOST_BYTES }
    {
        self.len
    }

    /// How many bytes more have room.
    pub fn free(&self) -> usize
        ensures sum { result + length self.now.bytes ≡ self.now.capacity }
        ensures small { result ≤ MOST_BYTES }
    {
        self.slots.len() - self.len
    }

    /// Appends the bytes, for which there must be room.
    #[inline(always)]
    pub fn append(&mut self, bytes: &[u8])
        requires { length self.old.bytes + length bytes.now ≤ self.old.capacity }
        ensures { self.new ≡ appended self.old bytes.now }
    {
        let end = around_end(self.oldest + self.len, self.slots.len());
        write_around(&mut self.slots, end, bytes);
        self.len += bytes.len();
    }

    /// Copies the bytes from `at` on into the whole of `buf`; they must be there.
    #[inline(always)]
    pub fn copy_from(&self, at: usize, buf: &mut [u8])
        requires { at + length buf.old ≤ length self.now.bytes }
        ensures { buf.new ≡ take (length buf.old) (drop at self.now.bytes) }
    {
        read_around(
            &self.slots,
            around_end(self.oldest + at, self.slots.len()),
            buf,
        );
    }

    /// Copies the oldest bytes into the front of `buf`, as many as there are and as it takes, and tells how many.
    pub fn copy_front(&self, buf: &mut [u8]) -> usize
        ensures count { result ≡ min (length buf.old) (length self.now.bytes) }
        ensures copied { buf.new ≡ take result self.now.bytes ++ drop result buf.old }
        ensures small { result ≤ MOST_BYTES }
    {
        let count = buf.len().min(self.len());
        self.copy_from(0, &mut buf[..count]);
        count
    }

    /// The n bytes from `at` on as a number, the lowest byte first; they must be there.
    pub fn number_at(&self, at: usize, n: usize) -> u32
        requires counted { n ≤ 4 }
        requires there { at + n ≤ length self.now.bytes }
        ensures { result ≡ peeked self.now at n }
    {
        if n == 4 {
            self.four_at(at)
        } else {
            self.few_at(at, n)
        }
    }

    /// Four bytes, which are most of all words, in one step.
    #[inline(always)]
    fn four_at(&self, at: usize) -> u32
        requires { at + 4 ≤ length self.now.bytes }
        ensures { result ≡ peeked self.now at 4 }
    {
        let mut bytes = [0u8; 4];
        self.copy_from(at, &mut bytes);
        u32::from_le_bytes(bytes)
    }

    fn few_at(&self, at: usize, n: usize) -> u32
        requires counted { n ≤ 4 }
        requires there { at + n ≤ length self.now.bytes }
        ensures { result ≡ peeked self.now at n }
    {
        let mut bytes = [0u8; 4];
        self.copy_from(at, &mut bytes[..n]);
        u32::from_le_bytes(bytes)
    }

    /// Appends as many of the bytes, from the first on, as there is room for, and tells how many.
    pub fn append_front(&mut self, bytes: &[u8]) -> usize
        ensures count { result ≡ min (length bytes.now) (room self.old) }
        ensures appended { self.new ≡ appended self.old (take result bytes.now) }
        ensures small { result ≤ MOST_BYTES }
    {
        let count = bytes.len().min(self.free());
        self.append(&bytes[..count]);
        count
    }

    /// Appends the n lowest bytes of the word, the lowest first; there must be room for them.
    pub fn append_low(&mut self, word: u32, n: usize)
        requires counted { n ≤ 4 }
        requires room { length self.old.bytes + n ≤ self.old.capacity }
        ensures { self.new ≡ appended self.old (low_bytes n word) }
    {
        if n == 4 {
            self.append_four(word);
        } else {
            self.append_few(word, n);
        }
    }

    /// A whole word in one step.
    #[inline(always)]
    fn append_four(&mut self, word: u32)
        requires { length self.old.bytes + 4 ≤ self.old.capacity }
        ensures { self.new ≡ appended self.old (low_bytes 4 word) }
    {
        self.append(&word.to_le_bytes());
    }

    fn append_few(&mut self, word: u32, n: usize)
        requires counted { n ≤ 4 }
        requires room { length self.old.bytes + n ≤ self.old.capacity }
        ensures { self.new ≡ appended self.old (low_bytes n word) }
    {
        self.append(&word.to_le_bytes()[..n]);
    }

    /// Gives up the n oldest bytes, which must be there.
    pub fn remove_first(&mut self, n: usize)
        requires { n ≤ length self.old.bytes }
        ensures { self.new ≡ without_first self.old n }
    {
        self.oldest = around_end(self.oldest + n, self.slots.len());
        self.len -= n;
    }

    /// Gives up all bytes.
    pub fn clear(&mut self)
        ensures { self.new ≡ record self.old { bytes = [] } }
    {
        self.len = 0;
    }
}
