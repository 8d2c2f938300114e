// The words of a receive FIFO in a row of slots, which is used around its end: nothing is moved when words leave.
ghost use Rattle.std.specs.Prelude.{◌≡◌, ℕ, ◌+◌, ◌<◌, ◌≤◌, List, [], ◌∷◌, ◌++◌, length, drop, slice_get};
ghost use Rattle.dwc2_fifo.specs.Words.{words_of, word_count};
ghost use Rattle.dwc2_fifo.specs.Row.{data_slots};

use dwc2_regs::pack_word;
use std::marker::Model;

/// A word of a receive FIFO: the status of an entry, with the number of its words of data, which follow it; or a word
/// of data, with 0.
#[derive(Clone, Copy, Debug, PartialEq, Eq)]
pub struct Slot {
    /// The word as it is read.
    pub word: u32,
    /// How many words of data belong to it.
    pub behind: u16,
}

const SLOTS: usize = 1024;

/// A queue of words.
#[derive(Drop)]
pub struct SlotRing {
    slots: [Slot; 1024],
    oldest: usize,
    len: usize,
}

// Clauses see the slots in use, the oldest first.
impl Model for SlotRing {
    ghost use Rattle.std.specs.Prelude.{List};
    ghost use Rattle.dwc2_fifo.specs.declared.slots.Slot.{Slot};
    ghost use Rattle.dwc2_fifo.specs.Row.{held, IsRow};

    ghost Value = { List Slot };

    ghost view = { λ r. held r.oldest r.len r.slots };

    ghost invariant = { λ r. IsRow r.slots r.oldest r.len };
}

impl SlotRing {
    /// No slot is in use.
    pub fn new() -> SlotRing
        ensures { result ≡ [] }
    {
        SlotRing {
            slots: [Slot { word: 0, behind: 0 }; 1024],
            oldest: 0,
            len: 0,
        }
    }

    /// How many slots are in use, at most 1,024.
    pub fn len(&self) -> usize
        ensures count { result ≡ length self.now }
        ensures small { result ≤ 1024 }
    {
        self.len
    }

    /// Slot `at` of those in use, the oldest being slot 0; none where fewer are.
    #[inline]
    pub fn get(&self, at: usize) -> Option<Slot>
        ensures { result ≡ slice_get self.now at }
    {
        if at < self.len {
            Some(self.slots[(self.oldest + at) % SLOTS])
        } else {
            None
        }
    }

    /// Appends a slot. One of the 1,024 must be free.
    #[inline]
    pub fn push(&mut self, slot: Slot)
        requires { length self.old < 1024 }
        ensures { self.new ≡ self.old ++ slot ∷ [] }
    {
        self.slots[(self.oldest + self.len) % SLOTS] = slot;
        self.len += 1;
    }

    /// Appends a word of data. One slot must be free.
    #[inline]
    pub fn push_word(&mut self, word: u32)
        requires { length self.old < 1024 }
        ensures { self.new ≡ self.old ++ record { word = word; behind = 0 } ∷ [] }
    {
        self.push(Slot { word, behind: 0 });
    }

    /// Appends the words of these bytes, four bytes each and the last filled with 0. There must be slots for them.
    #[inline]
    pub fn push_words(&mut self, bytes: &[u8])
        requires { length self.old + word_count (length bytes.now) ≤ 1024 }
        ensures { self.new ≡ self.old ++ data_slots (words_of bytes.now) }
    {
        let mut rest = bytes;
        while let [a, b, c, d, others @ ..] = rest {
            self.push_word(u32::from_le_bytes([*a, *b, *c, *d]));
            rest = others;
        }
        if !rest.is_empty() {
            self.push_word(pack_word(rest));
        }
    }

    /// Takes the n oldest away, of which so many must be in use.
    #[inline]
    pub fn skip(&mut self, n: usize)
        requires { n ≤ length self.old }
        ensures { self.new ≡ drop n self.old }
    {
        self.oldest = (self.oldest + n) % SLOTS;
        self.len -= n;
    }

    /// Takes all away.
    pub fn clear(&mut self)
        ensures { self.new ≡ [] }
    {
        self.len = 0;
    }
}
