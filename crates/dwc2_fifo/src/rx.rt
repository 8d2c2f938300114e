ghost use Rattle.std.specs.Prelude.{◌≡◌, ◌+◌, ◌≤◌, ◌↔◌, [], ◌≢◌, length, take, IsTrue};
ghost use Rattle.dwc2_fifo.specs.Words.{words_of, word_count, bytes_in};
ghost use Rattle.dwc2_fifo.specs.Rx.{Rx, room_of, IsEmpty, pushed, first_status, popped, first_word, word_taken, empty_of};

use crate::slots::{Slot, SlotRing};
use std::marker::Model;

/// The receive FIFO. An entry is a status word and the words of some bytes. Where an entry is popped, its words can
/// be read one by one, and what is left of them is dropped with the next pop.
#[derive(Drop)]
pub struct RxFifo {
    slots: SlotRing,
    left: u16,
    depth: u16,
}

impl Model for RxFifo {
    ghost use Rattle.dwc2_fifo.specs.Rx.{Rx};
    ghost use Rattle.dwc2_fifo.specs.Row.{rx_of, IsFifo};

    ghost Value = { Rx };

    ghost view = { λ f. rx_of f.slots f.left f.depth };

    ghost invariant = { λ f. IsFifo f.slots f.left f.depth };
}

// How many words these bytes take.
fn words(bytes: &[u8]) -> u16
    requires { word_count (length bytes.now) ≤ 1024 }
    ensures { result ≡ word_count (length bytes.now) }
{
    bytes.len().div_ceil(4) as u16
}

impl RxFifo {
    /// An empty FIFO of depth 0.
    pub fn new() -> RxFifo
        ensures { result ≡ empty_of 0 }
    {
        RxFifo {
            slots: SlotRing::new(),
            left: 0,
            depth: 0,
        }
    }

    /// Sets the depth in words, at most 1,024. The FIFO must be empty.
    pub fn set_depth(&mut self, words: u16)
        requires most { words ≤ 1024 }
        requires empty { IsEmpty self.old }
        ensures { self.new ≡ record self.old { depth = words } }
    {
        self.slots.clear();
        self.left = 0;
        self.depth = words;
    }

    /// How many more words there is place for.
    pub fn room(&self) -> u16
        ensures { result ≡ room_of self.now }
    {
        self.depth - self.slots.len() as u16
    }

    /// Whether an entry can be popped and no word of the one popped before is left.
    pub fn is_ready(&self) -> bool
        ensures { IsTrue result ↔ ((self.now.left ≡ []) × (self.now.entries ≢ [])) }
    {
        self.left == 0 && self.slots.len() != 0
    }

    /// Appends an entry: the status word and the words of the bytes. There must be place for them.
    pub fn push_entry(&mut self, status: u32, bytes: &[u8])
        requires { 1 + word_count (length bytes.now) ≤ room_of self.old }
        ensures pushed { self.new ≡ pushed self.old (record { status = status; words = words_of bytes.now }) }
        ensures undone { take (length bytes.now) (bytes_in (words_of bytes.now)) ≡ bytes.now }
    {
        self.slots.push(Slot {
            word: status,
            behind: words(bytes),
        });
        self.slots.push_words(bytes);
    }

    /// The status of the first entry, which stays; 0 where there is none.
    pub fn peek_status(&self) -> u32
        ensures { result ≡ first_status self.now.entries }
    {
        match self.slots.get(self.left as usize) {
            Some(slot) => slot.word,
            None => 0,
        }
    }

    /// Pops the first entry: its status. Its words can then be read, and what is left of the entry popped before is
    /// dropped. Where there is no entry it is 0, and nothing changes.
    pub fn pop_status(&mut self) -> u32
        ensures status { result ≡ first_status self.old.entries }
        ensures popped { self.new ≡ popped self.old }
    {
        let place = self.left as usize;
        match self.slots.get(place) {
            Some(slot) => {
                self.slots.skip(place + 1);
                self.left = slot.behind;
                slot.word
            }
            None => 0,
        }
    }

    /// Takes the next word of the popped entry; 0 where none is left, and nothing changes.
    pub fn pop_word(&mut self) -> u32
        ensures word { result ≡ first_word self.old.left }
        ensures taken { self.new ≡ word_taken self.old }
    {
        match self.slots.get(0) {
            Some(slot) if self.left != 0 => {
                self.slots.skip(1);
                self.left -= 1;
                slot.word
            }
            Some(_) => 0,
            None => 0,
        }
    }

    /// Drops all entries and words. The depth stays.
    pub fn flush(&mut self)
        ensures { self.new ≡ empty_of self.old.depth }
    {
        self.slots.clear();
        self.left = 0;
    }
}
