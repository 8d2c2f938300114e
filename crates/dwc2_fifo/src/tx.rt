ghost use Rattle.std.specs.Prelude.{◌≡◌, ℕ, ◌+◌, ◌-◌, ◌<◌, ◌≤◌, List, [], ◌∷◌, ◌++◌, length, take, drop, IsSome, IfSome, IfNone, option_map};
ghost use Rattle.dwc2_fifo.specs.Cut.{IsFirst, NoneHas, room_of_packet};
ghost use Rattle.dwc2_regs.specs.Word.{bytes_of};
ghost use Rattle.dwc2_fifo.specs.Words.{word_count};
ghost use Rattle.dwc2_fifo.specs.Tx.{Tx, space_of, empty_of, IsEmpty, begun_in, with_word, first_with, without_first};

use arrayvec::ArrayVec;
use dwc2_regs::word_bytes;
use std::marker::Model;
use usb_packet::Packet;

/// Whose a packet is, and how many bytes it has.
#[derive(Clone, Copy, Debug, Default, PartialEq, Eq)]
pub struct Head {
    /// The tag that names whose it is.
    pub tag: u8,
    /// Its bytes, 1 to 64.
    pub len: u8,
}

/// Where a packet stands among the packets, and its words among the bytes.
#[derive(Clone, Copy, Debug, PartialEq, Eq)]
pub struct Place {
    /// How many packets stand before it.
    pub index: usize,
    /// How many bytes the words of those have.
    pub start: usize,
    /// Whose it is, and how long.
    pub head: Head,
}

/// A transmit FIFO. A packet is begun with its length and is whole once its last word was pushed; each has a tag that
/// names whose it is. A packet of no bytes has no words and never stands here.
///
/// The bytes of the words stand in one row, in the order in which they were pushed; a packet begins with a word.
#[derive(Drop)]
pub struct TxFifo {
    heads: ArrayVec<Head, 1024>,
    begun: Option<Head>,
    got: u8,
    bytes: [u8; 4096],
    end: usize,
    used: u16,
    depth: u16,
}

impl Model for TxFifo {
    ghost use Rattle.std.specs.Prelude.{take};
    ghost use Rattle.dwc2_fifo.specs.Tx.{Tx};
    ghost use Rattle.dwc2_fifo.specs.Cut.{tx_of, IsStored};

    ghost Value = { Tx };

    ghost view = { λ f. tx_of f.heads.items f.begun (take f.end f.bytes) f.depth };

    ghost invariant = { λ f. IsStored f.heads.items f.begun f.got f.bytes f.end f.used f.depth };
}

fn words(bytes: u8) -> u16
    ensures value { result ≡ word_count bytes }
    ensures small { result ≤ 64 }
{
    (bytes as u16 + 3) / 4
}

// The bytes that the words of a packet have.
fn room(bytes: u8) -> usize
    ensures value { result ≡ room_of_packet bytes }
    ensures small { result ≤ 256 }
{
    4 * words(bytes) as usize
}

// The first packet with that tag.
fn place_of(heads: &[Head], tag: u8) -> Option<Place>
    requires { length heads.now ≤ 1024 }
    ensures found { IfSome result (IsFirst tag heads.now) }
    ensures none { IfNone result (NoneHas tag heads.now) }
{
    let mut start = 0;
    for (index, &head) in heads.iter().enumerate() {
        if head.tag == tag {
            return Some(Place { index, start, head });
        }
        start += room(head.len);
    }
    None
}

// The packet of so many bytes from `start` on.
fn packet_at(bytes: &[u8], start: usize, len: usize) -> Packet
    requires inside { start + len ≤ length bytes.now }
    requires most { len ≤ 64 }
    ensures { result ≡ take len (drop start bytes.now) }
{
    let (_, from_start) = bytes.split_at(start);
    let (packet, _) = from_start.split_at(len);
    let mut items = ArrayVec::new();
    let _ = items.try_extend_from_slice(packet);
    Packet::of(items)
}

// Writes a word behind the first `end` bytes.
#[inline(always)]
fn put_word(bytes: &mut [u8], end: usize, word: u32)
    requires { end + 4 ≤ length bytes.old }
    ensures { take (end + 4) bytes.new ≡ take end bytes.old ++ bytes_of 4 word }
{
    bytes[end..end + 4].copy_from_slice(&word_bytes(word));
}

// Takes the bytes of one packet out of the first `end`.
fn remove_bytes(bytes: &mut [u8], end: usize, start: usize, len: usize)
    requires inside { start + len ≤ end }
    requires row { end ≤ length bytes.old }
    ensures { take (end - len) bytes.new ≡ take start (take end bytes.old) ++ drop (start + len) (take end bytes.old) }
{
    close_gap(&mut bytes[..end], start, len);
}

// Takes them out of the row.
fn close_gap(bytes: &mut [u8], start: usize, len: usize)
    requires { start + len ≤ length bytes.old }
    ensures { take (length bytes.old - len) bytes.new ≡ take start bytes.old ++ drop (start + len) bytes.old }
{
    if start + len < bytes.len() {
        rotate_from(bytes, start, len);
    }
}

fn rotate_from(bytes: &mut [u8], start: usize, len: usize)
    requires { start + len ≤ length bytes.old }
    ensures { bytes.new ≡ take start bytes.old ++ (drop (start + len) bytes.old ++ take len (drop start bytes.old)) }
{
    bytes[start..].rotate_left(len);
}

impl TxFifo {
    /// An empty FIFO of depth 0.
    pub fn new() -> TxFifo
        ensures { result ≡ empty_of 0 }
    {
        TxFifo {
            heads: ArrayVec::new(),
            begun: None,
            got: 0,
            bytes: [0; 4096],
            end: 0,
            used: 0,
            depth: 0,
        }
    }

    /// Sets the depth in words, at most 1,024. The FIFO must be empty.
    pub fn set_depth(&mut self, words: u16)
        requires most { words ≤ 1024 }
        requires empty { IsEmpty self.old }
        ensures { self.new ≡ record self.old { depth = words } }
    {
        self.depth = words;
    }

    /// How many more words there is place for. A packet takes all its words from the moment that it is begun.
    pub fn space(&self) -> u16
        ensures { result ≡ space_of self.now }
    {
        self.depth - self.used
    }

    /// The tag of the packet that is begun and lacks words, if there is one.
    pub fn unfinished(&self) -> Option<u8>
        ensures { result ≡ option_map (λ begun. begun.tag) self.now.unfinished }
    {
        match self.begun {
            Some(head) => Some(head.tag),
            None => None,
        }
    }

    /// Begins a packet of 1 to 64 bytes. No packet may be unfinished, and there must be place for its words.
    pub fn begin(&mut self, tag: u8, bytes: u8)
        requires some { 1 ≤ bytes }
        requires most { bytes ≤ 64 }
        requires finished { self.old.unfinished ≡ None }
        requires place { word_count bytes ≤ space_of self.old }
        ensures { self.new ≡ begun_in self.old tag bytes }
    {
        self.begun = Some(Head { tag, len: bytes });
        self.got = 0;
        self.used += words(bytes);
    }

    /// Gives the next word to the unfinished packet, which there must be. The packet is whole once it has its bytes.
    pub fn push_word(&mut self, word: u32)
        requires { IsSome self.old.unfinished }
        ensures { self.new ≡ with_word self.old word }
    {
        if let Some(head) = self.begun {
            put_word(&mut self.bytes, self.end, word);
            self.end += 4;
            if head.len - self.got <= 4 {
                self.heads.push(head);
                self.begun = None;
                self.got = 0;
            } else {
                self.got += 4;
            }
        }
    }

    /// The first whole packet with that tag, which stays.
    #[inline(always)]
    pub fn front_packet(&self, tag: u8) -> Option<Packet>
        ensures { result ≡ first_with tag self.now.packets }
    {
        match place_of(self.heads.as_slice(), tag) {
            Some(place) => Some(packet_at(
                &self.bytes[..self.end],
                place.start,
                place.head.len as usize,
            )),
            None => None,
        }
    }

    /// Removes the first whole packet with that tag. Where there is none nothing changes.
    #[inline(always)]
    pub fn release(&mut self, tag: u8)
        ensures { self.new ≡ record self.old { packets = without_first tag self.old.packets } }
    {
        if let Some(place) = place_of(self.heads.as_slice(), tag) {
            self.heads.remove(place.index);
            let freed = room(place.head.len);
            remove_bytes(&mut self.bytes, self.end, place.start, freed);
            self.end -= freed;
            self.used -= words(place.head.len);
        }
    }

    /// Drops the unfinished packet, if there is one, and gives its words back. The whole packets stay.
    pub fn abandon(&mut self)
        ensures { self.new ≡ record self.old { unfinished = None } }
    {
        if let Some(head) = self.begun {
            self.end -= self.got as usize;
            self.begun = None;
            self.got = 0;
            self.used -= words(head.len);
        }
    }

    /// Drops all packets, the unfinished one too. The depth stays.
    pub fn flush(&mut self)
        ensures { self.new ≡ empty_of self.old.depth }
    {
        self.heads.clear();
        self.begun = None;
        self.got = 0;
        self.end = 0;
        self.used = 0;
    }
}
