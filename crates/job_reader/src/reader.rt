ghost use Rattle.std.specs.Prelude.{◌≡◌, ℕ, ◌+◌, ◌-◌, ◌<◌, ◌≤◌, List, [], length, take, drop};
ghost use Rattle.usb_edge.specs.Stream.{Reads, Rose, IsAtEnd};
ghost use Rattle.usb_edge.specs.Outcome.{IfGot};
ghost use Rattle.line_rules.specs.Rules.{most_line};
ghost use Rattle.job_reader.specs.Stream.{Fills, IsLineBreak};

use memchr::memchr;
use std::marker::Model;
use usb_edge::{Got, Source};

/// How many bytes one read may bring.
const BLOCK: usize = 32768;

/// The bytes that were read from a source and not yet taken, at most 32,768.
#[derive(Drop)]
pub struct Reader {
    buffer: [u8; 32768],
    start: usize,
    end: usize,
}

impl Model for Reader {
    ghost Value = { List ℕ };

    ghost view = { λ r. drop r.start (take r.end r.buffer) };

    ghost invariant = { λ r. (r.start ≤ r.end) × (r.end ≤ 32768) };
}

impl Reader {
    /// Nothing was read.
    pub fn new() -> Reader
        ensures { result ≡ [] }
    {
        Reader {
            buffer: [0; BLOCK],
            start: 0,
            end: 0,
        }
    }

    /// The bytes.
    pub fn ahead(&self) -> &[u8]
        ensures { result.now ≡ self.now }
    {
        &self.buffer[self.start..self.end]
    }

    /// Takes the first `n` bytes.
    pub fn skip(&mut self, n: usize)
        requires { n ≤ length self.old }
        ensures { self.new ≡ drop n self.old }
    {
        self.start += n;
    }

    /// Reads once from the source, at the end of the bytes.
    #[tactic(auto, using(crate::proofs::Windows::filled, crate::proofs::Windows::not_filled, crate::proofs::Windows::longer))]
    pub fn fill<S: Source>(&mut self, src: &mut S) -> Got
        requires { length self.old ≤ most_line }
        ensures fills { Fills (S.left src.old) (S.left src.new) self.old self.new }
        ensures grows { IfGot result (λ n. length self.old < length self.new) }
        ensures end { result ≡ Got.End → IsAtEnd (S.left src.new) × (self.new ≡ self.old) }
        ensures failed { result ≡ Got.Failed → Rose (S.faults src.old) (S.faults src.new) × (self.new ≡ self.old) }
        ensures count { S.faults src.old ≤ S.faults src.new }
    {
        let len = self.end - self.start;
        self.start = compacted(&mut self.buffer, self.start, self.end);
        self.end = self.start + len;
        let got = read_at(&mut self.buffer, self.end, src);
        if let Got::Bytes(n) = got {
            self.end += n;
        }
        got
    }
}

/// Makes room behind the bytes between `start` and `end`: where they begin from there on. They are moved to the
/// front, unless that would copy them over themselves, and then there is room.
#[tactic(auto, using(crate::proofs::Windows::window_stays, crate::proofs::Windows::window_moved))]
fn compacted(buffer: &mut [u8], start: usize, end: usize) -> usize
    requires size { length buffer.old ≡ 32768 }
    requires order { start ≤ end }
    requires within { end ≤ 32768 }
    requires few { end ≤ start + most_line }
    ensures room { result + (end - start) < 32768 }
    ensures same { drop result (take (result + (end - start)) buffer.new) ≡ drop start (take end buffer.old) }
{
    let len = end - start;
    if len <= start {
        move_front(buffer, start, len);
        0
    } else {
        start
    }
}

/// Copies `len` bytes from `start` on to the front.
fn move_front(buffer: &mut [u8], start: usize, len: usize)
    requires apart { len ≤ start }
    requires within { start + len ≤ length buffer.old }
    ensures { take len buffer.new ≡ take len (drop start buffer.old) }
{
    let (front, back) = buffer.split_at_mut(start);
    front[..len].copy_from_slice(&back[..len]);
}

/// Reads once from the source, into the buffer from `at` on.
fn read_at<S: Source>(buffer: &mut [u8], at: usize, src: &mut S) -> Got
    requires { at < length buffer.old }
    ensures front { take at buffer.new ≡ take at buffer.old }
    ensures bytes { IfGot result (λ n. (0 < n) × (at + n ≤ length buffer.old) × Reads (S.left src.old) (S.left src.new) (take n (drop at buffer.new))) }
    ensures end { result ≡ Got.End → IsAtEnd (S.left src.old) × (S.left src.new ≡ S.left src.old) }
    ensures failed { result ≡ Got.Failed → Rose (S.faults src.old) (S.faults src.new) × (S.left src.new ≡ S.left src.old) }
    ensures count { S.faults src.old ≤ S.faults src.new }
{
    src.read(&mut buffer[at..])
}

#[tactic(auto, using(crate::proofs::Breaks::line_broken))]
/// Where the first newline is, as a place in the bytes, counted from 0.
pub fn line_break(bytes: &[u8]) -> Option<usize>
    ensures { IsLineBreak bytes.now result }
{
    memchr(b'\n', bytes)
}
