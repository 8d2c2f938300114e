ghost use Rattle.std.specs.Prelude.{◌≡◌, ℕ, ◌+◌, ◌-◌, ◌^◌, ◌<◌, ◌≤◌, ◌↔◌, List, [], ◌++◌, Some, IfOk, length, take, drop, ◌⊎◌, vec_len, vec_capacity, Contains};
ghost use Rattle.usb_edge.specs.Stream.{Reads, Takes, Rose, IsAtEnd, last_count, counted};
ghost use Rattle.usb_edge.specs.Outcome.{IfGot, IfWrote, faults_at_write};
ghost use Rattle.usb_edge.specs.Memory.{Tape, Page};

use crate::stream::{Got, Sink, Source, Wrote};
use std::alloc::{AllocError, Global};
use std::marker::Model;

/// A source whose bytes are in memory.
#[derive(Drop)]
pub struct MemSource {
    bytes: Vec<u8>,
    at: usize,
    piece: usize,
    calls: u64,
    fails: Vec<u64>,
    faults: u64,
}

impl Model for MemSource {
    ghost Value = { Tape };

    ghost view = { λ s. record { left = drop s.at s.bytes.items; piece = s.piece; calls = s.calls; fails = s.fails.items; faults = s.faults } };

    ghost invariant = { λ s. (s.at ≤ vec_len s.bytes) × (0 < s.piece) };
}

impl MemSource {
    /// Gives these bytes, at most `piece` of them a call, which is at least 1. The calls whose numbers
    /// are in `fails`, counted from 1, fail.
    pub fn new(bytes: Vec<u8>, piece: usize, fails: Vec<u64>) -> MemSource
        requires { 0 < piece }
        ensures { result ≡ record { left = bytes.items; piece = piece; calls = 0; fails = fails.items; faults = 0 } }
    {
        MemSource {
            bytes,
            at: 0,
            piece,
            calls: 0,
            fails,
            faults: 0,
        }
    }
}

/// Puts the first `n` bytes of `from` at the front of `buf`.
fn fill(buf: &mut [u8], from: &[u8], n: usize)
    requires from { n ≤ length from.now }
    requires room { n ≤ length buf.old }
    ensures { take n buf.new ≡ take n from.now }
{
    buf[..n].copy_from_slice(&from[..n]);
}

impl Source for MemSource {
    ghost left = { λ s. Some s.left };

    ghost faults = { λ s. s.faults };

    fn read(&mut self, buf: &mut [u8]) -> Got
        requires { 0 < length buf.old }
        ensures bytes { IfGot result (λ n. (0 < n) × (n ≤ length buf.old) × (self.old.left ≡ take n buf.new ++ self.new.left)) }
        ensures end { result ≡ Got.End → (self.old.left ≡ []) × (self.new.left ≡ self.old.left) }
        ensures failed { (result ≡ Got.Failed) ↔ Contains self.old.fails (counted self.old.calls) }
        ensures unchanged { result ≡ Got.Failed → self.new.left ≡ self.old.left }
        ensures piece { IfGot result (λ n. n ≤ self.old.piece) }
        ensures same { self.new.piece ≡ self.old.piece }
        ensures calls { self.new.calls ≡ counted self.old.calls }
        ensures fails { self.new.fails ≡ self.old.fails }
        ensures rose { result ≡ Got.Failed → self.new.faults ≡ counted self.old.faults }
        ensures count { self.old.faults ≤ self.new.faults }
        ensures last { self.new.faults ≤ last_count }
    {
        self.calls = self.calls.saturating_add(1);
        if self.fails.contains(&self.calls) {
            self.faults = self.faults.saturating_add(1);
            return Got::Failed;
        }
        let left = &self.bytes[self.at..];
        let n = left.len().min(buf.len()).min(self.piece);
        if n == 0 {
            return Got::End;
        }
        fill(buf, left, n);
        self.at += n;
        Got::Bytes(n)
    }
}

/// A sink that keeps what it takes in memory.
#[derive(Drop)]
pub struct MemSink {
    taken: Vec<u8>,
    room: usize,
    calls: u64,
    fails: Vec<u64>,
    faults: u64,
}

impl Model for MemSink {
    ghost Value = { Page };

    ghost view = { λ s. record { taken = s.taken.items; room = s.room; calls = s.calls; fails = s.fails.items; faults = s.faults } };

    ghost invariant = { λ s. (vec_len s.taken ≤ s.room) × (s.room ≤ vec_capacity s.taken) };
}

impl MemSink {
    /// Takes up to `room` bytes. The calls whose numbers are in `fails`, counted from 1, fail, and so does
    /// each write that would pass the room.
    pub fn new(alloc: Global, room: usize, fails: Vec<u64>) -> Result<MemSink, AllocError>
        ensures { IfOk result (λ sink. sink ≡ record { taken = []; room = room; calls = 0; fails = fails.items; faults = 0 }) }
    {
        let taken = Vec::with_capacity(alloc, room)?;
        Ok(MemSink {
            taken,
            room,
            calls: 0,
            fails,
            faults: 0,
        })
    }

    /// What it took.
    pub fn bytes(&self) -> &[u8]
        ensures { result.now ≡ self.now.taken }
    {
        self.taken.as_slice()
    }
}

impl Sink for MemSink {
    ghost taken = { λ s. Some s.taken };

    ghost faults = { λ s. s.faults };

    fn write(&mut self, bytes: &[u8]) -> Wrote
        requires { 0 < length bytes.now }
        ensures bytes { IfWrote result (λ n. (n ≡ length bytes.now) × (self.new.taken ≡ self.old.taken ++ bytes.now)) }
        ensures failed { (result ≡ Wrote.Failed) ↔ (Contains self.old.fails (counted self.old.calls) ⊎ (self.old.room < length self.old.taken + length bytes.now)) }
        ensures unchanged { result ≡ Wrote.Failed → self.new.taken ≡ self.old.taken }
        ensures calls { self.new.calls ≡ counted self.old.calls }
        ensures stays { (self.new.fails ≡ self.old.fails) × (self.new.room ≡ self.old.room) }
        ensures exact { self.new.faults ≡ faults_at_write result self.old.faults }
        ensures count { self.old.faults ≤ self.new.faults }
        ensures last { self.new.faults ≤ last_count }
    {
        self.calls = self.calls.saturating_add(1);
        if self.fails.contains(&self.calls) || self.room - self.taken.len() < bytes.len() {
            self.faults = self.faults.saturating_add(1);
            return Wrote::Failed;
        }
        match self.taken.extend_from_slice(bytes) {
            Ok(()) => Wrote::Bytes(bytes.len()),
            Err(_) => Wrote::Failed,
        }
    }
}
