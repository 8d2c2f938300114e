ghost use Rattle.std.specs.Prelude.{◌≡◌, ◌<◌, None, IsTrue, length};

use crate::stream::{Got, Sink, Source, Text, Wrote};
use crate::system::{read_from, write_to};
use std::io::{Stderr, Stdin, Stdout};

/// Standard input. It tells no content.
#[derive(Drop)]
pub struct StdinSource {
    stdin: Stdin,
    faults: u64,
}

impl StdinSource {
    /// The standard input that the runtime hands to `main`.
    pub fn new(stdin: Stdin) -> StdinSource
        ensures { result.faults ≡ 0 }
    {
        StdinSource { stdin, faults: 0 }
    }
}

impl Source for StdinSource {
    ghost left = { λ _. None };

    ghost faults = { λ s. s.faults };

    fn read(&mut self, buf: &mut [u8]) -> Got {
        read_from(&mut self.stdin, buf, &mut self.faults)
    }
}

/// Standard output, flushed at each write. It tells no content.
#[derive(Drop)]
pub struct StdoutSink {
    stdout: Stdout,
    faults: u64,
}

impl StdoutSink {
    /// The standard output that the runtime hands to `main`.
    pub fn new(stdout: Stdout) -> StdoutSink
        ensures { result.faults ≡ 0 }
    {
        StdoutSink { stdout, faults: 0 }
    }
}

impl Sink for StdoutSink {
    ghost taken = { λ _. None };

    ghost faults = { λ s. s.faults };

    fn write(&mut self, bytes: &[u8]) -> Wrote {
        write_to(&mut self.stdout, bytes, &mut self.faults)
    }
}

/// Standard error, flushed at each write. It tells no content.
#[derive(Drop)]
pub struct StderrSink {
    stderr: Stderr,
    faults: u64,
}

impl StderrSink {
    /// The standard error that the runtime hands to `main`.
    pub fn new(stderr: Stderr) -> StderrSink
        ensures { result.faults ≡ 0 }
    {
        StderrSink { stderr, faults: 0 }
    }
}

impl Sink for StderrSink {
    ghost taken = { λ _. None };

    ghost faults = { λ s. s.faults };

    fn write(&mut self, bytes: &[u8]) -> Wrote {
        write_to(&mut self.stderr, bytes, &mut self.faults)
    }
}

/// A sink that takes all bytes and drops them. It tells no content and never fails.
#[derive(Clone, Copy, Debug, Default)]
pub struct NoSink {}

impl NoSink {
    /// A place for what nobody reads.
    pub fn new() -> NoSink {
        NoSink {}
    }
}

impl Sink for NoSink {
    ghost taken = { λ _. None };

    ghost faults = { λ _. 0 };

    fn write(&mut self, bytes: &[u8]) -> Wrote
        requires { 0 < length bytes.now }
        ensures { result ≡ Wrote.Bytes (length bytes.now) }
    {
        Wrote::Bytes(bytes.len())
    }

    fn write_all(&mut self, bytes: &[u8]) -> usize
        ensures { result ≡ length bytes.now }
    {
        bytes.len()
    }

    fn tell<X: Text>(&mut self, item: &X) -> bool
        ensures { IsTrue result }
    {
        let _ = item;
        true
    }
}
