ghost use Rattle.std.specs.Prelude.{◌≡◌, ℕ, ◌<◌, ◌≤◌, List, [], Option, false, length, take, IsTrue};
ghost use Rattle.usb_edge.specs.Stream.{Reads, Takes, TakesFront, Rose, IsAtEnd, last_count, counted};
ghost use Rattle.usb_edge.specs.Outcome.{IfGot, IfWrote, faults_at_write, faults_at_tell};

use arrayvec::ArrayVec;

/// What one read gave.
#[derive(Clone, Copy, Debug, PartialEq, Eq)]
pub enum Got {
    /// So many bytes, at least one.
    Bytes(usize),
    /// Nothing is left.
    End,
    /// The source failed, and its count of faults rose.
    Failed,
}

/// What one write did.
#[derive(Clone, Copy, Debug, PartialEq, Eq)]
pub enum Wrote {
    /// So many of the first bytes were taken, at least one.
    Bytes(usize),
    /// The sink failed, took nothing, and its count of faults rose.
    Failed,
}

/// Where bytes come from. A count of faults never falls and stands still at 2^64 - 1.
pub trait Source {
    /// The bytes that are left, where the source tells them.
    ghost left: { Self → Option (List ℕ) };

    /// How often the source has failed.
    ghost faults: { Self → ℕ };

    /// Puts the next bytes at the front of `buf`, which has room for at least one.
    fn read(&mut self, buf: &mut [u8]) -> Got
        requires { 0 < length buf.old }
        ensures bytes { IfGot result (λ n. (0 < n) × (n ≤ length buf.old) × Reads (left self.old) (left self.new) (take n buf.new)) }
        ensures end { result ≡ Got.End → IsAtEnd (left self.old) × (left self.new ≡ left self.old) }
        ensures failed { result ≡ Got.Failed → Rose (faults self.old) (faults self.new) × (left self.new ≡ left self.old) }
        ensures count { faults self.old ≤ faults self.new }
        ensures last { faults self.new ≤ last_count };
}

/// The most bytes that a told text has.
pub const MOST_TEXT: usize = 32768;

/// A value that has a text, of at most 32,768 bytes.
pub trait Text {
    /// That text.
    ghost text: { Self → List ℕ };

    /// Puts the text into an empty buffer.
    fn put(&self, to: &mut ArrayVec<u8, MOST_TEXT>)
        requires { to.old.items ≡ [] }
        ensures { to.new.items ≡ text self.now };
}

/// Where bytes go. A count of faults rises by one at each failing call, and at no other. It stands still at 2^64 - 1.
pub trait Sink {
    /// The bytes that it took, where the sink tells them.
    ghost taken: { Self → Option (List ℕ) };

    /// How often the sink has failed.
    ghost faults: { Self → ℕ };

    /// Takes some of the first bytes, of which there is at least one.
    fn write(&mut self, bytes: &[u8]) -> Wrote
        requires { 0 < length bytes.now }
        ensures bytes { IfWrote result (λ n. (0 < n) × (n ≤ length bytes.now) × Takes (taken self.old) (taken self.new) (take n bytes.now)) }
        ensures failed { result ≡ Wrote.Failed → Rose (faults self.old) (faults self.new) × (taken self.new ≡ taken self.old) }
        ensures exact { faults self.new ≡ faults_at_write result (faults self.old) }
        ensures count { faults self.old ≤ faults self.new }
        ensures last { faults self.new ≤ last_count };

    /// Takes bytes until it has all of them or fails once: how many it took.
    #[tactic(auto, using(crate::proofs::Streams::none_taken))]
    fn write_all(&mut self, bytes: &[u8]) -> usize
        ensures within { result ≤ length bytes.now }
        ensures takes { Takes (taken self.old) (taken self.new) (take result bytes.now) }
        ensures failed { result < length bytes.now → faults self.new ≡ counted (faults self.old) }
        ensures whole { result ≡ length bytes.now → faults self.new ≡ faults self.old }
    {
        let mut given = 0;
        while given < bytes.len() {
            match self.write(&bytes[given..]) {
                Wrote::Bytes(n) => given += n,
                Wrote::Failed => return given,
            }
        }
        given
    }

    /// Takes the text of a value: whether it took all of it. Where it failed it took the front of it. A sink that keeps
    /// nothing needn't have the text made.
    #[tactic(auto, using(crate::proofs::Streams::all_taken, crate::proofs::Streams::front_taken))]
    fn tell<X: Text>(&mut self, item: &X) -> bool
        ensures told { IsTrue result → Takes (taken self.old) (taken self.new) (X.text item.now) }
        ensures failed { result ≡ false → TakesFront (taken self.old) (taken self.new) (X.text item.now) }
        ensures exact { faults self.new ≡ faults_at_tell result (faults self.old) }
    {
        let mut text = ArrayVec::new();
        item.put(&mut text);
        let given = self.write_all(text.as_slice());
        given == text.len()
    }
}
