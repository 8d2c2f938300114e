ghost use Rattle.std.specs.Prelude.{◌≡◌, ℕ, ◌<◌, ◌≤◌, length, take};
ghost use Rattle.std.specs.Io.KnownBytes.{Consumes, Appends, Keeps, IsAtEnd};
ghost use Rattle.usb_edge.specs.Stream.{Rose, last_count};
ghost use Rattle.usb_edge.specs.Outcome.{IfGot, IfWrote, faults_at_write};
ghost use Rattle.usb_edge.specs.System.{got_of, wrote_of, faults_at_read};

use crate::stream::{Got, Wrote};
use std::io::{self, Read, Write};

/// One read of a system's stream: what it gave, with its fault counted where it failed.
pub fn read_from<R: Read>(from: &mut R, buf: &mut [u8], faults: &mut u64) -> Got
    requires { 0 < length buf.old }
    ensures bytes { IfGot result (λ n. (0 < n) × (n ≤ length buf.old) × Consumes (R.remaining from.old) (R.remaining from.new) (take n buf.new)) }
    ensures end { result ≡ Got.End → IsAtEnd (R.remaining from.new) }
    ensures failed { result ≡ Got.Failed → Rose faults.old faults.new × Keeps (R.remaining from.old) (R.remaining from.new) }
    ensures count { faults.old ≤ faults.new }
    ensures last { faults.new ≤ last_count }
{
    let given = from.read(buf);
    answer_to_read(given, faults)
}

/// One write to a system's stream and its flush: what they gave, with the fault counted where one failed.
#[tactic(auto, using(crate::proofs::Known::appends_kept))]
pub fn write_to<W: Write>(to: &mut W, bytes: &[u8], faults: &mut u64) -> Wrote
    ensures bytes { IfWrote result (λ n. (0 < n) × (n ≤ length bytes.now) × Appends (W.contents to.old) (W.contents to.new) (take n bytes.now)) }
    ensures failed { result ≡ Wrote.Failed → Rose faults.old faults.new }
    ensures exact { faults.new ≡ faults_at_write result faults.old }
    ensures count { faults.old ≤ faults.new }
    ensures last { faults.new ≤ last_count }
{
    let written = to.write(bytes);
    let flushed = to.flush();
    answer_to_write(written, flushed, faults)
}

/// What a source answers to a read that gave this.
fn answer_to_read(given: io::Result<usize>, faults: &mut u64) -> Got
    ensures answer { result ≡ got_of given }
    ensures faults { faults.new ≡ faults_at_read (got_of given) faults.old }
    ensures count { faults.old ≤ faults.new }
    ensures last { faults.new ≤ last_count }
{
    let before = *faults;
    match given {
        Ok(0) => Got::End,
        Ok(n) => Got::Bytes(n),
        Err(_) => {
            *faults = before.saturating_add(1);
            Got::Failed
        }
    }
}

/// What a sink answers to a write and a flush that gave this.
fn answer_to_write(written: io::Result<usize>, flushed: io::Result<()>, faults: &mut u64) -> Wrote
    ensures answer { result ≡ wrote_of written flushed }
    ensures faults { faults.new ≡ faults_at_write (wrote_of written flushed) faults.old }
    ensures count { faults.old ≤ faults.new }
    ensures last { faults.new ≤ last_count }
{
    let before = *faults;
    match (written, flushed) {
        (Ok(n), Ok(())) if n > 0 => Wrote::Bytes(n),
        _ => {
            *faults = before.saturating_add(1);
            Wrote::Failed
        }
    }
}

#[cfg(test)]
mod tests {
    use super::*;
    use std::io::ErrorKind;

    /// A stream that gives or takes this, or fails, and a flush that does or fails.
    #[derive(Drop)]
    struct Fake {
        given: Option<usize>,
        flushes: bool,
    }

    impl Read for Fake {
        fn read(&mut self, buf: &mut [u8]) -> io::Result<usize> {
            match self.given {
                Some(n) => Ok(n.min(buf.len())),
                None => Err(ErrorKind::Other.into()),
            }
        }
    }

    impl Write for Fake {
        fn write(&mut self, buf: &[u8]) -> io::Result<usize> {
            match self.given {
                Some(n) => Ok(n.min(buf.len())),
                None => Err(ErrorKind::Other.into()),
            }
        }

        fn flush(&mut self) -> io::Result<()> {
            if self.flushes {
                Ok(())
            } else {
                Err(ErrorKind::Other.into())
            }
        }
    }

    /// What a read gives is told, its end is no failure, and an error is no end.
    #[test]
    fn reads(rt: HostRuntime) {
        let cases = [
            (Some(3), Got::Bytes(3), 0),
            (Some(1), Got::Bytes(1), 0),
            (Some(0), Got::End, 0),
            (None, Got::Failed, 1),
        ];
        for (given, want, want_faults) in cases {
            let mut from = Fake {
                given,
                flushes: true,
            };
            let mut faults = 0;
            assert_eq!(rt; read_from(&mut from, &mut [0; 4], &mut faults), want);
            assert_eq!(rt; faults, want_faults);
        }
    }

    /// A short write is told as short; an error, a write of nothing and a failing flush are failures.
    #[test]
    fn writes(rt: HostRuntime) {
        let cases = [
            (Some(4), true, Wrote::Bytes(4), 0),
            (Some(2), true, Wrote::Bytes(2), 0),
            (Some(0), true, Wrote::Failed, 1),
            (None, true, Wrote::Failed, 1),
            (Some(4), false, Wrote::Failed, 1),
            (None, false, Wrote::Failed, 1),
        ];
        for (given, flushes, want, want_faults) in cases {
            let mut to = Fake { given, flushes };
            let mut faults = 0;
            assert_eq!(rt; write_to(&mut to, &[1, 2, 3, 4], &mut faults), want);
            assert_eq!(rt; faults, want_faults);
        }
    }
}
