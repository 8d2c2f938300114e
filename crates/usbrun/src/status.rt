ghost use Rattle.std.specs.Prelude.{◌≡◌, ◌+◌, ◌≤◌, ◌++◌, length, codes};
ghost use Rattle.std.specs.Fmt.{decimal};
ghost use Rattle.arrayvec.specs.ArrayVec.{array_vec_len};
ghost use Rattle.usbrun.specs.Status.{status_number, status_line};

use arrayvec::ArrayVec;
use itoa::Buffer;

/// How the program ends.
#[derive(Clone, Copy, PartialEq, Eq, Debug)]
pub enum Status {
    /// The job was read to its end, and all answers were written.
    Ok,
    /// The words are not those of a command.
    Usage,
    /// This line of the job, counted from 1, is the first that is refused, by this rule, 1 to 8.
    BadJob { line: u32, rule: u8 },
    /// The job's set of descriptors breaks this rule, 1 to 18, at this place of its configuration.
    BadSet { rule: u8, at: u16 },
    /// The source failed.
    ReadFault,
    /// A sink failed.
    WriteFault,
    /// There was no memory to open a run.
    NoMemory,
    /// The source ended after so many lines, before a line `end`.
    Short { lines: u32 },
    /// The job has too many bytes.
    TooLong,
}

impl Status {
    /// The status's number, with which the process ends.
    pub fn number(&self) -> u8
        ensures { result ≡ status_number self.now }
    {
        match self {
            Status::Ok => 0,
            Status::Usage => 1,
            Status::BadJob { .. } => 2,
            Status::BadSet { .. } => 3,
            Status::ReadFault => 4,
            Status::WriteFault => 5,
            Status::NoMemory => 6,
            Status::Short { .. } => 9,
            Status::TooLong => 10,
        }
    }

    /// The line that tells the status, with its newline; nothing for `Ok`.
    pub fn line(&self) -> ArrayVec<u8, 64>
        ensures { result.items ≡ status_line self.now }
    {
        match self {
            Status::Ok => ArrayVec::new(),
            Status::Usage => text(b"usbrun: usage\n"),
            Status::BadJob { line, rule } => {
                two_numbers(b"usbrun: line ", *line, b" rule ", u32::from(*rule))
            }
            Status::BadSet { rule, at } => {
                two_numbers(
                    b"usbrun: set rule ",
                    u32::from(*rule),
                    b" at ",
                    u32::from(*at),
                )
            }
            Status::ReadFault => text(b"usbrun: read fault\n"),
            Status::WriteFault => text(b"usbrun: write fault\n"),
            Status::NoMemory => text(b"usbrun: no memory\n"),
            Status::Short { lines } => {
                let mut out = text(b"usbrun: job ends at line ");
                push_number(&mut out, *lines);
                push(&mut out, b"\n");
                out
            }
            Status::TooLong => text(b"usbrun: job too long\n"),
        }
    }
}

/// Two numbers, a text before each, and a newline.
fn two_numbers(before: &[u8], first: u32, between: &[u8], second: u32) -> ArrayVec<u8, 64>
    requires before { length before.now ≤ 25 }
    requires between { length between.now ≤ 8 }
    ensures { result.items ≡ before.now ++ (decimal first ++ (between.now ++ (decimal second ++ codes "\n"))) }
{
    let mut out = text(before);
    push_number(&mut out, first);
    push(&mut out, between);
    push_number(&mut out, second);
    push(&mut out, b"\n");
    out
}

fn text(bytes: &[u8]) -> ArrayVec<u8, 64>
    requires { length bytes.now ≤ 25 }
    ensures items { result.items ≡ bytes.now }
    ensures length { array_vec_len result ≡ length bytes.now }
{
    let mut out = ArrayVec::new();
    push(&mut out, bytes);
    out
}

fn push(out: &mut ArrayVec<u8, 64>, bytes: &[u8])
    requires { array_vec_len out.old + length bytes.now ≤ 64 }
    ensures items { out.new.items ≡ out.old.items ++ bytes.now }
    ensures length { array_vec_len out.new ≡ array_vec_len out.old + length bytes.now }
{
    let _ = out.try_extend_from_slice(bytes);
}

fn push_number(out: &mut ArrayVec<u8, 64>, n: u32)
    requires { array_vec_len out.old + 10 ≤ 64 }
    ensures items { out.new.items ≡ out.old.items ++ decimal n }
    ensures length { array_vec_len out.new ≤ array_vec_len out.old + 10 }
{
    let mut digits = Buffer::new();
    push(out, digits.format(n).as_bytes());
}
