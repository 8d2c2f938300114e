ghost use Rattle.std.specs.Prelude.{◌≡◌, ◌≤◌, length};
ghost use Rattle.usb_pipe.specs.Said.{Fits, reply_with};

use crate::reply::{HostWord, Reply};
use arrayvec::ArrayVec;

/// What a call is answered, without its bytes: those lie in a buffer of the caller's. A [`crate::Reply`] has room for 4,096 bytes,
/// and is moved with it.
#[derive(Clone, Copy)]
pub enum Said {
    Done,
    Took(u16),
    Got,
    Held(u16),
    Events,
    Report,
    SetReport(u8),
    Idle(u8, u8),
    LineIs(u32, u8, u8, u8, u8, u8),
    Serial(u16),
    Started,
    Running,
    Passed,
    ControlPassed,
    Failed(u32),
    Phase,
    Stalled,
    NoReply,
    Halted,
    Dead,
    Busy,
    BadLength,
    NoPipe,
    Nothing,
    Closed,
    Core(u8, u8),
    Host(HostWord),
}

/// The reply that is said, with its bytes.
pub fn reply_of(said: Said, bytes: ArrayVec<u8, 4096>) -> Reply
    requires { Fits said bytes.items }
    ensures { result ≡ reply_with said bytes.items }
{
    match said {
        Said::Done => Reply::Done,
        Said::Took(n) => Reply::Took(n),
        Said::Got => Reply::Got(bytes),
        Said::Held(n) => Reply::Held(n),
        Said::Events => Reply::Events(bytes),
        Said::Report => Reply::Report(report_of(&bytes)),
        Said::SetReport(kind) => Reply::SetReport(kind, report_of(&bytes)),
        Said::Idle(rate, protocol) => Reply::Idle(rate, protocol),
        Said::LineIs(rate, stop, parity, bits, dtr, rts) => {
            Reply::LineIs(rate, stop, parity, bits, dtr, rts)
        }
        Said::Serial(bits) => Reply::Serial(bits),
        Said::Started => Reply::Started,
        Said::Running => Reply::Running,
        Said::Passed => Reply::Passed(bytes),
        Said::ControlPassed => Reply::ControlPassed,
        Said::Failed(residue) => Reply::Failed(residue),
        Said::Phase => Reply::Phase,
        Said::Stalled => Reply::Stalled,
        Said::NoReply => Reply::NoReply,
        Said::Halted => Reply::Halted,
        Said::Dead => Reply::Dead,
        Said::Busy => Reply::Busy,
        Said::BadLength => Reply::BadLength,
        Said::NoPipe => Reply::NoPipe,
        Said::Nothing => Reply::Nothing,
        Said::Closed => Reply::Closed,
        Said::Core(addr, session) => Reply::Core(addr, session),
        Said::Host(word) => Reply::Host(word),
    }
}

/// The bytes of a report.
fn report_of(bytes: &ArrayVec<u8, 4096>) -> ArrayVec<u8, 64>
    requires { length bytes.now.items ≤ 64 }
    ensures { result.items ≡ bytes.now.items }
{
    let mut report = ArrayVec::new();
    let _ = report.try_extend_from_slice(bytes.as_slice());
    report
}
