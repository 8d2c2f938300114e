//! Replays a schedule of bus events, handler runs and task runs of a USB device, and answers each line. With `--regs` it
//! shows the accesses to the controller's registers too.
#![tactic(auto)]

ghost use Rattle.std.specs.Prelude.{◌≡◌};
ghost use Rattle.std.specs.Process.{exit_status};
ghost use Rattle.usbrun.specs.Status.{status_number};

mod program;
mod run;
mod session;
mod status;
#[cfg(test)]
mod tests;
mod texts;
mod top;
mod turn;
mod writer;

use program::{no_memory, run_process};
use status::Status;
use std::io::ErrorKind;
use std::process::ExitCode;
use std::{env, io};
use usb_edge::{FileDisks, StderrSink, StdinSource, StdoutSink};

/// The process's words, of which the first is the program's name.
fn words(rt: &HostRuntime) -> io::Result<Vec<String>> {
    let mut words = Vec::new(rt.alloc());
    for word in env::args(rt)? {
        words.push(word)?;
    }
    Ok(words)
}

/// With which the process ends.
fn exit_code(status: Status) -> ExitCode
    ensures { exit_status result ≡ status_number status }
{
    ExitCode::from(status.number())
}

fn main(rt: HostRuntime) -> ExitCode {
    let mut src = StdinSource::new(rt.stdin());
    let mut out = StdoutSink::new(rt.stdout());
    let mut err = StderrSink::new(rt.stderr());
    let mut disks = FileDisks::new(rt);
    let status = match words(&rt) {
        Ok(words) => run_process(
            rt.alloc(),
            words.as_slice(),
            &mut src,
            &mut out,
            &mut err,
            &mut disks,
        ),
        // a word that is no text is none of a command's
        Err(error) if error.kind() == ErrorKind::InvalidData => {
            run_process(rt.alloc(), &[], &mut src, &mut out, &mut err, &mut disks)
        }
        Err(_) => no_memory(&mut err),
    };
    exit_code(status)
}
