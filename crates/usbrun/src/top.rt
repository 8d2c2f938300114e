ghost use Rattle.std.specs.Prelude.{◌≡◌, ◌≤◌, ◌<◌, ◌+◌, ◌^◌, ◌↔◌, None, Some, true, false, map, length, IsTrue, IfOk, IfErr};
ghost use Rattle.std.specs.Option.{option_map};
ghost use Rattle.usb_descriptor.specs.Strings.{Ascend, string_descriptor};
ghost use Rattle.usb_descriptor.specs.Verdict.{verdict};
ghost use Rattle.device_text.specs.Job.{limits};
ghost use Rattle.usbrun.specs.Texts.{HandsOut};
ghost use Rattle.usbrun.specs.Finish.{Closes, Finishes, HasFailed, head_status};
ghost use Rattle.usbrun.specs.Status.{Tells};
ghost use Rattle.usbrun.specs.Written.{ways};
ghost use Rattle.usbrun.specs.Top.{IsCommand, IsCommandOf, Ends, Cause, Faults, Claims};

use crate::run::run_schedule;
use crate::session::{Session, Stop};
use crate::status::Status;
use crate::texts::Texts;
use device_run::DeviceRun;
use dwc2_regs::FS4;
use job_reader::{Draft, Lines, NoHead, read_heads};
use std::alloc::Global;
use usb_descriptor::{DescSet, EpLimits, SetFault, SetParts, read_set};
use usb_edge::{Disks, Sink, Source};

/// Runs the program: its words, where its job comes from, where its output goes, where its faults are told, where the
/// trace goes, and its disks.
///
/// At `Ok` the source's bytes spell a job. `trace` took exactly the text of its trace: for each line of the schedule the
/// accesses to the controller's registers, which are a run of the controller, and then the answer. With `--regs` `out` took
/// that text too, and else the text of the answers alone. The other statuses come exactly as their causes say, and `err`
/// takes the line of the status.
pub fn usb_top<S: Source, K: Sink, E: Sink, T: Sink, D: Disks>(
    alloc: Global,
    words: &[&str],
    src: &mut S,
    out: &mut K,
    err: &mut E,
    trace: &mut T,
    disks: &mut D,
) -> Status
    ensures claims { Claims result (map (λ w. w.now) words.now) (ways
        (S.left src.old) (S.left src.new) (S.faults src.old) (S.faults src.new)
        (K.taken out.old) (K.taken out.new) (K.faults out.old) (K.faults out.new)
        (T.taken trace.old) (T.taken trace.new) (T.faults trace.old) (T.faults trace.new)) }
    ensures errors { Tells result (E.taken err.old) (E.taken err.new) (E.faults err.old) (E.faults err.new) }
    ensures source { S.faults src.old ≤ S.faults src.new }
    ensures sink { K.faults out.old ≤ K.faults out.new }
    ensures traced { T.faults trace.old ≤ T.faults trace.new }
    ensures errors_count { E.faults err.old ≤ E.faults err.new }
    ensures disks { disks.new ≡ disks.old }
{
    let _ = disks;
    let status = run_words(alloc, words, src, out, trace);
    tell(status, err);
    status
}

/// Runs the command of the words.
fn run_words<S: Source, K: Sink, T: Sink>(
    alloc: Global,
    words: &[&str],
    src: &mut S,
    out: &mut K,
    trace: &mut T,
) -> Status
    ensures cause { Cause result (map (λ w. w.now) words.now) (ways
        (S.left src.old) (S.left src.new) (S.faults src.old) (S.faults src.new)
        (K.taken out.old) (K.taken out.new) (K.faults out.old) (K.faults out.new)
        (T.taken trace.old) (T.taken trace.new) (T.faults trace.old) (T.faults trace.new)) }
    ensures faults { Faults result (ways
        (S.left src.old) (S.left src.new) (S.faults src.old) (S.faults src.new)
        (K.taken out.old) (K.taken out.new) (K.faults out.old) (K.faults out.new)
        (T.taken trace.old) (T.taken trace.new) (T.faults trace.old) (T.faults trace.new)) }
    ensures source { S.faults src.old ≤ S.faults src.new }
{
    match command(words) {
        Some(regs) => run_device(alloc, regs, src, out, trace),
        None => Status::Usage,
    }
}

#[tactic(auto, using(crate::proofs::Handed::line_told))]
/// Tells a status by its line.
pub fn tell<E: Sink>(status: Status, err: &mut E)
    ensures tells { Tells status (E.taken err.old) (E.taken err.new) (E.faults err.old) (E.faults err.new) }
    ensures count { E.faults err.old ≤ E.faults err.new }
{
    let line = status.line();
    let _ = err.write_all(line.as_slice());
}

/// Whether the output shows register lines, where the words are a command.
fn command(words: &[&str]) -> Option<bool>
    ensures { IsCommandOf (map (λ w. w.now) words.now) result }
{
    if is_device(words) {
        return Some(false);
    }
    if is_device_regs(words) {
        return Some(true);
    }
    None
}

/// Whether the words are the one word `device`.
fn is_device(words: &[&str]) -> bool
    ensures { IsTrue result ↔ IsCommand (map (λ w. w.now) words.now) false }
{
    words.len() == 1 && words[0] == "device"
}

/// Whether the words are `device` and `--regs`.
fn is_device_regs(words: &[&str]) -> bool
    ensures { IsTrue result ↔ IsCommand (map (λ w. w.now) words.now) true }
{
    if words.len() != 2 {
        return false;
    }
    let named = words[0] == "device";
    let shown = words[1] == "--regs";
    named && shown
}

/// Runs a job.
fn run_device<S: Source, K: Sink, T: Sink>(
    alloc: Global,
    regs: bool,
    src: &mut S,
    out: &mut K,
    trace: &mut T,
) -> Status
    ensures ends { Ends result regs (ways
        (S.left src.old) (S.left src.new) (S.faults src.old) (S.faults src.new)
        (K.taken out.old) (K.taken out.new) (K.faults out.old) (K.faults out.new)
        (T.taken trace.old) (T.taken trace.new) (T.faults trace.old) (T.faults trace.new)) }
    ensures faults { Faults result (ways
        (S.left src.old) (S.left src.new) (S.faults src.old) (S.faults src.new)
        (K.taken out.old) (K.taken out.new) (K.faults out.old) (K.faults out.new)
        (T.taken trace.old) (T.taken trace.new) (T.faults trace.old) (T.faults trace.new)) }
    ensures source { S.faults src.old ≤ S.faults src.new }
{
    let mut lines = Lines::new();
    let draft = match read_heads(&mut lines, src) {
        Ok(draft) => draft,
        Err(fault) => return no_head(fault, lines.lines),
    };
    let set = match set_of(&draft) {
        Ok(set) => set,
        Err(fault) => {
            return Status::BadSet {
                rule: fault.rule,
                at: fault.at,
            };
        }
    };
    let run = match DeviceRun::open(alloc, set, None) {
        Ok(run) => run,
        Err(_) => return Status::NoMemory,
    };
    let mut session = Session {
        lines,
        texts: Texts::new(regs),
        run,
    };
    let stop = run_schedule(&mut session, src, out, trace);
    finish(stop, &mut session, out)
}

/// The set of descriptors of a head, where the controller takes it.
fn set_of(draft: &Draft) -> Result<DescSet, SetFault>
    requires few { length draft.now.strings.items ≤ 8 }
    requires ascending { Ascend 1 draft.now.strings.items }
    ensures refused { IfErr result (λ fault. verdict draft.now.device.items draft.now.config.items (option_map (λ r. r.items) draft.now.report) limits ≡ Some fault) }
    ensures accepted { IfOk result (λ _. verdict draft.now.device.items draft.now.config.items (option_map (λ r. r.items) draft.now.report) limits ≡ None) }
    ensures shows { IfOk result (λ set. set ≡ record {
      device = draft.now.device.items;
      config = draft.now.config.items;
      strings = map string_descriptor draft.now.strings.items;
      report = option_map (λ r. r.items) draft.now.report;
    }) }
{
    let parts = SetParts {
        device: draft.device.as_slice(),
        config: draft.config.as_slice(),
        strings: draft.strings.as_slice(),
        report: draft.report(),
    };
    let limits = EpLimits {
        in_top: FS4.in_eps,
        out_top: FS4.out_eps,
        report_known: true,
    };
    read_set(&parts, limits)
}

#[tactic(auto, using(crate::proofs::Handed::nothing_handed))]
/// Hands on what waits, and tells how the run ends. Where a sink failed nothing is written any more.
fn finish<K: Sink>(stop: Stop, session: &mut Session, out: &mut K) -> Status
    requires { session.old.lines.lines + 1 < 2 ^ 32 }
    ensures hands { HandsOut (K.taken out.old) (K.taken out.new) session.old.texts session.new.texts }
    ensures finishes { Finishes stop session.old.lines.lines result session.new.texts (K.faults out.old) (K.faults out.new) }
    ensures failed { HasFailed stop → out.new ≡ out.old }
{
    let lines = session.lines.lines;
    match stop {
        Stop::OutFault => Status::WriteFault,
        Stop::TraceFault => Status::WriteFault,
        Stop::End => close(Status::Ok, session, out),
        Stop::Refused(rule) => close(bad_line(lines, rule), session, out),
        Stop::Short => close(Status::Short { lines }, session, out),
        Stop::TooLong => close(Status::TooLong, session, out),
        Stop::ReadFault => close(Status::ReadFault, session, out),
    }
}

/// Hands on what waits: this status, or that of a sink that failed.
fn close<K: Sink>(status: Status, session: &mut Session, out: &mut K) -> Status
    ensures hands { HandsOut (K.taken out.old) (K.taken out.new) session.old.texts session.new.texts }
    ensures closes { Closes status result session.new.texts (K.faults out.old) (K.faults out.new) }
{
    if session.texts.flush(out) {
        status
    } else {
        Status::WriteFault
    }
}

/// The status of a head that isn't whole after so many lines.
fn no_head(fault: NoHead, lines: u32) -> Status
    requires { lines + 1 < 2 ^ 32 }
    ensures { result ≡ head_status fault lines }
{
    match fault {
        NoHead::Refused(rule) => bad_line(lines, rule),
        NoHead::Short => Status::Short { lines },
        NoHead::ReadFault => Status::ReadFault,
    }
}

/// The status where the line after so many lines is refused.
fn bad_line(lines: u32, rule: u8) -> Status
    requires { lines + 1 < 2 ^ 32 }
    ensures { result ≡ Status.BadJob (lines + 1) rule }
{
    Status::BadJob {
        line: lines + 1,
        rule,
    }
}
