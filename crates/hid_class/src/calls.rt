// What an application asks.
ghost use Rattle.std.specs.Prelude.{◌≡◌, ◌≢◌, ◌+◌, ◌≤◌, []};
ghost use Rattle.usb_pipe.specs.Said.{Fits, SaysAlone, reply_with};
ghost use Rattle.usb_pipe.specs.Own.{phase_at, call_accesses, work_accesses, started, written};
ghost use Rattle.hid_device_machine.specs.Device.{call_reply, after_call, pipes_after_call, report_reply, with_report, after_report, take_reply, with_taken, set_reply, holds_report};

use crate::device::HidDevice;
use crate::reports::type_number;
use arrayvec::ArrayVec;
use class_pipes::{DATA_IN, DATA_OUT, is_at_rest, is_pipe_closed, said_at};
use usb_pipe::{DevPipes, HidDeviceCall, Phase, Reply, Said, reply_of};

/// The most bytes of a report that a call takes.
const MOST_TAKEN: usize = 64;

impl HidDevice {
    /// Answers a call. The bytes of the answer are left in `bytes`, which is emptied first.
    pub fn answer<P: DevPipes>(
        &mut self,
        pipes: &mut P,
        call: &HidDeviceCall,
        bytes: &mut ArrayVec<u8, 4096>,
    ) -> Said
        requires sound { P.sound pipes.old }
        requires spare { work_accesses ≤ P.spare pipes.old }
        ensures reply { reply_with result bytes.new.items ≡ call_reply self.old (P.pipes pipes.old) call.now }
        ensures fits { Fits result bytes.new.items }
        ensures pipes { P.pipes pipes.new ≡ pipes_after_call self.old (P.pipes pipes.old) call.now }
        ensures hid { self.new ≡ after_call self.old (P.pipes pipes.old) call.now }
        ensures beside { P.beside pipes.old pipes.new }
        ensures sound { P.sound pipes.new }
        ensures spends { P.spare pipes.old ≤ P.spare pipes.new + work_accesses }
    {
        bytes.clear();
        if is_pipe_closed(pipes, DATA_IN) {
            return Said::Closed;
        }
        match call {
            HidDeviceCall::Report(report) => self.report(pipes, report),
            HidDeviceCall::Take => take(pipes, bytes),
            HidDeviceCall::Set => self.set_told(bytes),
            HidDeviceCall::Idle => Said::Idle(self.idle, self.protocol),
        }
    }

    /// Answers a call with a reply that has its bytes.
    pub fn call<P: DevPipes>(&mut self, pipes: &mut P, call: &HidDeviceCall) -> Reply
        requires sound { P.sound pipes.old }
        requires spare { work_accesses ≤ P.spare pipes.old }
        ensures reply { result ≡ call_reply self.old (P.pipes pipes.old) call.now }
        ensures pipes { P.pipes pipes.new ≡ pipes_after_call self.old (P.pipes pipes.old) call.now }
        ensures hid { self.new ≡ after_call self.old (P.pipes pipes.old) call.now }
        ensures beside { P.beside pipes.old pipes.new }
        ensures sound { P.sound pipes.new }
        ensures spends { P.spare pipes.old ≤ P.spare pipes.new + work_accesses }
    {
        let mut bytes = ArrayVec::new();
        let said = self.answer(pipes, call, &mut bytes);
        reply_of(said, bytes)
    }

    /// Starts an input report of exactly its length, where none is under way.
    fn report<P: DevPipes>(&mut self, pipes: &mut P, report: &ArrayVec<u8, 64>) -> Said
        requires sound { P.sound pipes.old }
        requires spare { call_accesses ≤ P.spare pipes.old }
        ensures reply { SaysAlone result (report_reply self.old (P.pipes pipes.old) report.now.items) }
        ensures pipes { P.pipes pipes.new ≡ with_report self.old (P.pipes pipes.old) report.now.items }
        ensures hid { self.new ≡ after_report self.old (P.pipes pipes.old) report.now.items }
        ensures beside { P.beside pipes.old pipes.new }
        ensures sound { P.sound pipes.new }
        ensures spends { P.spare pipes.old ≤ P.spare pipes.new + work_accesses }
    {
        if !self.is_input_report(report.as_slice()) {
            return Said::BadLength;
        }
        let phase = pipes.phase(DATA_IN);
        if is_at_rest(pipes, DATA_IN) {
            self.keep_input(report);
            send(pipes, report);
        }
        said_at(phase)
    }

    /// The last SET_REPORT (HID 1.11, 7.2.2).
    fn set_told(&self, bytes: &mut ArrayVec<u8, 4096>) -> Said
        requires empty { bytes.old.items ≡ [] }
        ensures reply { reply_with result bytes.new.items ≡ set_reply self.now.last_set }
        ensures fits { Fits result bytes.new.items }
    {
        match &self.last_set {
            Some(report) => {
                let _ = bytes.try_extend_from_slice(report.bytes.as_slice());
                Said::SetReport(type_number(report.report_type))
            }
            None => Said::Nothing,
        }
    }
}

/// Sends a report on a pipe that rests.
fn send<P: DevPipes>(pipes: &mut P, report: &ArrayVec<u8, 64>)
    requires sound { P.sound pipes.old }
    requires rests { phase_at (P.pipes pipes.old) 0 ≡ Phase.Rest }
    requires spare { call_accesses ≤ P.spare pipes.old }
    ensures pipes { P.pipes pipes.new ≡ started (written (P.pipes pipes.old) 0 report.now.items) 0 }
    ensures beside { P.beside pipes.old pipes.new }
    ensures sound { P.sound pipes.new }
    ensures spends { P.spare pipes.old ≤ P.spare pipes.new + call_accesses }
{
    pipes.write(DATA_IN, report.as_slice());
    pipes.start(DATA_IN);
}

/// Takes the report that is held, if one is.
fn take<P: DevPipes>(pipes: &mut P, bytes: &mut ArrayVec<u8, 4096>) -> Said
    requires sound { P.sound pipes.old }
    requires empty { bytes.old.items ≡ [] }
    ensures reply { reply_with result bytes.new.items ≡ take_reply (P.pipes pipes.old) }
    ensures fits { Fits result bytes.new.items }
    ensures pipes { P.pipes pipes.new ≡ with_taken (P.pipes pipes.old) }
    ensures beside { P.beside pipes.old pipes.new }
    ensures sound { P.sound pipes.new }
    ensures spends { P.spare pipes.old ≤ P.spare pipes.new + work_accesses }
{
    if !is_report_held(pipes) {
        return Said::Nothing;
    }
    let mut cells = [0; MOST_TAKEN];
    let count = pipes.read(DATA_OUT, &mut cells);
    let _ = bytes.try_extend_from_slice(&cells[..count as usize]);
    Said::Report
}

/// Whether a report is held.
fn is_report_held<P: DevPipes>(pipes: &P) -> bool
    requires { P.sound pipes.now }
    ensures { result ≡ holds_report (P.pipes pipes.now) }
{
    !is_pipe_closed(pipes, DATA_OUT) && pipes.held(DATA_OUT) != 0
}
