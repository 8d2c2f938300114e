// What an application asks.
ghost use Rattle.std.specs.Prelude.{◌≡◌, ◌≢◌, ◌+◌, ◌≤◌, [], length, min};
ghost use Rattle.usb_pipe.specs.Said.{Fits, SaysAlone, reply_with};
ghost use Rattle.usb_pipe.specs.Own.{phase_at, given, read as read_, call_accesses, work_accesses};
ghost use Rattle.class_pipes.specs.Pipes.{start_reply, with_started};
ghost use Rattle.cdc_device_machine.specs.Port.{read_size, line_reply, notification, with_notice, call_reply, pipes_after_call};

use crate::device::{CdcDevice, NOTICES};
use arrayvec::ArrayVec;
use class_pipes::{DATA_IN, DATA_OUT, is_at_rest, is_shut_down, said_at, start_queued};
use usb_pipe::{CdcDeviceCall, DevPipes, Phase, Reply, Said, reply_of};

/// The most bytes that a call reads.
const MOST_READ: usize = 1024;

/// What stands where bytes are read to.
const BLANK: [u8; MOST_READ] = [0; MOST_READ];

impl CdcDevice {
    /// Answers a call. The bytes of the answer are left in `bytes`, which is emptied first.
    pub fn answer<P: DevPipes>(
        &self,
        pipes: &mut P,
        call: &CdcDeviceCall,
        bytes: &mut ArrayVec<u8, 4096>,
    ) -> Said
        requires sound { P.sound pipes.old }
        requires spare { work_accesses ≤ P.spare pipes.old }
        ensures reply { reply_with result bytes.new.items ≡ call_reply self.now.port (P.pipes pipes.old) call.now }
        ensures fits { Fits result bytes.new.items }
        ensures pipes { P.pipes pipes.new ≡ pipes_after_call self.now.interface (P.pipes pipes.old) call.now }
        ensures beside { P.beside pipes.old pipes.new }
        ensures sound { P.sound pipes.new }
        ensures spends { P.spare pipes.old ≤ P.spare pipes.new + work_accesses }
    {
        bytes.clear();
        if is_shut_down(pipes) {
            return Said::Closed;
        }
        match call {
            CdcDeviceCall::Write(data) => Said::Took(pipes.write(DATA_IN, data.as_slice())),
            CdcDeviceCall::Read(most) => read(pipes, *most, bytes),
            CdcDeviceCall::Flush => flush(pipes),
            CdcDeviceCall::Avail => Said::Held(pipes.held(DATA_OUT)),
            CdcDeviceCall::Line => self.line(),
            CdcDeviceCall::Notify(bits) => notify(pipes, self.interface, *bits),
        }
    }

    /// Answers a call with a reply that has its bytes.
    pub fn call<P: DevPipes>(&self, pipes: &mut P, call: &CdcDeviceCall) -> Reply
        requires sound { P.sound pipes.old }
        requires spare { work_accesses ≤ P.spare pipes.old }
        ensures reply { result ≡ call_reply self.now.port (P.pipes pipes.old) call.now }
        ensures pipes { P.pipes pipes.new ≡ pipes_after_call self.now.interface (P.pipes pipes.old) call.now }
        ensures beside { P.beside pipes.old pipes.new }
        ensures sound { P.sound pipes.new }
        ensures spends { P.spare pipes.old ≤ P.spare pipes.new + work_accesses }
    {
        let mut bytes = ArrayVec::new();
        let said = self.answer(pipes, call, &mut bytes);
        reply_of(said, bytes)
    }

    /// The line coding (CDC PSTN 1.2, 6.3.11) and the control lines (6.3.12).
    fn line(&self) -> Said
        ensures { SaysAlone result (line_reply self.now.port) }
    {
        let coding = &self.coding;
        Said::LineIs(
            coding.rate,
            coding.stop,
            coding.parity,
            coding.bits,
            self.dtr,
            self.rts,
        )
    }
}

/// Takes the first bytes that came, at most so many and at most 1,024.
fn read<P: DevPipes>(pipes: &mut P, most: u16, bytes: &mut ArrayVec<u8, 4096>) -> Said
    requires sound { P.sound pipes.old }
    requires open { phase_at (P.pipes pipes.old) 1 ≢ Phase.Closed }
    requires empty { bytes.old.items ≡ [] }
    ensures got { result ≡ Said.Got }
    ensures bytes { bytes.new.items ≡ given (P.pipes pipes.old) (read_size most) }
    ensures pipes { P.pipes pipes.new ≡ read_ (P.pipes pipes.old) (read_size most) }
    ensures beside { P.beside pipes.old pipes.new }
    ensures sound { P.sound pipes.new }
    ensures spends { P.spare pipes.old ≤ P.spare pipes.new + work_accesses }
{
    let count = first_bytes(most, pipes.held(DATA_OUT));
    blank(bytes, count);
    pipes.read(DATA_OUT, bytes.as_mut_slice());
    Said::Got
}

/// How many bytes a call reads that asks for so many, where so many are held.
fn first_bytes(most: u16, held: u16) -> usize
    ensures { result ≡ min (read_size most) held }
{
    (most as usize).min(MOST_READ).min(held as usize)
}

/// Lets an empty list have so many bytes, at most 1,024, to be read over.
fn blank(bytes: &mut ArrayVec<u8, 4096>, count: usize)
    requires few { count ≤ 1024 }
    requires empty { bytes.old.items ≡ [] }
    ensures { length bytes.new.items ≡ count }
{
    let _ = bytes.try_extend_from_slice(&BLANK[..count]);
}

/// Starts what is queued, where anything is.
fn flush<P: DevPipes>(pipes: &mut P) -> Said
    requires sound { P.sound pipes.old }
    requires spare { call_accesses ≤ P.spare pipes.old }
    ensures reply { SaysAlone result (start_reply (phase_at (P.pipes pipes.old) 0)) }
    ensures pipes { P.pipes pipes.new ≡ with_started (P.pipes pipes.old) 0 }
    ensures beside { P.beside pipes.old pipes.new }
    ensures sound { P.sound pipes.new }
    ensures spends { P.spare pipes.old ≤ P.spare pipes.new + work_accesses }
{
    let phase = pipes.phase(DATA_IN);
    start_queued(pipes, DATA_IN);
    said_at(phase)
}

/// Starts the notification SERIAL_STATE (CDC PSTN 1.2, 6.5.4), where none is under way.
fn notify<P: DevPipes>(pipes: &mut P, interface: u8, bits: u16) -> Said
    requires sound { P.sound pipes.old }
    requires spare { call_accesses ≤ P.spare pipes.old }
    ensures reply { SaysAlone result (start_reply (phase_at (P.pipes pipes.old) 2)) }
    ensures pipes { P.pipes pipes.new ≡ with_notice interface bits (P.pipes pipes.old) }
    ensures beside { P.beside pipes.old pipes.new }
    ensures sound { P.sound pipes.new }
    ensures spends { P.spare pipes.old ≤ P.spare pipes.new + work_accesses }
{
    let phase = pipes.phase(NOTICES);
    if is_at_rest(pipes, NOTICES) {
        send(pipes, interface, bits);
    }
    said_at(phase)
}

/// Sends the notification SERIAL_STATE on a pipe that rests.
fn send<P: DevPipes>(pipes: &mut P, interface: u8, bits: u16)
    requires sound { P.sound pipes.old }
    requires rests { phase_at (P.pipes pipes.old) 2 ≡ Phase.Rest }
    requires spare { call_accesses ≤ P.spare pipes.old }
    ensures pipes { P.pipes pipes.new ≡ with_notice interface bits (P.pipes pipes.old) }
    ensures beside { P.beside pipes.old pipes.new }
    ensures sound { P.sound pipes.new }
    ensures spends { P.spare pipes.old ≤ P.spare pipes.new + call_accesses }
{
    pipes.write(NOTICES, &serial_state(interface, bits));
    pipes.start(NOTICES);
}

/// The notification SERIAL_STATE (CDC PSTN 1.2, 6.5.4) of an interface with these bits.
fn serial_state(interface: u8, bits: u16) -> [u8; 10]
    ensures { result ≡ notification interface bits }
{
    let [low, high] = bits.to_le_bytes();
    [0xa1, 0x20, 0, 0, interface, 0, 2, 0, low, high]
}
