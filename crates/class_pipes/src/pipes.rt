ghost use Rattle.std.specs.Prelude.{◌≡◌, ◌+◌, ◌≤◌};
ghost use Rattle.usb_pipe.specs.Said.{SaysAlone};
ghost use Rattle.usb_pipe.specs.Own.{IsPipe, Sends, phase_at, call_accesses};
ghost use Rattle.class_pipes.specs.Pipes.{is_rest, is_closed, is_shut, with_armed, with_started, start_reply};

use usb_pipe::{DevPipes, Phase, Said};

/// The pipe that sends data.
pub const DATA_IN: u8 = 0;

/// The pipe that receives data.
pub const DATA_OUT: u8 = 1;

/// The fewest free bytes with which the pipe that receives is armed: a packet's (USB 2.0, 5.8.3).
const PACKET_ROOM: u16 = 64;

/// Whether nothing is under way on a pipe.
pub fn is_at_rest<P: DevPipes>(pipes: &P, pipe: u8) -> bool
    requires sound { P.sound pipes.now }
    requires pipe { IsPipe pipe }
    ensures { result ≡ is_rest (phase_at (P.pipes pipes.now) pipe) }
{
    matches!(pipes.phase(pipe), Phase::Rest)
}

/// Whether no session has a pipe open.
pub fn is_pipe_closed<P: DevPipes>(pipes: &P, pipe: u8) -> bool
    requires sound { P.sound pipes.now }
    requires pipe { IsPipe pipe }
    ensures { result ≡ is_closed (phase_at (P.pipes pipes.now) pipe) }
{
    matches!(pipes.phase(pipe), Phase::Closed)
}

/// Whether no session stands: then the data pipes are closed.
pub fn is_shut_down<P: DevPipes>(pipes: &P) -> bool
    requires { P.sound pipes.now }
    ensures { result ≡ is_shut (P.pipes pipes.now) }
{
    is_pipe_closed(pipes, DATA_IN) || is_pipe_closed(pipes, DATA_OUT)
}

/// The pipe that receives takes another packet where it rests and has room for one.
pub fn arm_with_room<P: DevPipes>(pipes: &mut P)
    requires sound { P.sound pipes.old }
    requires spare { call_accesses ≤ P.spare pipes.old }
    ensures pipes { P.pipes pipes.new ≡ with_armed (P.pipes pipes.old) }
    ensures beside { P.beside pipes.old pipes.new }
    ensures sound { P.sound pipes.new }
    ensures spends { P.spare pipes.old ≤ P.spare pipes.new + call_accesses }
{
    if is_at_rest(pipes, DATA_OUT) && pipes.room(DATA_OUT) >= PACKET_ROOM {
        pipes.arm(DATA_OUT);
    }
}

/// Starts what is queued on a pipe that sends, where it rests and anything is.
pub fn start_queued<P: DevPipes>(pipes: &mut P, pipe: u8)
    requires sound { P.sound pipes.old }
    requires pipe { Sends pipe }
    requires spare { call_accesses ≤ P.spare pipes.old }
    ensures pipes { P.pipes pipes.new ≡ with_started (P.pipes pipes.old) pipe }
    ensures beside { P.beside pipes.old pipes.new }
    ensures sound { P.sound pipes.new }
    ensures spends { P.spare pipes.old ≤ P.spare pipes.new + call_accesses }
{
    if is_at_rest(pipes, pipe) && pipes.held(pipe) != 0 {
        pipes.start(pipe);
    }
}

/// What a call that starts a transfer is answered, by what its pipe does.
pub fn said_at(phase: Phase) -> Said
    ensures { SaysAlone result (start_reply phase) }
{
    match phase {
        Phase::Rest => Said::Done,
        Phase::Halted => Said::Halted,
        Phase::Running | Phase::Posted => Said::Busy,
        Phase::Closed | Phase::Dead | Phase::Clearing => Said::Closed,
    }
}
