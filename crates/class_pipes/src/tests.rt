//! Pipes in memory, with what is to come of them worked by hand from USB 2.0, 5.8.3.
use crate::{arm_with_room, is_at_rest, is_shut_down, said_at, start_queued};
use usb_pipe::{DevPipes, MemoryPipes, Phase, Said};

/// The pipes of a session.
fn session() -> MemoryPipes {
    let mut pipes = MemoryPipes::new();
    pipes.open();
    pipes
}

// Of 256 bytes 63 are free beside 193, and 64 beside 192.
#[test]
fn arms_with_room_for_a_packet(rt: HostRuntime) {
    for (held, phase) in [(193, Phase::Rest), (192, Phase::Running)] {
        let mut pipes = session();
        pipes.receive(&[9; 193][..held]);
        arm_with_room(&mut pipes);
        assert!(rt; pipes.phase(1) == phase);
    }
}

#[test]
fn starts_what_is_queued(rt: HostRuntime) {
    let mut pipes = session();
    start_queued(&mut pipes, 0);
    assert!(rt; is_at_rest(&pipes, 0));
    if pipes.phase(0) != Phase::Closed {
        let _ = pipes.write(0, &[1, 2]);
    }
    start_queued(&mut pipes, 0);
    assert!(rt; !is_at_rest(&pipes, 0));
    assert_eq!(rt; pipes.end(0), 2);
}

#[test]
fn tells_whether_a_session_stands(rt: HostRuntime) {
    assert!(rt; is_shut_down(&MemoryPipes::new()));
    assert!(rt; !is_shut_down(&session()));
    assert!(rt; matches!(said_at(Phase::Posted), Said::Busy));
    assert!(rt; matches!(said_at(Phase::Halted), Said::Halted));
}
