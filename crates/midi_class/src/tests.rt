//! Sequences that are worked by hand from USB MIDI 1.0, section 4, on pipes in memory.
use crate::MidiDevice;
use arrayvec::ArrayVec;
use usb_packet::Setup;
use usb_pipe::{Decision, DevPipes, MemoryPipes, MidiCall, Phase, Reply};

/// A port in a session, with its pipes.
fn opened() -> (MidiDevice, MemoryPipes) {
    let mut port = MidiDevice::new();
    let mut pipes = MemoryPipes::new();
    port.opened();
    pipes.open();
    (port, pipes)
}

/// How many of these bytes are taken.
fn send(port: &mut MidiDevice, pipes: &mut MemoryPipes, bytes: &[u8]) -> u16 {
    let mut data = ArrayVec::new();
    let _ = data.try_extend_from_slice(bytes);
    match port.call(pipes, &MidiCall::Send(data)) {
        Reply::Took(count) => count,
        _ => u16::MAX,
    }
}

/// Starts what is queued: whether these bytes are on their way to the host then.
fn sends(port: &mut MidiDevice, pipes: &mut MemoryPipes, bytes: &[u8]) -> bool {
    port.work(pipes);
    match pipes.running(0) {
        Some(running) => running == bytes,
        None => false,
    }
}

/// Queues so many bytes in front of all that is sent.
fn fill(pipes: &mut MemoryPipes, count: usize) {
    if pipes.phase(0) != Phase::Closed {
        let _ = pipes.write(0, &[0; 256][..count.min(256)]);
    }
}

// SysEx of no byte, of one and of two, one of three with a real-time byte in it, and two notes under one status.
#[test]
fn a_stream_is_sent_as_events(rt: HostRuntime) {
    let (mut port, mut pipes) = opened();
    let stream =
        b"\xf0\xf7\xf0\x01\xf7\xf0\x01\x02\xf7\xf0\x01\xf8\x02\x03\xf7\x90\x40\x7f\x41\x7f";
    let events =
        b"\x06\xf0\xf7\x00\x07\xf0\x01\xf7\x04\xf0\x01\x02\x05\xf7\x00\x00\x0f\xf8\x00\x00\x04\xf0\x01\x02\x06\x03\xf7\x00\x09\x90\x40\x7f\x09\x90\x41\x7f";
    assert_eq!(rt; send(&mut port, &mut pipes, stream.as_slice()), 20);
    assert!(rt; sends(&mut port, &mut pipes, events.as_slice()));
    assert_eq!(rt; pipes.end(0), 36);
    port.ended(0, 36);
    port.work(&mut pipes);
    assert!(rt; pipes.phase(0) == Phase::Rest);
}

// A status runs on from call to call, and ends with its session.
#[test]
fn a_status_runs_on_in_its_session(rt: HostRuntime) {
    let (mut port, mut pipes) = opened();
    assert_eq!(rt; send(&mut port, &mut pipes, b"\x90\x40".as_slice()), 2);
    assert!(rt; !sends(&mut port, &mut pipes, b"".as_slice()));
    assert_eq!(rt; send(&mut port, &mut pipes, b"\x7f\x41\x7f".as_slice()), 3);
    assert!(rt;
        sends(
            &mut port,
            &mut pipes,
            b"\x09\x90\x40\x7f\x09\x90\x41\x7f".as_slice()
        )
    );
    port.closed();
    port.opened();
    pipes.open();
    assert_eq!(rt; send(&mut port, &mut pipes, b"\x42\x7f".as_slice()), 2);
    assert!(rt; !sends(&mut port, &mut pipes, b"".as_slice()));
    assert_eq!(rt; pipes.held(0), 0);
}

// Of 256 bytes none, 3, 4, 7 and 8 are free. A note has three bytes, and the next one two.
#[test]
fn bytes_are_taken_with_room(rt: HostRuntime) {
    let notes = b"\x90\x40\x7f\x41\x7f\x42";
    for (queued, taken, held) in [
        (256, 0, 256),
        (253, 0, 253),
        (252, 3, 256),
        (249, 3, 253),
        (248, 5, 256),
    ] {
        let (mut port, mut pipes) = opened();
        fill(&mut pipes, queued);
        assert_eq!(rt; send(&mut port, &mut pipes, notes.as_slice()), taken);
        assert_eq!(rt; pipes.held(0), held);
    }
}

// A note, a program change on cable 3, and the first byte of an event.
#[test]
fn whole_events_are_told(rt: HostRuntime) {
    let (mut port, mut pipes) = opened();
    pipes.receive(b"\x09\x90\x40\x7f\x3c\xc1\x05\x00\x09".as_slice());
    match port.call(&mut pipes, &MidiCall::Recv(1)) {
        Reply::Events(bytes) => assert_eq!(rt; bytes.as_slice(), &b"\x09\x90\x40\x7f"[..]),
        _ => assert!(rt; false),
    }
    match port.call(&mut pipes, &MidiCall::Bytes(9)) {
        Reply::Got(bytes) => assert_eq!(rt; bytes.as_slice(), &b"\xc1\x05"[..]),
        _ => assert!(rt; false),
    }
    match port.call(&mut pipes, &MidiCall::Recv(9)) {
        Reply::Events(bytes) => assert!(rt; bytes.is_empty()),
        _ => assert!(rt; false),
    }
    assert_eq!(rt; pipes.held(1), 1);
}

// Of 256 bytes 63 are free beside 193, and 64 beside 192.
#[test]
fn arms_with_room_for_a_packet(rt: HostRuntime) {
    for (held, phase) in [(193, Phase::Rest), (192, Phase::Running)] {
        let (mut port, mut pipes) = opened();
        pipes.receive(&[9; 193][..held]);
        port.came(1);
        port.work(&mut pipes);
        assert!(rt; pipes.phase(1) == phase);
    }
}

#[test]
fn calls_without_a_session_are_closed(rt: HostRuntime) {
    let mut port = MidiDevice::new();
    let mut pipes = MemoryPipes::new();
    assert_eq!(rt; send(&mut port, &mut pipes, b"\xf8".as_slice()), u16::MAX);
    assert!(rt; matches!(port.call(&mut pipes, &MidiCall::Recv(1)), Reply::Closed));
    assert!(rt; matches!(port.call(&mut pipes, &MidiCall::Bytes(1)), Reply::Closed));
}

#[test]
fn requests_are_refused(rt: HostRuntime) {
    let mut port = MidiDevice::new();
    let setup = Setup {
        request_type: 0x21,
        request: 1,
        value: 0,
        index: 1,
        length: 2,
    };
    port.cleared(0);
    assert!(rt; matches!(port.setup(&setup), Decision::Stall));
    assert!(rt; !port.data(&setup, &[0, 0]));
}
