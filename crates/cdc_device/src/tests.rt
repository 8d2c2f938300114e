//! Sequences that are worked by hand from CDC PSTN 1.2 and USB 2.0, on pipes in memory.
use crate::CdcDevice;
use arrayvec::ArrayVec;
use usb_packet::Setup;
use usb_pipe::{CdcDeviceCall, Decision, DevPipes, MemoryPipes, Phase, Reply, Said};

/// The number of the communication interface.
const INTERFACE: u8 = 4;

/// A port in a session, with its pipes.
fn opened() -> (CdcDevice, MemoryPipes) {
    let mut port = CdcDevice::new(INTERFACE);
    let mut pipes = MemoryPipes::new();
    port.opened();
    pipes.open();
    (port, pipes)
}

/// The call that writes these bytes.
fn write(bytes: &[u8]) -> CdcDeviceCall {
    let mut data = ArrayVec::new();
    let _ = data.try_extend_from_slice(bytes);
    CdcDeviceCall::Write(data)
}

/// Starts a transfer of what is queued.
fn flush(port: &CdcDevice, pipes: &mut MemoryPipes) -> Reply {
    port.call(pipes, &CdcDeviceCall::Flush)
}

/// Sends bytes, and hands the port the end of their transfer.
fn send(port: &mut CdcDevice, pipes: &mut MemoryPipes, bytes: &[u8]) {
    let _ = port.call(pipes, &write(bytes));
    let _ = flush(port, pipes);
    let count = pipes.end(0);
    port.ended(0, count);
}

/// Halts the pipe that sends.
fn halt(pipes: &mut MemoryPipes) {
    if pipes.phase(0) != Phase::Closed {
        pipes.halt(0);
    }
}

/// Whether an empty packet is on its way to the host.
fn sends_empty(pipes: &MemoryPipes) -> bool {
    match pipes.running(0) {
        Some(bytes) => bytes.is_empty(),
        None => false,
    }
}

/// A request to an interface.
fn request(request_type: u8, request: u8, value: u16, length: u16) -> Setup {
    Setup {
        request_type,
        request,
        value,
        index: INTERFACE as u16,
        length,
    }
}

fn set_coding() -> Setup {
    request(0x21, 0x20, 0, 7)
}

// With 63 free bytes no packet is taken, with 64 one is.
#[test]
fn arms_with_room_for_a_packet(rt: HostRuntime) {
    let (mut port, mut pipes) = opened();
    pipes.receive(&[9; 193]);
    port.work(&mut pipes);
    assert!(rt; pipes.phase(1) == Phase::Rest);
    match port.call(&mut pipes, &CdcDeviceCall::Read(1)) {
        Reply::Got(bytes) => assert_eq!(rt; bytes.as_slice(), &[9][..]),
        _ => assert!(rt; false),
    }
    port.work(&mut pipes);
    assert!(rt; pipes.phase(1) == Phase::Running);
    let avail = port.call(&mut pipes, &CdcDeviceCall::Avail);
    assert!(rt; matches!(avail, Reply::Held(192)));
}

#[test]
fn a_second_flush_is_busy(rt: HostRuntime) {
    let (port, mut pipes) = opened();
    let took = port.call(&mut pipes, &write(&[1; 128]));
    assert!(rt; matches!(took, Reply::Took(128)));
    assert!(rt; matches!(flush(&port, &mut pipes), Reply::Done));
    assert!(rt; matches!(flush(&port, &mut pipes), Reply::Busy));
    assert_eq!(rt; pipes.end(0), 128);
}

#[test]
fn a_flush_of_nothing_starts_nothing(rt: HostRuntime) {
    let (port, mut pipes) = opened();
    assert!(rt; matches!(flush(&port, &mut pipes), Reply::Done));
    assert!(rt; pipes.phase(0) == Phase::Rest);
}

// The host tells the end of 127 bytes, and not that of 128.
#[test]
fn an_empty_packet_ends_whole_packets(rt: HostRuntime) {
    for (count, owed) in [(64, true), (127, false), (128, true), (129, false)] {
        let (mut port, mut pipes) = opened();
        send(&mut port, &mut pipes, &[1; 129][..count]);
        port.work(&mut pipes);
        assert_eq!(rt; sends_empty(&pipes), owed, "after {count} bytes");
        let _ = pipes.end(0);
        port.ended(0, 0);
        port.work(&mut pipes);
        assert!(rt; pipes.phase(0) == Phase::Rest);
    }
}

// More bytes that are queued, and a halt, keep the empty packet away.
#[test]
fn no_empty_packet_where_bytes_wait_or_a_halt_stands(rt: HostRuntime) {
    let (mut port, mut pipes) = opened();
    send(&mut port, &mut pipes, &[1; 128]);
    let _ = port.call(&mut pipes, &write(&[2]));
    port.work(&mut pipes);
    assert!(rt; pipes.phase(0) == Phase::Rest);
    let (mut port, mut pipes) = opened();
    send(&mut port, &mut pipes, &[1; 128]);
    halt(&mut pipes);
    port.work(&mut pipes);
    assert!(rt; !sends_empty(&pipes));
    assert!(rt; matches!(flush(&port, &mut pipes), Reply::Halted));
}

// 9,600 bits in a second, one stop bit, no parity, 8 data bits.
#[test]
fn a_coding_is_set_and_told(rt: HostRuntime) {
    let (mut port, mut pipes) = opened();
    let coding = b"\x80\x25\x00\x00\x00\x00\x08";
    assert!(rt; matches!(port.setup(&set_coding()), Decision::Take(7)));
    assert!(rt; port.data(&set_coding(), coding));
    assert!(rt; matches!(port.setup(&request(0x21, 0x22, 2, 0)), Decision::Status));
    match port.setup(&request(0xa1, 0x21, 0, 7)) {
        Decision::Data(bytes) => assert_eq!(rt; bytes.as_slice(), &coding[..]),
        _ => assert!(rt; false),
    }
    let line = port.call(&mut pipes, &CdcDeviceCall::Line);
    assert!(rt; matches!(line, Reply::LineIs(9600, 0, 0, 8, 0, 1)));
    port.closed();
    let first = port.call(&mut pipes, &CdcDeviceCall::Line);
    assert!(rt; matches!(first, Reply::LineIs(115_200, 0, 0, 8, 0, 0)));
}

// Six bytes, eight, three for the stop bits, five for the parity, nine data bits, and another interface.
#[test]
fn what_is_no_coding_is_refused(rt: HostRuntime) {
    let cases: [&[u8]; 5] = [
        b"\x80\x25\x00\x00\x00\x00",
        b"\x80\x25\x00\x00\x00\x00\x08\x00",
        b"\x80\x25\x00\x00\x03\x00\x08",
        b"\x80\x25\x00\x00\x00\x05\x08",
        b"\x80\x25\x00\x00\x00\x00\x09",
    ];
    let (mut port, mut pipes) = opened();
    for bytes in cases {
        assert!(rt; !port.data(&set_coding(), bytes));
    }
    let line = port.call(&mut pipes, &CdcDeviceCall::Line);
    assert!(rt; matches!(line, Reply::LineIs(115_200, 0, 0, 8, 0, 0)));
    let mut other = set_coding();
    other.index = 5;
    assert!(rt; matches!(port.setup(&other), Decision::Stall));
}

#[test]
fn a_notification_has_its_bits(rt: HostRuntime) {
    let (port, mut pipes) = opened();
    let notice = CdcDeviceCall::Notify(3);
    assert!(rt; matches!(port.call(&mut pipes, &notice), Reply::Done));
    match pipes.running(2) {
        Some(bytes) => assert_eq!(rt; bytes, &b"\xa1\x20\x00\x00\x04\x00\x02\x00\x03\x00"[..]),
        None => assert!(rt; false),
    }
    assert!(rt; matches!(port.call(&mut pipes, &notice), Reply::Busy));
    assert_eq!(rt; pipes.end(2), 10);
}

/// Whether a call is closed while no session stands.
fn is_closed(call: &CdcDeviceCall) -> bool {
    let port = CdcDevice::new(INTERFACE);
    let mut pipes = MemoryPipes::new();
    let mut bytes = ArrayVec::new();
    let said = port.answer(&mut pipes, call, &mut bytes);
    matches!(said, Said::Closed) && bytes.is_empty()
}

#[test]
fn calls_without_a_session_are_closed(rt: HostRuntime) {
    assert!(rt; is_closed(&write(&[1])));
    assert!(rt; is_closed(&CdcDeviceCall::Read(1)));
    assert!(rt; is_closed(&CdcDeviceCall::Flush));
    assert!(rt; is_closed(&CdcDeviceCall::Avail));
    assert!(rt; is_closed(&CdcDeviceCall::Line));
    assert!(rt; is_closed(&CdcDeviceCall::Notify(1)));
}
