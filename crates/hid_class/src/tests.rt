//! Sequences that are worked by hand from HID 1.11, on pipes in memory.
use crate::HidDevice;
use arrayvec::ArrayVec;
use hid_items::ReportLen;
use usb_packet::Setup;
use usb_pipe::{Decision, DevPipes, HidDeviceCall, MemoryPipes, Phase, Reply, Said};

/// The boot keyboard (HID 1.11, B.1): 8 bytes for its keys and one for its lights.
fn keyboard() -> HidDevice {
    let mut lengths = ArrayVec::new();
    lengths.push(ReportLen {
        id: 0,
        input: 8,
        output: 1,
        feature: 0,
    });
    HidDevice::new(&lengths)
}

/// A mouse of three bytes with the id 1, and keys of two with three lights and a feature of two bytes with the id 2.
fn both() -> HidDevice {
    let mut lengths = ArrayVec::new();
    lengths.push(ReportLen {
        id: 1,
        input: 3,
        output: 0,
        feature: 0,
    });
    lengths.push(ReportLen {
        id: 2,
        input: 2,
        output: 3,
        feature: 2,
    });
    HidDevice::new(&lengths)
}

/// A device in a session, with its pipes.
fn opened(device: HidDevice) -> (HidDevice, MemoryPipes) {
    let mut device = device;
    let mut pipes = MemoryPipes::new();
    device.opened();
    pipes.open();
    (device, pipes)
}

/// Asks for an input report of these bytes.
fn report(device: &mut HidDevice, pipes: &mut MemoryPipes, bytes: &[u8]) -> Reply {
    let mut report = ArrayVec::new();
    let _ = report.try_extend_from_slice(bytes);
    device.call(pipes, &HidDeviceCall::Report(report))
}

/// A request to interface 2.
fn request(request_type: u8, request: u8, value: u16, length: u16) -> Setup {
    Setup {
        request_type,
        request,
        value,
        index: 2,
        length,
    }
}

/// Whether a request of the host's gives exactly these bytes.
fn gives(device: &mut HidDevice, code: u8, value: u16, expected: &[u8]) -> bool {
    match device.setup(&request(0xa1, code, value, 64)) {
        Decision::Data(bytes) => bytes.as_slice() == expected,
        _ => false,
    }
}

/// Whether a request is refused.
fn refuses(device: &mut HidDevice, request_type: u8, code: u8, value: u16, length: u16) -> bool {
    matches!(
        device.setup(&request(request_type, code, value, length)),
        Decision::Stall
    )
}

/// Whether a call takes exactly this report.
fn takes(device: &mut HidDevice, pipes: &mut MemoryPipes, expected: &[u8]) -> bool {
    match device.call(pipes, &HidDeviceCall::Take) {
        Reply::Report(bytes) => bytes.as_slice() == expected,
        _ => false,
    }
}

// The second report waits for the end of the first, and a short one is refused first.
#[test]
fn a_second_report_is_busy(rt: HostRuntime) {
    let (mut device, mut pipes) = opened(keyboard());
    let keys = b"\x01\x02\x03\x04\x05\x06\x07\x08";
    assert!(rt; matches!(report(&mut device, &mut pipes, keys), Reply::Done));
    assert!(rt; matches!(report(&mut device, &mut pipes, keys), Reply::Busy));
    assert!(rt; matches!(report(&mut device, &mut pipes, b"\x01"), Reply::BadLength));
    match pipes.running(0) {
        Some(bytes) => assert_eq!(rt; bytes, &keys[..]),
        None => assert!(rt; false),
    }
    let count = pipes.end(0);
    assert_eq!(rt; count, 8);
    device.ended(0, count);
    assert!(rt; matches!(report(&mut device, &mut pipes, keys), Reply::Done));
}

// With ids the first byte is the id, and the length that of its report with it.
#[test]
fn reports_begin_with_their_ids(rt: HostRuntime) {
    let (mut device, mut pipes) = opened(both());
    assert!(rt;
        matches!(
            report(&mut device, &mut pipes, b"\x01\x05\x06"),
            Reply::BadLength
        )
    );
    assert!(rt;
        matches!(
            report(&mut device, &mut pipes, b"\x00\x05\x06"),
            Reply::BadLength
        )
    );
    assert!(rt;
        matches!(
            report(&mut device, &mut pipes, b"\x03\x05\x06"),
            Reply::BadLength
        )
    );
    assert!(rt;
        matches!(
            report(&mut device, &mut pipes, b"\x02\x05\x06"),
            Reply::Done
        )
    );
    assert!(rt; gives(&mut device, 1, 0x0102, b"\x02\x05\x06"));
    assert!(rt; gives(&mut device, 1, 0x0101, b"\x01\x00\x00\x00"));
    device.closed();
    assert!(rt; gives(&mut device, 1, 0x0102, b"\x02\x00\x00"));
}

#[test]
fn output_reports_come_once(rt: HostRuntime) {
    let (mut device, mut pipes) = opened(keyboard());
    device.work(&mut pipes);
    assert!(rt; pipes.phase(1) == Phase::Running);
    pipes.receive(b"\xaa\xbb");
    device.came(1);
    device.work(&mut pipes);
    assert!(rt; pipes.phase(1) == Phase::Rest);
    assert!(rt; takes(&mut device, &mut pipes, b"\xaa\xbb"));
    assert!(rt;
        matches!(
            device.call(&mut pipes, &HidDeviceCall::Take),
            Reply::Nothing
        )
    );
    device.work(&mut pipes);
    pipes.receive(b"");
    device.came(1);
    assert!(rt;
        matches!(
            device.call(&mut pipes, &HidDeviceCall::Take),
            Reply::Nothing
        )
    );
    device.work(&mut pipes);
    assert!(rt; pipes.phase(1) == Phase::Running);
}

#[test]
fn the_lights_are_set(rt: HostRuntime) {
    let (mut device, mut pipes) = opened(keyboard());
    let setup = request(0x21, 9, 0x0200, 1);
    assert!(rt; matches!(device.call(&mut pipes, &HidDeviceCall::Set), Reply::Nothing));
    assert!(rt; matches!(device.setup(&setup), Decision::Take(1)));
    assert!(rt; !device.data(&setup, b"\x03\x00"));
    assert!(rt; matches!(device.call(&mut pipes, &HidDeviceCall::Set), Reply::Nothing));
    assert!(rt; device.data(&setup, b"\x03"));
    match device.call(&mut pipes, &HidDeviceCall::Set) {
        Reply::SetReport(2, bytes) => assert_eq!(rt; bytes.as_slice(), b"\x03".as_slice()),
        _ => assert!(rt; false),
    }
    assert!(rt; gives(&mut device, 1, 0x0200, b"\x03"));
}

// 500 milliseconds are 125 times 4.
#[test]
fn idle_rate_and_protocol_are_told(rt: HostRuntime) {
    let (mut device, mut pipes) = opened(keyboard());
    assert!(rt; gives(&mut device, 2, 0, b"\x00"));
    assert!(rt; gives(&mut device, 3, 0, b"\x01"));
    assert!(rt;
        matches!(
            device.setup(&request(0x21, 0x0a, 0x7d00, 0)),
            Decision::Status
        )
    );
    assert!(rt; matches!(device.setup(&request(0x21, 0x0b, 0, 0)), Decision::Status));
    let told = device.call(&mut pipes, &HidDeviceCall::Idle);
    assert!(rt; matches!(told, Reply::Idle(125, 0)));
    assert!(rt; gives(&mut device, 2, 0, b"\x7d"));
    assert!(rt; gives(&mut device, 3, 0, b"\x00"));
    device.opened();
    let first = device.call(&mut pipes, &HidDeviceCall::Idle);
    assert!(rt; matches!(first, Reply::Idle(0, 1)));
}

#[test]
fn other_requests_are_refused(rt: HostRuntime) {
    let (mut device, _pipes) = opened(keyboard());
    assert!(rt; refuses(&mut device, 0xa1, 1, 0x0101, 8));
    assert!(rt; refuses(&mut device, 0xa1, 1, 0x0300, 8));
    assert!(rt; refuses(&mut device, 0x21, 9, 0x0200, 2));
    assert!(rt; refuses(&mut device, 0x21, 9, 0x0100, 8));
    assert!(rt; refuses(&mut device, 0x21, 0x0b, 2, 0));
    assert!(rt; refuses(&mut device, 0x21, 0x0a, 0, 1));
    assert!(rt; refuses(&mut device, 0xa1, 4, 0, 1));
}

/// Whether a call is closed while no session stands.
fn is_closed(call: &HidDeviceCall) -> bool {
    let mut device = keyboard();
    let mut pipes = MemoryPipes::new();
    let mut bytes = ArrayVec::new();
    let said = device.answer(&mut pipes, call, &mut bytes);
    matches!(said, Said::Closed) && bytes.is_empty()
}

#[test]
fn calls_without_a_session_are_closed(rt: HostRuntime) {
    assert!(rt; is_closed(&HidDeviceCall::Report(ArrayVec::new())));
    assert!(rt; is_closed(&HidDeviceCall::Take));
    assert!(rt; is_closed(&HidDeviceCall::Set));
    assert!(rt; is_closed(&HidDeviceCall::Idle));
}
