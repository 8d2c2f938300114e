//! A session of a device with a serial port, told through the trait (CDC PSTN 1.2, 6.3).
use crate::DeviceClasses;
use arrayvec::ArrayVec;
use device_line::DevCall;
use usb_descriptor::{DescSet, EpLimits, SetFault, SetParts, read_set};
use usb_packet::{Owner, Setup};
use usb_pipe::{
    CdcDeviceCall, Decision, DevClasses, DevPipes, HidDeviceCall, MemoryPipes, MidiCall,
    MscDeviceCall, Phase, Reply, Said,
};

const DEVICE: &[u8] = b"\x12\x01\x00\x02\x00\x00\x00\x40\xfe\xca\x01\x40\x00\x01\x00\x00\x00\x01";

/// A serial port whose communications interface has the number 0.
const CONFIG: &[u8] =
    b"\x09\x02\x35\x00\x02\x01\x00\x80\x32\x09\x04\x00\x00\x01\x02\x02\x00\x00\x05\x24\x06\x00\x01\x07\x05\x83\x03\x10\x00\x0a\x09\x04\x01\x00\x02\x0a\x00\x00\x00\x07\x05\x01\x02\x40\x00\x00\x07\x05\x82\x02\x40\x00\x00";

/// Three endpoints in each direction, as the device's controller has.
const LIMITS: EpLimits = EpLimits {
    in_top: 3,
    out_top: 3,
    report_known: true,
};

/// 9,600 bits in a second, one stop bit, no parity, 8 data bits.
const SLOW: &[u8] = b"\x80\x25\x00\x00\x00\x00\x08";

fn serial() -> Result<DescSet, SetFault> {
    let parts = SetParts {
        device: DEVICE,
        config: CONFIG,
        strings: &[],
        report: None,
    };
    read_set(&parts, LIMITS)
}

/// Hands SET_LINE_CODING with these bytes to an owner's class: whether it takes them.
fn takes_coding<C: DevClasses>(classes: &mut C, owner: Owner, bytes: &[u8]) -> bool {
    let setup = Setup {
        request_type: 0x21,
        request: 0x20,
        value: 0,
        index: 0,
        length: 7,
    };
    let decision = classes.setup(owner, &setup);
    matches!(decision, Decision::Take(7)) && classes.data(owner, &setup, bytes)
}

/// A session begins, a transfer of a whole packet ended, and each class learns of an owner's pipes.
fn begin<C: DevClasses>(classes: &mut C) {
    for owner in [Owner::Core, Owner::Cdc, Owner::Hid, Owner::Msc, Owner::Midi] {
        classes.opened(owner);
        classes.came(owner, 1);
        classes.cleared(owner, 1);
    }
    classes.ended(Owner::Cdc, 0, 64);
}

/// Whether `cdc line` tells a rate, one stop bit, no parity and 8 data bits, with both lines off.
fn has_rate(classes: &mut DeviceClasses, pipes: &mut MemoryPipes, rate: u32) -> bool {
    match classes.call(pipes, &DevCall::Cdc(CdcDeviceCall::Line)) {
        Reply::LineIs(told, 0, 0, 8, 0, 0) => told == rate,
        _ => false,
    }
}

#[test]
fn a_coding_is_the_serial_ports(rt: HostRuntime) {
    let set = serial().expect(&rt, "accepted");
    let mut classes = DeviceClasses::new(&set);
    let mut pipes = MemoryPipes::new();
    begin(&mut classes);
    pipes.open();
    assert!(rt; takes_coding(&mut classes, Owner::Cdc, SLOW));
    for owner in [Owner::Core, Owner::Hid, Owner::Msc, Owner::Midi] {
        assert!(rt; !takes_coding(&mut classes, owner, SLOW));
    }
    assert!(rt; !takes_coding(&mut classes, Owner::Cdc, &SLOW[..6]));
    assert!(rt; has_rate(&mut classes, &mut pipes, 9_600));
    classes.closed();
    assert!(rt; has_rate(&mut classes, &mut pipes, 115_200));
}

// The pipe that receives is armed by its owner's work alone, and an empty packet ends the one whole packet.
#[test]
fn an_owner_works_its_own_pipes(rt: HostRuntime) {
    let set = serial().expect(&rt, "accepted");
    let mut classes = DeviceClasses::new(&set);
    let mut pipes = MemoryPipes::new();
    begin(&mut classes);
    pipes.open();
    for owner in [Owner::Core, Owner::Msc] {
        classes.work(owner, &mut pipes);
    }
    assert!(rt; pipes.phase(0) == Phase::Rest && pipes.phase(1) == Phase::Rest);
    classes.work(Owner::Cdc, &mut pipes);
    assert!(rt; pipes.phase(0) == Phase::Running && pipes.phase(1) == Phase::Running);
}

// No class is there for the core and for mass storage. A class without endpoints has closed pipes.
#[test]
fn calls_of_others_are_closed(rt: HostRuntime) {
    let set = serial().expect(&rt, "accepted");
    let mut classes = DeviceClasses::new(&set);
    let mut bytes = ArrayVec::new();
    let mut pipes = MemoryPipes::new();
    for call in &[
        DevCall::Hid(HidDeviceCall::Take),
        DevCall::Midi(MidiCall::Recv(1)),
    ] {
        assert!(rt; matches!(classes.answer(&mut pipes, call, &mut bytes), Said::Closed));
    }
    pipes.open();
    for call in &[DevCall::State, DevCall::Msc(MscDeviceCall::Eject)] {
        assert!(rt; matches!(classes.answer(&mut pipes, call, &mut bytes), Said::Closed));
    }
}

// The set has no report descriptor: no report has its length. The MIDI port takes a real-time byte, and starts its event.
#[test]
fn reports_and_music_are_their_classes(rt: HostRuntime) {
    let set = serial().expect(&rt, "accepted");
    let mut classes = DeviceClasses::new(&set);
    let mut pipes = MemoryPipes::new();
    pipes.open();
    let mut report = ArrayVec::new();
    report.push(0);
    let call = DevCall::Hid(HidDeviceCall::Report(report));
    assert!(rt; matches!(classes.call(&mut pipes, &call), Reply::BadLength));
    assert!(rt;
        matches!(
            classes.call(&mut pipes, &DevCall::Hid(HidDeviceCall::Idle)),
            Reply::Idle(0, 1)
        )
    );
    let mut stream = ArrayVec::new();
    stream.push(0xf8);
    let call = DevCall::Midi(MidiCall::Send(stream));
    assert!(rt; matches!(classes.call(&mut pipes, &call), Reply::Took(1)));
    classes.work(Owner::Midi, &mut pipes);
    assert!(rt; pipes.phase(0) == Phase::Running && pipes.phase(1) == Phase::Running);
}
