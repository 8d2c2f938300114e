//! Requests on endpoint 0 over the registers of the controller.
ghost use Rattle.std.specs.Prelude.{◌≡◌, ℕ, ◌<◌, ◌≤◌, [], slice_index};
ghost use Rattle.usbd_core.specs.View.{IsWhole};

use crate::sets::{DEVICE, set_of};
use arrayvec::ArrayVec;
use device_classes::DeviceClasses;
use device_relation::laws::event_fits;
use dwc2_access::Regs;
use dwc2_devmodel::DevCore;
use dwc2_regs::FS4;
use std::alloc::Global;
use std::process::Abort;
use usb_control::CoreState;
use usb_descriptor::StringPart;
use usb_packet::{BusAnswer, BusEvent, Packet, Toggle};
use usbd_core::DevStack;
use usbd_core::laws::{bus_keeps, events_keep_whole};

/// The software of a device over the controller, and its classes.
#[derive(Drop)]
struct Device {
    stack: DevStack<DevCore>,
    classes: DeviceClasses,
}

/// Configuration 3: interface 0 with the bulk endpoints 81 and 01, interface 1 with the interrupt endpoint 02 of 8
/// bytes. A descriptor of 5 bytes of a type that no rule speaks of stands in it.
const CONFIG: &[u8] =
    b"\x09\x02\x35\x00\x02\x03\x00\xc0\x32\x09\x04\x00\x00\x02\xff\x00\x00\x00\x07\x05\x81\x02\x40\x00\x00\x07\x05\x01\x02\x40\x00\x00\x05\x41\x00\x00\x00\x09\x04\x01\x00\x01\xff\x00\x00\x00\x07\x05\x02\x03\x08\x00\x0a";

/// A device with this configuration and string 1, the letter A.
fn opened(rt: &impl Abort, alloc: Global, config: &[u8]) -> Device
    ensures { IsWhole result.stack }
{
    let mut body = ArrayVec::new();
    body.push(b'A');
    body.push(0);
    let strings = [StringPart { index: 1, body }];
    let mut bytes = ArrayVec::<u8, 512>::new();
    let _ = bytes.try_extend_from_slice(config);
    let set = set_of(bytes.as_slice(), &strings).expect(rt, "accepted");
    let classes = DeviceClasses::new(&set);
    let stack = DevStack::open(alloc, DevCore::new(FS4), set, FS4).expect(rt, "memory");
    Device { stack, classes }
}

/// A configuration of so many bytes, from 20 on: an interface, and a descriptor of a type that no rule speaks of.
fn config_of(bytes: u8) -> ArrayVec<u8, 512> {
    let more = bytes.saturating_sub(18);
    let mut config = ArrayVec::new();
    let _ = config.try_extend_from_slice(&[9, 2, bytes, 0, 1, 1, 0, 0x80, 50]);
    let _ = config.try_extend_from_slice(&[9, 4, 0, 0, 0, 0xff, 0, 0, 0, more, 0x41]);
    for i in 2..more {
        let _ = config.try_push(i);
    }
    config
}

/// A device that was reset.
fn awake(rt: &impl Abort, alloc: Global, config: &[u8]) -> Device
    ensures { IsWhole result.stack }
{
    let mut device = opened(rt, alloc, config);
    let _ = bus(&mut device, &BusEvent::Reset);
    irq(&mut device);
    device
}

fn bus(device: &mut Device, event: &BusEvent) -> BusAnswer
    requires { IsWhole device.old.stack }
    ensures { IsWhole device.new.stack }
{
    event_fits(event);
    bus_keeps();
    events_keep_whole();
    device.stack.regs().bus(event)
}

/// A handler run, with 400 accesses allowed.
fn irq(device: &mut Device)
    requires { IsWhole device.old.stack }
    ensures { IsWhole device.new.stack }
{
    device.stack.regs().begin();
    device.stack.irq(&mut device.classes);
}

/// A task run, with as many.
fn task(device: &mut Device)
    requires { IsWhole device.old.stack }
    ensures { IsWhole device.new.stack }
{
    device.stack.regs().begin();
    device.stack.task(&mut device.classes);
}

fn state(device: &Device) -> CoreState
    requires { IsWhole device.now.stack }
{
    device.stack.state()
}

fn token(device: &mut Device, addr: u8, ep: u8, ok: bool) -> BusAnswer
    requires { IsWhole device.old.stack }
    ensures { IsWhole device.new.stack }
{
    bus(device, &BusEvent::In { addr, ep, ok })
}

fn send(device: &mut Device, ep: u8, toggle: Toggle, bytes: &[u8]) -> BusAnswer
    requires { IsWhole device.old.stack }
    ensures { IsWhole device.new.stack }
{
    let packet = Packet::new(bytes).unwrap_or(Packet::empty());
    bus(
        device,
        &BusEvent::Out {
            addr: 0,
            ep,
            toggle,
            packet,
            ok: true,
        },
    )
}

/// A request up to the answer to the first IN token, at address 0.
fn ask(device: &mut Device, bytes: [u8; 8]) -> BusAnswer
    requires { IsWhole device.old.stack }
    ensures { IsWhole device.new.stack }
{
    let _ = bus(
        device,
        &BusEvent::Setup {
            addr: 0,
            bytes,
            ok: true,
        },
    );
    irq(device);
    next(device)
}

/// The answer to the next IN token, once a task and a handler run brought the packet.
fn next(device: &mut Device) -> BusAnswer
    requires { IsWhole device.old.stack }
    ensures { IsWhole device.new.stack }
{
    task(device);
    irq(device);
    let answer = token(device, 0, 0, true);
    irq(device);
    answer
}

fn is_data(answer: &BusAnswer, toggle: Toggle, bytes: &[u8]) -> bool {
    match answer {
        BusAnswer::Data(t, packet) => *t == toggle && packet.bytes() == bytes,
        _ => false,
    }
}

/// Whether an answer is 64 of these bytes from a place on, or all from there where there are fewer.
fn is_part(answer: &BusAnswer, toggle: Toggle, bytes: &[u8], from: usize) -> bool {
    let (_, rest) = bytes.split_at(from.min(bytes.len()));
    let (part, _) = rest.split_at(rest.len().min(64));
    is_data(answer, toggle, part)
}

/// SET_CONFIGURATION with this value.
fn configure(device: &mut Device, value: u8) -> bool
    requires { IsWhole device.old.stack }
    ensures { IsWhole device.new.stack }
{
    let answer = ask(device, [0, 9, value, 0, 0, 0, 0, 0]);
    task(device);
    is_data(&answer, Toggle::D1, &[])
}

/// SET_ADDRESS with 5: the address is the new one from the handler run on that finds the status stage acknowledged.
#[test]
fn new_address(rt: HostRuntime) {
    let mut device = awake(&rt, rt.alloc(), CONFIG);
    let _ = bus(
        &mut device,
        &BusEvent::Setup {
            addr: 0,
            bytes: [0, 5, 5, 0, 0, 0, 0, 0],
            ok: true,
        },
    );
    irq(&mut device);
    task(&mut device);
    irq(&mut device);
    assert!(rt; is_data(&token(&mut device, 0, 0, false), Toggle::D1, &[]));
    assert!(rt; is_data(&token(&mut device, 0, 0, true), Toggle::D1, &[]));
    assert!(rt; matches!(token(&mut device, 5, 0, true), BusAnswer::NoAnswer));
    assert_eq!(rt; state(&device).addr, 0);
    irq(&mut device);
    assert!(rt; matches!(token(&mut device, 0, 0, true), BusAnswer::NoAnswer));
    assert!(rt; matches!(token(&mut device, 5, 0, true), BusAnswer::Nak));
    assert_eq!(rt; state(&device).addr, 5);
}

/// Requests of one packet each (USB 2.0, 9.4), in a session.
const ASKED: [([u8; 8], &[u8]); 8] = [
    ([0x80, 0, 0, 0, 0, 0, 2, 0], &[1, 0]),
    ([0x80, 0, 0, 0, 0, 0, 1, 0], &[1]),
    ([0x82, 0, 0, 0, 0x81, 0, 2, 0], &[0, 0]),
    ([0x80, 6, 0, 1, 0, 0, 0x12, 0], DEVICE),
    ([0x80, 6, 0, 3, 0, 0, 0xff, 0], &[4, 3, 9, 4]),
    ([0x80, 6, 1, 3, 9, 4, 0xff, 0], &[4, 3, b'A', 0]),
    ([0x80, 8, 0, 0, 0, 0, 1, 0], &[3]),
    (
        [0x80, 6, 0, 2, 0, 0, 9, 0],
        b"\x09\x02\x35\x00\x02\x03\x00\xc0\x32",
    ),
];

#[test]
fn asked(rt: HostRuntime) {
    let mut device = awake(&rt, rt.alloc(), CONFIG);
    assert!(rt;
        is_data(
            &ask(&mut device, [0x80, 8, 0, 0, 0, 0, 1, 0]),
            Toggle::D1,
            &[0]
        )
    );
    assert!(rt; configure(&mut device, 3));
    for (request, bytes) in &ASKED {
        assert!(rt; is_data(&ask(&mut device, *request), Toggle::D1, bytes));
    }
    assert!(rt;
        matches!(
            ask(&mut device, [0x80, 6, 2, 3, 0, 0, 0xff, 0]),
            BusAnswer::Stall
        )
    );
}

/// A configuration of 64 bytes, with 255 allowed, is ended by an empty packet; with 64 allowed it is one packet. One of
/// 128 has three and two.
#[test]
fn packets(rt: HostRuntime) {
    let config = config_of(64);
    let bytes = config.as_slice();
    let mut device = awake(&rt, rt.alloc(), bytes);
    assert!(rt;
        is_data(
            &ask(&mut device, [0x80, 6, 0, 2, 0, 0, 255, 0]),
            Toggle::D1,
            bytes
        )
    );
    assert!(rt; is_data(&next(&mut device), Toggle::D0, &[]));
    assert!(rt; matches!(send(&mut device, 0, Toggle::D1, &[]), BusAnswer::Ack));
    assert!(rt;
        is_data(
            &ask(&mut device, [0x80, 6, 0, 2, 0, 0, 64, 0]),
            Toggle::D1,
            bytes
        )
    );
    assert!(rt; matches!(next(&mut device), BusAnswer::Nak));
    let config = config_of(128);
    let bytes = config.as_slice();
    let mut device = awake(&rt, rt.alloc(), bytes);
    for (allowed, more) in [(255, true), (128, false)] {
        let first = ask(&mut device, [0x80, 6, 0, 2, 0, 0, allowed, 0]);
        assert!(rt; is_part(&first, Toggle::D1, bytes, 0));
        assert!(rt; is_part(&next(&mut device), Toggle::D0, bytes, 64));
        let third = next(&mut device);
        assert_eq!(rt; is_data(&third, Toggle::D1, &[]), more);
        assert_eq!(rt; matches!(&third, BusAnswer::Nak), !more);
    }
}

/// Endpoints other than 0 answer NAK in a session, and nothing outside it, in the other direction, or to a longer packet.
#[test]
fn endpoints(rt: HostRuntime) {
    let mut device = awake(&rt, rt.alloc(), CONFIG);
    assert!(rt; matches!(token(&mut device, 0, 1, true), BusAnswer::NoAnswer));
    assert!(rt; configure(&mut device, 3));
    assert!(rt; matches!(token(&mut device, 0, 1, true), BusAnswer::Nak));
    assert!(rt; matches!(token(&mut device, 0, 2, true), BusAnswer::NoAnswer));
    assert!(rt; matches!(send(&mut device, 1, Toggle::D0, &[0; 64]), BusAnswer::Nak));
    assert!(rt; matches!(send(&mut device, 2, Toggle::D0, &[0; 8]), BusAnswer::Nak));
    assert!(rt;
        matches!(
            send(&mut device, 2, Toggle::D0, &[0; 9]),
            BusAnswer::NoAnswer
        )
    );
    assert!(rt; matches!(send(&mut device, 3, Toggle::D0, &[]), BusAnswer::NoAnswer));
    assert!(rt; configure(&mut device, 0));
    assert!(rt; matches!(send(&mut device, 1, Toggle::D0, &[]), BusAnswer::NoAnswer));
}

/// GET_STATUS tells a halt until a request clears it, a new session begins, or a reset is served.
#[test]
fn halts(rt: HostRuntime) {
    let mut device = awake(&rt, rt.alloc(), CONFIG);
    for ends in [
        [2, 1, 0, 0, 0x81, 0, 0, 0],
        [1, 11, 0, 0, 0, 0, 0, 0],
        [0, 9, 3, 0, 0, 0, 0, 0],
    ] {
        assert!(rt; configure(&mut device, 3));
        let _ = ask(&mut device, [2, 3, 0, 0, 2, 0, 0, 0]);
        let _ = ask(&mut device, [2, 3, 0, 0, 0x81, 0, 0, 0]);
        assert!(rt; state(&device).halted.as_slice() == [2, 0x81].as_slice());
        assert!(rt;
            is_data(
                &ask(&mut device, [0x82, 0, 0, 0, 0x81, 0, 2, 0]),
                Toggle::D1,
                &[1, 0]
            )
        );
        let _ = ask(&mut device, ends);
        assert!(rt;
            is_data(
                &ask(&mut device, [0x82, 0, 0, 0, 0x81, 0, 2, 0]),
                Toggle::D1,
                &[0, 0]
            )
        );
        assert!(rt; matches!(token(&mut device, 0, 1, true), BusAnswer::Nak));
    }
    let _ = bus(&mut device, &BusEvent::Reset);
    irq(&mut device);
    assert!(rt; !state(&device).configured);
    assert!(rt; matches!(token(&mut device, 0, 1, true), BusAnswer::NoAnswer));
}
