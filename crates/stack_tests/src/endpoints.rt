//! The driver with its rings on class endpoints: packets of 64 bytes, lost handshakes, resets and sessions.
use crate::bench::Bench;
use dwc2_device::Note;
use usb_descriptor::{Endpoint, EpKind, Owner};
use usb_packet::{BusAnswer, BusEvent, Packet, Toggle};

/// A disk's pipes: bulk OUT on endpoint 1 and bulk IN on endpoint 2.
const DISK: [Endpoint; 2] = [
    Endpoint {
        addr: 0x01,
        kind: EpKind::Bulk,
        size: 64,
        owner: Owner::Msc,
    },
    Endpoint {
        addr: 0x82,
        kind: EpKind::Bulk,
        size: 64,
        owner: Owner::Msc,
    },
];

/// The bytes 1 to 100.
fn counted() -> [u8; 100] {
    let mut bytes = [0; 100];
    for i in 0..100u8 {
        bytes[i as usize] = i + 1;
    }
    bytes
}

/// The first so many of some bytes, or all where there are fewer, and the others.
fn parts(bytes: &[u8], first: usize) -> (&[u8], &[u8]) {
    bytes.split_at(first.min(bytes.len()))
}

/// An OUT packet to endpoint 1.
fn out(bench: &mut Bench, toggle: Toggle, bytes: &[u8]) -> BusAnswer {
    bench.bus(&BusEvent::Out {
        addr: 0,
        ep: 1,
        toggle,
        packet: Packet::new(bytes).unwrap_or(Packet::empty()),
        ok: true,
    })
}

/// An IN token to endpoint 2, whose packet the host acknowledges where `ok`.
fn token(bench: &mut Bench, ok: bool) -> BusAnswer {
    bench.bus(&BusEvent::In { addr: 0, ep: 2, ok })
}

fn is_data(answer: &BusAnswer, toggle: Toggle, bytes: &[u8]) -> bool {
    match answer {
        BusAnswer::Data(its, packet) => *its == toggle && packet.bytes() == bytes,
        _ => false,
    }
}

/// Arming takes two accesses: the size of the transfer, and EPENA. The run that finds a packet of 64 bytes takes 21: GINTSTS,
/// the packet's entry, 16 words, the entry of its end, XFRC cleared, and GRXSTSP once more.
#[test]
fn whole_packet(rt: HostRuntime) {
    let mut bench = Bench::open(&rt, rt.alloc(), &DISK);
    let bytes = counted();
    let (packet, _) = parts(bytes.as_slice(), 64);
    assert!(rt; matches!(out(&mut bench, Toggle::D0, packet), BusAnswer::Nak));
    assert_eq!(rt; bench.arm(1), Some(2));
    assert_eq!(rt; bench.arm(1), None);
    assert!(rt; matches!(out(&mut bench, Toggle::D0, packet), BusAnswer::Ack));
    assert!(rt; matches!(out(&mut bench, Toggle::D1, packet), BusAnswer::Nak));
    assert_eq!(rt; bench.held(1), 0);
    assert_eq!(rt; bench.irq(), 21);
    assert_eq!(rt; bench.held(1), 64);
    assert_eq!(rt; bench.arm(1), None);
    assert!(rt; matches!(bench.note(), Some(Note::Out(1))));
    assert!(rt; matches!(bench.note(), None));
    let mut read = [0; 64];
    assert_eq!(rt; bench.read(1, &mut read), 64);
    assert!(rt; read.as_slice() == packet);
    assert_eq!(rt; bench.irq(), 2);
}

/// A packet whose acknowledgement was lost comes with its toggle again: it is acknowledged and dropped. The next one lands.
#[test]
fn repeated_packet(rt: HostRuntime) {
    let mut bench = Bench::open(&rt, rt.alloc(), &DISK);
    bench.arm(1);
    assert!(rt; matches!(out(&mut bench, Toggle::D0, b"abc"), BusAnswer::Ack));
    bench.irq();
    bench.task();
    bench.arm(1);
    assert!(rt; matches!(out(&mut bench, Toggle::D0, b"abc"), BusAnswer::Ack));
    assert_eq!(rt; bench.irq(), 2);
    assert_eq!(rt; bench.held(1), 3);
    assert!(rt; matches!(out(&mut bench, Toggle::D1, b"de"), BusAnswer::Ack));
    bench.irq();
    assert_eq!(rt; bench.held(1), 5);
    let mut read = [0; 64];
    assert_eq!(rt; bench.read(1, &mut read), 5);
    let (front, _) = parts(read.as_slice(), 5);
    assert!(rt; front == b"abcde".as_slice());
}

/// A transfer of 100 bytes: a packet without its acknowledgement is sent again with its toggle, and a short one ends it. The bytes
/// leave the ring when the transfer is over. A transfer of no bytes is an empty packet.
#[test]
fn lost_acknowledgement(rt: HostRuntime) {
    let mut bench = Bench::open(&rt, rt.alloc(), &DISK);
    let bytes = counted();
    let (first, last) = parts(bytes.as_slice(), 64);
    assert!(rt; matches!(token(&mut bench, true), BusAnswer::Nak));
    assert!(rt; bench.send(2, &bytes));
    assert!(rt; !bench.send(2, first));
    bench.irq();
    assert!(rt; is_data(&token(&mut bench, false), Toggle::D0, first));
    assert!(rt; is_data(&token(&mut bench, true), Toggle::D0, first));
    assert!(rt; is_data(&token(&mut bench, false), Toggle::D1, last));
    bench.irq();
    assert_eq!(rt; bench.held(0x82), 100);
    assert!(rt; is_data(&token(&mut bench, true), Toggle::D1, last));
    assert!(rt; matches!(token(&mut bench, true), BusAnswer::Nak));
    bench.irq();
    assert_eq!(rt; bench.held(0x82), 0);
    assert!(rt; !bench.send(2, first));
    assert!(rt; matches!(bench.note(), Some(Note::In(2))));
    assert!(rt; bench.send(2, &[]));
    bench.irq();
    assert!(rt; is_data(&token(&mut bench, true), Toggle::D0, &[]));
    bench.irq();
    bench.task();
    assert!(rt; matches!(bench.note(), None));
}

/// The run that serves a reset empties the rings, and all endpoints are closed.
#[test]
fn reset_between(rt: HostRuntime) {
    let mut bench = Bench::open(&rt, rt.alloc(), &DISK);
    bench.arm(1);
    out(&mut bench, Toggle::D0, b"abc");
    bench.irq();
    bench.send(2, b"defg");
    bench.irq();
    assert_eq!(rt; bench.held(1), 3);
    assert_eq!(rt; bench.held(0x82), 4);
    let _ = bench.bus(&BusEvent::Reset);
    bench.irq();
    assert_eq!(rt; bench.held(1), 0);
    assert_eq!(rt; bench.held(0x82), 0);
    assert!(rt; matches!(bench.note(), Some(Note::Reset)));
    assert!(rt; matches!(bench.note(), None));
    assert!(rt; matches!(out(&mut bench, Toggle::D0, b"abc"), BusAnswer::NoAnswer));
    assert!(rt; matches!(token(&mut bench, true), BusAnswer::NoAnswer));
}

/// A packet that landed before its session ended is dropped: the next session's endpoint doesn't get it.
#[test]
fn dropped_with_its_session(rt: HostRuntime) {
    let mut bench = Bench::open(&rt, rt.alloc(), &DISK);
    bench.arm(1);
    assert!(rt; matches!(out(&mut bench, Toggle::D0, b"abc"), BusAnswer::Ack));
    bench.close();
    bench.add(&DISK);
    assert_eq!(rt; bench.arm(1), None);
    bench.irq();
    assert_eq!(rt; bench.held(1), 0);
    assert!(rt; matches!(bench.note(), None));
    assert_eq!(rt; bench.arm(1), Some(2));
    assert!(rt; matches!(out(&mut bench, Toggle::D0, b"de"), BusAnswer::Ack));
    bench.irq();
    assert_eq!(rt; bench.held(1), 2);
}
