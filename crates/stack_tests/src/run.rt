//! Lines of a schedule by the word, with the accesses that the driver makes for them, in its own order.
use crate::sets::set_of;
use device_line::{Answer, DevCall, DevLine};
use device_run::DeviceRun;
use dwc2_regs::Access;
use std::alloc::Global;
use std::process::Abort;
use usb_edge::MemDisks;
use usb_packet::{BusAnswer, BusEvent};
use usb_pipe::Reply;

/// One interface without endpoints.
const CONFIG: &[u8] = b"\x09\x02\x12\x00\x01\x01\x00\x80\x32\x09\x04\x00\x00\x00\xff\x00\x00\x00";

/// GET_DESCRIPTOR of the device descriptor (USB 2.0, 9.4.3).
const DESCRIPTOR: [u8; 8] = [0x80, 6, 0, 1, 0, 0, 18, 0];

fn opened(rt: &impl Abort, alloc: Global) -> DeviceRun {
    let set = set_of(CONFIG, &[]).expect(rt, "accepted");
    DeviceRun::open(alloc, set, None).expect(rt, "memory")
}

fn is_done(answer: &Answer) -> bool {
    matches!(answer, Answer::Bus(BusAnswer::Done))
}

/// Whether these accesses were made, each by its offset and its word, the oldest first. `w` says that it was a write.
fn were_made(accesses: &[Access], expected: &[(bool, u16, u32)]) -> bool {
    accesses.len() == expected.len()
        && accesses.iter().zip(expected.iter()).all(|(access, (write, off, value))| {
            access.write == *write && access.off == *off && access.value == *value
        })
}

/// A handler run that finds nothing reads GINTSTS and GRXSTSP. One that finds a reset closes the endpoints by SNAK and EPDIS,
/// flushes the FIFOs, clears the endpoints' interrupts, and clears USBRST and ENUMDNE last.
#[test]
fn resets(rt: HostRuntime) {
    let mut run = opened(&rt, rt.alloc());
    let mut disks = MemDisks::new(Vec::new(rt.alloc()), Vec::new(rt.alloc()));
    assert!(rt; run.trace().is_empty());
    assert!(rt; is_done(&run.step(&DevLine::Irq, &mut disks)));
    assert!(rt; were_made(run.trace(), &[(false, 0x14, 0), (false, 0x20, 0)]));
    assert!(rt; is_done(&run.step(&DevLine::Bus(BusEvent::Reset), &mut disks)));
    assert!(rt; run.trace().is_empty());
    assert!(rt; is_done(&run.step(&DevLine::Irq, &mut disks)));
    let expected = [
        (false, 0x14, 0x3000),
        (true, 0x800, 0),
        (true, 0x900, 0x4800_0000),
        (true, 0xb00, 0x4800_0000),
        (true, 0x920, 0x4800_0000),
        (true, 0xb20, 0x4800_0000),
        (true, 0x940, 0x4800_0000),
        (true, 0xb40, 0x4800_0000),
        (true, 0x960, 0x4800_0000),
        (true, 0xb60, 0x4800_0000),
        (true, 0x10, 0x420),
        (false, 0x20, 0),
        (true, 0x908, 3),
        (true, 0xb08, 11),
        (true, 0x928, 3),
        (true, 0xb28, 11),
        (true, 0x948, 3),
        (true, 0xb48, 11),
        (true, 0x968, 3),
        (true, 0xb68, 11),
        (true, 0x14, 0x3000),
    ];
    assert!(rt; were_made(run.trace(), &expected));
}

/// The run that notes a SETUP pops its entries (packet status 6 with 8 bytes, and 4) and reads its two words, the lowest byte
/// first. The task that takes it makes no access, and `state` makes none.
#[test]
fn hears_a_setup(rt: HostRuntime) {
    let mut run = opened(&rt, rt.alloc());
    let mut disks = MemDisks::new(Vec::new(rt.alloc()), Vec::new(rt.alloc()));
    run.step(&DevLine::Bus(BusEvent::Reset), &mut disks);
    run.step(&DevLine::Irq, &mut disks);
    let setup = BusEvent::Setup {
        addr: 0,
        bytes: DESCRIPTOR,
        ok: true,
    };
    assert!(rt;
        matches!(
            run.step(&DevLine::Bus(setup), &mut disks),
            Answer::Bus(BusAnswer::Ack)
        )
    );
    assert!(rt; run.trace().is_empty());
    assert!(rt; is_done(&run.step(&DevLine::Irq, &mut disks)));
    let expected = [
        (false, 0x14, 0x10),
        (false, 0x20, 0x000c_0080),
        (false, 0x1000, 0x0100_0680),
        (false, 0x1000, 0x0012_0000),
        (false, 0x20, 0x0008_0000),
        (true, 0x900, 0x4800_0000),
        (true, 0xb00, 0x4800_0000),
        (true, 0xb08, 11),
        (false, 0x20, 0),
    ];
    assert!(rt; were_made(run.trace(), &expected));
    assert!(rt; is_done(&run.step(&DevLine::Task, &mut disks)));
    assert!(rt; run.trace().is_empty());
    let state = run.step(&DevLine::Call(DevCall::State), &mut disks);
    assert!(rt; matches!(state, Answer::Reply(Reply::Core(0, 0))));
    assert!(rt; run.trace().is_empty());
}

/// The run behind that task writes the size of the packet before it enables the endpoint, then its words, the lowest byte
/// first, clears XFRC and ends the NAK last. Since no more data comes, it arms the status stage: one packet of 64 bytes and
/// three SETUPs, EPENA and CNAK.
#[test]
fn loads_a_descriptor(rt: HostRuntime) {
    let mut run = opened(&rt, rt.alloc());
    let mut disks = MemDisks::new(Vec::new(rt.alloc()), Vec::new(rt.alloc()));
    let setup = BusEvent::Setup {
        addr: 0,
        bytes: DESCRIPTOR,
        ok: true,
    };
    run.step(&DevLine::Bus(BusEvent::Reset), &mut disks);
    run.step(&DevLine::Irq, &mut disks);
    run.step(&DevLine::Bus(setup), &mut disks);
    run.step(&DevLine::Irq, &mut disks);
    run.step(&DevLine::Task, &mut disks);
    run.step(&DevLine::Irq, &mut disks);
    let expected = [
        (false, 0x14, 0x0004_0000),
        (false, 0x20, 0),
        (true, 0x910, 0x0008_0012),
        (true, 0x900, 0x8800_0000),
        (true, 0x1000, 0x0200_0112),
        (true, 0x1000, 0x4000_0000),
        (true, 0x1000, 0x4001_cafe),
        (true, 0x1000, 0x0000_0100),
        (true, 0x1000, 0x0000_0100),
        (true, 0x908, 1),
        (true, 0x900, 0x0400_0000),
        (true, 0xb10, 0x6008_0040),
        (true, 0xb00, 0x8400_0000),
    ];
    assert!(rt; were_made(run.trace(), &expected));
}
