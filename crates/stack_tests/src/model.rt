//! Words and answers of the controller, worked by hand from its register table.
ghost use Rattle.std.specs.Prelude.{◌≡◌, []};
ghost use Rattle.dwc2_access.specs.Registers.{IsRegister};

use dwc2_access::{Regs, Traced};
use dwc2_devmodel::DevCore;
use dwc2_regs::{
    DAINT, DAINTMSK, DCFG, DIEPTSIZ0, DOEPMSK, FS4, GINTSTS, GRSTCTL, GRXSTSP, GRXSTSR, diepctl,
    diepint, dieptsiz, doepctl, doepint, dtxfsts, fifo_window,
};
use usb_packet::{BusAnswer, BusEvent, Packet, Toggle};

/// What a register reads.
fn get(core: &mut DevCore, off: u16) -> u32
    requires known { IsRegister off }
    requires still { core.old.due ≡ [] }
    ensures { core.new.due ≡ [] }
{
    core.begin();
    core.read(off)
}

/// A word is written to a register.
fn put(core: &mut DevCore, off: u16, word: u32)
    requires known { IsRegister off }
    requires still { core.old.due ≡ [] }
    ensures { core.new.due ≡ [] }
{
    core.begin();
    core.write(off, word);
}

/// A controller that a reset has woken.
fn woken() -> DevCore
    ensures { result.due ≡ [] }
{
    let mut core = DevCore::new(FS4);
    core.bus(&BusEvent::Reset);
    put(&mut core, GINTSTS, 0x0000_3000);
    core
}

/// A SETUP that asks for the device descriptor.
fn setup(core: &mut DevCore) -> BusAnswer
    requires { core.old.due ≡ [] }
    ensures { core.new.due ≡ [] }
{
    core.bus(&BusEvent::Setup {
        addr: 0,
        bytes: [0x80, 0x06, 0x00, 0x01, 0x00, 0x00, 0x12, 0x00],
        ok: true,
    })
}

/// The two entries of a SETUP are popped.
fn serve(core: &mut DevCore)
    requires { core.old.due ≡ [] }
    ensures { core.new.due ≡ [] }
{
    get(core, GRXSTSP);
    get(core, GRXSTSP);
}

/// An OUT packet to address 0.
fn out(core: &mut DevCore, ep: u8, toggle: Toggle, bytes: &[u8]) -> BusAnswer
    requires { core.old.due ≡ [] }
    ensures { core.new.due ≡ [] }
{
    let packet = match Packet::new(bytes) {
        Ok(packet) => packet,
        Err(_) => Packet::empty(),
    };
    core.bus(&BusEvent::Out {
        addr: 0,
        ep,
        toggle,
        packet,
        ok: true,
    })
}

/// An IN token to address 0.
fn token(core: &mut DevCore, ep: u8, ok: bool) -> BusAnswer
    requires { core.old.due ≡ [] }
    ensures { core.new.due ≡ [] }
{
    core.bus(&BusEvent::In { addr: 0, ep, ok })
}

fn is_data(answer: &BusAnswer, toggle: Toggle, bytes: &[u8]) -> bool {
    match answer {
        BusAnswer::Data(its, packet) => *its == toggle && packet.bytes() == bytes,
        _ => false,
    }
}

#[test]
fn setup_words(rt: HostRuntime) {
    let mut core = woken();
    assert_eq!(rt; get(&mut core, GINTSTS), 0);
    assert!(rt; matches!(setup(&mut core), BusAnswer::Ack));
    assert_eq!(rt; get(&mut core, GINTSTS), 0x0000_0010);
    assert_eq!(rt; get(&mut core, GRXSTSR), 0x000c_0080);
    assert_eq!(rt; get(&mut core, GRXSTSP), 0x000c_0080);
    assert_eq!(rt; get(&mut core, GINTSTS), 0);
    assert_eq!(rt; get(&mut core, fifo_window(0)), 0x0100_0680);
    assert_eq!(rt; get(&mut core, fifo_window(0)), 0x0012_0000);
    assert_eq!(rt; get(&mut core, fifo_window(0)), 0);
    assert_eq!(rt; get(&mut core, doepint(0)), 0);
    assert_eq!(rt; get(&mut core, GRXSTSP), 0x0008_0000);
    assert_eq!(rt; get(&mut core, doepint(0)), 0x0000_0008);
    assert_eq!(rt; get(&mut core, GRXSTSP), 0);
}

/// A DATA0 packet of no bytes, and then a DATA1 packet of five on endpoint 1.
#[test]
fn out_packets(rt: HostRuntime) {
    let mut core = woken();
    put(&mut core, doepctl(1), 0x8400_8040);
    assert_eq!(rt; get(&mut core, doepctl(1)), 0x8000_8040);
    assert!(rt; matches!(out(&mut core, 1, Toggle::D0, &[]), BusAnswer::Ack));
    assert_eq!(rt; get(&mut core, doepctl(1)), 0x0002_8040);
    assert_eq!(rt; get(&mut core, GRXSTSP), 0x0004_0001);
    assert_eq!(rt; get(&mut core, GRXSTSP), 0x0006_0001);
    assert!(rt; matches!(out(&mut core, 1, Toggle::D1, b"abcde"), BusAnswer::Nak));
    put(&mut core, doepctl(1), 0x8400_8040);
    assert!(rt; matches!(out(&mut core, 1, Toggle::D1, b"abcde"), BusAnswer::Ack));
    assert_eq!(rt; get(&mut core, GRXSTSP), 0x0005_0051);
    assert_eq!(rt; get(&mut core, fifo_window(0)), 0x6463_6261);
    assert_eq!(rt; get(&mut core, GRXSTSP), 0x0006_0001);
    assert_eq!(rt; get(&mut core, fifo_window(0)), 0);
}

/// A packet with the other toggle is acknowledged and dropped.
#[test]
fn wrong_toggle(rt: HostRuntime) {
    let mut core = woken();
    put(&mut core, doepctl(1), 0x8400_8040);
    assert!(rt; matches!(out(&mut core, 1, Toggle::D1, b"abc"), BusAnswer::Ack));
    assert_eq!(rt; get(&mut core, GRXSTSP), 0);
    assert_eq!(rt; get(&mut core, doepctl(1)), 0x8000_8040);
    assert!(rt; matches!(out(&mut core, 1, Toggle::D0, b"abc"), BusAnswer::Ack));
    assert_eq!(rt; get(&mut core, GRXSTSP), 0x0004_0031);
}

/// A packet on endpoint 0 that came before is acknowledged and dropped, and STALL is asked first.
#[test]
fn repeated_packet(rt: HostRuntime) {
    let mut core = woken();
    setup(&mut core);
    assert!(rt; matches!(out(&mut core, 0, Toggle::D1, &[]), BusAnswer::Nak));
    serve(&mut core);
    put(&mut core, doepctl(0), 0x8400_0000);
    assert!(rt; matches!(out(&mut core, 0, Toggle::D1, &[]), BusAnswer::Ack));
    assert!(rt; matches!(out(&mut core, 0, Toggle::D1, &[]), BusAnswer::Ack));
    assert!(rt; matches!(out(&mut core, 0, Toggle::D0, &[]), BusAnswer::Nak));
    assert_eq!(rt; get(&mut core, GRXSTSP), 0x0005_0000);
    assert_eq!(rt; get(&mut core, GRXSTSP), 0x0006_0000);
    assert_eq!(rt; get(&mut core, GRXSTSP), 0);
    put(&mut core, doepctl(0), 0x0020_0000);
    assert!(rt; matches!(out(&mut core, 0, Toggle::D1, &[]), BusAnswer::Stall));
}

/// CNAK on endpoint 0 waits until no entry of a SETUP lies there, and a SETUP ends a stall.
#[test]
fn cnak_waits(rt: HostRuntime) {
    let mut core = woken();
    put(&mut core, diepctl(0), 0x0020_0000);
    assert!(rt; matches!(token(&mut core, 0, true), BusAnswer::Stall));
    setup(&mut core);
    assert!(rt; matches!(token(&mut core, 0, true), BusAnswer::Nak));
    put(&mut core, diepctl(0), 0x0400_0000);
    assert_eq!(rt; get(&mut core, diepctl(0)), 0x0002_0000);
    get(&mut core, GRXSTSP);
    put(&mut core, diepctl(0), 0x0400_0000);
    assert_eq!(rt; get(&mut core, diepctl(0)), 0x0002_0000);
    get(&mut core, GRXSTSP);
    put(&mut core, diepctl(0), 0x0400_0000);
    assert_eq!(rt; get(&mut core, diepctl(0)), 0);
}

/// With three SETUPs unserved the fourth isn't answered. One that a flush took stays unserved.
#[test]
fn fourth_setup(rt: HostRuntime) {
    let mut core = woken();
    assert!(rt; matches!(setup(&mut core), BusAnswer::Ack));
    assert!(rt; matches!(setup(&mut core), BusAnswer::Ack));
    assert!(rt; matches!(setup(&mut core), BusAnswer::Ack));
    assert!(rt; matches!(setup(&mut core), BusAnswer::NoAnswer));
    serve(&mut core);
    assert!(rt; matches!(setup(&mut core), BusAnswer::Ack));
    put(&mut core, GRSTCTL, 0x0000_0010);
    assert_eq!(rt; get(&mut core, GRXSTSP), 0);
    assert!(rt; matches!(setup(&mut core), BusAnswer::NoAnswer));
    put(&mut core, diepctl(0), 0x0400_0000);
    assert_eq!(rt; get(&mut core, diepctl(0)), 0);
}

/// EPDIS disables and sets EPDISD, which a written 1 clears.
#[test]
fn disabled(rt: HostRuntime) {
    let mut core = woken();
    put(&mut core, diepctl(1), 0x8800_8040);
    assert_eq!(rt; get(&mut core, diepctl(1)), 0x8002_8040);
    put(&mut core, diepctl(1), 0x4400_8040);
    assert_eq!(rt; get(&mut core, diepctl(1)), 0x0000_8040);
    assert_eq!(rt; get(&mut core, diepint(1)), 0x0000_0082);
    put(&mut core, diepint(1), 0x0000_0002);
    assert_eq!(rt; get(&mut core, diepint(1)), 0x0000_0080);
}

/// TXFFLSH empties the FIFO that TXFNUM names, or all.
#[test]
fn flushed(rt: HostRuntime) {
    let mut core = woken();
    put(&mut core, dieptsiz(1), 0x0008_0004);
    put(&mut core, dieptsiz(2), 0x0008_0005);
    put(&mut core, fifo_window(1), 0x6463_6261);
    put(&mut core, fifo_window(1), 0x6463_6261);
    put(&mut core, fifo_window(2), 0x6463_6261);
    assert_eq!(rt; get(&mut core, dtxfsts(1)), 31);
    assert_eq!(rt; get(&mut core, dtxfsts(2)), 30);
    put(&mut core, GRSTCTL, 0x0000_0060);
    assert_eq!(rt; get(&mut core, GRSTCTL), 0x0000_0040);
    assert_eq!(rt; get(&mut core, dtxfsts(1)), 32);
    assert_eq!(rt; get(&mut core, dtxfsts(2)), 30);
    put(&mut core, GRSTCTL, 0x0000_0420);
    assert_eq!(rt; get(&mut core, dtxfsts(2)), 32);
    put(&mut core, diepctl(1), 0x8400_8040);
    assert!(rt; matches!(token(&mut core, 1, true), BusAnswer::Nak));
}

/// A status stage: size 0 and count 1 give an empty packet.
#[test]
fn empty_packet(rt: HostRuntime) {
    let mut core = woken();
    setup(&mut core);
    serve(&mut core);
    put(&mut core, DIEPTSIZ0, 0x0008_0000);
    put(&mut core, diepctl(0), 0x8400_0000);
    assert!(rt; is_data(&token(&mut core, 0, false), Toggle::D1, &[]));
    assert_eq!(rt; get(&mut core, diepint(0)), 0x0000_0080);
    assert!(rt; is_data(&token(&mut core, 0, true), Toggle::D1, &[]));
    assert_eq!(rt; get(&mut core, diepint(0)), 0x0000_0081);
    assert_eq!(rt; get(&mut core, DIEPTSIZ0), 0);
    assert!(rt; matches!(token(&mut core, 0, true), BusAnswer::Nak));
}

/// Ten bytes in packets of eight. XFRC comes with the last one, and only with its acknowledgement.
#[test]
fn two_packets(rt: HostRuntime) {
    let mut core = woken();
    put(&mut core, dieptsiz(1), 0x0010_000a);
    put(&mut core, diepctl(1), 0x8800_8008);
    put(&mut core, fifo_window(1), 0x6463_6261);
    put(&mut core, fifo_window(1), 0x6867_6665);
    put(&mut core, fifo_window(1), 0xffff_6a69);
    put(&mut core, fifo_window(1), 0x0000_0000);
    assert_eq!(rt; get(&mut core, dtxfsts(1)), 29);
    assert!(rt; matches!(token(&mut core, 1, true), BusAnswer::Nak));
    put(&mut core, diepctl(1), 0x0400_8008);
    assert!(rt; is_data(&token(&mut core, 1, true), Toggle::D0, b"abcdefgh"));
    assert_eq!(rt; get(&mut core, diepint(1)), 0x0000_0080);
    assert_eq!(rt; get(&mut core, dieptsiz(1)), 0x0008_000a);
    assert!(rt; is_data(&token(&mut core, 1, false), Toggle::D1, b"ij"));
    assert_eq!(rt; get(&mut core, diepint(1)), 0x0000_0080);
    assert!(rt; is_data(&token(&mut core, 1, true), Toggle::D1, b"ij"));
    assert_eq!(rt; get(&mut core, diepint(1)), 0x0000_0081);
    assert_eq!(rt; get(&mut core, diepctl(1)), 0x0000_8008);
}

/// No answer: from the start on, after a reset, at another address, to a packet that is too long, and where no
/// endpoint is open.
#[test]
fn no_answer(rt: HostRuntime) {
    let mut core = DevCore::new(FS4);
    assert!(rt; matches!(setup(&mut core), BusAnswer::NoAnswer));
    assert!(rt; matches!(core.bus(&BusEvent::Reset), BusAnswer::Done));
    assert_eq!(rt; get(&mut core, GINTSTS), 0x0000_3000);
    assert!(rt; matches!(setup(&mut core), BusAnswer::NoAnswer));
    put(&mut core, GINTSTS, 0x0000_1000);
    assert_eq!(rt; get(&mut core, GINTSTS), 0x0000_2000);
    put(&mut core, doepctl(1), 0x8400_8008);
    assert!(rt;
        matches!(
            out(&mut core, 1, Toggle::D0, b"abcdefghi"),
            BusAnswer::NoAnswer
        )
    );
    assert!(rt; matches!(out(&mut core, 2, Toggle::D0, b"a"), BusAnswer::NoAnswer));
    assert!(rt; matches!(out(&mut core, 9, Toggle::D0, b"a"), BusAnswer::NoAnswer));
    put(&mut core, DCFG, 0x0000_0050);
    assert!(rt;
        matches!(
            out(&mut core, 1, Toggle::D0, b"abcdefgh"),
            BusAnswer::NoAnswer
        )
    );
    put(&mut core, DCFG, 0);
    assert!(rt; matches!(out(&mut core, 1, Toggle::D0, b"abcdefgh"), BusAnswer::Ack));
}

/// A packet's end interrupts under the masks.
#[test]
fn interrupts(rt: HostRuntime) {
    let mut core = woken();
    put(&mut core, doepctl(1), 0x8400_8040);
    out(&mut core, 1, Toggle::D0, b"a");
    get(&mut core, GRXSTSP);
    assert_eq!(rt; get(&mut core, doepint(1)), 0);
    get(&mut core, GRXSTSP);
    assert_eq!(rt; get(&mut core, doepint(1)), 0x0000_0001);
    assert_eq!(rt; get(&mut core, DAINT), 0);
    put(&mut core, DOEPMSK, 0x0000_0001);
    assert_eq!(rt; get(&mut core, DAINT), 0x0002_0000);
    assert_eq!(rt; get(&mut core, GINTSTS), 0);
    put(&mut core, DAINTMSK, 0x0002_0000);
    assert_eq!(rt; get(&mut core, GINTSTS), 0x0008_0000);
    put(&mut core, doepint(1), 0x0000_0001);
    assert_eq!(rt; get(&mut core, GINTSTS), 0);
}

/// A packet that lands on endpoint 0 ends what stood ready for the host there.
#[test]
fn landing_ends_data(rt: HostRuntime) {
    let mut core = woken();
    setup(&mut core);
    serve(&mut core);
    put(&mut core, DIEPTSIZ0, 0x0008_0004);
    put(&mut core, diepctl(0), 0x8400_0000);
    put(&mut core, fifo_window(0), 0x6463_6261);
    put(&mut core, doepctl(0), 0x8400_0000);
    assert_eq!(rt; get(&mut core, dtxfsts(0)), 15);
    assert!(rt; matches!(out(&mut core, 0, Toggle::D1, &[]), BusAnswer::Ack));
    assert_eq!(rt; get(&mut core, dtxfsts(0)), 16);
    assert_eq!(rt; get(&mut core, diepctl(0)), 0);
    assert!(rt; matches!(token(&mut core, 0, true), BusAnswer::Nak));
}

/// The accesses are listed in order, as reads and writes, until the list begins anew.
#[test]
fn listed(rt: HostRuntime) {
    let mut core = Traced::new(DevCore::new(FS4));
    core.begin();
    core.write(DCFG, 0x0000_0050);
    assert_eq!(rt; core.read(DCFG), 0x0000_0050);
    assert!(rt; matches!(core.inner().bus(&BusEvent::Reset), BusAnswer::Done));
    let accesses = core.accesses();
    assert_eq!(rt; accesses.len(), 2);
    assert!(rt; accesses[0].write && !accesses[1].write);
    assert_eq!(rt; accesses[1].off, 0x800);
    core.begin();
    assert!(rt; core.accesses().is_empty());
}
