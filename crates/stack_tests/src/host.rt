//! The controller in host mode, by the words that a driver writes and reads, worked by hand from its register table.
use dwc2_hostmodel::HostCore;
use dwc2_regs::{
    FS4, GINTMSK, GINTSTS, HAINTMSK, HPRT, fifo_window, hcchar, hcint, hcintmsk, hctsiz,
};
use host_table::HostSent;
use usb_packet::BusAnswer;

/// A SETUP that asks for the first 8 bytes of the device descriptor.
const SETUP: [u8; 8] = [0x80, 0x06, 0x00, 0x01, 0x00, 0x00, 0x08, 0x00];

/// What a register reads.
fn get(core: &mut HostCore, off: u16) -> u32 {
    core.begin();
    core.read(off)
}

/// A word is written to a register.
fn put(core: &mut HostCore, off: u16, word: u32) {
    core.begin();
    core.write(off, word);
}

/// A controller with power on its port, and with all interrupts of the core and of channel 0 enabled.
fn opened() -> HostCore {
    let mut core = HostCore::new(FS4);
    put(&mut core, HPRT, 0x0000_1000);
    put(&mut core, GINTMSK, 0xffff_ffff);
    put(&mut core, HAINTMSK, 0xffff_ffff);
    put(&mut core, hcintmsk(0), 0xffff_ffff);
    core
}

fn is_setup(sent: &HostSent, bytes: &[u8]) -> bool {
    match sent {
        HostSent::Setup(its) => its.as_slice() == bytes,
        _ => false,
    }
}

/// A device is attached and reset, and takes a SETUP on channel 0.
#[test]
fn first_setup(rt: HostRuntime) {
    let mut core = opened();
    core.attach();
    assert_eq!(rt; get(&mut core, HPRT), 0x0000_1003);
    assert_eq!(rt; get(&mut core, GINTSTS), 0x0100_0000);
    put(&mut core, HPRT, 0x0000_1102);
    put(&mut core, HPRT, 0x0000_1000);
    assert_eq!(rt; get(&mut core, HPRT), 0x0000_100d);
    assert!(rt; core.take_reset());
    assert!(rt; !core.take_reset());
    put(&mut core, hctsiz(0), 0x6008_0008);
    put(&mut core, hcchar(0), 0x8000_0040);
    put(&mut core, fifo_window(0), 0x0100_0680);
    put(&mut core, fifo_window(0), 0x0008_0000);
    assert!(rt; is_setup(&core.offer(0, 0), &SETUP));
    assert!(rt; is_setup(&core.xact(0, 0, &BusAnswer::Ack), &SETUP));
    assert_eq!(rt; get(&mut core, hcint(0)), 0x0000_0023);
    assert_eq!(rt; get(&mut core, hcchar(0)), 0x0000_0040);
    assert!(rt; matches!(core.offer(0, 0), HostSent::Idle));
    assert_eq!(rt; core.accesses().len(), 1);
    core.detach();
    assert_eq!(rt; get(&mut core, HPRT), 0x0000_1008);
}
