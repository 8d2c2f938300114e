//! The driver over a controller that isn't woken yet.
ghost use Rattle.std.specs.Prelude.{◌≡◌, []};
ghost use Rattle.dwc2_access.specs.Registers.{IsRegister};

use crate::bench::{Bench, PLAN};
use dwc2_access::Regs;
use dwc2_device::DevPort;
use dwc2_devmodel::DevCore;
use dwc2_regs::{DIEPEMPMSK, DIEPTXF0, FS4, GINTMSK, GRXFSIZ};
use usb_packet::{BusAnswer, BusEvent};

/// A driver over a controller that is opened.
fn opened() -> DevPort<DevCore>
    ensures { result.bank.due ≡ [] }
{
    let mut port = DevPort::new(DevCore::new(FS4), FS4);
    port.init(&PLAN);
    port
}

/// What a register reads.
fn read(port: &mut DevPort<DevCore>, off: u16) -> u32
    requires known { IsRegister off }
    requires still { port.old.bank.due ≡ [] }
    ensures { port.new.bank.due ≡ [] }
{
    port.regs().begin();
    port.regs().read(off)
}

/// The masks are ones but that of an empty transmit FIFO, and the sizes are the plan's, laid end to end.
#[test]
fn opened_words(rt: HostRuntime) {
    let mut port = opened();
    assert_eq!(rt; read(&mut port, GINTMSK), 0xffff_ffff);
    assert_eq!(rt; read(&mut port, DIEPEMPMSK), 0);
    assert_eq!(rt; read(&mut port, GRXFSIZ), 84);
    assert_eq!(rt; read(&mut port, DIEPTXF0), 0x0010_0054);
}

/// On a device that no reset has woken, calls at addresses where no endpoint is open, and a handler run, change nothing.
#[test]
fn asleep(rt: HostRuntime) {
    let mut bench = Bench::new(&rt, rt.alloc(), &[]);
    bench.bring(9);
    for addr in [0, 1, 0x81, 0xff] {
        bench.halt(addr);
        bench.clear(addr);
    }
    bench.close();
    assert!(rt; bench.none_halted());
    bench.irq();
    assert!(rt; matches!(bench.note(), None));
    let token = BusEvent::In {
        addr: 0,
        ep: 0,
        ok: true,
    };
    assert!(rt; matches!(bench.bus(&token), BusAnswer::NoAnswer));
}
