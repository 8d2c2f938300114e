//! Words that the driver writes.
ghost use Rattle.std.specs.Prelude.{◌≡◌};
ghost use Rattle.device_relation.specs.Run.{xfrc, all_in_interrupts, all_out_interrupts, reset_bits};

use bitflags::Flags;
use dwc2_regs::{
    CoreInterrupts, DIEPCTL_CNAK, DIEPCTL_EPDIS, DIEPCTL_EPENA, DIEPCTL_SD0PID, DIEPCTL_SNAK,
    DIEPCTL_STALL, DIEPCTL_USBAEP, EndpointInterrupts, GRSTCTL_TXFFLSH, GRSTCTL_TXFNUM,
};

/// DIEPCTLx and DOEPCTLx, which have these bits in common: SNAK and EPDIS.
pub const SNAK_EPDIS: u32 = 1 << DIEPCTL_SNAK.low | 1 << DIEPCTL_EPDIS.low;

/// SNAK and EPENA.
pub const SNAK_EPENA: u32 = 1 << DIEPCTL_SNAK.low | 1 << DIEPCTL_EPENA.low;

/// CNAK.
pub const CNAK: u32 = 1 << DIEPCTL_CNAK.low;

/// CNAK and EPENA.
pub const CNAK_EPENA: u32 = 1 << DIEPCTL_CNAK.low | 1 << DIEPCTL_EPENA.low;

/// STALL.
pub const STALL: u32 = 1 << DIEPCTL_STALL.low;

/// USBAEP.
pub const USBAEP: u32 = 1 << DIEPCTL_USBAEP.low;

/// SD0PID.
pub const SD0PID: u32 = 1 << DIEPCTL_SD0PID.low;

/// SNAK and SD0PID.
pub const SNAK_SD0PID: u32 = 1 << DIEPCTL_SNAK.low | 1 << DIEPCTL_SD0PID.low;

/// SNAK, SD0PID and EPDIS.
pub const SNAK_SD0PID_EPDIS: u32 = 1 << DIEPCTL_SNAK.low
    | 1 << DIEPCTL_SD0PID.low
    | 1 << DIEPCTL_EPDIS.low;

/// GRSTCTL: TXFFLSH of the FIFO whose number stands in TXFNUM.
pub const FLUSH: u32 = 1 << GRSTCTL_TXFFLSH.low;

/// GRSTCTL: TXFFLSH of all transmit FIFOs.
pub const FLUSH_ALL: u32 = 1 << GRSTCTL_TXFFLSH.low | 16 << GRSTCTL_TXFNUM.low;

/// DIEPINTx and DOEPINTx: XFRC.
#[inline(always)]
pub fn xfrc() -> u32
    ensures { result ≡ xfrc }
{
    EndpointInterrupts::XFRC.bits()
}

/// DIEPINTx: XFRC and EPDISD.
#[inline(always)]
pub fn all_in_interrupts() -> u32
    ensures { result ≡ all_in_interrupts }
{
    EndpointInterrupts::XFRC
        .union(EndpointInterrupts::EPDISD)
        .bits()
}

/// DOEPINTx: XFRC, EPDISD and STUP.
#[inline(always)]
pub fn all_out_interrupts() -> u32
    ensures { result ≡ all_out_interrupts }
{
    EndpointInterrupts::XFRC
        .union(EndpointInterrupts::EPDISD)
        .union(EndpointInterrupts::STUP)
        .bits()
}

/// GINTSTS: USBRST and ENUMDNE.
#[inline(always)]
pub fn reset_bits() -> u32
    ensures { result ≡ reset_bits }
{
    CoreInterrupts::USBRST.union(CoreInterrupts::ENUMDNE).bits()
}
