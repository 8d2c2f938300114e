//! Interrupt registers as sets of their bits.
ghost use Rattle.std.specs.Prelude.{⊤};
ghost use Rattle.dwc2_regs.specs.Interrupts.{core_interrupts, channel_interrupts, endpoint_interrupts};

use bitflags::{Flag, Flags, bitflag_items};

/// Interrupts of the core: GINTSTS and GINTMSK.
#[derive(Clone, Copy, Debug, PartialEq, Eq)]
pub struct CoreInterrupts(u32);

bitflag_items! {
    impl CoreInterrupts: u32 {
        /// The receive FIFO has an entry.
        const RXFLVL = 1 << 4;
        /// Bus reset.
        const USBRST = 1 << 12;
        /// Speed found after a reset.
        const ENUMDNE = 1 << 13;
        /// An IN endpoint interrupts.
        const IEPINT = 1 << 18;
        /// An OUT endpoint interrupts.
        const OEPINT = 1 << 19;
        /// The host port interrupts.
        const HPRTINT = 1 << 24;
        /// A channel interrupts.
        const HCINT = 1 << 25;
        /// The device was detached.
        const DISCINT = 1 << 29;
    }
}

impl Flags for CoreInterrupts {
    type Bits = u32;

    ghost exact = { ⊤ };

    ghost table = { core_interrupts };

    ghost set_of = { λ set. set.0 };

    fn flags<'a>() -> &'a [Flag<CoreInterrupts>] {
        CoreInterrupts::FLAGS
    }

    fn bits(&self) -> u32 {
        self.0
    }

    fn from_bits_retain(bits: u32) -> CoreInterrupts {
        CoreInterrupts(bits)
    }
}

/// Interrupts of a channel: HCINTx and HCINTMSKx.
#[derive(Clone, Copy, Debug, PartialEq, Eq)]
pub struct ChannelInterrupts(u32);

bitflag_items! {
    impl ChannelInterrupts: u32 {
        /// The transfer is complete.
        const XFRC = 1 << 0;
        /// The channel halted.
        const CHH = 1 << 1;
        /// STALL was answered.
        const STALL = 1 << 3;
        /// NAK was answered.
        const NAK = 1 << 4;
        /// ACK was answered or sent.
        const ACK = 1 << 5;
        /// No answer, or a damaged one.
        const TXERR = 1 << 7;
        /// Data with the wrong toggle.
        const DTERR = 1 << 10;
    }
}

impl Flags for ChannelInterrupts {
    type Bits = u32;

    ghost exact = { ⊤ };

    ghost table = { channel_interrupts };

    ghost set_of = { λ set. set.0 };

    fn flags<'a>() -> &'a [Flag<ChannelInterrupts>] {
        ChannelInterrupts::FLAGS
    }

    fn bits(&self) -> u32 {
        self.0
    }

    fn from_bits_retain(bits: u32) -> ChannelInterrupts {
        ChannelInterrupts(bits)
    }
}

/// Interrupts of an endpoint: DIEPINTx, DOEPINTx and their masks.
#[derive(Clone, Copy, Debug, PartialEq, Eq)]
pub struct EndpointInterrupts(u32);

bitflag_items! {
    impl EndpointInterrupts: u32 {
        /// The transfer is complete.
        const XFRC = 1 << 0;
        /// The endpoint was disabled.
        const EPDISD = 1 << 1;
        /// A SETUP is complete, of OUT endpoints alone.
        const STUP = 1 << 3;
        /// The transmit FIFO has room for a packet, of IN endpoints alone.
        const TXFE = 1 << 7;
    }
}

impl Flags for EndpointInterrupts {
    type Bits = u32;

    ghost exact = { ⊤ };

    ghost table = { endpoint_interrupts };

    ghost set_of = { λ set. set.0 };

    fn flags<'a>() -> &'a [Flag<EndpointInterrupts>] {
        EndpointInterrupts::FLAGS
    }

    fn bits(&self) -> u32 {
        self.0
    }

    fn from_bits_retain(bits: u32) -> EndpointInterrupts {
        EndpointInterrupts(bits)
    }
}
