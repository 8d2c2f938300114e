//! The registers of the DWC2 USB controller (after RM0090, OTG_FS): where each stands, which fields it
//! has, how a field is read and written, how bytes stand in the words of a FIFO, and the interrupt
//! registers as sets.
//!
//! A register is a word of 32 bits. A constant of a register's name is its offset in bytes from the
//! controller's base, and a constant of a register's and a field's name is that field. Where there is a
//! register for each endpoint or channel, a function of its number gives the offset. No access is made
//! here: this crate is the vocabulary of the controller model and of the drivers.
#![tactic(auto)]

mod access;
mod bits;
mod interrupts;
mod offsets;
#[cfg(test)]
mod tests;
mod words;

pub use access::{Access, During, FS4, Profile};
pub use bits::{Field, get_field, put_field};
pub use interrupts::{ChannelInterrupts, CoreInterrupts, EndpointInterrupts};
pub use offsets::{
    diepctl, diepint, dieptsiz, dieptxf, doepctl, doepint, doeptsiz, dtxfsts, fifo_window, hcchar,
    hcint, hcintmsk, hctsiz,
};
pub use words::{pack_word, unpack_word, word_bytes};

// Offsets.

/// Core reset.
pub const GRSTCTL: u16 = 0x010;

/// Core interrupts.
pub const GINTSTS: u16 = 0x014;

/// Core interrupt mask.
pub const GINTMSK: u16 = 0x018;

/// Front entry of the receive FIFO, which stays.
pub const GRXSTSR: u16 = 0x01c;

/// Front entry of the receive FIFO, which is taken.
pub const GRXSTSP: u16 = 0x020;

/// Size of the receive FIFO.
pub const GRXFSIZ: u16 = 0x024;

/// Size of the transmit FIFO of endpoint 0.
pub const DIEPTXF0: u16 = 0x028;

/// Size of the host's non-periodic transmit FIFO, the register `DIEPTXF0` under its name in host mode.
pub const HNPTXFSIZ: u16 = 0x028;

/// Size of the host's periodic transmit FIFO.
pub const HPTXFSIZ: u16 = 0x100;

/// Host configuration.
pub const HCFG: u16 = 0x400;

/// Interrupts of all channels.
pub const HAINT: u16 = 0x414;

/// Mask of the interrupts of all channels.
pub const HAINTMSK: u16 = 0x418;

/// Host port.
pub const HPRT: u16 = 0x440;

/// Device configuration.
pub const DCFG: u16 = 0x800;

/// Device control.
pub const DCTL: u16 = 0x804;

/// Device status.
pub const DSTS: u16 = 0x808;

/// Mask of the interrupts of each IN endpoint.
pub const DIEPMSK: u16 = 0x810;

/// Mask of the interrupts of each OUT endpoint.
pub const DOEPMSK: u16 = 0x814;

/// Interrupts of all endpoints.
pub const DAINT: u16 = 0x818;

/// Mask of the interrupts of all endpoints.
pub const DAINTMSK: u16 = 0x81c;

/// Mask of the interrupts of empty transmit FIFOs.
pub const DIEPEMPMSK: u16 = 0x834;

/// Transfer size of endpoint 0, IN.
pub const DIEPTSIZ0: u16 = 0x910;

/// Transfer size of endpoint 0, OUT.
pub const DOEPTSIZ0: u16 = 0xb10;

// Fields.

/// The bits from the first number down to the second, or the one bit, as a register's description has it.
macro_rules! bits {
    ($high:literal .. $low:literal) => {
        Field {
            low: $low,
            width: $high - $low + 1,
        }
    };
    ($bit:literal) => {
        Field {
            low: $bit,
            width: 1,
        }
    };
}

/// GRSTCTL: flush the receive FIFO.
pub const GRSTCTL_RXFFLSH: Field = bits!(4);

/// GRSTCTL: flush the transmit FIFO that TXFNUM names.
pub const GRSTCTL_TXFFLSH: Field = bits!(5);

/// GRSTCTL: the transmit FIFO to flush, 16 for all.
pub const GRSTCTL_TXFNUM: Field = bits!(10..6);

/// GINTSTS: the receive FIFO has an entry.
pub const GINTSTS_RXFLVL: Field = bits!(4);

/// GINTSTS: bus reset.
pub const GINTSTS_USBRST: Field = bits!(12);

/// GINTSTS: speed found after a reset.
pub const GINTSTS_ENUMDNE: Field = bits!(13);

/// GINTSTS: an IN endpoint interrupts.
pub const GINTSTS_IEPINT: Field = bits!(18);

/// GINTSTS: an OUT endpoint interrupts.
pub const GINTSTS_OEPINT: Field = bits!(19);

/// GINTSTS: the host port interrupts.
pub const GINTSTS_HPRTINT: Field = bits!(24);

/// GINTSTS: a channel interrupts.
pub const GINTSTS_HCINT: Field = bits!(25);

/// GINTSTS: the device was detached.
pub const GINTSTS_DISCINT: Field = bits!(29);

/// GINTMSK: the receive FIFO has an entry.
pub const GINTMSK_RXFLVL: Field = GINTSTS_RXFLVL;

/// GINTMSK: bus reset.
pub const GINTMSK_USBRST: Field = GINTSTS_USBRST;

/// GINTMSK: speed found after a reset.
pub const GINTMSK_ENUMDNE: Field = GINTSTS_ENUMDNE;

/// GINTMSK: an IN endpoint interrupts.
pub const GINTMSK_IEPINT: Field = GINTSTS_IEPINT;

/// GINTMSK: an OUT endpoint interrupts.
pub const GINTMSK_OEPINT: Field = GINTSTS_OEPINT;

/// GINTMSK: the host port interrupts.
pub const GINTMSK_HPRTINT: Field = GINTSTS_HPRTINT;

/// GINTMSK: a channel interrupts.
pub const GINTMSK_HCINT: Field = GINTSTS_HCINT;

/// GINTMSK: the device was detached.
pub const GINTMSK_DISCINT: Field = GINTSTS_DISCINT;

/// GRXSTSR: endpoint or channel of the entry.
pub const GRXSTSR_NUMBER: Field = bits!(3..0);

/// GRXSTSR: its number of bytes.
pub const GRXSTSR_BYTES: Field = bits!(14..4);

/// GRXSTSR: its data PID, 0 for DATA0 and 2 for DATA1.
pub const GRXSTSR_PID: Field = bits!(16..15);

/// GRXSTSR: what kind of entry it is.
pub const GRXSTSR_STATUS: Field = bits!(20..17);

/// GRXSTSP: endpoint or channel of the entry.
pub const GRXSTSP_NUMBER: Field = GRXSTSR_NUMBER;

/// GRXSTSP: its number of bytes.
pub const GRXSTSP_BYTES: Field = GRXSTSR_BYTES;

/// GRXSTSP: its data PID, 0 for DATA0 and 2 for DATA1.
pub const GRXSTSP_PID: Field = GRXSTSR_PID;

/// GRXSTSP: what kind of entry it is.
pub const GRXSTSP_STATUS: Field = GRXSTSR_STATUS;

/// The kind of an entry of the receive FIFO in device mode: the data of an OUT packet.
pub const OUT_DATA: u32 = 2;

/// The end of an OUT packet.
pub const OUT_DONE: u32 = 3;

/// The end of a SETUP.
pub const SETUP_DONE: u32 = 4;

/// The data of a SETUP.
pub const SETUP_DATA: u32 = 6;

/// GRXFSIZ: depth in words.
pub const GRXFSIZ_DEPTH: Field = bits!(15..0);

/// DIEPTXF0: first word in the FIFO memory.
pub const DIEPTXF0_START: Field = bits!(15..0);

/// DIEPTXF0: depth in words.
pub const DIEPTXF0_DEPTH: Field = bits!(31..16);

/// HNPTXFSIZ: first word in the FIFO memory.
pub const HNPTXFSIZ_START: Field = DIEPTXF0_START;

/// HNPTXFSIZ: depth in words.
pub const HNPTXFSIZ_DEPTH: Field = DIEPTXF0_DEPTH;

/// HPTXFSIZ: first word in the FIFO memory.
pub const HPTXFSIZ_START: Field = DIEPTXF0_START;

/// HPTXFSIZ: depth in words.
pub const HPTXFSIZ_DEPTH: Field = DIEPTXF0_DEPTH;

/// DIEPTXF: first word in the FIFO memory.
pub const DIEPTXF_START: Field = DIEPTXF0_START;

/// DIEPTXF: depth in words.
pub const DIEPTXF_DEPTH: Field = DIEPTXF0_DEPTH;

/// HCFG: clock of the port.
pub const HCFG_FSLSPCS: Field = bits!(1..0);

/// HCFG: full and low speed only.
pub const HCFG_FSLSS: Field = bits!(2);

/// HAINT: a bit for each channel.
pub const HAINT_CHANNELS: Field = bits!(15..0);

/// HAINTMSK: a bit for each channel.
pub const HAINTMSK_CHANNELS: Field = HAINT_CHANNELS;

/// HPRT: a device is attached.
pub const HPRT_PCSTS: Field = bits!(0);

/// HPRT: a device was attached.
pub const HPRT_PCDET: Field = bits!(1);

/// HPRT: the port is enabled.
pub const HPRT_PENA: Field = bits!(2);

/// HPRT: PENA changed.
pub const HPRT_PENCHNG: Field = bits!(3);

/// HPRT: drive a reset.
pub const HPRT_PRST: Field = bits!(8);

/// HPRT: port power.
pub const HPRT_PPWR: Field = bits!(12);

/// HCCHAR: packet size in bytes.
pub const HCCHAR_SIZE: Field = bits!(10..0);

/// HCCHAR: endpoint number.
pub const HCCHAR_ENDPOINT: Field = bits!(14..11);

/// HCCHAR: the data goes to the host.
pub const HCCHAR_IN: Field = bits!(15);

/// HCCHAR: transfer type, 0 control, 2 bulk and 3 interrupt.
pub const HCCHAR_TYPE: Field = bits!(19..18);

/// HCCHAR: device address.
pub const HCCHAR_ADDRESS: Field = bits!(28..22);

/// HCCHAR: disable the channel.
pub const HCCHAR_CHDIS: Field = bits!(30);

/// HCCHAR: enable the channel.
pub const HCCHAR_CHENA: Field = bits!(31);

/// HCINT: the transfer is complete.
pub const HCINT_XFRC: Field = bits!(0);

/// HCINT: the channel halted.
pub const HCINT_CHH: Field = bits!(1);

/// HCINT: STALL was answered.
pub const HCINT_STALL: Field = bits!(3);

/// HCINT: NAK was answered.
pub const HCINT_NAK: Field = bits!(4);

/// HCINT: ACK was answered or sent.
pub const HCINT_ACK: Field = bits!(5);

/// HCINT: no answer, or a damaged one.
pub const HCINT_TXERR: Field = bits!(7);

/// HCINT: data with the wrong toggle.
pub const HCINT_DTERR: Field = bits!(10);

/// HCINTMSK: the transfer is complete.
pub const HCINTMSK_XFRC: Field = HCINT_XFRC;

/// HCINTMSK: the channel halted.
pub const HCINTMSK_CHH: Field = HCINT_CHH;

/// HCINTMSK: STALL was answered.
pub const HCINTMSK_STALL: Field = HCINT_STALL;

/// HCINTMSK: NAK was answered.
pub const HCINTMSK_NAK: Field = HCINT_NAK;

/// HCINTMSK: ACK was answered or sent.
pub const HCINTMSK_ACK: Field = HCINT_ACK;

/// HCINTMSK: no answer, or a damaged one.
pub const HCINTMSK_TXERR: Field = HCINT_TXERR;

/// HCINTMSK: data with the wrong toggle.
pub const HCINTMSK_DTERR: Field = HCINT_DTERR;

/// HCTSIZ: bytes to be moved.
pub const HCTSIZ_SIZE: Field = bits!(18..0);

/// HCTSIZ: packets to be moved.
pub const HCTSIZ_COUNT: Field = bits!(28..19);

/// HCTSIZ: 0 for DATA0, 2 for DATA1 and 3 for SETUP.
pub const HCTSIZ_PID: Field = bits!(30..29);

/// DCFG: device address.
pub const DCFG_ADDRESS: Field = bits!(10..4);

/// DAINT: a bit for each IN endpoint.
pub const DAINT_IN: Field = bits!(15..0);

/// DAINT: a bit for each OUT endpoint.
pub const DAINT_OUT: Field = bits!(31..16);

/// DAINTMSK: a bit for each IN endpoint.
pub const DAINTMSK_IN: Field = DAINT_IN;

/// DAINTMSK: a bit for each OUT endpoint.
pub const DAINTMSK_OUT: Field = DAINT_OUT;

/// DIEPCTL0: packet size of endpoint 0: 0 for 64 bytes, 1 for 32, 2 for 16 and 3 for 8.
pub const DIEPCTL0_SIZE: Field = bits!(1..0);

/// DOEPCTL0: packet size of endpoint 0: 0 for 64 bytes, 1 for 32, 2 for 16 and 3 for 8.
pub const DOEPCTL0_SIZE: Field = bits!(1..0);

/// DIEPCTL: packet size in bytes, for endpoints from 1 on.
pub const DIEPCTL_SIZE: Field = bits!(10..0);

/// DIEPCTL: the endpoint is open.
pub const DIEPCTL_USBAEP: Field = bits!(15);

/// DIEPCTL: NAK is answered.
pub const DIEPCTL_NAKSTS: Field = bits!(17);

/// DIEPCTL: transfer type.
pub const DIEPCTL_TYPE: Field = bits!(19..18);

/// DIEPCTL: STALL is answered.
pub const DIEPCTL_STALL: Field = bits!(21);

/// DIEPCTL: the transmit FIFO of the endpoint.
pub const DIEPCTL_TXFNUM: Field = bits!(25..22);

/// DIEPCTL: clear NAKSTS.
pub const DIEPCTL_CNAK: Field = bits!(26);

/// DIEPCTL: set NAKSTS.
pub const DIEPCTL_SNAK: Field = bits!(27);

/// DIEPCTL: let the next packet be DATA0.
pub const DIEPCTL_SD0PID: Field = bits!(28);

/// DIEPCTL: disable the endpoint.
pub const DIEPCTL_EPDIS: Field = bits!(30);

/// DIEPCTL: enable the endpoint.
pub const DIEPCTL_EPENA: Field = bits!(31);

/// DOEPCTL: packet size in bytes, for endpoints from 1 on.
pub const DOEPCTL_SIZE: Field = bits!(10..0);

/// DOEPCTL: the endpoint is open.
pub const DOEPCTL_USBAEP: Field = bits!(15);

/// DOEPCTL: NAK is answered.
pub const DOEPCTL_NAKSTS: Field = bits!(17);

/// DOEPCTL: transfer type.
pub const DOEPCTL_TYPE: Field = bits!(19..18);

/// DOEPCTL: STALL is answered.
pub const DOEPCTL_STALL: Field = bits!(21);

/// DOEPCTL: clear NAKSTS.
pub const DOEPCTL_CNAK: Field = bits!(26);

/// DOEPCTL: set NAKSTS.
pub const DOEPCTL_SNAK: Field = bits!(27);

/// DOEPCTL: let the next packet be DATA0.
pub const DOEPCTL_SD0PID: Field = bits!(28);

/// DOEPCTL: disable the endpoint.
pub const DOEPCTL_EPDIS: Field = bits!(30);

/// DOEPCTL: enable the endpoint.
pub const DOEPCTL_EPENA: Field = bits!(31);

/// DIEPINT: the transfer is complete.
pub const DIEPINT_XFRC: Field = bits!(0);

/// DIEPINT: the endpoint was disabled.
pub const DIEPINT_EPDISD: Field = bits!(1);

/// DIEPINT: the transmit FIFO has room for a packet.
pub const DIEPINT_TXFE: Field = bits!(7);

/// DOEPINT: the transfer is complete.
pub const DOEPINT_XFRC: Field = bits!(0);

/// DOEPINT: the endpoint was disabled.
pub const DOEPINT_EPDISD: Field = bits!(1);

/// DOEPINT: a SETUP is complete.
pub const DOEPINT_STUP: Field = bits!(3);

/// DIEPTSIZ: bytes to be moved, for endpoints from 1 on.
pub const DIEPTSIZ_SIZE: Field = bits!(18..0);

/// DIEPTSIZ: packets to be moved.
pub const DIEPTSIZ_COUNT: Field = bits!(28..19);

/// DOEPTSIZ: bytes to be moved, for endpoints from 1 on.
pub const DOEPTSIZ_SIZE: Field = DIEPTSIZ_SIZE;

/// DOEPTSIZ: packets to be moved.
pub const DOEPTSIZ_COUNT: Field = DIEPTSIZ_COUNT;

/// DIEPTSIZ0: bytes to be moved.
pub const DIEPTSIZ0_SIZE: Field = bits!(6..0);

/// DIEPTSIZ0: packets to be moved.
pub const DIEPTSIZ0_COUNT: Field = bits!(20..19);

/// DOEPTSIZ0: bytes to be moved.
pub const DOEPTSIZ0_SIZE: Field = bits!(6..0);

/// DOEPTSIZ0: packets to be moved.
pub const DOEPTSIZ0_COUNT: Field = bits!(19);

/// DOEPTSIZ0: SETUPs in a row that may come.
pub const DOEPTSIZ0_STUPCNT: Field = bits!(30..29);

/// DTXFSTS: free words of the transmit FIFO.
pub const DTXFSTS_FREE: Field = bits!(15..0);
