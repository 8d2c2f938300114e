// Registers that keep what was written, and what the bus has done to the device as a whole.
ghost use Rattle.std.specs.Prelude.{◌≡◌, ◌≤◌, false, None, replicate};
ghost use Rattle.dwc2_regs.specs.declared.access.TheConstants.{FS4};
ghost use Rattle.device_table.specs.State.{no_channel, first};
ghost use Rattle.dwc2_state.specs.Ends.{channel_written};
ghost use Rattle.device_table.specs.Write.{gintsts_written, hprt_written, hcchar_written};

use crate::bits::{flag, with_flag};
use crate::place::ChannelRegister;
use bitflags::Flags;
use dwc2_regs::{
    CoreInterrupts, HCCHAR_CHDIS, HCCHAR_CHENA, HPRT_PCDET, HPRT_PCSTS, HPRT_PENA, HPRT_PENCHNG,
    put_field,
};
use std::marker::Model;
use usb_packet::Toggle;

/// What the bus has done to the device as a whole.
#[derive(Drop)]
pub struct BusState {
    /// The device answers: USBRST was cleared since the last reset.
    pub awake: bool,
    pub usbrst: bool,
    pub enumdne: bool,
    /// The SETUPs whose end wasn't popped.
    pub unserved: u8,
    /// The toggle of the packet that landed on endpoint 0 last, since the last SETUP and the last reset.
    pub landed: Option<Toggle>,
}

impl Model for BusState {
    ghost use Rattle.device_table.specs.State.{BusState};

    ghost Value = { BusState };

    ghost view = { λ c. record { awake = c.awake; usbrst = c.usbrst; enumdne = c.enumdne; unserved = c.unserved; landed = c.landed } };
}

impl BusState {
    /// The device at its start: asleep, with no reset and no SETUP.
    pub fn new() -> BusState
        ensures { result ≡ (first FS4).core }
    {
        BusState {
            awake: false,
            usbrst: false,
            enumdne: false,
            unserved: 0,
            landed: None,
        }
    }

    /// GINTSTS is written. Clearing USBRST wakes the device.
    #[tactic(auto, using(dwc2_regs::proofs::SetLemmas::interrupt_bits))]
    pub fn write_interrupts(&mut self, word: u32)
        ensures { self.new ≡ gintsts_written self.old word }
    {
        let cleared = CoreInterrupts::from_bits_retain(word);
        let clears_reset = cleared.contains(CoreInterrupts::USBRST);
        self.awake = self.awake || (self.usbrst && clears_reset);
        self.usbrst = self.usbrst && !clears_reset;
        self.enumdne = self.enumdne && !cleared.contains(CoreInterrupts::ENUMDNE);
    }
}

/// The registers of the core and of the device that keep what was written.
#[derive(Drop)]
pub struct KeptRegisters {
    pub grstctl: u32,
    pub gintmsk: u32,
    pub grxfsiz: u32,
    pub dieptxf0: u32,
    pub dieptxfs: [u32; 3],
    pub dcfg: u32,
    pub dctl: u32,
    pub diepmsk: u32,
    pub doepmsk: u32,
    pub daintmsk: u32,
    pub diepempmsk: u32,
}

impl Model for KeptRegisters {
    ghost use Rattle.std.specs.Prelude.{◌≡◌, length};
    ghost use Rattle.device_table.specs.State.{Kept};
    ghost use Rattle.dwc2_regs.specs.declared.access.TheConstants.{FS4};

    ghost Value = { Kept };

    ghost view = { λ k. record { grstctl = k.grstctl; gintmsk = k.gintmsk; grxfsiz = k.grxfsiz; dieptxf0 = k.dieptxf0; dieptxfs = k.dieptxfs; dcfg = k.dcfg; dctl = k.dctl; diepmsk = k.diepmsk; doepmsk = k.doepmsk; daintmsk = k.daintmsk; diepempmsk = k.diepempmsk } };

    ghost invariant = { λ k. length k.dieptxfs ≡ FS4.in_eps };
}

impl KeptRegisters {
    /// All registers are 0 at the start.
    pub fn new() -> KeptRegisters
        ensures { result ≡ (first FS4).kept }
    {
        KeptRegisters {
            grstctl: 0,
            gintmsk: 0,
            grxfsiz: 0,
            dieptxf0: 0,
            dieptxfs: [0; 3],
            dcfg: 0,
            dctl: 0,
            diepmsk: 0,
            doepmsk: 0,
            daintmsk: 0,
            diepempmsk: 0,
        }
    }
}

/// HCCHARx, HCINTMSKx and HCTSIZx of one channel.
#[derive(Clone, Copy)]
pub struct ChannelRegisters {
    pub hcchar: u32,
    pub hcintmsk: u32,
    pub hctsiz: u32,
}

impl Model for ChannelRegisters {
    ghost use Rattle.device_table.specs.State.{Channel};

    ghost Value = { Channel };

    ghost view = { λ c. record { hcchar = c.hcchar; hcintmsk = c.hcintmsk; hctsiz = c.hctsiz } };

    ghost inverse = { λ c. record { hcchar = c.hcchar; hcintmsk = c.hcintmsk; hctsiz = c.hctsiz } };
}

impl ChannelRegisters {
    /// All three registers are 0 at the start.
    pub fn new() -> ChannelRegisters
        ensures { result ≡ no_channel }
    {
        ChannelRegisters {
            hcchar: 0,
            hcintmsk: 0,
            hctsiz: 0,
        }
    }

    /// A word is written to one of its registers. CHDIS comes before CHENA and isn't kept.
    pub fn write(&mut self, register: ChannelRegister, word: u32)
        ensures { self.new ≡ channel_written register word self.old }
    {
        match register {
            ChannelRegister::Control => self.write_hcchar(word),
            ChannelRegister::Interrupts => {}
            ChannelRegister::Mask => self.hcintmsk = word,
            ChannelRegister::Size => self.hctsiz = word,
        }
    }

    fn write_hcchar(&mut self, word: u32)
        ensures { self.new ≡ record self.old { hcchar = hcchar_written self.old.hcchar word } }
    {
        let stays = flag(self.hcchar, HCCHAR_CHENA) && !flag(word, HCCHAR_CHDIS);
        let enabled = stays || flag(word, HCCHAR_CHENA);
        self.hcchar = with_flag(put_field(word, HCCHAR_CHDIS, 0), HCCHAR_CHENA, enabled);
    }
}

/// The host's registers, which in device mode keep what was written.
#[derive(Drop)]
pub struct HostRegisters {
    pub hptxfsiz: u32,
    pub hcfg: u32,
    pub haintmsk: u32,
    pub hprt: u32,
    pub channels: [ChannelRegisters; 8],
}

impl Model for HostRegisters {
    ghost use Rattle.std.specs.Prelude.{◌≡◌, length};
    ghost use Rattle.device_table.specs.State.{Host};
    ghost use Rattle.dwc2_regs.specs.declared.access.TheConstants.{FS4};

    ghost Value = { Host };

    ghost view = { λ h. record { hptxfsiz = h.hptxfsiz; hcfg = h.hcfg; haintmsk = h.haintmsk; hprt = h.hprt; channels = h.channels } };

    ghost invariant = { λ h. length h.channels ≡ FS4.channels };
}

impl HostRegisters {
    /// All registers are 0 at the start, those of the channels too.
    pub fn new() -> HostRegisters
        ensures { result ≡ (first FS4).host }
    {
        HostRegisters {
            hptxfsiz: 0,
            hcfg: 0,
            haintmsk: 0,
            hprt: 0,
            channels: [ChannelRegisters::new(); 8],
        }
    }

    /// HPRT is written. Its status bits aren't kept.
    pub fn write_hprt(&mut self, word: u32)
        ensures { self.new ≡ record self.old { hprt = hprt_written word } }
    {
        let word = put_field(word, HPRT_PCSTS, 0);
        let word = put_field(word, HPRT_PCDET, 0);
        let word = put_field(word, HPRT_PENA, 0);
        self.hprt = put_field(word, HPRT_PENCHNG, 0);
    }
}
