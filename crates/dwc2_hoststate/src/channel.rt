ghost use Rattle.std.specs.Prelude.{◌≡◌, ◌≤◌, ◌==◌, true, false};
ghost use Rattle.device_table.specs.Words.{size_counted};
ghost use Rattle.host_table.specs.State.{no_channel, no_interrupts};
ghost use Rattle.host_table.specs.Words.{kept_bits, channel_word, interrupts_word, packet_size, is_in, is_periodic, is_nonperiodic, speaks_to, transfer_size, is_setup, toggle_of};
ghost use Rattle.host_table.specs.Read.{any_interrupt, channel_interrupts, received_all};
ghost use Rattle.host_table.specs.Write.{channel_written, interrupts_written, packet_length};
ghost use Rattle.host_table.specs.Bus.{asks, disabled};

use dwc2_regs::{
    HCCHAR_ADDRESS, HCCHAR_CHDIS, HCCHAR_CHENA, HCCHAR_ENDPOINT, HCCHAR_IN, HCCHAR_SIZE,
    HCCHAR_TYPE, HCINT_ACK, HCINT_CHH, HCINT_DTERR, HCINT_NAK, HCINT_STALL, HCINT_TXERR,
    HCINT_XFRC, HCTSIZ_PID, HCTSIZ_SIZE, get_field, put_field,
};
use dwc2_state::{flag, with_flag};
use std::marker::Model;
use usb_packet::Toggle;

/// HCINTx: what happened on a channel.
#[derive(Drop)]
pub struct InterruptBits {
    pub xfrc: bool,
    pub chh: bool,
    pub stall: bool,
    pub nak: bool,
    pub ack: bool,
    pub txerr: bool,
    pub dterr: bool,
}

impl Model for InterruptBits {
    ghost use Rattle.host_table.specs.State.{Interrupts};

    ghost Value = { Interrupts };

    ghost view = { λ i. record { xfrc = i.xfrc; chh = i.chh; stall = i.stall; nak = i.nak; ack = i.ack; txerr = i.txerr; dterr = i.dterr } };
}

impl InterruptBits {
    fn new() -> InterruptBits
        ensures { result ≡ no_interrupts }
    {
        InterruptBits {
            xfrc: false,
            chh: false,
            stall: false,
            nak: false,
            ack: false,
            txerr: false,
            dterr: false,
        }
    }

    fn word(&self) -> u32
        ensures { result ≡ interrupts_word self.now }
    {
        let word = with_flag(0, HCINT_XFRC, self.xfrc);
        let word = with_flag(word, HCINT_CHH, self.chh);
        let word = with_flag(word, HCINT_STALL, self.stall);
        let word = with_flag(word, HCINT_NAK, self.nak);
        let word = with_flag(word, HCINT_ACK, self.ack);
        let word = with_flag(word, HCINT_TXERR, self.txerr);
        with_flag(word, HCINT_DTERR, self.dterr)
    }

    fn any_under(&self, mask: u32) -> bool
        ensures { result ≡ any_interrupt self.now mask }
    {
        (self.xfrc && flag(mask, HCINT_XFRC))
            || (self.chh && flag(mask, HCINT_CHH))
            || (self.stall && flag(mask, HCINT_STALL))
            || (self.nak && flag(mask, HCINT_NAK))
            || (self.ack && flag(mask, HCINT_ACK))
            || (self.txerr && flag(mask, HCINT_TXERR))
            || (self.dterr && flag(mask, HCINT_DTERR))
    }

    fn write(&mut self, word: u32)
        ensures { self.new ≡ interrupts_written self.old word }
    {
        self.xfrc = self.xfrc && !flag(word, HCINT_XFRC);
        self.chh = self.chh && !flag(word, HCINT_CHH);
        self.stall = self.stall && !flag(word, HCINT_STALL);
        self.nak = self.nak && !flag(word, HCINT_NAK);
        self.ack = self.ack && !flag(word, HCINT_ACK);
        self.txerr = self.txerr && !flag(word, HCINT_TXERR);
        self.dterr = self.dterr && !flag(word, HCINT_DTERR);
    }

    // ACK, XFRC and CHH: the transfer is complete.
    fn complete(&mut self)
        ensures { self.new ≡ record self.old { ack = true; xfrc = true; chh = true } }
    {
        self.ack = true;
        self.xfrc = true;
        self.chh = true;
    }
}

/// One channel.
#[derive(Drop)]
pub struct ChannelState {
    kept: u32,
    enabled: bool,
    interrupts: InterruptBits,
    pub hcintmsk: u32,
    pub hctsiz: u32,
}

impl Model for ChannelState {
    ghost use Rattle.host_table.specs.State.{Channel};

    ghost Value = { Channel };

    ghost view = { λ c. record { kept = c.kept; enabled = c.enabled; interrupts = c.interrupts; hcintmsk = c.hcintmsk; hctsiz = c.hctsiz } };
}

fn size_counted(size: u32) -> u8
    ensures value { result ≡ size_counted size }
    ensures some { 1 ≤ result }
    ensures most { result ≤ 64 }
{
    if size == 0 || size > 64 {
        64
    } else {
        size as u8
    }
}

impl ChannelState {
    /// All its registers are 0 at the start.
    pub fn new() -> ChannelState
        ensures { result ≡ no_channel }
    {
        ChannelState {
            kept: 0,
            enabled: false,
            interrupts: InterruptBits::new(),
            hcintmsk: 0,
            hctsiz: 0,
        }
    }

    /// What HCCHARx reads.
    pub fn word(&self) -> u32
        ensures { result ≡ channel_word self.now }
    {
        with_flag(self.kept, HCCHAR_CHENA, self.enabled)
    }

    /// What HCINTx reads.
    pub fn interrupts(&self) -> u32
        ensures { result ≡ interrupts_word self.now.interrupts }
    {
        self.interrupts.word()
    }

    /// Its bit of HAINT.
    pub fn interrupts_under_mask(&self) -> bool
        ensures { result ≡ channel_interrupts self.now }
    {
        self.interrupts.any_under(self.hcintmsk)
    }

    /// HCCHARx is written.
    pub fn write_control(&mut self, word: u32)
        ensures { self.new ≡ channel_written self.old word }
    {
        self.enabled = (self.enabled && !flag(word, HCCHAR_CHDIS)) || flag(word, HCCHAR_CHENA);
        self.kept = put_field(put_field(word, HCCHAR_CHDIS, 0), HCCHAR_CHENA, 0);
    }

    /// HCINTx is written.
    pub fn write_interrupts(&mut self, word: u32)
        ensures { self.new ≡ record self.old { interrupts = interrupts_written self.old.interrupts word } }
    {
        self.interrupts.write(word);
    }

    /// HCINTMSKx is written.
    pub fn write_mask(&mut self, word: u32)
        ensures { self.new ≡ record self.old { hcintmsk = word } }
    {
        self.hcintmsk = word;
    }

    /// HCTSIZx is written.
    pub fn write_size(&mut self, word: u32)
        ensures { self.new ≡ record self.old { hctsiz = word } }
    {
        self.hctsiz = word;
    }

    /// Its packets' size in bytes, 1 to 64.
    pub fn packet_size(&self) -> u8
        ensures value { result ≡ packet_size self.now }
        ensures some { 1 ≤ result }
        ensures most { result ≤ 64 }
    {
        size_counted(get_field(self.kept, HCCHAR_SIZE))
    }

    /// Whether its data goes to the host.
    pub fn is_in(&self) -> bool
        ensures { result ≡ is_in self.now }
    {
        flag(self.kept, HCCHAR_IN)
    }

    /// Whether it sends through the periodic FIFO.
    pub fn is_periodic(&self) -> bool
        ensures { result ≡ is_periodic self.now }
    {
        get_field(self.kept, HCCHAR_TYPE) == 3
    }

    /// Whether it sends through the non-periodic FIFO.
    pub fn is_nonperiodic(&self) -> bool
        ensures { result ≡ is_nonperiodic self.now }
    {
        let kind = get_field(self.kept, HCCHAR_TYPE);
        kind == 0 || kind == 2
    }

    fn speaks_to(&self, addr: u8, ep: u8) -> bool
        ensures { result ≡ speaks_to addr ep self.now }
    {
        get_field(self.kept, HCCHAR_ADDRESS) == addr as u32
            && get_field(self.kept, HCCHAR_ENDPOINT) == (ep % 128) as u32
            && get_field(self.kept, HCCHAR_IN) == (ep / 128) as u32
    }

    /// Whether it is enabled and speaks to that address and endpoint.
    pub fn asks(&self, addr: u8, ep: u8) -> bool
        ensures { result ≡ asks addr ep self.now }
    {
        self.enabled && self.speaks_to(addr, ep)
    }

    /// Whether its packet has no bytes.
    pub fn sends_no_bytes(&self) -> bool
        ensures { result ≡ (transfer_size self.now == 0) }
    {
        get_field(self.hctsiz, HCTSIZ_SIZE) == 0
    }

    /// How many bytes its packet has.
    pub fn packet_length(&self) -> u8
        ensures value { result ≡ packet_length self.now }
        ensures most { result ≤ 64 }
    {
        let size = self.packet_size();
        let wanted = get_field(self.hctsiz, HCTSIZ_SIZE);
        if wanted < size as u32 {
            wanted as u8
        } else {
            size
        }
    }

    /// Whether its packet is a SETUP.
    pub fn is_setup(&self) -> bool
        ensures { result ≡ is_setup self.now }
    {
        !self.is_in() && get_field(self.hctsiz, HCTSIZ_PID) == 3
    }

    /// The toggle of its packet.
    pub fn toggle(&self) -> Toggle
        ensures { result ≡ toggle_of self.now }
    {
        if get_field(self.hctsiz, HCTSIZ_PID) == 2 {
            Toggle::D1
        } else {
            Toggle::D0
        }
    }

    /// The end of its data was popped.
    pub fn receive_all(&mut self)
        ensures { self.new ≡ received_all self.old }
    {
        self.interrupts.complete();
    }

    /// It has no transfer any more.
    pub fn disable(&mut self)
        ensures { self.new ≡ disabled self.old }
    {
        self.enabled = false;
    }

    /// Its packet was acknowledged.
    pub fn meet_ack(&mut self)
        ensures { self.new ≡ record self.old { enabled = false; interrupts = record self.old.interrupts { ack = true; xfrc = true; chh = true } } }
    {
        self.interrupts.complete();
        self.enabled = false;
    }

    /// NAK was answered.
    pub fn meet_nak(&mut self)
        ensures { self.new ≡ record self.old { interrupts = record self.old.interrupts { nak = true } } }
    {
        self.interrupts.nak = true;
    }

    /// STALL was answered.
    pub fn meet_stall(&mut self)
        ensures { self.new ≡ record self.old { enabled = false; interrupts = record self.old.interrupts { stall = true; chh = true } } }
    {
        self.interrupts.stall = true;
        self.interrupts.chh = true;
        self.enabled = false;
    }

    /// Nothing that fits was answered.
    pub fn meet_silence(&mut self)
        ensures { self.new ≡ record self.old { enabled = false; interrupts = record self.old.interrupts { txerr = true; chh = true } } }
    {
        self.interrupts.txerr = true;
        self.interrupts.chh = true;
        self.enabled = false;
    }

    /// Data came with the other PID.
    pub fn meet_other_pid(&mut self)
        ensures { self.new ≡ record self.old { interrupts = record self.old.interrupts { dterr = true } } }
    {
        self.interrupts.dterr = true;
    }
}
