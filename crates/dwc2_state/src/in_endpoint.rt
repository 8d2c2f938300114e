ghost use Rattle.std.specs.Prelude.{◌≡◌, ℕ, ◌+◌, ◌-◌, ◌/◌, ◌==◌, ◌≤◌, ◌<◌, Bool, false, None};
ghost use Rattle.usb_packet.specs.declared.bus.Toggle.TheVariants.{D1};
ghost use Rattle.dwc2_fifo.specs.Tx.{space_of};
ghost use Rattle.device_table.specs.State.{in_end_of};
ghost use Rattle.device_table.specs.Words.{transfer_size, packet_count, with_packet_count};
ghost use Rattle.device_table.specs.Read.{txfe, diepint_word};
ghost use Rattle.device_table.specs.Write.{emptied, in_control_written, in_interrupts_written, in_tsiz_written, next_length, packet_begun, word_written};
ghost use Rattle.device_table.specs.Bus.{control_at_setup, is_empty_packet, packet_ready, fifo_acked, counted_down, in_acked};
ghost use Rattle.dwc2_state.specs.Ends.{in_written};

use crate::bits::{flag, flipped, with_flag};
use crate::control::ControlRegister;
use crate::place::InRegister;
use bitflags::Flags;
use dwc2_fifo::TxFifo;
use dwc2_regs::{
    DIEPCTL_EPDIS, DIEPCTL_SD0PID, DIEPINT_EPDISD, DIEPINT_TXFE, DIEPINT_XFRC, DIEPTSIZ_COUNT,
    DIEPTSIZ_SIZE, DIEPTSIZ0_COUNT, DIEPTSIZ0_SIZE, EndpointInterrupts, get_field, put_field,
};
use std::marker::Model;
use usb_packet::{Packet, Toggle};

/// One IN endpoint with its transmit FIFO.
#[derive(Drop)]
pub struct InEndpoint {
    control: ControlRegister,
    toggle: Toggle,
    xfrc: bool,
    epdisd: bool,
    tsiz: u32,
    to_come: u32,
    fifo: TxFifo,
}

impl Model for InEndpoint {
    ghost use Rattle.device_table.specs.State.{InEnd};

    ghost Value = { InEnd };

    ghost view = { λ e. record { control = e.control; toggle = e.toggle; xfrc = e.xfrc; epdisd = e.epdisd; tsiz = e.tsiz; to_come = e.to_come; fifo = e.fifo } };
}

/// The bytes of a transfer, by the endpoint's size register.
fn transfer_size(number: u8, tsiz: u32) -> u32
    ensures { result ≡ transfer_size number tsiz }
{
    match number {
        0 => get_field(tsiz, DIEPTSIZ0_SIZE),
        _ => get_field(tsiz, DIEPTSIZ_SIZE),
    }
}

/// Its packets.
fn packet_count(number: u8, tsiz: u32) -> u32
    ensures { result ≡ packet_count number tsiz }
{
    match number {
        0 => get_field(tsiz, DIEPTSIZ0_COUNT),
        _ => get_field(tsiz, DIEPTSIZ_COUNT),
    }
}

/// The size register with one packet fewer.
fn one_packet_fewer(number: u8, tsiz: u32) -> u32
    ensures { result ≡ with_packet_count number tsiz (packet_count number tsiz - 1) }
{
    match number {
        0 => {
            let count = get_field(tsiz, DIEPTSIZ0_COUNT);
            put_field(tsiz, DIEPTSIZ0_COUNT, count.saturating_sub(1))
        }
        _ => {
            let count = get_field(tsiz, DIEPTSIZ_COUNT);
            put_field(tsiz, DIEPTSIZ_COUNT, count.saturating_sub(1))
        }
    }
}

fn words(bytes: u8) -> u16
    ensures { result ≡ (bytes + 3) / 4 }
{
    (bytes as u16 + 3) / 4
}

impl InEndpoint {
    /// All is 0, and the FIFO has place for so many words, at most 1,024.
    pub fn new(depth: u16) -> InEndpoint
        requires { depth ≤ 1024 }
        ensures { result ≡ in_end_of depth }
    {
        let mut fifo = TxFifo::new();
        fifo.set_depth(depth);
        InEndpoint {
            control: ControlRegister::new(),
            toggle: Toggle::D0,
            xfrc: false,
            epdisd: false,
            tsiz: 0,
            to_come: 0,
            fifo,
        }
    }

    /// Its control register.
    pub fn control(&self) -> &ControlRegister
        ensures { result.now ≡ self.now.control }
    {
        &self.control
    }

    /// The toggle of its next packet.
    pub fn toggle(&self) -> Toggle
        ensures { result ≡ self.now.toggle }
    {
        self.toggle
    }

    /// Whether DIEPINTx has XFRC.
    pub fn is_complete(&self) -> bool
        ensures { result ≡ self.now.xfrc }
    {
        self.xfrc
    }

    /// Whether DIEPINTx has EPDISD.
    pub fn was_disabled(&self) -> bool
        ensures { result ≡ self.now.epdisd }
    {
        self.epdisd
    }

    /// Whether the FIFO has room for a packet of the endpoint's size, so that DIEPINTx has TXFE.
    pub fn has_room(&self, number: u8) -> bool
        ensures { result ≡ txfe number self.now }
    {
        words(self.control.packet_size(number)) <= self.fifo.space()
    }

    /// DIEPINTx.
    pub fn interrupts(&self, number: u8) -> u32
        ensures { result ≡ diepint_word number self.now }
    {
        let word = with_flag(0, DIEPINT_XFRC, self.xfrc);
        let word = with_flag(word, DIEPINT_EPDISD, self.epdisd);
        with_flag(word, DIEPINT_TXFE, self.has_room(number))
    }

    /// DIEPTSIZx.
    pub fn size(&self) -> u32
        ensures { result ≡ self.now.tsiz }
    {
        self.tsiz
    }

    /// The free words of its FIFO.
    pub fn space(&self) -> u16
        ensures { result ≡ space_of self.now.fifo }
    {
        self.fifo.space()
    }

    /// A word is written to one of its registers; CNAK has its effect where `cnak_acts`.
    pub fn write(&mut self, number: u8, cnak_acts: bool, register: InRegister, word: u32)
        ensures { self.new ≡ in_written number cnak_acts register word self.old }
    {
        match register {
            InRegister::Control => self.write_control(cnak_acts, word),
            InRegister::Interrupts => self.clear_interrupts(word),
            InRegister::Size => {
                self.tsiz = word;
                self.to_come = transfer_size(number, word);
            }
            InRegister::Space => {}
        }
    }

    #[tactic(auto, using(dwc2_regs::proofs::SetLemmas::interrupt_bits))]
    fn clear_interrupts(&mut self, word: u32)
        ensures { self.new ≡ in_interrupts_written self.old word }
    {
        let cleared = EndpointInterrupts::from_bits_retain(word);
        self.xfrc = self.xfrc && !cleared.contains(EndpointInterrupts::XFRC);
        self.epdisd = self.epdisd && !cleared.contains(EndpointInterrupts::EPDISD);
    }

    fn write_control(&mut self, cnak_acts: bool, word: u32)
        ensures { self.new ≡ in_control_written cnak_acts self.old word }
    {
        self.control.write(word, cnak_acts);
        if flag(word, DIEPCTL_SD0PID) {
            self.toggle = Toggle::D0;
        }
        self.epdisd = self.epdisd || flag(word, DIEPCTL_EPDIS);
    }

    /// A word is written to its FIFO window. It belongs to the packet that lacks words, or begins the next one of the
    /// transfer where there is room for it; another one is dropped.
    #[inline(always)]
    pub fn push_word(&mut self, number: u8, word: u32)
        ensures { self.new ≡ word_written number self.old word }
    {
        if self.fifo.unfinished().is_some() {
            self.fifo.push_word(word);
        } else {
            self.begin_packet(number, word);
        }
    }

    // How many bytes the next packet has.
    fn next_length(&self, number: u8) -> u8
        ensures value { result ≡ next_length number self.now }
        ensures most { result ≤ 64 }
        ensures within { result ≤ self.now.to_come }
    {
        (self.control.packet_size(number) as u32).min(self.to_come) as u8
    }

    #[inline(never)]
    fn begin_packet(&mut self, number: u8, word: u32)
        requires { self.old.fifo.unfinished ≡ None }
        ensures { self.new ≡ packet_begun number self.old word }
    {
        let bytes = self.next_length(number);
        if bytes == 0 || self.fifo.space() < words(bytes) {
            return;
        }
        self.fifo.begin(0, bytes);
        self.fifo.push_word(word);
        self.to_come -= bytes as u32;
    }

    /// Empties its FIFO.
    pub fn flush(&mut self)
        ensures { self.new ≡ emptied self.old }
    {
        self.fifo.flush();
    }

    /// A SETUP came: it is disabled and answers NAK, its FIFO is empty, and the next packet is DATA1.
    pub fn meet_setup(&mut self)
        ensures { self.new ≡ record (emptied self.old) { control = control_at_setup self.old.control; toggle = D1 } }
    {
        self.flush();
        self.control.meet_setup();
        self.toggle = Toggle::D1;
    }

    /// A packet landed on OUT endpoint 0: IN endpoint 0 is disabled, and its FIFO is empty.
    pub fn meet_landing(&mut self)
        ensures { self.new ≡ record (emptied self.old) { control = record self.old.control { enabled = false } } }
    {
        self.flush();
        self.control.disable();
    }

    // Whether the packet for the host is an empty one, which has no words in the FIFO.
    fn is_empty_packet(&self, number: u8) -> bool
        ensures { result ≡ is_empty_packet number self.now }
    {
        transfer_size(number, self.tsiz) == 0 && packet_count(number, self.tsiz) == 1
    }

    /// The packet for the host, if there is one.
    #[inline(always)]
    pub fn packet_ready(&self, number: u8) -> Option<Packet>
        ensures { result ≡ packet_ready number self.now }
    {
        if packet_count(number, self.tsiz) == 0 {
            return None;
        }
        if self.is_empty_packet(number) {
            return Some(Packet::empty());
        }
        self.fifo.front_packet(0)
    }

    /// The host acknowledged that packet.
    #[inline(always)]
    pub fn acknowledge(&mut self, number: u8)
        ensures { self.new ≡ in_acked number self.old }
    {
        if !self.is_empty_packet(number) {
            self.fifo.release(0);
        }
        self.toggle = flipped(self.toggle);
        self.count_down(number);
    }

    // One packet fewer is to be sent. XFRC and the end of the transfer come with the last.
    fn count_down(&mut self, number: u8)
        ensures { self.new ≡ counted_down number self.old (packet_count number self.old.tsiz - 1) }
    {
        let is_last = packet_count(number, self.tsiz) <= 1;
        self.tsiz = one_packet_fewer(number, self.tsiz);
        if is_last {
            self.xfrc = true;
            self.control.disable();
        }
    }
}
