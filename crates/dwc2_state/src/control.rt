ghost use Rattle.std.specs.Prelude.{◌≡◌, ℕ, zero, suc, ◌+◌, ◌≤◌, ◌||◌, not, Bool, true, false};
ghost use Rattle.device_table.specs.State.{Control, no_control};
ghost use Rattle.device_table.specs.Words.{kept_bits, control_word, packet_size, size_counted, size_of_code};
ghost use Rattle.device_table.specs.Write.{control_written};
ghost use Rattle.device_table.specs.Bus.{is_open, at_rest, control_at_setup};

use crate::bits::{flag, with_flag};
use dwc2_regs::{
    DIEPCTL_CNAK, DIEPCTL_EPDIS, DIEPCTL_EPENA, DIEPCTL_NAKSTS, DIEPCTL_SD0PID, DIEPCTL_SIZE,
    DIEPCTL_SNAK, DIEPCTL_STALL, DIEPCTL_USBAEP, DIEPCTL0_SIZE, get_field, put_field,
};
use std::marker::Model;

/// DIEPCTLx or DOEPCTLx, which have their common fields in the same bits.
#[derive(Drop)]
pub struct ControlRegister {
    kept: u32,
    nak: bool,
    stall: bool,
    enabled: bool,
}

impl Model for ControlRegister {
    ghost use Rattle.device_table.specs.State.{Control};

    ghost Value = { Control };

    ghost view = { λ c. record { kept = c.kept; nak = c.nak; stall = c.stall; enabled = c.enabled } };
}

// The bits that are kept as written: not those that are state, and not those that act and read 0.
fn kept_bits(word: u32) -> u32
    ensures { result ≡ kept_bits word }
{
    let word = put_field(word, DIEPCTL_NAKSTS, 0);
    let word = put_field(word, DIEPCTL_STALL, 0);
    let word = put_field(word, DIEPCTL_CNAK, 0);
    let word = put_field(word, DIEPCTL_SNAK, 0);
    let word = put_field(word, DIEPCTL_SD0PID, 0);
    let word = put_field(word, DIEPCTL_EPDIS, 0);
    put_field(word, DIEPCTL_EPENA, 0)
}

fn size_of_code(code: u32) -> u8
    ensures value { result ≡ size_of_code code }
    ensures some { 1 ≤ result }
    ensures most { result ≤ 64 }
{
    match code {
        0 => 64,
        1 => 32,
        2 => 16,
        _ => 8,
    }
}

fn size_counted(size: u32) -> u8
    ensures value { result ≡ size_counted size }
    ensures some { 1 ≤ result }
    ensures most { result ≤ 64 }
{
    if size == 0 || size > 64 {
        64
    } else {
        size as u8
    }
}

impl ControlRegister {
    /// All bits are 0.
    pub fn new() -> ControlRegister
        ensures { result ≡ no_control }
    {
        ControlRegister {
            kept: 0,
            nak: false,
            stall: false,
            enabled: false,
        }
    }

    /// What it reads.
    pub fn word(&self) -> u32
        ensures { result ≡ control_word self.now }
    {
        let word = with_flag(self.kept, DIEPCTL_NAKSTS, self.nak);
        let word = with_flag(word, DIEPCTL_STALL, self.stall);
        with_flag(word, DIEPCTL_EPENA, self.enabled)
    }

    /// A word is written; CNAK has its effect where `cnak_acts`.
    pub fn write(&mut self, word: u32, cnak_acts: bool)
        ensures { self.new ≡ control_written cnak_acts self.old word }
    {
        let cleared = cnak_acts && flag(word, DIEPCTL_CNAK);
        self.kept = kept_bits(word);
        self.nak = (self.nak || flag(word, DIEPCTL_SNAK)) && !cleared;
        self.stall = flag(word, DIEPCTL_STALL);
        self.enabled = (self.enabled && !flag(word, DIEPCTL_EPDIS)) || flag(word, DIEPCTL_EPENA);
    }

    /// The size of packets of this endpoint in bytes, 1 to 64.
    pub fn packet_size(&self, number: u8) -> u8
        ensures value { result ≡ packet_size number self.now }
        ensures some { 1 ≤ result }
        ensures most { result ≤ 64 }
    {
        match number {
            0 => size_of_code(get_field(self.kept, DIEPCTL0_SIZE)),
            _ => size_counted(get_field(self.kept, DIEPCTL_SIZE)),
        }
    }

    /// Whether the endpoint is open: endpoint 0 always, another one where it has USBAEP.
    pub fn is_open(&self, number: u8) -> bool
        ensures { result ≡ is_open number self.now }
    {
        match number {
            0 => true,
            _ => flag(self.kept, DIEPCTL_USBAEP),
        }
    }

    /// Whether it answers STALL.
    pub fn stalls(&self) -> bool
        ensures { result ≡ self.now.stall }
    {
        self.stall
    }

    /// Whether it isn't enabled or has NAKSTS.
    pub fn naks(&self) -> bool
        ensures { result ≡ not self.now.enabled || self.now.nak }
    {
        !self.enabled || self.nak
    }

    /// It has no transfer any more.
    pub fn disable(&mut self)
        ensures { self.new ≡ record self.old { enabled = false } }
    {
        self.enabled = false;
    }

    /// It has no transfer any more, and answers NAK.
    pub fn rest(&mut self)
        ensures { self.new ≡ at_rest self.old }
    {
        self.enabled = false;
        self.nak = true;
    }

    /// A SETUP came.
    pub fn meet_setup(&mut self)
        ensures { self.new ≡ control_at_setup self.old }
    {
        self.rest();
        self.stall = false;
    }
}
