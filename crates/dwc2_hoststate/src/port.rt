ghost use Rattle.std.specs.Prelude.{◌≡◌, true, false};
ghost use Rattle.dwc2_regs.specs.declared.access.TheConstants.{FS4};
ghost use Rattle.host_table.specs.State.{first};
ghost use Rattle.host_table.specs.Words.{port_bits, port_word};
ghost use Rattle.host_table.specs.Read.{hprtint};
ghost use Rattle.host_table.specs.Write.{gintsts_written, hprt_written, drives_reset};
ghost use Rattle.host_table.specs.Bus.{attached};

use dwc2_regs::{
    GINTSTS_DISCINT, HPRT_PCDET, HPRT_PCSTS, HPRT_PENA, HPRT_PENCHNG, HPRT_PRST, put_field,
};
use dwc2_state::{flag, with_flag};
use std::marker::Model;

/// The port: HPRT, DISCINT of GINTSTS, and whether a reset was driven.
#[derive(Drop)]
pub struct PortState {
    kept: u32,
    pcsts: bool,
    pcdet: bool,
    pub pena: bool,
    penchng: bool,
    pub discint: bool,
    pub reset_driven: bool,
}

impl Model for PortState {
    ghost use Rattle.host_table.specs.State.{Port};

    ghost Value = { Port };

    ghost view = { λ p. record { kept = p.kept; pcsts = p.pcsts; pcdet = p.pcdet; pena = p.pena; penchng = p.penchng; discint = p.discint; reset_driven = p.reset_driven } };
}

// The bits that are kept as written.
fn port_bits(word: u32) -> u32
    ensures { result ≡ port_bits word }
{
    let word = put_field(word, HPRT_PCSTS, 0);
    let word = put_field(word, HPRT_PCDET, 0);
    let word = put_field(word, HPRT_PENA, 0);
    put_field(word, HPRT_PENCHNG, 0)
}

impl PortState {
    /// At the start nothing is attached, and all bits are 0.
    pub fn new() -> PortState
        ensures { result ≡ (first FS4).port }
    {
        PortState {
            kept: 0,
            pcsts: false,
            pcdet: false,
            pena: false,
            penchng: false,
            discint: false,
            reset_driven: false,
        }
    }

    /// What HPRT reads.
    pub fn word(&self) -> u32
        ensures { result ≡ port_word self.now }
    {
        let word = with_flag(self.kept, HPRT_PCSTS, self.pcsts);
        let word = with_flag(word, HPRT_PCDET, self.pcdet);
        let word = with_flag(word, HPRT_PENA, self.pena);
        with_flag(word, HPRT_PENCHNG, self.penchng)
    }

    /// HPRTINT of GINTSTS.
    pub fn interrupts(&self) -> bool
        ensures { result ≡ hprtint self.now }
    {
        self.pcdet || self.penchng
    }

    // Whether the word ends a reset of the port.
    fn drives_reset(&self, word: u32) -> bool
        ensures { result ≡ drives_reset self.now word }
    {
        flag(self.kept, HPRT_PRST) && !flag(word, HPRT_PRST) && self.pcsts
    }

    /// HPRT is written.
    pub fn write(&mut self, word: u32)
        ensures { self.new ≡ hprt_written self.old word }
    {
        let driven = self.drives_reset(word);
        self.kept = port_bits(word);
        self.pcdet = self.pcdet && !flag(word, HPRT_PCDET);
        self.pena = self.pena || driven;
        self.penchng = (self.penchng && !flag(word, HPRT_PENCHNG)) || driven;
        self.reset_driven = self.reset_driven || driven;
    }

    /// GINTSTS is written.
    pub fn write_interrupts(&mut self, word: u32)
        ensures { self.new ≡ gintsts_written self.old word }
    {
        self.discint = self.discint && !flag(word, GINTSTS_DISCINT);
    }

    /// A device is attached.
    pub fn attach(&mut self)
        ensures { self.new ≡ attached self.old }
    {
        if !self.pcsts {
            self.pcsts = true;
            self.pcdet = true;
        }
    }

    /// It is detached.
    pub fn detach(&mut self)
        ensures { self.new ≡ record self.old { pcsts = false; pena = false; discint = true } }
    {
        self.pcsts = false;
        self.pena = false;
        self.discint = true;
    }

    /// Tells whether a reset was driven since this was last asked.
    pub fn take_reset(&mut self) -> bool
        ensures value { result ≡ self.old.reset_driven }
        ensures after { self.new ≡ record self.old { reset_driven = false } }
    {
        let driven = self.reset_driven;
        self.reset_driven = false;
        driven
    }
}
