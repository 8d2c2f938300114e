ghost use Rattle.std.specs.Prelude.{◌≡◌, ◌||◌, true};
ghost use Rattle.usb_packet.specs.declared.bus.Toggle.TheVariants.{D1};
ghost use Rattle.device_table.specs.State.{no_out_end};
ghost use Rattle.device_table.specs.Read.{doepint_word};
ghost use Rattle.device_table.specs.Write.{out_control_written, out_interrupts_written};
ghost use Rattle.device_table.specs.Bus.{control_at_setup, out_landed};
ghost use Rattle.dwc2_state.specs.Ends.{out_written};

use crate::bits::{flag, flipped, with_flag};
use crate::control::ControlRegister;
use crate::place::OutRegister;
use bitflags::Flags;
use dwc2_regs::{
    DIEPCTL_EPDIS, DIEPCTL_SD0PID, DOEPINT_EPDISD, DOEPINT_STUP, DOEPINT_XFRC, EndpointInterrupts,
};
use std::marker::Model;
use usb_packet::Toggle;

/// One OUT endpoint. It keeps whether any of its interrupts is 1, since most are asked for while none is.
#[derive(Drop)]
pub struct OutEndpoint {
    control: ControlRegister,
    toggle: Toggle,
    xfrc: bool,
    epdisd: bool,
    stup: bool,
    raised: bool,
    tsiz: u32,
}

impl Model for OutEndpoint {
    ghost use Rattle.std.specs.Prelude.{◌≡◌, ◌||◌};
    ghost use Rattle.device_table.specs.State.{OutEnd};

    ghost Value = { OutEnd };

    ghost view = { λ e. record { control = e.control; toggle = e.toggle; xfrc = e.xfrc; epdisd = e.epdisd; stup = e.stup; tsiz = e.tsiz } };

    ghost invariant = { λ e. e.raised ≡ (e.xfrc || e.epdisd || e.stup) };
}

impl OutEndpoint {
    /// All is 0.
    pub fn new() -> OutEndpoint
        ensures { result ≡ no_out_end }
    {
        OutEndpoint {
            control: ControlRegister::new(),
            toggle: Toggle::D0,
            xfrc: false,
            epdisd: false,
            stup: false,
            raised: false,
            tsiz: 0,
        }
    }

    /// Its control register.
    pub fn control(&self) -> &ControlRegister
        ensures { result.now ≡ self.now.control }
    {
        &self.control
    }

    /// The toggle of its next packet.
    pub fn toggle(&self) -> Toggle
        ensures { result ≡ self.now.toggle }
    {
        self.toggle
    }

    /// Whether DOEPINTx has XFRC.
    pub fn is_complete(&self) -> bool
        ensures { result ≡ self.now.xfrc }
    {
        self.xfrc
    }

    /// Whether DOEPINTx has EPDISD.
    pub fn was_disabled(&self) -> bool
        ensures { result ≡ self.now.epdisd }
    {
        self.epdisd
    }

    /// Whether DOEPINTx has STUP.
    pub fn has_setup(&self) -> bool
        ensures { result ≡ self.now.stup }
    {
        self.stup
    }

    /// Whether DOEPINTx has any of them.
    pub fn is_raised(&self) -> bool
        ensures { result ≡ (self.now.xfrc || self.now.epdisd || self.now.stup) }
    {
        self.raised
    }

    /// DOEPINTx.
    pub fn interrupts(&self) -> u32
        ensures { result ≡ doepint_word self.now }
    {
        let word = with_flag(0, DOEPINT_XFRC, self.xfrc);
        let word = with_flag(word, DOEPINT_EPDISD, self.epdisd);
        with_flag(word, DOEPINT_STUP, self.stup)
    }

    /// DOEPTSIZx.
    pub fn size(&self) -> u32
        ensures { result ≡ self.now.tsiz }
    {
        self.tsiz
    }

    /// A word is written to one of its registers; CNAK has its effect where `cnak_acts`.
    pub fn write(&mut self, cnak_acts: bool, register: OutRegister, word: u32)
        ensures { self.new ≡ out_written cnak_acts register word self.old }
    {
        match register {
            OutRegister::Control => self.write_control(cnak_acts, word),
            OutRegister::Interrupts => self.clear_interrupts(word),
            OutRegister::Size => self.tsiz = word,
        }
    }

    #[tactic(auto, using(dwc2_regs::proofs::SetLemmas::interrupt_bits))]
    fn clear_interrupts(&mut self, word: u32)
        ensures { self.new ≡ out_interrupts_written self.old word }
    {
        let cleared = EndpointInterrupts::from_bits_retain(word);
        self.xfrc = self.xfrc && !cleared.contains(EndpointInterrupts::XFRC);
        self.epdisd = self.epdisd && !cleared.contains(EndpointInterrupts::EPDISD);
        self.stup = self.stup && !cleared.contains(EndpointInterrupts::STUP);
        self.raised = self.xfrc || self.epdisd || self.stup;
    }

    #[tactic(auto, using(crate::proofs::RaisedLemmas::raised_more))]
    fn write_control(&mut self, cnak_acts: bool, word: u32)
        ensures { self.new ≡ out_control_written cnak_acts self.old word }
    {
        self.control.write(word, cnak_acts);
        if flag(word, DIEPCTL_SD0PID) {
            self.toggle = Toggle::D0;
        }
        let disables = flag(word, DIEPCTL_EPDIS);
        self.epdisd = self.epdisd || disables;
        self.raised = self.raised || disables;
    }

    /// The end of a SETUP was popped.
    #[tactic(auto, using(crate::proofs::RaisedLemmas::raised_by_last))]
    pub fn end_setup(&mut self)
        ensures { self.new ≡ record self.old { stup = true } }
    {
        self.stup = true;
        self.raised = true;
    }

    /// The end of a packet was popped.
    pub fn complete(&mut self)
        ensures { self.new ≡ record self.old { xfrc = true } }
    {
        self.xfrc = true;
        self.raised = true;
    }

    /// A SETUP came: it is disabled and answers NAK, and the next packet is DATA1.
    pub fn meet_setup(&mut self)
        ensures { self.new ≡ record self.old { control = control_at_setup self.old.control; toggle = D1 } }
    {
        self.control.meet_setup();
        self.toggle = Toggle::D1;
    }

    /// A packet landed on it.
    pub fn land(&mut self)
        ensures { self.new ≡ out_landed self.old }
    {
        self.control.rest();
        self.toggle = flipped(self.toggle);
    }
}
