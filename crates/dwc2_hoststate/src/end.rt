ghost use Rattle.std.specs.Prelude.{◌≡◌};
ghost use Rattle.device_table.specs.Words.{control_word, with_flag};
ghost use Rattle.host_table.specs.State.{no_end};
ghost use Rattle.host_table.specs.Write.{end_control_written, end_interrupts_written};

use dwc2_regs::{DIEPCTL_EPDIS, DIEPINT_EPDISD};
use dwc2_state::{ControlRegister, flag, with_flag};
use std::marker::Model;

/// The registers of an endpoint, which in host mode has neither a bus nor a FIFO.
#[derive(Drop)]
pub struct EndRegisters {
    control: ControlRegister,
    pub epdisd: bool,
    pub tsiz: u32,
}

impl Model for EndRegisters {
    ghost use Rattle.host_table.specs.State.{DeviceEnd};

    ghost Value = { DeviceEnd };

    ghost view = { λ e. record { control = e.control; epdisd = e.epdisd; tsiz = e.tsiz } };
}

impl EndRegisters {
    /// All its registers are 0 at the start.
    pub fn new() -> EndRegisters
        ensures { result ≡ no_end }
    {
        EndRegisters {
            control: ControlRegister::new(),
            epdisd: false,
            tsiz: 0,
        }
    }

    /// What DIEPCTLx or DOEPCTLx reads.
    pub fn control_word(&self) -> u32
        ensures { result ≡ control_word self.now.control }
    {
        self.control.word()
    }

    /// What DIEPINTx or DOEPINTx reads.
    pub fn interrupts(&self) -> u32
        ensures { result ≡ with_flag 0 DIEPINT_EPDISD self.now.epdisd }
    {
        with_flag(0, DIEPINT_EPDISD, self.epdisd)
    }

    /// DIEPCTLx or DOEPCTLx is written.
    pub fn write_control(&mut self, word: u32)
        ensures { self.new ≡ end_control_written self.old word }
    {
        self.control.write(word, true);
        self.epdisd = self.epdisd || flag(word, DIEPCTL_EPDIS);
    }

    /// DIEPINTx or DOEPINTx is written.
    pub fn write_interrupts(&mut self, word: u32)
        ensures { self.new ≡ end_interrupts_written self.old word }
    {
        self.epdisd = self.epdisd && !flag(word, DIEPINT_EPDISD);
    }

    /// DIEPTSIZx or DOEPTSIZx is written.
    pub fn write_size(&mut self, word: u32)
        ensures { self.new ≡ record self.old { tsiz = word } }
    {
        self.tsiz = word;
    }
}
