ghost use Rattle.std.specs.Prelude.{◌≡◌, ◌≢◌, ℕ, ◌≤◌, ◌<◌, IsSome, IfSome, IfNone};
ghost use Rattle.dwc2_regs.specs.declared.access.TheConstants.{FS4};
ghost use Rattle.device_table.specs.State.{first, in_end, in_end_of, out_end, no_out_end};
ghost use Rattle.device_table.specs.Write.{setup_lies, cnak_acts};
ghost use Rattle.device_table.specs.Bus.{setup_waits};

use dwc2_fifo::RxFifo;
use dwc2_state::{BusState, HostRegisters, InEndpoint, KeptRegisters, OutEndpoint};
use std::marker::Model;

/// Words of the receive FIFO: three SETUPs, and a packet of 64 bytes with its status for each OUT endpoint.
const RX_WORDS: u16 = 84;

/// Words of the transmit FIFO of endpoint 0, a packet, and of each other IN endpoint, two packets.
const TX0_WORDS: u16 = 16;

const TX_WORDS: u16 = 32;

/// The controller's registers and FIFOs.
#[derive(Drop)]
pub struct Controller {
    pub core: BusState,
    pub kept: KeptRegisters,
    pub host: HostRegisters,
    pub rx: RxFifo,
    /// How many entries of SETUPs lie in the receive FIFO.
    pub setups: u16,
    pub in0: InEndpoint,
    pub ins: [InEndpoint; 3],
    pub out0: OutEndpoint,
    pub outs: [OutEndpoint; 3],
}

impl Model for Controller {
    ghost use Rattle.std.specs.Prelude.{◌≡◌, length};
    ghost use Rattle.dwc2_regs.specs.declared.access.TheConstants.{FS4};
    ghost use Rattle.device_table.specs.State.{Table};
    ghost use Rattle.dwc2_devmodel.specs.Setups.{IsCounted};

    ghost Value = { Table };

    ghost view = { λ c. record { core = c.core; kept = c.kept; host = c.host; rx = c.rx; in0 = c.in0; ins = c.ins; out0 = c.out0; outs = c.outs } };

    ghost invariant = { λ c. IsCounted FS4 c.rx c.setups × (length c.ins ≡ FS4.in_eps) × (length c.outs ≡ FS4.out_eps) };
}

impl Controller {
    /// All is 0 at the start, and the FIFOs are empty.
    pub fn new() -> Controller
        ensures { result ≡ first FS4 }
    {
        let mut rx = RxFifo::new();
        rx.set_depth(RX_WORDS);
        Controller {
            core: BusState::new(),
            kept: KeptRegisters::new(),
            host: HostRegisters::new(),
            rx,
            setups: 0,
            in0: InEndpoint::new(TX0_WORDS),
            ins: [
                InEndpoint::new(TX_WORDS),
                InEndpoint::new(TX_WORDS),
                InEndpoint::new(TX_WORDS),
            ],
            out0: OutEndpoint::new(),
            outs: [OutEndpoint::new(), OutEndpoint::new(), OutEndpoint::new()],
        }
    }

    /// An IN endpoint, where there is one of that number.
    pub fn in_end(&self, x: u8) -> Option<&InEndpoint>
        ensures some { IfSome result (λ end. end.now ≡ in_end self.now x) }
        ensures none { IfNone result ((in_end self.now x ≡ in_end_of 0) × (x ≢ 0)) }
        ensures number { IsSome result → x ≤ FS4.in_eps }
    {
        match x {
            0 => Some(&self.in0),
            _ => self.ins.get(x as usize - 1),
        }
    }

    /// An OUT endpoint, where there is one of that number.
    pub fn out_end(&self, x: u8) -> Option<&OutEndpoint>
        ensures some { IfSome result (λ end. end.now ≡ out_end self.now x) }
        ensures none { IfNone result ((out_end self.now x ≡ no_out_end) × (x ≢ 0)) }
        ensures number { IsSome result → x ≤ FS4.out_eps }
    {
        match x {
            0 => Some(&self.out0),
            _ => self.outs.get(x as usize - 1),
        }
    }

    /// Whether an entry of a SETUP lies in the receive FIFO.
    pub fn setup_lies(&self) -> bool
        ensures { result ≡ setup_lies self.now }
    {
        self.setups != 0
    }

    /// Whether a packet of that endpoint has to wait since one does.
    pub fn setup_waits(&self, ep: u8) -> bool
        ensures { result ≡ setup_waits self.now ep }
    {
        match ep {
            0 => self.setup_lies(),
            _ => false,
        }
    }

    /// Whether CNAK has its effect on that endpoint.
    pub fn cnak_acts(&self, x: u8) -> bool
        ensures { result ≡ cnak_acts self.now x }
    {
        match x {
            0 => !self.setup_lies(),
            _ => true,
        }
    }
}
