ghost use Rattle.std.specs.Prelude.{◌≡◌, ◌≤◌};
ghost use Rattle.dwc2_fifo.specs.Tx.{empty_of as tx_empty};
ghost use Rattle.dwc2_regs.specs.declared.access.TheConstants.{FS4};
ghost use Rattle.host_table.specs.State.{first};
ghost use Rattle.host_table.specs.Write.{packet_removed};

use dwc2_fifo::{RxFifo, TxFifo};
use dwc2_hoststate::{ChannelState, EndRegisters, PortState, remove_packet};
use dwc2_state::KeptRegisters;
use std::marker::Model;

/// Words of the receive FIFO: a packet of 64 bytes with its status for each channel.
const RX_WORDS: u16 = 144;

/// Words of the non-periodic FIFO, a packet for each channel, and of the periodic FIFO, three packets.
const NONPERIODIC_WORDS: u16 = 128;

const PERIODIC_WORDS: u16 = 48;

/// The controller's registers and FIFOs.
#[derive(Drop)]
pub struct Controller {
    pub port: PortState,
    pub kept: KeptRegisters,
    pub hptxfsiz: u32,
    pub hcfg: u32,
    pub haintmsk: u32,
    /// The registers of the device's endpoints, from endpoint 0 on.
    pub ins: [EndRegisters; 4],
    pub outs: [EndRegisters; 4],
    pub rx: RxFifo,
    pub nonperiodic: TxFifo,
    pub periodic: TxFifo,
    pub channels: [ChannelState; 8],
}

impl Model for Controller {
    ghost use Rattle.std.specs.Prelude.{◌≡◌, ◌+◌, length};
    ghost use Rattle.dwc2_regs.specs.declared.access.TheConstants.{FS4};
    ghost use Rattle.host_table.specs.State.{Table};

    ghost Value = { Table };

    ghost view = { λ c. record { port = c.port; kept = c.kept; host = record { hptxfsiz = c.hptxfsiz; hcfg = c.hcfg; haintmsk = c.haintmsk }; device = record { ins = c.ins; outs = c.outs }; rx = c.rx; nonperiodic = c.nonperiodic; periodic = c.periodic; channels = c.channels } };

    ghost invariant = { λ c. (length c.ins ≡ FS4.in_eps + 1) × (length c.outs ≡ FS4.out_eps + 1) × (length c.channels ≡ FS4.channels) };
}

/// A transmit FIFO with place for so many words.
fn tx_fifo(depth: u16) -> TxFifo
    requires { depth ≤ 1024 }
    ensures { result ≡ tx_empty depth }
{
    let mut fifo = TxFifo::new();
    fifo.set_depth(depth);
    fifo
}

impl Controller {
    /// All is 0 at the start, and the FIFOs are empty.
    pub fn new() -> Controller
        ensures { result ≡ first FS4 }
    {
        let mut rx = RxFifo::new();
        rx.set_depth(RX_WORDS);
        Controller {
            port: PortState::new(),
            kept: KeptRegisters::new(),
            hptxfsiz: 0,
            hcfg: 0,
            haintmsk: 0,
            ins: [
                EndRegisters::new(),
                EndRegisters::new(),
                EndRegisters::new(),
                EndRegisters::new(),
            ],
            outs: [
                EndRegisters::new(),
                EndRegisters::new(),
                EndRegisters::new(),
                EndRegisters::new(),
            ],
            rx,
            nonperiodic: tx_fifo(NONPERIODIC_WORDS),
            periodic: tx_fifo(PERIODIC_WORDS),
            channels: [
                ChannelState::new(),
                ChannelState::new(),
                ChannelState::new(),
                ChannelState::new(),
                ChannelState::new(),
                ChannelState::new(),
                ChannelState::new(),
                ChannelState::new(),
            ],
        }
    }

    /// The packet of a channel is removed, whole or begun, wherever it lies.
    pub fn remove_packets(&mut self, x: u8)
        ensures { self.new ≡ packet_removed self.old x }
    {
        remove_packet(&mut self.nonperiodic, x);
        remove_packet(&mut self.periodic, x);
    }
}
