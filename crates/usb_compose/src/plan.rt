ghost use Rattle.std.specs.Prelude.{◌≡◌, ◌+◌, ◌*◌, ◌≤◌, true};
ghost use Rattle.dwc2_regs.specs.declared.access.TheConstants.{FS4};
ghost use Rattle.device_table.specs.State.{rx_depth, tx0_depth, tx_depth};
ghost use Rattle.usb_descriptor.specs.Set.{IsAccepted, endpoints_of};
ghost use Rattle.usb_compose.specs.Plan.{most_words};

use dwc2_regs::Profile;
use usb_descriptor::DescSet;
use usb_descriptor::laws::acceptance_serves;

/// Words of a SETUP in the receive FIFO, which has room for three, and of a packet of 64 bytes with its status.
const SETUP: u16 = 4;

const PACKET: u16 = 18;

/// The depths of a controller's FIFOs in words of 32 bits.
#[derive(Clone, Copy, Debug, PartialEq, Eq)]
pub struct FifoPlan {
    /// The receive FIFO.
    pub rx: u16,
    /// The transmit FIFO of endpoint 0.
    pub tx0: u16,
    /// Each of the other transmit FIFOs.
    pub tx: u16,
    /// How many of them there are.
    pub ins: u8,
}

/// The plan for a set on a controller, which has to be `FS4`. It is the same for every set: three SETUPs and one packet of
/// 64 bytes for each OUT endpoint of the controller, one such packet for IN endpoint 0, and two for each other one. So what
/// comes on the OUT endpoints of a set that the controller serves always finds room.
pub fn fifo_plan(set: &DescSet, profile: Profile) -> FifoPlan
    requires { profile ≡ FS4 }
    ensures depths { result ≡ record { rx = rx_depth profile; tx0 = tx0_depth; tx = tx_depth; ins = profile.in_eps } }
    ensures memory { result.rx + result.tx0 + result.ins * result.tx ≤ profile.ram_words }
    ensures room { IsAccepted set.now (record { in_top = profile.in_eps; out_top = profile.out_eps; report_known = true })
        → most_words (endpoints_of set.now.config) ≤ result.rx }
{
    acceptance_serves(set);
    FifoPlan {
        rx: 3 * SETUP + PACKET * (profile.out_eps as u16 + 1),
        tx0: 16,
        tx: 32,
        ins: profile.in_eps,
    }
}
