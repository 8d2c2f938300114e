//! Sets of descriptors for the tests.
ghost use Rattle.std.specs.Prelude.{◌≤◌, IfOk, length};
ghost use Rattle.usb_descriptor.specs.Strings.{Ascend};
ghost use Rattle.usb_descriptor.specs.Set.{IsAccepted};
ghost use Rattle.dwc2_regs.specs.declared.access.TheConstants.{FS4};
ghost use Rattle.usbd_core.specs.Device.{tops};

use dwc2_regs::FS4;
use usb_descriptor::{DescSet, EpLimits, SetFault, SetParts, StringPart, read_set};

/// A device with packets of 64 bytes on endpoint 0, and one configuration (USB 2.0, 9.6.1).
pub const DEVICE: &[u8] =
    b"\x12\x01\x00\x02\x00\x00\x00\x40\xfe\xca\x01\x40\x00\x01\x00\x00\x00\x01";

/// The set of this device with this configuration and these strings.
pub fn set_of<'a>(config: &'a [u8], strings: &'a [StringPart]) -> Result<DescSet, SetFault>
    requires few { length strings.now ≤ 8 }
    requires ascending { Ascend 1 strings.now }
    ensures { IfOk result (λ set. IsAccepted set (tops FS4)) }
{
    let parts = SetParts {
        device: DEVICE,
        config,
        strings,
        report: None,
    };
    let limits = EpLimits {
        in_top: FS4.in_eps,
        out_top: FS4.out_eps,
        report_known: true,
    };
    read_set(&parts, limits)
}
