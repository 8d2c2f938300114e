use crate::{FifoPlan, fifo_plan};
use dwc2_regs::FS4;
use usb_descriptor::{EpLimits, SetParts, read_set};

const LIMITS: EpLimits = EpLimits {
    in_top: 3,
    out_top: 3,
    report_known: true,
};

const DEVICE: &[u8] = b"\x12\x01\x00\x02\x00\x00\x00\x40\xfe\xca\x01\x40\x00\x01\x00\x00\x00\x01";

/// One interface without endpoints.
const CONFIG: &[u8] = b"\x09\x02\x12\x00\x01\x01\x00\x80\x32\x09\x04\x00\x00\x00\xff\x00\x00\x00";

#[test]
fn plan(rt: HostRuntime) {
    let parts = SetParts {
        device: DEVICE,
        config: CONFIG,
        strings: &[],
        report: None,
    };
    match read_set(&parts, LIMITS) {
        Ok(set) => {
            let plan = FifoPlan {
                rx: 84,
                tx0: 16,
                tx: 32,
                ins: 3,
            };
            assert_eq!(rt; fifo_plan(&set, FS4), plan);
        }
        Err(_) => assert!(rt; false),
    }
}
