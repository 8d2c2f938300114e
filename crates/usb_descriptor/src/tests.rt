ghost use Rattle.std.specs.Prelude.{◌≤◌, length, IfSome};
ghost use Rattle.usb_descriptor.specs.Strings.{Ascend};

use crate::{DescSet, EpKind, EpLimits, Owner, SetFault, SetParts, StringPart, read_set};
use arrayvec::ArrayVec;

/// Device descriptors with the rule that each breaks, or 0 where it is whole.
const DEVICES: [(&[u8], u8); 7] = [
    // whole
    (
        b"\x12\x01\x00\x02\x00\x00\x00\x40\xfe\xca\x01\x40\x00\x01\x00\x00\x00\x01",
        0,
    ),
    // 17 bytes
    (
        b"\x12\x01\x00\x02\x00\x00\x00\x40\xfe\xca\x01\x40\x00\x01\x00\x00\x00",
        1,
    ),
    // 19 bytes
    (
        b"\x12\x01\x00\x02\x00\x00\x00\x40\xfe\xca\x01\x40\x00\x01\x00\x00\x00\x01\x00",
        1,
    ),
    // a length of 17
    (
        b"\x11\x01\x00\x02\x00\x00\x00\x40\xfe\xca\x01\x40\x00\x01\x00\x00\x00\x01",
        1,
    ),
    // a type of 2, packets of 8 bytes
    (
        b"\x12\x02\x00\x02\x00\x00\x00\x08\xfe\xca\x01\x40\x00\x01\x00\x00\x00\x01",
        1,
    ),
    // packets of 8 bytes, no configuration
    (
        b"\x12\x01\x00\x02\x00\x00\x00\x08\xfe\xca\x01\x40\x00\x01\x00\x00\x00\x00",
        2,
    ),
    // no configuration
    (
        b"\x12\x01\x00\x02\x00\x00\x00\x40\xfe\xca\x01\x40\x00\x01\x00\x00\x00\x00",
        3,
    ),
];

/// Three endpoints in each direction, as the device's controller has.
const LIMITS: EpLimits = EpLimits {
    in_top: 3,
    out_top: 3,
    report_known: true,
};

/// A serial port and mass storage.
const SERIAL_AND_STORAGE: &[u8] =
    b"\x09\x02\x62\x00\x03\x01\x00\x80\x32\x08\x0b\x00\x02\x02\x02\x00\x00\x09\x04\x00\x00\x01\x02\x02\x00\x00\x05\x24\x00\x20\x01\x05\x24\x01\x00\x01\x04\x24\x02\x02\x05\x24\x06\x00\x01\x07\x05\x81\x03\x10\x00\x10\x09\x04\x01\x00\x02\x0a\x00\x00\x00\x07\x05\x01\x02\x40\x00\x00\x07\x05\x82\x02\x40\x00\x00\x09\x04\x02\x00\x02\x08\x06\x50\x00\x07\x05\x02\x02\x40\x00\x00\x07\x05\x83\x02\x40\x00\x00";

/// A serial port whose data interface stands before its communications interface.
const DATA_FIRST: &[u8] =
    b"\x09\x02\x35\x00\x02\x01\x00\x80\x32\x09\x04\x00\x00\x02\x0a\x00\x00\x00\x07\x05\x01\x02\x40\x00\x00\x07\x05\x82\x02\x40\x00\x00\x09\x04\x01\x00\x01\x02\x02\x00\x00\x05\x24\x06\x01\x00\x07\x05\x81\x03\x10\x00\x0a";

/// Configurations with the rule that each breaks and the place, or 0 and 0 where it is accepted.
const CONFIGS: [(&[u8], u8, u16); 47] = [
    // one interface without endpoints
    (
        b"\x09\x02\x12\x00\x01\x01\x00\x80\x32\x09\x04\x00\x00\x00\xff\x00\x00\x00",
        0,
        0,
    ),
    // a serial port and mass storage
    (SERIAL_AND_STORAGE, 0, 0),
    (DATA_FIRST, 0, 0),
    // two serial ports, the first with two union descriptors that aren't its own
    (
        b"\x09\x02\x66\x00\x05\x01\x00\x80\x32\x09\x04\x00\x00\x00\x0a\x00\x00\x00\x09\x04\x01\x00\x01\x02\x02\x01\x00\x05\x24\x06\x01\x07\x05\x24\x06\x02\x00\x05\x24\x06\x01\x04\x07\x05\x81\x03\x08\x00\x0a\x09\x04\x02\x00\x01\x02\x02\x01\x00\x05\x24\x06\x02\x00\x07\x05\x82\x03\x08\x00\x0a\x09\x04\x03\x00\x00\x0a\x00\x00\x00\x09\x04\x04\x00\x02\x0a\x00\x00\x00\x07\x05\x02\x02\x40\x00\x00\x07\x05\x83\x02\x40\x00\x00",
        0,
        0,
    ),
    // no interface
    (b"\x09\x02\x09\x00\x00\x01\x00\x80\x32", 0, 0),
    // an alternate setting with an address that comes twice
    (
        b"\x09\x02\x32\x00\x02\x01\x00\x80\x32\x09\x04\x00\x00\x01\xff\x00\x00\x00\x07\x05\x81\x02\x40\x00\x00\x09\x04\x00\x01\x01\xff\x00\x00\x00\x07\x05\x81\x02\x40\x00\x00\x09\x04\x01\x00\x00\xff\x00\x00\x00",
        0,
        0,
    ),
    // an endpoint of nine bytes
    (
        b"\x09\x02\x1b\x00\x01\x01\x00\x80\x32\x09\x04\x00\x00\x01\xff\x00\x00\x00\x09\x05\x01\x02\x40\x00\x00\x00\x00",
        0,
        0,
    ),
    // both directions of a number
    (
        b"\x09\x02\x20\x00\x01\x01\x00\x80\x32\x09\x04\x00\x00\x02\xff\x00\x00\x00\x07\x05\x01\x02\x40\x00\x00\x07\x05\x81\x02\x40\x00\x00",
        0,
        0,
    ),
    // one interface of two in an association
    (
        b"\x09\x02\x23\x00\x02\x01\x00\x80\x32\x08\x0b\x01\x01\x00\x00\x00\x00\x09\x04\x00\x00\x00\xff\x00\x00\x00\x09\x04\x01\x00\x00\xff\x00\x00\x00",
        0,
        0,
    ),
    // eight bytes
    (b"\x09\x02\x08\x00\x01\x01\x00\x80", 4, 0),
    // a type of 3
    (b"\x09\x03\x09\x00\x00\x01\x00\x80\x32", 4, 0),
    // a total one above
    (
        b"\x09\x02\x13\x00\x01\x01\x00\x80\x32\x09\x04\x00\x00\x00\xff\x00\x00\x00",
        5,
        0,
    ),
    // a total one below
    (
        b"\x09\x02\x11\x00\x01\x01\x00\x80\x32\x09\x04\x00\x00\x00\xff\x00\x00\x00",
        5,
        0,
    ),
    // value 0
    (
        b"\x09\x02\x12\x00\x01\x00\x00\x80\x32\x09\x04\x00\x00\x00\xff\x00\x00\x00",
        6,
        0,
    ),
    // a length of 0
    (
        b"\x09\x02\x14\x00\x01\x01\x00\x80\x32\x09\x04\x00\x00\x00\xff\x00\x00\x00\x00\xff",
        7,
        18,
    ),
    // a length of 1
    (
        b"\x09\x02\x14\x00\x01\x01\x00\x80\x32\x09\x04\x00\x00\x00\xff\x00\x00\x00\x01\xff",
        7,
        18,
    ),
    // a length past the end
    (
        b"\x09\x02\x14\x00\x01\x01\x00\x80\x32\x09\x04\x00\x00\x00\xff\x00\x00\x00\x03\xff",
        7,
        18,
    ),
    // an interface of 8 bytes
    (
        b"\x09\x02\x11\x00\x01\x01\x00\x80\x32\x08\x04\x00\x00\x00\xff\x00\x00",
        8,
        9,
    ),
    // an endpoint of 8 bytes
    (
        b"\x09\x02\x1a\x00\x01\x01\x00\x80\x32\x09\x04\x00\x00\x01\xff\x00\x00\x00\x08\x05\x81\x02\x40\x00\x00\x00",
        8,
        18,
    ),
    // an endpoint of 6 bytes in an alternate setting
    (
        b"\x09\x02\x21\x00\x01\x01\x00\x80\x32\x09\x04\x00\x00\x00\xff\x00\x00\x00\x09\x04\x00\x01\x01\xff\x00\x00\x00\x06\x05\x81\x02\x40\x00",
        8,
        27,
    ),
    // an association of 9 bytes
    (
        b"\x09\x02\x1b\x00\x01\x01\x00\x80\x32\x09\x0b\x00\x01\x00\x00\x00\x00\x00\x09\x04\x00\x00\x00\xff\x00\x00\x00",
        8,
        9,
    ),
    // numbers 0 and 2
    (
        b"\x09\x02\x1b\x00\x02\x01\x00\x80\x32\x09\x04\x00\x00\x00\xff\x00\x00\x00\x09\x04\x02\x00\x00\xff\x00\x00\x00",
        9,
        0,
    ),
    // 255 interfaces claimed
    (
        b"\x09\x02\x12\x00\xff\x01\x00\x80\x32\x09\x04\x00\x00\x00\xff\x00\x00\x00",
        9,
        0,
    ),
    // an interface fewer claimed
    (
        b"\x09\x02\x1b\x00\x01\x01\x00\x80\x32\x09\x04\x00\x00\x00\xff\x00\x00\x00\x09\x04\x01\x00\x00\xff\x00\x00\x00",
        9,
        0,
    ),
    // an endpoint before the interface
    (
        b"\x09\x02\x19\x00\x01\x01\x00\x80\x32\x07\x05\x81\x02\x40\x00\x00\x09\x04\x00\x00\x00\xff\x00\x00\x00",
        10,
        9,
    ),
    // an endpoint more than said
    (
        b"\x09\x02\x19\x00\x01\x01\x00\x80\x32\x09\x04\x00\x00\x00\xff\x00\x00\x00\x07\x05\x81\x02\x40\x00\x00",
        10,
        9,
    ),
    // an endpoint fewer than said
    (
        b"\x09\x02\x22\x00\x02\x01\x00\x80\x32\x09\x04\x00\x00\x00\xff\x00\x00\x00\x09\x04\x01\x00\x02\xff\x00\x00\x00\x07\x05\x81\x02\x40\x00\x00",
        10,
        18,
    ),
    // an address twice
    (
        b"\x09\x02\x29\x00\x02\x01\x00\x80\x32\x09\x04\x00\x00\x01\xff\x00\x00\x00\x07\x05\x81\x02\x40\x00\x00\x09\x04\x01\x00\x01\xff\x00\x00\x00\x07\x05\x81\x02\x40\x00\x00",
        11,
        34,
    ),
    // number 0
    (
        b"\x09\x02\x19\x00\x01\x01\x00\x80\x32\x09\x04\x00\x00\x01\xff\x00\x00\x00\x07\x05\x80\x02\x40\x00\x00",
        11,
        18,
    ),
    // bit 4 of an address
    (
        b"\x09\x02\x19\x00\x01\x01\x00\x80\x32\x09\x04\x00\x00\x01\xff\x00\x00\x00\x07\x05\x91\x02\x40\x00\x00",
        11,
        18,
    ),
    // isochronous
    (
        b"\x09\x02\x19\x00\x01\x01\x00\x80\x32\x09\x04\x00\x00\x01\xff\x00\x00\x00\x07\x05\x81\x01\x40\x00\x00",
        11,
        18,
    ),
    // 63 bytes for bulk
    (
        b"\x09\x02\x19\x00\x01\x01\x00\x80\x32\x09\x04\x00\x00\x01\xff\x00\x00\x00\x07\x05\x81\x02\x3f\x00\x00",
        12,
        18,
    ),
    // 320 bytes for bulk
    (
        b"\x09\x02\x19\x00\x01\x01\x00\x80\x32\x09\x04\x00\x00\x01\xff\x00\x00\x00\x07\x05\x81\x02\x40\x01\x00",
        12,
        18,
    ),
    // no bytes for interrupt
    (
        b"\x09\x02\x19\x00\x01\x01\x00\x80\x32\x09\x04\x00\x00\x01\xff\x00\x00\x00\x07\x05\x81\x03\x00\x00\x00",
        12,
        18,
    ),
    // 65 bytes for interrupt
    (
        b"\x09\x02\x19\x00\x01\x01\x00\x80\x32\x09\x04\x00\x00\x01\xff\x00\x00\x00\x07\x05\x81\x03\x41\x00\x00",
        12,
        18,
    ),
    // IN number 4
    (
        b"\x09\x02\x20\x00\x01\x01\x00\x80\x32\x09\x04\x00\x00\x02\xff\x00\x00\x00\x07\x05\x03\x02\x40\x00\x00\x07\x05\x84\x02\x40\x00\x00",
        13,
        25,
    ),
    // OUT number 4
    (
        b"\x09\x02\x19\x00\x01\x01\x00\x80\x32\x09\x04\x00\x00\x01\xff\x00\x00\x00\x07\x05\x04\x02\x40\x00\x00",
        13,
        18,
    ),
    // an association past the end
    (
        b"\x09\x02\x23\x00\x02\x01\x00\x80\x32\x08\x0b\x00\x03\x00\x00\x00\x00\x09\x04\x00\x00\x00\xff\x00\x00\x00\x09\x04\x01\x00\x00\xff\x00\x00\x00",
        14,
        9,
    ),
    // an association of none
    (
        b"\x09\x02\x1a\x00\x01\x01\x00\x80\x32\x09\x04\x00\x00\x00\xff\x00\x00\x00\x08\x0b\x00\x00\x00\x00\x00\x00",
        14,
        18,
    ),
    // a union that names itself
    (
        b"\x09\x02\x62\x00\x03\x01\x00\x80\x32\x08\x0b\x00\x02\x02\x02\x00\x00\x09\x04\x00\x00\x01\x02\x02\x00\x00\x05\x24\x00\x20\x01\x05\x24\x01\x00\x01\x04\x24\x02\x02\x05\x24\x06\x00\x00\x07\x05\x81\x03\x10\x00\x10\x09\x04\x01\x00\x02\x0a\x00\x00\x00\x07\x05\x01\x02\x40\x00\x00\x07\x05\x82\x02\x40\x00\x00\x09\x04\x02\x00\x02\x08\x06\x50\x00\x07\x05\x02\x02\x40\x00\x00\x07\x05\x83\x02\x40\x00\x00",
        15,
        0,
    ),
    // a union of 4 bytes
    (
        b"\x09\x02\x36\x00\x02\x01\x00\x80\x32\x09\x04\x00\x00\x01\x02\x02\x00\x00\x04\x24\x06\x00\x02\xff\x07\x05\x81\x03\x08\x00\x00\x09\x04\x01\x00\x02\x0a\x00\x00\x00\x07\x05\x01\x02\x40\x00\x00\x07\x05\x82\x02\x40\x00\x00",
        15,
        0,
    ),
    // a HID descriptor of 8 bytes
    (
        b"\x09\x02\x21\x00\x01\x01\x00\x80\x32\x09\x04\x00\x00\x01\x03\x00\x00\x00\x08\x21\x11\x01\x00\x01\x22\x34\x07\x05\x81\x03\x08\x00\x00",
        16,
        0,
    ),
    // a report descriptor of 513 bytes
    (
        b"\x09\x02\x22\x00\x01\x01\x00\x80\x32\x09\x04\x00\x00\x01\x03\x00\x00\x00\x09\x21\x11\x01\x00\x01\x22\x01\x02\x07\x05\x81\x03\x08\x00\x00",
        16,
        0,
    ),
    // two interrupt OUT endpoints
    (
        b"\x09\x02\x30\x00\x01\x01\x00\x80\x32\x09\x04\x00\x00\x03\x03\x00\x00\x00\x09\x21\x11\x01\x00\x01\x22\x34\x00\x07\x05\x81\x03\x08\x00\x00\x07\x05\x01\x03\x08\x00\x00\x07\x05\x02\x03\x08\x00\x00",
        16,
        0,
    ),
    // a whole HID interface
    (
        b"\x09\x02\x22\x00\x01\x01\x00\x80\x32\x09\x04\x00\x00\x01\x03\x00\x00\x00\x09\x21\x11\x01\x00\x01\x22\x34\x00\x07\x05\x81\x03\x08\x00\x00",
        17,
        0,
    ),
    // mass storage with two OUT endpoints
    (
        b"\x09\x02\x20\x00\x01\x01\x00\x80\x32\x09\x04\x00\x00\x02\x08\x06\x50\x00\x07\x05\x01\x02\x40\x00\x00\x07\x05\x02\x02\x40\x00\x00",
        18,
        0,
    ),
    // MIDI with a third endpoint
    (
        b"\x09\x02\x27\x00\x01\x01\x00\x80\x32\x09\x04\x00\x00\x03\x01\x03\x00\x00\x07\x05\x01\x02\x40\x00\x00\x07\x05\x81\x02\x40\x00\x00\x07\x05\x82\x03\x08\x00\x00",
        18,
        0,
    ),
];

fn read(
    device: &[u8],
    config: &[u8],
    strings: &[StringPart],
    report: Option<&[u8]>,
) -> Result<DescSet, SetFault>
    requires few { length strings.now ≤ 8 }
    requires ascending { Ascend 1 strings.now }
    requires report { IfSome report (λ r. length r.now ≤ 512) }
{
    let parts = SetParts {
        device,
        config,
        strings,
        report,
    };
    read_set(&parts, LIMITS)
}

/// The rule that a set breaks and the place, or 0 and 0.
fn judged(device: &[u8], config: &[u8], report: Option<&[u8]>) -> (u8, u16)
    requires { IfSome report (λ r. length r.now ≤ 512) }
{
    match read(device, config, &[], report) {
        Ok(_) => (0, 0),
        Err(fault) => (fault.rule, fault.at),
    }
}

#[test]
fn devices(rt: HostRuntime) {
    for (device, rule) in &DEVICES {
        assert_eq!(rt; judged(device, CONFIGS[0].0, None), (*rule, 0));
    }
}

#[test]
fn configurations(rt: HostRuntime) {
    for (config, rule, at) in &CONFIGS {
        assert_eq!(rt; judged(DEVICES[0].0, config, None), (*rule, *at));
    }
    assert_eq!(rt; judged(DEVICES[0].0, CONFIGS[0].0, Some(&[])), (17, 0));
    assert_eq!(rt; judged(DEVICES[2].0, CONFIGS[14].0, None), (1, 0));
}

/// The keyboard of HID 1.11, E.2 to E.5, whose IN endpoint has packets of 8 bytes.
const KEYBOARD: &[u8] =
    b"\x09\x02\x22\x00\x01\x01\x00\xa0\x32\x09\x04\x00\x00\x01\x03\x01\x01\x00\x09\x21\x01\x01\x00\x01\x22\x3f\x00\x07\x05\x81\x03\x08\x00\x0a";

/// Its report descriptor (E.6).
const KEYBOARD_REPORT: &[u8] =
    b"\x05\x01\x09\x06\xa1\x01\x05\x07\x19\xe0\x29\xe7\x15\x00\x25\x01\x75\x01\x95\x08\x81\x02\x95\x01\x75\x08\x81\x01\x95\x05\x75\x01\x05\x08\x19\x01\x29\x05\x91\x02\x95\x01\x75\x03\x91\x01\x95\x06\x75\x08\x15\x00\x25\x65\x05\x07\x19\x00\x29\x65\x81\x00\xc0";

/// A HID interface that names a report descriptor of 4 bytes and a physical descriptor.
const TWO_NAMED: &[u8] =
    b"\x09\x02\x25\x00\x01\x01\x00\x80\x32\x09\x04\x00\x00\x01\x03\x00\x00\x00\x0c\x21\x11\x01\x00\x02\x22\x04\x00\x23\x04\x00\x07\x05\x81\x03\x08\x00\x0a";

/// Sets are judged by their report descriptor, and show it and their HID descriptor.
#[test]
fn reports(rt: HostRuntime) {
    let device = DEVICES[0].0;
    let set = read(device, KEYBOARD, &[], Some(KEYBOARD_REPORT)).expect(&rt, "accepted");
    assert!(rt; set.report().is_some_and(|r| r == KEYBOARD_REPORT));
    assert!(rt; set.hid_descriptor().is_some_and(|d| d == &KEYBOARD[18..27]));
    let no_field = b"\x75\x08\x95\x01".as_slice();
    let set = read(device, TWO_NAMED, &[], Some(no_field)).expect(&rt, "accepted");
    assert!(rt;
        set.hid_descriptor()
            .is_some_and(|d| d == &TWO_NAMED[18..30])
    );
    assert!(rt; set.report().is_some_and(|r| r == no_field));
    assert_eq!(rt; judged(device, TWO_NAMED, None), (17, 0));
    assert_eq!(rt; judged(device, TWO_NAMED, Some(b"\x75\x08\x95")), (17, 0));
    assert_eq!(rt;
        judged(device, TWO_NAMED, Some(b"\x75\x08\x95\x01\xc0")),
        (17, 0)
    );
    assert_eq!(rt;
        judged(device, TWO_NAMED, Some(b"\xa1\x01\x95\x01")),
        (17, 0)
    );
}

/// 512 bytes are read, in two long descriptors of a type that no rule speaks of, and 513 are not.
#[test]
fn sizes(rt: HostRuntime) {
    let mut config = [0; 513];
    config[0] = 9;
    config[1] = 2;
    config[3] = 2;
    config[5] = 1;
    config[9] = 255;
    config[10] = 0x41;
    config[264] = 248;
    config[265] = 0x41;
    assert_eq!(rt; judged(DEVICES[0].0, &config[..512], None), (0, 0));
    assert_eq!(rt; judged(DEVICES[0].0, &config, None), (4, 0));
}

/// What the set with a serial port and mass storage shows.
#[test]
fn accepted(rt: HostRuntime) {
    let mut body = ArrayVec::new();
    body.push(b'A');
    body.push(0);
    let strings = [StringPart { index: 3, body }];
    let device = DEVICES[0].0;
    let set = read(device, SERIAL_AND_STORAGE, &strings, None).expect(&rt, "accepted");
    assert_eq!(rt; set.device(), device);
    assert_eq!(rt; set.config(), SERIAL_AND_STORAGE);
    assert!(rt; set.string(0).is_some_and(|s| s == [4, 3, 9, 4].as_slice()));
    assert!(rt;
        set.string(3)
            .is_some_and(|s| s == [4, 3, b'A', 0].as_slice())
    );
    assert!(rt; set.string(1).is_none());
    assert!(rt; set.report().is_none());
    let expected = [
        (0x81, EpKind::Interrupt, 16, Owner::Cdc),
        (0x01, EpKind::Bulk, 64, Owner::Cdc),
        (0x82, EpKind::Bulk, 64, Owner::Cdc),
        (0x02, EpKind::Bulk, 64, Owner::Core),
        (0x83, EpKind::Bulk, 64, Owner::Core),
    ];
    assert_eq!(rt; set.endpoints().len(), expected.len());
    for (endpoint, (addr, kind, size, owner)) in set.endpoints().iter().zip(expected) {
        assert_eq!(rt; endpoint.addr, addr);
        assert_eq!(rt; endpoint.kind, kind);
        assert_eq!(rt; endpoint.size, size);
        assert_eq!(rt; endpoint.owner, owner);
    }
    assert!(rt; set.has(Owner::Core) && set.has(Owner::Cdc));
    assert_eq!(rt; set.interface_of(Owner::Cdc), Some(0));
    for class in [Owner::Hid, Owner::Msc, Owner::Midi] {
        assert!(rt; !set.has(class));
        assert_eq!(rt; set.interface_of(class), None);
    }
    assert!(rt; set.is_interface(2) && !set.is_interface(3));
    assert!(rt;
        set.has_endpoint(0, 0x81) && set.has_endpoint(1, 0x82) && set.has_endpoint(2, 0x02)
    );
    assert!(rt;
        !set.has_endpoint(0, 0x82) && !set.has_endpoint(1, 0x81) && !set.has_endpoint(3, 0x81)
    );
    assert_eq!(rt; set.owner_of_interface(0), Owner::Cdc);
    assert_eq!(rt; set.owner_of_interface(1), Owner::Cdc);
    assert_eq!(rt; set.owner_of_interface(2), Owner::Core);
    assert_eq!(rt; set.owner_of_endpoint(0x81), Owner::Cdc);
    assert_eq!(rt; set.owner_of_endpoint(0x83), Owner::Core);
    assert_eq!(rt; set.interface_of(Owner::Core), None);
}

/// Interface 1 of this set is the communications interface, and interface 0 is the data interface that its union names.
#[test]
fn communications_interface(rt: HostRuntime) {
    let set = read(DEVICES[0].0, DATA_FIRST, &[], None).expect(&rt, "accepted");
    assert_eq!(rt; set.interface_of(Owner::Cdc), Some(1));
    assert_eq!(rt; set.endpoints().len(), 3);
    for endpoint in set.endpoints() {
        assert_eq!(rt; endpoint.owner, Owner::Cdc);
    }
    assert_eq!(rt; set.owner_of_interface(0), Owner::Cdc);
    assert_eq!(rt; set.owner_of_interface(1), Owner::Cdc);
    assert_eq!(rt; set.owner_of_endpoint(0x82), Owner::Cdc);
    assert!(rt; set.has_endpoint(0, 0x82) && set.has_endpoint(1, 0x81));
}
