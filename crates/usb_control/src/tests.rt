ghost use Rattle.std.specs.Prelude.{◌≤◌, length};
ghost use Rattle.usb_descriptor.specs.Strings.{Ascend};

use crate::{Choice, CoreState, Effect, decide, owner_of};
use arrayvec::ArrayVec;
use std::process::Abort;
use usb_descriptor::{DescSet, EpLimits, SetParts, StringPart, read_set};
use usb_packet::{Owner, Setup};
use usb_pipe::Decision;

const DEVICE: &[u8] = b"\x12\x01\x00\x02\x00\x00\x00\x40\xfe\xca\x01\x40\x00\x01\x00\x00\x00\x01";

/// Configuration 3 with power of its own: interface 0 with the endpoints 81 and 01, interface 1 with 82.
const CONFIG: &[u8] =
    b"\x09\x02\x30\x00\x02\x03\x00\xc0\x32\x09\x04\x00\x00\x02\xff\x00\x00\x00\x07\x05\x81\x02\x40\x00\x00\x07\x05\x01\x02\x40\x00\x00\x09\x04\x01\x00\x01\xff\x00\x00\x00\x07\x05\x82\x03\x08\x00\x0a";

/// The set of these two, with string 2, which is the letter A.
fn set(rt: &impl Abort) -> DescSet {
    let mut body = ArrayVec::new();
    body.push(b'A');
    body.push(0);
    let strings = [StringPart { index: 2, body }];
    let parts = SetParts {
        device: DEVICE,
        config: CONFIG,
        strings: &strings,
        report: None,
    };
    let limits = EpLimits {
        in_top: 3,
        out_top: 3,
        report_known: true,
    };
    read_set(&parts, limits).expect(rt, "accepted")
}

/// What is done at a request with these fields, in a session with endpoint 81 halted or before it.
fn at(set: &DescSet, configured: bool, fields: (u8, u8, u16, u16)) -> Choice {
    let mut state = CoreState::new();
    state.configured = configured;
    if configured {
        state.halted.push(0x81);
    }
    let setup = Setup {
        request_type: fields.0,
        request: fields.1,
        value: fields.2,
        index: fields.3,
        length: 0,
    };
    decide(set, &state, &setup)
}

/// Whether a choice is to give these bytes; whether it is the status stage with this effect; a refusal.
fn gives(choice: &Choice, bytes: &[u8]) -> bool {
    match choice {
        Choice::Own(Decision::Data(data), Effect::None) => data.as_slice() == bytes,
        _ => false,
    }
}

fn passes(choice: &Choice, wanted: Effect) -> bool {
    match choice {
        Choice::Own(Decision::Status, effect) => *effect == wanted,
        _ => false,
    }
}

fn refuses(choice: &Choice) -> bool {
    matches!(choice, Choice::Own(Decision::Stall, Effect::None))
}

/// Requests that give bytes in a session: type, request, wValue, wIndex (USB 2.0, 9.4).
const DATA: [((u8, u8, u16, u16), &[u8]); 15] = [
    ((0x80, 0, 0, 0), &[1, 0]),
    ((0x81, 0, 0, 1), &[0, 0]),
    ((0x81, 0, 0, 0x0301), &[0, 0]),
    ((0x82, 0, 0, 0), &[0, 0]),
    ((0x82, 0, 0, 0x80), &[0, 0]),
    ((0x82, 0, 0, 0x81), &[1, 0]),
    ((0x82, 0, 0, 0x82), &[0, 0]),
    ((0x80, 6, 0x0100, 0), DEVICE),
    ((0x80, 6, 0x0200, 0), CONFIG),
    ((0x80, 6, 0x0300, 0), &[4, 3, 9, 4]),
    ((0x80, 6, 0x0302, 0x0409), &[4, 3, b'A', 0]),
    ((0x80, 8, 0, 0), &[3]),
    ((0x81, 0x0a, 0, 0), &[0]),
    ((0x81, 0x0a, 0, 1), &[0]),
    ((0x80, 6, 0x0200, 7), CONFIG),
];

/// Those that pass to the status stage in a session.
const PASSED: [((u8, u8, u16, u16), Effect); 10] = [
    ((0x02, 1, 0, 0x81), Effect::Clear(0x81)),
    ((0x02, 1, 0, 0x80), Effect::None),
    ((0x02, 3, 0, 0x01), Effect::Halt(0x01)),
    ((0x02, 3, 0, 0), Effect::None),
    ((0x00, 5, 0, 0), Effect::Address(0)),
    ((0x00, 5, 127, 0), Effect::Address(127)),
    ((0x00, 9, 0, 0), Effect::Configure(false)),
    ((0x00, 9, 3, 0), Effect::Configure(true)),
    ((0x01, 0x0b, 0, 1), Effect::ClearInterface(1)),
    ((0x02, 3, 0, 0x0582), Effect::Halt(0x82)),
];

/// Those that are refused in a session.
const REFUSED: [(u8, u8, u16, u16); 21] = [
    (0x81, 0, 0, 2),
    (0x82, 0, 0, 0x83),
    (0x82, 0, 0, 0x02),
    (0x02, 1, 1, 0x81),
    (0x02, 3, 0, 0x83),
    (0x00, 1, 1, 0),
    (0x00, 3, 1, 0),
    (0x00, 5, 128, 0),
    (0x80, 6, 0x0101, 0),
    (0x80, 6, 0x0201, 0),
    (0x80, 6, 0x0301, 0),
    (0x80, 6, 0x0600, 0),
    (0x81, 6, 0x2200, 0),
    (0x00, 9, 1, 0),
    (0x00, 9, 0x0103, 0),
    (0x81, 0x0a, 0, 2),
    (0x01, 0x0b, 1, 1),
    (0x82, 0x0c, 0, 0x81),
    (0x21, 0x20, 0, 0),
    (0xa1, 0xfe, 0, 0),
    (0xc0, 0, 0, 0),
];

#[test]
fn in_a_session(rt: HostRuntime) {
    let set = set(&rt);
    for (fields, bytes) in &DATA {
        assert!(rt; gives(&at(&set, true, *fields), bytes));
    }
    for (fields, effect) in &PASSED {
        assert!(rt; passes(&at(&set, true, *fields), *effect));
    }
    for fields in &REFUSED {
        assert!(rt; refuses(&at(&set, true, *fields)));
    }
}

/// Before a session only requests to the device and to endpoint 0 are answered, and GET_CONFIGURATION with 0.
#[test]
fn before_a_session(rt: HostRuntime) {
    let set = set(&rt);
    assert!(rt; gives(&at(&set, false, (0x80, 0, 0, 0)), &[1, 0]));
    assert!(rt; gives(&at(&set, false, (0x80, 8, 0, 0)), &[0]));
    assert!(rt; gives(&at(&set, false, (0x82, 0, 0, 0x80)), &[0, 0]));
    assert!(rt; passes(&at(&set, false, (0x00, 9, 3, 0)), Effect::Configure(true)));
    assert!(rt; passes(&at(&set, false, (0x00, 5, 9, 0)), Effect::Address(9)));
    for fields in [
        (0x81, 0, 0, 0),
        (0x82, 0, 0, 0x81),
        (0x02, 1, 0, 0x81),
        (0x02, 3, 0, 0x81),
        (0x81, 0x0a, 0, 0),
        (0x01, 0x0b, 0, 0),
        (0x21, 0x0a, 0, 0),
    ] {
        assert!(rt; refuses(&at(&set, false, fields)));
    }
}

#[test]
fn owners(rt: HostRuntime) {
    let set = set(&rt);
    for request_type in [0x00, 0x21, 0x82, 0xa1] {
        let setup = Setup {
            request_type,
            request: 0,
            value: 0,
            index: 0x81,
            length: 0,
        };
        assert_eq!(rt; owner_of(&set, &setup), Owner::Core);
    }
}
