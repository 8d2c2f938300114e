use crate::{Owner, group_owner, lead_number, owner_of_number};
use descriptor_row::{left_of, read_row};

/// A serial port whose data interface stands first.
const DATA_FIRST: &[u8] =
    b"\x09\x02\x35\x00\x02\x01\x00\x80\x32\x09\x04\x00\x00\x02\x0a\x00\x00\x00\x07\x05\x01\x02\x40\x00\x00\x07\x05\x82\x02\x40\x00\x00\x09\x04\x01\x00\x01\x02\x02\x00\x00\x05\x24\x06\x01\x00\x07\x05\x81\x03\x10\x00\x0a";

/// Configurations, and whose groups have their interfaces.
const CONFIGS: [(&[u8], &[Owner]); 4] = [
    (DATA_FIRST, &[Owner::Cdc, Owner::Cdc, Owner::Core]),
    // two serial ports: a data interface, two communications interfaces, a stray data interface, the data
    // interface of the first
    (
        b"\x09\x02\x66\x00\x05\x01\x00\x80\x32\x09\x04\x00\x00\x00\x0a\x00\x00\x00\x09\x04\x01\x00\x01\x02\x02\x01\x00\x05\x24\x06\x01\x07\x05\x24\x06\x02\x00\x05\x24\x06\x01\x04\x07\x05\x81\x03\x08\x00\x0a\x09\x04\x02\x00\x01\x02\x02\x01\x00\x05\x24\x06\x02\x00\x07\x05\x82\x03\x08\x00\x0a\x09\x04\x03\x00\x00\x0a\x00\x00\x00\x09\x04\x04\x00\x02\x0a\x00\x00\x00\x07\x05\x02\x02\x40\x00\x00\x07\x05\x83\x02\x40\x00\x00",
        &[
            Owner::Core,
            Owner::Cdc,
            Owner::Core,
            Owner::Core,
            Owner::Cdc,
        ],
    ),
    // audio control, MIDI streaming, HID
    (
        b"\x09\x02\x42\x00\x03\x01\x00\x80\x32\x09\x04\x00\x00\x00\x01\x01\x00\x00\x09\x04\x01\x00\x02\x01\x03\x00\x00\x07\x05\x02\x02\x40\x00\x00\x07\x05\x81\x02\x40\x00\x00\x09\x04\x02\x00\x01\x03\x00\x00\x00\x09\x21\x11\x01\x00\x01\x22\x34\x00\x07\x05\x82\x03\x08\x00\x0a",
        &[Owner::Core, Owner::Midi, Owner::Hid],
    ),
    // HID twice, class 08 of another protocol and of another subclass, mass storage twice, MIDI twice
    (
        b"\x09\x02\x51\x00\x08\x01\x00\x80\x32\x09\x04\x00\x00\x00\x03\x01\x01\x00\x09\x04\x01\x00\x00\x03\x01\x02\x00\x09\x04\x02\x00\x00\x08\x06\x00\x00\x09\x04\x03\x00\x00\x08\x02\x50\x00\x09\x04\x04\x00\x00\x08\x06\x50\x00\x09\x04\x05\x00\x00\x08\x06\x50\x00\x09\x04\x06\x00\x00\x01\x03\x00\x00\x09\x04\x07\x00\x00\x01\x03\x00\x00",
        &[
            Owner::Hid,
            Owner::Core,
            Owner::Core,
            Owner::Core,
            Owner::Msc,
            Owner::Core,
            Owner::Midi,
            Owner::Core,
        ],
    ),
];

/// Whom an interface of a group belongs to: of all classes mass storage alone isn't built.
fn built(owner: Owner) -> Owner {
    match owner {
        Owner::Msc => Owner::Core,
        Owner::Core | Owner::Cdc | Owner::Hid | Owner::Midi => owner,
    }
}

/// Whether the interfaces from 0 on are of the groups of these owners, and belong to those of them that are built.
fn are_grouped(config: &[u8], owners: &[Owner]) -> bool {
    if config.len() < 9 || config.len() > 512 {
        return false;
    }
    let (row, _) = read_row(config);
    let left = left_of(row.as_slice());
    let row = left.as_slice();
    let mut number = 0_u8;
    for owner in owners {
        if group_owner(row, number) != *owner || owner_of_number(row, number) != built(*owner) {
            return false;
        }
        number = number.wrapping_add(1);
    }
    true
}

#[test]
fn groups(rt: HostRuntime) {
    for (config, owners) in &CONFIGS {
        assert!(rt; are_grouped(config, owners));
    }
    assert!(rt; !are_grouped(DATA_FIRST, &[Owner::Cdc, Owner::Core]));
}

#[test]
fn leads(rt: HostRuntime) {
    let (row, _) = read_row(DATA_FIRST);
    assert_eq!(rt; lead_number(row.as_slice(), Owner::Cdc), Some(1));
    for class in [Owner::Core, Owner::Hid, Owner::Msc, Owner::Midi] {
        assert_eq!(rt; lead_number(row.as_slice(), class), None);
    }
}
