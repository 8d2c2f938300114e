use crate::DevRings;
use std::test::Fail;
use usb_descriptor::{Endpoint, EpKind, EpLimits, Owner, SetParts, read_set};

fn endpoint(addr: u8, kind: EpKind, owner: Owner) -> Endpoint {
    Endpoint {
        addr,
        kind,
        size: 64,
        owner,
    }
}

fn room(rings: &DevRings, ep: u8) -> u16 {
    if rings.has_ring(ep) {
        rings.room(ep)
    } else {
        0
    }
}

fn held(rings: &DevRings, ep: u8) -> u16 {
    if rings.has_ring(ep) {
        rings.held(ep)
    } else {
        0
    }
}

fn write(rings: &mut DevRings, ep: u8, bytes: &[u8]) -> u16 {
    if ep >= 0x80 && rings.has_ring(ep) {
        rings.write(ep, bytes)
    } else {
        0
    }
}

fn read(rings: &mut DevRings, ep: u8, buf: &mut [u8]) -> u16 {
    if ep < 0x80 && rings.has_ring(ep) {
        rings.read(ep, buf)
    } else {
        0
    }
}

fn drop_all(rings: &mut DevRings, ep: u8) {
    if rings.has_ring(ep) {
        rings.drop_all(ep);
    }
}

fn push_four(rings: &mut DevRings, number: u8, word: u32) {
    if number < 0x80 && rings.has_ring(number) && rings.room(number) >= 4 {
        rings.push_word(number, word, 4);
    }
}

// The four bytes behind the first.
fn peek_four(rings: &DevRings, number: u8) -> u32 {
    if number < 0x80 && rings.has_ring(0x80 + number) && rings.held(0x80 + number) >= 5 {
        rings.peek_word(number, 1, 4)
    } else {
        0
    }
}

fn commit_two(rings: &mut DevRings, number: u8) {
    if (1..=3).contains(&number)
        && rings.has_ring(0x80 + number)
        && rings.held(0x80 + number) >= 2
    {
        rings.commit(number, 2);
    }
}

// A serial port and a disk: the room of each ring, what is written and read, and what the handler sees of it.
#[test]
fn rings_by_address(rt: HostRuntime) -> Result<(), Fail> {
    let endpoints = [
        endpoint(0x81, EpKind::Interrupt, Owner::Cdc),
        endpoint(0x01, EpKind::Bulk, Owner::Cdc),
        endpoint(0x82, EpKind::Bulk, Owner::Cdc),
        endpoint(0x83, EpKind::Bulk, Owner::Msc),
        endpoint(0x03, EpKind::Bulk, Owner::Msc),
    ];
    let mut rings = DevRings::of(rt.alloc(), &endpoints)?;
    assert_eq!(rt;
        (room(&rings, 0x81), room(&rings, 0x82), room(&rings, 0x83)),
        (16, 256, 512)
    );
    assert_eq!(rt; (room(&rings, 0x01), room(&rings, 0x03)), (256, 512));
    assert!(rt; !rings.has_ring(0x02) && !rings.has_ring(0x80) && !rings.has_ring(0x84));

    assert_eq!(rt; write(&mut rings, 0x82, b"abcde"), 5);
    assert_eq!(rt; write(&mut rings, 0x81, b"0123456789012345678"), 16);
    assert_eq!(rt;
        (held(&rings, 0x82), room(&rings, 0x82), room(&rings, 0x81)),
        (5, 251, 0)
    );
    assert_eq!(rt; peek_four(&rings, 2), 0x6564_6362);
    commit_two(&mut rings, 2);
    assert_eq!(rt; held(&rings, 0x82), 3);

    push_four(&mut rings, 1, 0x6968_6766);
    push_four(&mut rings, 3, 0x6d6c_6b6a);
    let mut three = [0u8; 3];
    assert_eq!(rt; read(&mut rings, 0x01, &mut three), 3);
    assert_eq!(rt; three.as_slice(), b"fgh".as_slice());
    assert_eq!(rt;
        (held(&rings, 0x01), held(&rings, 0x03), held(&rings, 0x83)),
        (1, 4, 0)
    );

    drop_all(&mut rings, 0x82);
    assert_eq!(rt; (held(&rings, 0x82), held(&rings, 0x81)), (0, 16));
    rings.clear_all();
    assert_eq!(rt;
        (held(&rings, 0x01), held(&rings, 0x03), held(&rings, 0x81)),
        (0, 0, 0)
    );
    Ok(())
}

// A keyboard beside music.
#[test]
fn rings_of_reports_and_music(rt: HostRuntime) -> Result<(), Fail> {
    let endpoints = [
        endpoint(0x81, EpKind::Interrupt, Owner::Hid),
        endpoint(0x01, EpKind::Interrupt, Owner::Hid),
        endpoint(0x02, EpKind::Bulk, Owner::Midi),
        endpoint(0x82, EpKind::Bulk, Owner::Midi),
    ];
    let rings = DevRings::of(rt.alloc(), &endpoints)?;
    assert_eq!(rt; (room(&rings, 0x81), room(&rings, 0x82)), (64, 256));
    assert_eq!(rt; (room(&rings, 0x01), room(&rings, 0x02)), (64, 256));
    Ok(())
}

// A set whose endpoints are the core's gets no ring, and takes no memory for one.
#[test]
fn rings_of_a_set(rt: HostRuntime) -> Result<(), Fail> {
    let parts = SetParts {
        device: b"\x12\x01\x00\x02\x00\x00\x00\x40\xfe\xca\x01\x40\x00\x01\x00\x00\x00\x01",
        config: b"\x09\x02\x12\x00\x01\x01\x00\x80\x32\x09\x04\x00\x00\x00\xff\x00\x00\x00",
        strings: &[],
        report: None,
    };
    let limits = EpLimits {
        in_top: 3,
        out_top: 3,
        report_known: true,
    };
    match read_set(&parts, limits) {
        Ok(set) => {
            let mut rings = DevRings::new(rt.alloc(), &set)?;
            rings.clear_all();
        }
        Err(_) => assert!(rt; false),
    }
    Ok(())
}
