use super::*;
use std::alloc::{AllocError, Global};
use std::test::Fail;

fn events_of(alloc: Global, stream: &[u8]) -> Result<Vec<u8>, AllocError> {
    let mut packer = Packer::new();
    let mut events = Vec::new(alloc);
    for byte in stream {
        if let Some(event) = packer.push(*byte) {
            events.extend_from_slice(&event)?;
        }
    }
    Ok(events)
}

// SysEx of 0 to 7 bytes, real-time bytes inside SysEx and messages, running status, and what is cut short.
#[test]
fn streams_are_packed(rt: HostRuntime) -> Result<(), Fail> {
    let cases: [(&[u8], &[u8]); 17] = [
        (
            b"\xf0\xf7\xf0\x01\xf7\xf0\x01\x02\xf7\xf0\x01\xf8\x02\x03\xf7\x90\x40\x7f\x41\x7f",
            b"\x06\xf0\xf7\x00\x07\xf0\x01\xf7\x04\xf0\x01\x02\x05\xf7\x00\x00\x0f\xf8\x00\x00\x04\xf0\x01\x02\x06\x03\xf7\x00\x09\x90\x40\x7f\x09\x90\x41\x7f",
        ),
        (b"\xf0\xf7", b"\x06\xf0\xf7\x00"),
        (b"\xf0\x01\xf7", b"\x07\xf0\x01\xf7"),
        (b"\xf0\x01\x02\xf7", b"\x04\xf0\x01\x02\x05\xf7\x00\x00"),
        (b"\xf0\x01\x02\x03\xf7", b"\x04\xf0\x01\x02\x06\x03\xf7\x00"),
        (
            b"\xf0\x01\x02\x03\x04\xf7",
            b"\x04\xf0\x01\x02\x07\x03\x04\xf7",
        ),
        (
            b"\xf0\x01\x02\x03\x04\x05\xf7",
            b"\x04\xf0\x01\x02\x04\x03\x04\x05\x05\xf7\x00\x00",
        ),
        (
            b"\xf0\x01\x02\x03\x04\x05\x06\xf7",
            b"\x04\xf0\x01\x02\x04\x03\x04\x05\x06\x06\xf7\x00",
        ),
        (
            b"\xf0\x01\x02\x03\x04\x05\x06\x07\xf7",
            b"\x04\xf0\x01\x02\x04\x03\x04\x05\x07\x06\x07\xf7",
        ),
        (b"\x90\x40\xf8\x7f", b"\x0f\xf8\x00\x00\x09\x90\x40\x7f"),
        (
            b"\x90\x40\x7f\xf8\x41\x7f",
            b"\x09\x90\x40\x7f\x0f\xf8\x00\x00\x09\x90\x41\x7f",
        ),
        (
            b"\x90\x40\x7f\xf0\x01\xf7\x41\x7f",
            b"\x09\x90\x40\x7f\x07\xf0\x01\xf7",
        ),
        (
            b"\xc0\x05\xfe\x06\xd1\x01",
            b"\x0c\xc0\x05\x00\x0f\xfe\x00\x00\x0c\xc0\x06\x00\x0d\xd1\x01\x00",
        ),
        (
            b"\xf1\x5a\x5a\xf2\x10\x20\xf3\x01\xf6",
            b"\x02\xf1\x5a\x00\x03\xf2\x10\x20\x02\xf3\x01\x00\x05\xf6\x00\x00",
        ),
        (b"\x40\x7f\x90\x40\xf4\x41\x7f\xf7", b""),
        (
            b"\xf0\x01\x02\x90\x40\x7f",
            b"\x04\xf0\x01\x02\x09\x90\x40\x7f",
        ),
        (b"\xf0\xf0\x01\xf7", b"\x07\xf0\x01\xf7"),
    ];
    for (stream, events) in cases {
        assert_eq!(rt; events_of(rt.alloc(), stream)?.as_slice(), events);
    }
    Ok(())
}

#[test]
fn events_are_unpacked(rt: HostRuntime) {
    let cases: [([u8; 4], &[u8]); 6] = [
        ([0x09, 0x90, 0x40, 0x7f], b"\x90\x40\x7f"),
        ([0x3c, 0xc1, 0x05, 0x00], b"\xc1\x05"),
        ([0x05, 0xf7, 0x00, 0x00], b"\xf7"),
        ([0x06, 0xf0, 0xf7, 0x00], b"\xf0\xf7"),
        ([0x1f, 0xf8, 0x00, 0x00], b"\xf8"),
        ([0x01, 0x02, 0x03, 0x04], b""),
    ];
    for (event, bytes) in cases {
        assert_eq!(rt; unpack(event).as_slice(), bytes);
    }
}
