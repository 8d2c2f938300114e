use crate::{Packet, TooLong, setup_bytes, setup_of};

/// GET_DESCRIPTOR of the device descriptor with 18 bytes, as hosts send it (USB 2.0, 9.4.3), and a request
/// with different bytes everywhere.
#[test]
fn setup_fields(rt: HostRuntime) {
    let asks = setup_of(&[0x80, 0x06, 0x00, 0x01, 0x00, 0x00, 0x12, 0x00]);
    assert_eq!(rt; asks.request_type, 0x80);
    assert_eq!(rt; asks.request, 6);
    assert_eq!(rt; asks.value, 0x0100);
    assert_eq!(rt; asks.index, 0);
    assert_eq!(rt; asks.length, 18);
    let bytes = [0x21, 0x22, 0x34, 0x12, 0x78, 0x56, 0xbc, 0x9a];
    let other = setup_of(&bytes);
    assert_eq!(rt; other.value, 0x1234);
    assert_eq!(rt; other.index, 0x5678);
    assert_eq!(rt; other.length, 0x9abc);
    assert_eq!(rt; setup_bytes(&other), bytes);
}

/// A packet has at most 64 bytes.
#[test]
fn packet_sizes(rt: HostRuntime) {
    let bytes = [7; 65];
    assert!(rt; matches!(Packet::new(&bytes), Err(TooLong)));
    match Packet::new(&bytes[..64]) {
        Ok(packet) => {
            assert_eq!(rt; packet.bytes(), &bytes[..64]);
            assert_eq!(rt; packet.copy().bytes(), &bytes[..64]);
        }
        Err(_) => assert!(rt; false),
    }
    assert!(rt; Packet::empty().bytes().is_empty());
}
