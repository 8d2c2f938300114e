//! Words and entries as a controller of this kind shows them.
use crate::{RxFifo, TxFifo};

/// A SETUP that asks for the device descriptor: its data entry, its two words, and the entry that ends it. Then a
/// DATA1 packet of five bytes on endpoint 1, of which one word is left when the next entry is popped.
#[test]
fn entries(rt: HostRuntime) {
    let mut rx = RxFifo::new();
    rx.set_depth(84);
    assert_eq!(rt; rx.room(), 84);
    rx.push_entry(
        0x000c_0080,
        &[0x80, 0x06, 0x00, 0x01, 0x00, 0x00, 0x12, 0x00],
    );
    rx.push_entry(0x0008_0000, &[]);
    assert_eq!(rt; rx.room(), 80);
    assert_eq!(rt; rx.peek_status(), 0x000c_0080);
    assert!(rt; rx.is_ready());
    assert_eq!(rt; rx.pop_status(), 0x000c_0080);
    assert!(rt; !rx.is_ready());
    assert_eq!(rt; rx.pop_word(), 0x0100_0680);
    assert_eq!(rt; rx.pop_word(), 0x0012_0000);
    assert_eq!(rt; rx.pop_word(), 0);
    assert_eq!(rt; rx.pop_status(), 0x0008_0000);
    assert_eq!(rt; rx.pop_status(), 0);
    assert_eq!(rt; rx.room(), 84);
}

#[test]
fn left_words(rt: HostRuntime) {
    let mut rx = RxFifo::new();
    rx.set_depth(84);
    rx.push_entry(0x0005_0051, b"abcde");
    rx.push_entry(0x0006_0001, &[]);
    assert_eq!(rt; rx.pop_status(), 0x0005_0051);
    assert_eq!(rt; rx.pop_word(), 0x6463_6261);
    assert_eq!(rt; rx.pop_status(), 0x0006_0001);
    assert_eq!(rt; rx.pop_word(), 0);
    rx.flush();
    assert_eq!(rt; rx.room(), 84);
}

/// Packets of two channels in one FIFO.
#[test]
fn packets(rt: HostRuntime) {
    let mut tx = TxFifo::new();
    tx.set_depth(4);
    tx.begin(3, 5);
    assert_eq!(rt; tx.space(), 2);
    tx.push_word(0x6463_6261);
    assert_eq!(rt; tx.unfinished(), Some(3));
    assert!(rt; tx.front_packet(3).is_none());
    tx.push_word(0xffff_ff65);
    assert_eq!(rt; tx.unfinished(), None);
    tx.begin(1, 2);
    tx.push_word(0x0000_6867);
    assert_eq!(rt; tx.space(), 1);
    match tx.front_packet(1) {
        Some(packet) => assert_eq!(rt; packet.bytes(), b"gh".as_slice()),
        None => assert!(rt; false),
    }
    tx.release(3);
    assert_eq!(rt; tx.space(), 3);
    assert!(rt; tx.front_packet(3).is_none());
    match tx.front_packet(1) {
        Some(packet) => assert_eq!(rt; packet.bytes(), b"gh".as_slice()),
        None => assert!(rt; false),
    }
    tx.begin(1, 8);
    assert_eq!(rt; tx.space(), 1);
    tx.abandon();
    assert_eq!(rt; tx.space(), 3);
    tx.flush();
    assert_eq!(rt; tx.space(), 4);
}
