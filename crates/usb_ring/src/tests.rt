use super::*;
use std::test::Fail;

// Two words in, three bytes out, one more word across the end of the slots, and all out.
#[test]
fn receives_across_the_end(rt: HostRuntime) -> Result<(), Fail> {
    let mut ring = RxRing::new(rt.alloc(), 3)?;
    ring.handler().push_word(0x6463_6261, 4);
    ring.handler().push_word(0x65, 1);
    assert_eq!(rt; (ring.len(), ring.free()), (5, 3));

    let mut three = [0u8; 3];
    assert_eq!(rt; ring.task().pop_bytes(&mut three), 3);
    assert_eq!(rt; three.as_slice(), b"abc".as_slice());

    ring.handler().push_word(0x6968_6766, 4);
    let mut eight = [0u8; 8];
    assert_eq!(rt; ring.peek_bytes(&mut eight), 6);
    assert_eq!(rt; eight.as_slice(), b"defghi\0\0".as_slice());
    assert_eq!(rt; ring.task().pop_bytes(&mut eight), 6);
    assert_eq!(rt;
        (ring.task().len(), ring.task().free(), ring.handler().free()),
        (0, 8, 8)
    );
    ring.clear();
    Ok(())
}

// Bytes in, two committed, more in than fit, and a word from across the end of the slots.
#[test]
fn sends_and_commits(rt: HostRuntime) -> Result<(), Fail> {
    let mut ring = TxRing::new(rt.alloc(), 3)?;
    assert_eq!(rt; ring.task().push_bytes(b"abcd"), 4);
    assert_eq!(rt; ring.handler().peek_word(2, 2), 0x6463);
    ring.handler().commit(2);
    assert_eq!(rt; (ring.handler().len(), ring.len(), ring.free()), (2, 2, 6));

    assert_eq!(rt; ring.task().push_bytes(b"efghijk"), 6);
    assert_eq!(rt; ring.handler().peek_word(4, 4), 0x6a69_6867);
    assert_eq!(rt; (ring.task().len(), ring.task().free()), (8, 0));
    ring.clear();
    assert_eq!(rt; ring.len(), 0);
    Ok(())
}
