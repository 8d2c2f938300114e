use crate::{
    Words, is_numeral, last_bytes, last_number, none_left, number, push_bytes, push_number,
    push_text, push_wide, push_word, read_hex, small_number, value,
};
use arrayvec::ArrayVec;

/// Decimal without leading zeros, and at most what a field takes.
#[test]
fn numbers(rt: HostRuntime) {
    for (word, most, n) in [
        ("0", 127, Some(0)),
        ("127", 127, Some(127)),
        ("128", 127, None),
        ("007", 127, None),
        ("00", 127, None),
        ("", 127, None),
        ("-1", 127, None),
        ("+1", 127, None),
        ("1a", 127, None),
        ("4294967295", 4294967295, Some(4294967295)),
        ("4294967296", 4294967295, None),
        ("4294967297", 4294967295, None),
        ("1234567890123456789012345678901234567890", 4294967295, None),
    ] {
        assert_eq!(rt; number(word.as_bytes(), most), n);
    }
    assert_eq!(rt; small_number(b"255", 255), Some(255));
    assert_eq!(rt; small_number(b"256", 255), None);
    assert!(rt; is_numeral(b"10"));
    assert!(rt; !is_numeral(b"010"));
    assert_eq!(rt; value(b"65536"), 65536);
}

/// Whether a word is the text of these bytes, where it has four at most.
fn is_read(word: &[u8], bytes: &[u8]) -> bool {
    match read_hex::<4>(word) {
        Some(read) => read.as_slice() == bytes,
        None => false,
    }
}

/// Pairs of digits in lower case, or a dash.
#[test]
fn bytes_in_hexadecimal(rt: HostRuntime) {
    assert!(rt; is_read(b"00ff1a90", &[0, 255, 26, 144]));
    assert!(rt; is_read(b"-", &[]));
    for word in ["", "0", "abc", "AB", "0g", "--", "0x12", "0102030405"] {
        assert!(rt; read_hex::<4>(word.as_bytes()).is_none());
    }
}

/// What stands between two spaces is a word, even where that is nothing.
#[test]
fn words_of_a_line(rt: HostRuntime) {
    let mut words = Words::of(b" in  0 ");
    for text in ["", "in", "", "0", ""] {
        match words.next() {
            Some(word) => assert_eq!(rt; word, text.as_bytes()),
            None => assert!(rt; false),
        }
    }
    assert!(rt; words.next().is_none());
    assert!(rt; words.next().is_none());
}

/// Words are written one after another.
#[test]
fn written(rt: HostRuntime) {
    let mut out: ArrayVec<u8, 64> = ArrayVec::new();
    push_text(&mut out, b"line");
    push_word(&mut out, b"ok");
    push_number(&mut out, 65535);
    push_wide(&mut out, 4294967295);
    push_bytes(&mut out, &[0x0a, 0xf0]);
    push_bytes(&mut out, &[]);
    assert_eq!(rt;
        out.as_slice(),
        b"line ok 65535 4294967295 0af0 -".as_slice()
    );
}

/// The word that is left of a line, where it is one.
#[test]
fn last_words(rt: HostRuntime) {
    let mut words = Words::of(b"cdc");
    assert!(rt; words.next().is_some());
    assert!(rt; none_left(&mut words));
    assert!(rt; !none_left(&mut Words::of(b"")));
    for (line, n) in [
        ("1", Some(1)),
        ("1024", Some(1024)),
        ("0", None),
        ("1025", None),
        ("1 2", None),
        ("1 ", None),
        ("", None),
    ] {
        assert_eq!(rt; last_number(&mut Words::of(line.as_bytes()), 1, 1024), n);
    }
    assert_eq!(rt;
        last_number(&mut Words::of(b"65535"), 0, 65535),
        Some(65535)
    );
    for (line, len) in [
        ("0a0b", Some(2)),
        ("-", None),
        ("0a 0b", None),
        ("0a0b0c", None),
    ] {
        let told = match last_bytes::<2>(&mut Words::of(line.as_bytes()), 1) {
            Some(bytes) => Some(bytes.len()),
            None => None,
        };
        assert_eq!(rt; told, len);
    }
}
