use crate::{Field, Mode, Place, lowest_of, lowest_rule};

/// The rule by which a line of a device's schedule is refused, or 0.
fn rule(line: &str) -> u8 {
    match lowest_rule(line.as_bytes(), Mode::Device, Place::Schedule) {
        Some(rule) => rule,
        None => 0,
    }
}

/// No line of another mode has a name yet.
#[test]
fn other_modes(rt: HostRuntime) {
    assert_eq!(rt; lowest_rule(b"begin", Mode::Host, Place::Head), Some(3));
}

/// A call of a class has two words as its name, whatever spaces stand between them.
#[test]
fn names_of_two_words(rt: HostRuntime) {
    for (line, lowest) in [
        ("cdc flush", 0),
        ("cdc  flush", 4),
        (" cdc flush", 4),
        ("cdc flush ", 4),
        ("cdc flush x", 4),
        ("cdc", 3),
        ("cdc ", 3),
        ("cdc x", 3),
        ("cdc  x", 3),
        ("cdc x 1 2", 3),
        ("cdc flushes", 3),
        ("cdc Flush", 3),
        ("flush", 3),
        ("cdc report 01", 3),
        ("hid flush", 3),
        ("hid", 3),
        ("msc", 3),
        ("midi x", 3),
        ("cdc avail", 0),
        ("cdc line", 0),
        ("cdc line 9600 0 0 8", 4),
        ("hid take", 0),
        ("hid set", 0),
        ("hid idle", 0),
        ("msc eject", 0),
        ("msc insert", 0),
    ] {
        assert_eq!(rt; rule(line), lowest);
    }
}

/// The bounds of the calls' fields, each from both sides.
#[test]
fn bounds_of_calls(rt: HostRuntime) {
    for (line, lowest) in [
        ("cdc read", 4),
        ("cdc read 0", 5),
        ("cdc read 1", 0),
        ("cdc read 1024", 0),
        ("cdc read 1025", 5),
        ("cdc read 01", 5),
        ("cdc notify 0", 0),
        ("cdc notify 65535", 0),
        ("cdc notify 65536", 5),
        ("cdc write -", 6),
        ("cdc write 6", 6),
        ("cdc write 6A", 6),
        ("cdc write 61", 0),
        ("hid report -", 6),
        ("hid report 00", 0),
        ("msc protect 0", 0),
        ("msc protect 1", 0),
        ("msc protect 2", 5),
        ("midi send f0f7", 0),
        ("midi send -", 6),
        ("midi recv 0", 5),
        ("midi recv 1024", 0),
        ("midi bytes 1025", 5),
        ("midi bytes 1", 0),
    ] {
        assert_eq!(rt; rule(line), lowest);
    }
}

/// The most bytes that a call gives: 1,024 for a stream, 64 for a report.
#[test]
fn bytes_of_calls(rt: HostRuntime) {
    let mut line = [b'0'; 2060];
    line[..10].copy_from_slice(b"cdc write ");
    for (end, lowest) in [(2058, None), (2059, Some(6)), (2060, Some(6))] {
        assert_eq!(rt;
            lowest_rule(&line[..end], Mode::Device, Place::Schedule),
            lowest
        );
    }
    line[..11].copy_from_slice(b"hid report ");
    for (end, lowest) in [(139, None), (141, Some(6))] {
        assert_eq!(rt;
            lowest_rule(&line[..end], Mode::Device, Place::Schedule),
            lowest
        );
    }
}

/// The lowest of the rules 4 to 7 that a line breaks whose words after the first stand for these fields, or 0.
fn rule_of(fields: &[Field], line: &str) -> u8 {
    match lowest_of(fields, line.as_bytes()) {
        Some(rule) => rule,
        None => 0,
    }
}

/// Numbers that are no decimal range: the bits of a character, and the address of an endpoint.
#[test]
fn sets_of_numbers(rt: HostRuntime) {
    for line in ["line 5", "line 6", "line 7", "line 8", "line 16"] {
        assert_eq!(rt; rule_of(&[Field::DataBits], line), 0);
    }
    for line in [
        "line 4", "line 9", "line 15", "line 17", "line 08", "line x",
    ] {
        assert_eq!(rt; rule_of(&[Field::DataBits], line), 5);
    }
    for line in ["clear 00", "clear 01", "clear 0f", "clear 80", "clear 8f"] {
        assert_eq!(rt; rule_of(&[Field::Endpoint], line), 0);
    }
    for line in ["clear 10", "clear 40", "clear 90", "clear f0", "clear 0F"] {
        assert_eq!(rt; rule_of(&[Field::Endpoint], line), 5);
    }
    for line in ["clear 0", "clear 081", "clear -", "clear 8g"] {
        assert_eq!(rt; rule_of(&[Field::Endpoint], line), 5);
    }
}

/// Blocks of 512 bytes.
#[test]
fn blocks(rt: HostRuntime) {
    let mut line = [b'0'; 9300];
    line[..6].copy_from_slice(b"write ");
    for (bytes, lowest) in [
        (512, None),
        (1024, None),
        (4096, None),
        (511, Some(6)),
        (513, Some(6)),
        (768, Some(6)),
        (4608, Some(6)),
    ] {
        assert_eq!(rt;
            lowest_of(&[Field::Blocks(512, 4096)], &line[..6 + 2 * bytes]),
            lowest
        );
    }
    assert_eq!(rt; rule_of(&[Field::Blocks(512, 4096)], "write -"), 6);
    assert_eq!(rt; rule_of(&[Field::Blocks(0, 4096)], "write -"), 0);
}

/// What a device sends has a further word where it is data.
#[test]
fn words_by_a_word(rt: HostRuntime) {
    for (line, lowest) in [
        ("xact 0 00 ack", 0),
        ("xact 0 00 nak", 0),
        ("xact 1 81 stall", 0),
        ("xact 127 8f none", 0),
        ("xact 0 80 data1 1201000200000040", 0),
        ("xact 0 80 data0 -", 0),
        ("xact 0 80 data0", 4),
        ("xact 0 80 data1 12 00", 4),
        ("xact 0 80 data1  12", 4),
        ("xact 0 80 data0 ", 4),
        ("xact 0 80  ack", 4),
        ("xact 0 80 ack -", 4),
        ("xact 0 80 data2 -", 4),
        ("xact 0 80", 4),
        ("xact 128 80 data3", 5),
        ("xact 0 10 data0 0", 5),
        ("xact 0 80 data1 120", 6),
        ("xact 0 80 data1 1A", 6),
        ("xact 0 80 data", 7),
        ("xact 0 80 data01", 7),
        ("xact 0 80 ok", 7),
    ] {
        assert_eq!(rt;
            rule_of(
                &[Field::Number(0, 127), Field::Endpoint, Field::Sent(0, 64)],
                line
            ),
            lowest
        );
    }
}
