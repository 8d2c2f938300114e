ghost use Rattle.std.specs.Prelude.{◌≡◌, ◌≤◌, length};

use crate::{
    Answer, DevCall, DevLine, Line, Mode, Place, ScheduleLine, answer_text, line_text,
    push_bus_line, push_said_line, read_bus, read_head, read_line, read_schedule,
};
use arrayvec::ArrayVec;
use usb_packet::{BusAnswer, BusEvent, Packet, Toggle};
use usb_pipe::{CdcDeviceCall, HostWord, Reply, Said};

/// The rule by which a line is refused, or 0.
fn rule_in(line: &[u8], mode: Mode, place: Place) -> u8 {
    match read_line(line, mode, place) {
        Ok(_) => 0,
        Err(fault) => fault.rule,
    }
}

fn schedule_rule(line: &[u8]) -> u8 {
    rule_in(line, Mode::Device, Place::Schedule)
}

fn head_rule(line: &[u8]) -> u8 {
    rule_in(line, Mode::Device, Place::Head)
}

/// The same as the run of a job reads it.
fn run_rule(line: &[u8]) -> u8 {
    match read_schedule(line) {
        Ok(_) => 0,
        Err(fault) => fault.rule,
    }
}

fn run_head_rule(line: &[u8]) -> u8 {
    match read_head(line) {
        Ok(_) => 0,
        Err(fault) => fault.rule,
    }
}

fn bytes<const N: usize>(bytes: &[u8]) -> ArrayVec<u8, N>
    requires { length bytes.now ≤ N }
    ensures { result.items ≡ bytes.now }
{
    let mut out = ArrayVec::new();
    let _ = out.try_extend_from_slice(bytes);
    out
}

/// A line has at most 8,400 bytes, whatever they are.
#[test]
fn long_lines(rt: HostRuntime) {
    for (byte, rule) in [(b'a', 3), (b' ', 3), (b'\t', 2)] {
        let line = [byte; 8401];
        assert_eq!(rt; schedule_rule(&line), 1);
        assert_eq!(rt; schedule_rule(&line[..8400]), rule);
        assert_eq!(rt; head_rule(&line), 1);
        assert_eq!(rt; rule_in(&line, Mode::Link, Place::Schedule), 1);
    }
}

/// The lowest rule that a line of the schedule breaks, worked out by hand from the rules' words.
#[test]
fn schedule_rules(rt: HostRuntime) {
    for (line, rule) in [
        // bytes that aren't printable
        ("irq\r", 2),
        ("irq\t", 2),
        ("in 0\t0 ok", 2),
        ("ir\0q", 2),
        ("irq\x7f", 2),
        ("irq", 0),
        // names of no line
        ("", 3),
        (" ", 3),
        ("IRQ", 3),
        ("irq~", 3),
        ("  irqs", 3),
        ("begin", 3),
        ("cdc", 3),
        ("cdc x", 3),
        ("cdc  x", 3),
        ("hid flush", 3),
        ("state", 0),
        ("cdc flush", 0),
        // words and spaces
        (" irq", 4),
        ("irq ", 4),
        ("in 0  0 ok", 4),
        ("in a b", 4),
        ("in 0 0 ok ok", 4),
        ("end 1", 4),
        ("cdc  flush", 4),
        ("cdc flush x", 4),
        ("cdc read", 4),
        ("msc protect", 4),
        ("end", 0),
        // numbers
        ("in 128 0 ok", 5),
        ("in 0 16 ok", 5),
        ("in 00 0 ok", 5),
        ("in 0 01 maybe", 5),
        ("in 4294967296 0 ok", 5),
        ("in 4294967297 0 ok", 5),
        ("in 0 1234567890123456789012345678901234567890 ok", 5),
        ("in -1 0 ok", 5),
        ("out 0 0 2 - ok", 5),
        ("out 0 x 0 zz ok", 5),
        ("in 127 15 ok", 0),
        ("cdc read 0", 5),
        ("cdc read 1025", 5),
        ("cdc read 1024", 0),
        ("cdc notify 65536", 5),
        ("cdc notify 65535", 0),
        ("msc protect 2", 5),
        ("midi recv 0", 5),
        // bytes in hexadecimal
        ("setup 0 80060001000012 ok", 6),
        ("setup 0 800600010000120000 ok", 6),
        ("setup 0 - ok", 6),
        ("out 0 0 0 AB ok", 6),
        ("out 0 0 0 abc ok", 6),
        ("out 0 0 0 0g maybe", 6),
        (
            "out 0 0 0 ababababababababababababababababababababababababababababababababababababababababababababababababababababababababababababababababab ok",
            6,
        ),
        (
            "out 0 0 0 abababababababababababababababababababababababababababababababababababababababababababababababababababababababababababababababab ok",
            0,
        ),
        ("setup 0 8006000100001200 ok", 0),
        ("out 0 0 1 - ok", 0),
        // choices
        ("in 0 0 bad", 7),
        ("in 0 0 OK", 7),
        ("out 0 0 0 - noack", 7),
        ("setup 0 8006000100001200 okay", 7),
        ("in 0 0 noack", 0),
        ("out 0 0 0 ab bad", 0),
        // the bytes of calls
        ("cdc write -", 6),
        ("cdc write 6A", 6),
        ("cdc write 6a", 0),
        ("hid report -", 6),
        ("midi send f0f7f001f7f00102f7f001f80203f790407f417f", 0),
    ] {
        assert_eq!(rt; schedule_rule(line.as_bytes()), rule);
        assert_eq!(rt; run_rule(line.as_bytes()), rule);
    }
}

/// The same of a line of the head.
#[test]
fn head_rules(rt: HostRuntime) {
    for (line, rule) in [
        ("device 12\r", 2),
        ("device\t12", 2),
        ("begin\0", 2),
        ("", 3),
        ("Device 12", 3),
        ("irq", 3),
        ("end", 3),
        ("config", 4),
        ("begin ", 4),
        (" begin", 4),
        ("device  12", 4),
        ("string 4100", 4),
        ("string 0 4100", 5),
        ("string 256 4100", 5),
        ("string 01 4100", 5),
        ("string 4294967296 4100", 5),
        ("string one 4100", 5),
        ("string 255 4100", 0),
        ("device -", 6),
        ("config 0A", 6),
        ("string 1 41", 6),
        ("string 1 410", 6),
        ("string 1 zz00", 6),
        ("report 0", 6),
        ("device 12", 0),
        ("config 09", 0),
        ("report 00", 0),
        ("begin", 0),
    ] {
        assert_eq!(rt; head_rule(line.as_bytes()), rule);
        assert_eq!(rt; run_head_rule(line.as_bytes()), rule);
    }
}

/// No line of another mode is read yet.
#[test]
fn other_modes(rt: HostRuntime) {
    for (line, rule) in [
        ("begin", 3),
        ("end", 3),
        ("irq", 3),
        ("  ", 3),
        ("irq\r", 2),
    ] {
        assert_eq!(rt; rule_in(line.as_bytes(), Mode::Host, Place::Head), rule);
        assert_eq!(rt; rule_in(line.as_bytes(), Mode::Host, Place::Schedule), rule);
        assert_eq!(rt; rule_in(line.as_bytes(), Mode::Link, Place::Head), rule);
        assert_eq!(rt; rule_in(line.as_bytes(), Mode::Link, Place::Schedule), rule);
    }
}

/// What was read is printed as it stood.
#[test]
fn texts(rt: HostRuntime) {
    for (text, place) in [
        ("reset", Place::Schedule),
        ("setup 0 8006000100001200 ok", Place::Schedule),
        ("out 127 15 1 00ff bad", Place::Schedule),
        ("out 0 0 0 - ok", Place::Schedule),
        ("in 10 9 noack", Place::Schedule),
        ("irq", Place::Schedule),
        ("task", Place::Schedule),
        ("state", Place::Schedule),
        ("cdc write 6162", Place::Schedule),
        ("cdc read 64", Place::Schedule),
        ("cdc flush", Place::Schedule),
        ("cdc avail", Place::Schedule),
        ("cdc line", Place::Schedule),
        ("cdc notify 0", Place::Schedule),
        ("hid report 0102030405060708", Place::Schedule),
        ("hid take", Place::Schedule),
        ("hid set", Place::Schedule),
        ("hid idle", Place::Schedule),
        ("msc eject", Place::Schedule),
        ("msc insert", Place::Schedule),
        ("msc protect 0", Place::Schedule),
        ("msc protect 1", Place::Schedule),
        ("midi send f8", Place::Schedule),
        ("midi recv 1024", Place::Schedule),
        ("midi bytes 1", Place::Schedule),
        ("end", Place::Schedule),
        ("device 1201", Place::Head),
        ("config 09", Place::Head),
        ("string 9 4100", Place::Head),
        ("report 05010906", Place::Head),
        ("begin", Place::Head),
    ] {
        match read_line(text.as_bytes(), Mode::Device, place) {
            Ok(line) => assert_eq!(rt; line_text(&line).as_slice(), text.as_bytes()),
            Err(_) => assert!(rt; false),
        }
    }
}

/// The fates of packets.
#[test]
fn fates(rt: HostRuntime) {
    for (text, whole) in [("in 0 0 ok", true), ("in 0 0 noack", false)] {
        match read_line(text.as_bytes(), Mode::Device, Place::Schedule) {
            Ok(Line::Device(DevLine::Bus(BusEvent::In { addr: _, ep: _, ok }))) => {
                assert_eq!(rt; ok, whole);
            }
            _ => assert!(rt; false),
        }
    }
}

/// What a run reads of the bus is what any line is read as.
#[test]
fn events_of_the_bus(rt: HostRuntime) {
    for (text, addr) in [
        ("reset", None),
        ("setup 5 8006000100001200 ok", Some(5)),
        ("out 6 1 0 6162 bad", Some(6)),
        ("in 7 2 noack", Some(7)),
    ] {
        let told = match read_bus(text.as_bytes()) {
            Some(BusEvent::Setup { addr, bytes: _, ok }) if ok => Some(addr),
            Some(
                BusEvent::Out {
                    addr,
                    ep: 1,
                    toggle: Toggle::D0,
                    packet: _,
                    ok,
                },
            ) if !ok => { Some(addr) }
            Some(BusEvent::In { addr, ep: 2, ok }) if !ok => Some(addr),
            _ => None,
        };
        assert_eq!(rt; told, addr);
        assert!(rt; read_bus(text.as_bytes()).is_some());
    }
    for text in [
        "irq",
        "task",
        "state",
        "end",
        "cdc flush",
        "cdc write 00",
        "in 0 16 ok",
        "reset ",
        "",
    ] {
        assert!(rt; read_bus(text.as_bytes()).is_none());
    }
}

/// A line `cdc write` is read as the bytes that it gives.
#[test]
fn bytes_of_a_call(rt: HostRuntime) {
    match read_schedule(b"cdc write 68690a") {
        Ok(ScheduleLine::Served(DevLine::Call(DevCall::Cdc(CdcDeviceCall::Write(bytes))))) => {
            assert_eq!(rt; bytes.as_slice(), b"hi\n".as_slice());
        }
        _ => assert!(rt; false),
    }
    match read_schedule(b"cdc notify 65535") {
        Ok(ScheduleLine::Served(DevLine::Call(DevCall::Cdc(CdcDeviceCall::Notify(bits))))) => {
            assert_eq!(rt; bits, 65535);
        }
        _ => assert!(rt; false),
    }
}

/// What a device answers on the bus.
#[test]
fn bus_answers(rt: HostRuntime) {
    let Ok(packet) = Packet::new(&[0x12, 0x01]) else {
        assert!(rt; false);
        return;
    };
    let Ok(empty) = Packet::new(&[]) else {
        assert!(rt; false);
        return;
    };
    for (answer, text) in [
        (BusAnswer::Done, "ok"),
        (BusAnswer::Ack, "ack"),
        (BusAnswer::Nak, "nak"),
        (BusAnswer::Stall, "stall"),
        (BusAnswer::NoAnswer, "none"),
        (BusAnswer::Data(Toggle::D1, packet), "data1 1201"),
        (BusAnswer::Data(Toggle::D0, empty), "data0 -"),
    ] {
        assert_eq!(rt;
            answer_text(&Answer::Bus(answer)).as_slice(),
            text.as_bytes()
        );
    }
}

/// What calls are answered.
#[test]
fn replies(rt: HostRuntime) {
    for (reply, text) in [
        (Reply::Done, "done"),
        (Reply::Took(1024), "took 1024"),
        (Reply::Got(bytes(&[0, 171])), "got 00ab"),
        (Reply::Held(0), "held 0"),
        (Reply::Events(bytes(&[9, 0x90, 60, 100])), "events 09903c64"),
        (Reply::Report(bytes(&[1])), "report 01"),
        (Reply::SetReport(3, bytes(&[5, 7])), "set 3 0507"),
        (Reply::Idle(125, 1), "idle 125 1"),
        (
            Reply::LineIs(4294967295, 0, 1, 8, 1, 0),
            "line 4294967295 0 1 8 1 0",
        ),
        (Reply::Serial(65535), "serial 65535"),
        (Reply::Started, "started"),
        (Reply::Running, "running"),
        (Reply::Passed(bytes(&[])), "passed -"),
        (Reply::ControlPassed, "passed"),
        (Reply::Failed(4294967295), "failed 4294967295"),
        (Reply::Phase, "phase"),
        (Reply::Stalled, "stalled"),
        (Reply::NoReply, "noreply"),
        (Reply::Halted, "halted"),
        (Reply::Dead, "dead"),
        (Reply::Busy, "busy"),
        (Reply::BadLength, "badlength"),
        (Reply::NoPipe, "nopipe"),
        (Reply::Nothing, "none"),
        (Reply::Closed, "closed"),
        (Reply::Core(127, 1), "state 127 1"),
        (Reply::Host(HostWord::Empty), "empty"),
        (Reply::Host(HostWord::Waiting), "waiting"),
        (Reply::Host(HostWord::Mounted), "mounted"),
        (Reply::Host(HostWord::NoReply(1)), "fault noreply 1"),
        (Reply::Host(HostWord::Stalled(7)), "fault stalled 7"),
        (Reply::Host(HostWord::BadSet(17)), "fault badset 17"),
        (
            Reply::Host(HostWord::TooLarge(65535)),
            "fault toolarge 65535",
        ),
    ] {
        assert_eq!(rt;
            answer_text(&Answer::Reply(reply)).as_slice(),
            text.as_bytes()
        );
    }
}

/// The longest answer has room, and its line ends with a newline.
#[test]
fn longest_answer(rt: HostRuntime) {
    let reply = Reply::Passed(bytes(&[0; 4096]));
    let mut out: ArrayVec<u8, 8200> = ArrayVec::new();
    push_said_line(&mut out, Said::Passed, &[0; 4096]);
    assert_eq!(rt; out.len(), 8200);
    assert_eq!(rt; out.as_slice()[8199], b'\n');
    assert_eq!(rt; answer_text(&Answer::Reply(reply)).len(), 8199);
    let mut line: ArrayVec<u8, 8300> = ArrayVec::new();
    push_bus_line(&mut line, &BusAnswer::Stall);
    assert_eq!(rt; line.as_slice(), b"stall\n".as_slice());
}
