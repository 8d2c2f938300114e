ghost use Rattle.std.specs.Prelude.{◌≡◌, ◌≤◌, length};
ghost use Rattle.call_text.specs.Call.{IsCall};

use crate::{call_text, read_call};
use arrayvec::ArrayVec;
use device_line::DevCall;
use line_rules::Class;
use usb_pipe::{CdcDeviceCall, HidDeviceCall, MidiCall, MscDeviceCall};
use usb_words::Words;

fn bytes<const N: usize>(bytes: &[u8]) -> ArrayVec<u8, N>
    requires { length bytes.now ≤ N }
    ensures { result.items ≡ bytes.now }
{
    let mut out = ArrayVec::new();
    let _ = out.try_extend_from_slice(bytes);
    out
}

/// Whether a call's line has this text, and is read.
fn is_said(call: &DevCall, text: &[u8]) -> bool
    requires { IsCall call.now }
{
    call_text(call).as_slice() == text && is_read(text)
}

/// Whether a line is that of a call of a class.
fn is_read(line: &[u8]) -> bool {
    let mut words = Words::of(line);
    let class = match words.next() {
        Some(name) if name == b"cdc".as_slice() => Class::Cdc,
        Some(name) if name == b"hid".as_slice() => Class::Hid,
        Some(name) if name == b"msc".as_slice() => Class::Msc,
        Some(name) if name == b"midi".as_slice() => Class::Midi,
        _ => return false,
    };
    match read_call(class, &mut words) {
        Some(_) => true,
        None => false,
    }
}

/// Words that no call of a class has.
#[test]
fn no_calls(rt: HostRuntime) {
    for line in [
        "cdc",
        "cdc x",
        "cdc  flush",
        "cdc flush x",
        "cdc read",
        "cdc read 0",
        "cdc read 1025",
        "cdc notify 65536",
        "cdc write -",
        "cdc write 6",
        "hid flush",
        "hid report -",
        "msc protect 2",
        "msc protect 01",
        "midi bytes 0",
        "midi send 0G",
    ] {
        assert!(rt; !is_read(line.as_bytes()));
    }
}

/// The lines of calls.
#[test]
fn calls(rt: HostRuntime) {
    assert!(rt; is_said(&DevCall::Cdc(CdcDeviceCall::Read(1024)), b"cdc read 1024"));
    assert!(rt; is_said(&DevCall::Cdc(CdcDeviceCall::Flush), b"cdc flush"));
    assert!(rt; is_said(&DevCall::Cdc(CdcDeviceCall::Avail), b"cdc avail"));
    assert!(rt; is_said(&DevCall::Cdc(CdcDeviceCall::Line), b"cdc line"));
    assert!(rt;
        is_said(
            &DevCall::Cdc(CdcDeviceCall::Notify(65535)),
            b"cdc notify 65535"
        )
    );
    assert!(rt; is_said(&DevCall::Hid(HidDeviceCall::Take), b"hid take"));
    assert!(rt; is_said(&DevCall::Hid(HidDeviceCall::Set), b"hid set"));
    assert!(rt; is_said(&DevCall::Hid(HidDeviceCall::Idle), b"hid idle"));
    assert!(rt; is_said(&DevCall::Msc(MscDeviceCall::Eject), b"msc eject"));
    assert!(rt; is_said(&DevCall::Msc(MscDeviceCall::Insert), b"msc insert"));
    assert!(rt;
        is_said(
            &DevCall::Msc(MscDeviceCall::Protect(true)),
            b"msc protect 1"
        )
    );
    assert!(rt;
        is_said(
            &DevCall::Msc(MscDeviceCall::Protect(false)),
            b"msc protect 0"
        )
    );
    assert!(rt; is_said(&DevCall::Midi(MidiCall::Recv(1)), b"midi recv 1"));
    assert!(rt; is_said(&DevCall::Midi(MidiCall::Bytes(3)), b"midi bytes 3"));
    let state = call_text(&DevCall::State);
    assert_eq!(rt; state.as_slice(), b"state".as_slice());
}

/// The same of calls that give bytes.
#[test]
fn calls_with_bytes(rt: HostRuntime) {
    let write = DevCall::Cdc(CdcDeviceCall::Write(bytes(&[1, 255])));
    assert!(rt; is_said(&write, b"cdc write 01ff"));
    let report = DevCall::Hid(HidDeviceCall::Report(bytes(&[0])));
    assert!(rt; is_said(&report, b"hid report 00"));
    let send = DevCall::Midi(MidiCall::Send(bytes(&[0x90])));
    assert!(rt; is_said(&send, b"midi send 90"));
}
