ghost use Rattle.std.specs.Prelude.{◌≡◌, ◌≤◌, [], ◌∷◌, length};
ghost use Rattle.arrayvec.specs.ArrayVec.{array_vec_len};
ghost use Rattle.std.specs.Fmt.{decimal};
ghost use Rattle.usb_words.specs.Field.{spaced, hex};
ghost use Rattle.call_text.specs.Call.{cdc_words, hid_words, msc_words, midi_words, IsCdcCall, IsHidCall, IsMidiCall, call_text, IsCall};

use arrayvec::ArrayVec;
use device_line::DevCall;
use usb_pipe::{CdcDeviceCall, HidDeviceCall, MidiCall, MscDeviceCall};
use usb_words::{push_bytes, push_number, push_text, push_word};

/// The text of a call's line, without the newline that ends it.
pub fn call_text(call: &DevCall) -> ArrayVec<u8, 8400>
    requires { IsCall call.now }
    ensures { result.items ≡ call_text call.now }
{
    match call {
        DevCall::State => text_of(b"state"),
        DevCall::Cdc(call) => cdc_text(call),
        DevCall::Hid(call) => hid_text(call),
        DevCall::Msc(call) => msc_text(*call),
        DevCall::Midi(call) => midi_text(call),
    }
}

fn cdc_text(call: &CdcDeviceCall) -> ArrayVec<u8, 8400>
    requires { IsCdcCall call.now }
    ensures { result.items ≡ spaced (cdc_words call.now) }
{
    match call {
        CdcDeviceCall::Write(bytes) => with_bytes(b"cdc", b"write", bytes.as_slice()),
        CdcDeviceCall::Read(n) => with_number(b"cdc", b"read", *n),
        CdcDeviceCall::Flush => two_words(b"cdc", b"flush"),
        CdcDeviceCall::Avail => two_words(b"cdc", b"avail"),
        CdcDeviceCall::Line => two_words(b"cdc", b"line"),
        CdcDeviceCall::Notify(bits) => with_number(b"cdc", b"notify", *bits),
    }
}

fn hid_text(call: &HidDeviceCall) -> ArrayVec<u8, 8400>
    requires { IsHidCall call.now }
    ensures { result.items ≡ spaced (hid_words call.now) }
{
    match call {
        HidDeviceCall::Report(bytes) => with_bytes(b"hid", b"report", bytes.as_slice()),
        HidDeviceCall::Take => two_words(b"hid", b"take"),
        HidDeviceCall::Set => two_words(b"hid", b"set"),
        HidDeviceCall::Idle => two_words(b"hid", b"idle"),
    }
}

fn msc_text(call: MscDeviceCall) -> ArrayVec<u8, 8400>
    ensures { result.items ≡ spaced (msc_words call) }
{
    match call {
        MscDeviceCall::Eject => two_words(b"msc", b"eject"),
        MscDeviceCall::Insert => two_words(b"msc", b"insert"),
        MscDeviceCall::Protect(true) => three_words(b"msc", b"protect", b"1"),
        MscDeviceCall::Protect(false) => three_words(b"msc", b"protect", b"0"),
    }
}

fn midi_text(call: &MidiCall) -> ArrayVec<u8, 8400>
    requires { IsMidiCall call.now }
    ensures { result.items ≡ spaced (midi_words call.now) }
{
    match call {
        MidiCall::Send(bytes) => with_bytes(b"midi", b"send", bytes.as_slice()),
        MidiCall::Recv(n) => with_number(b"midi", b"recv", *n),
        MidiCall::Bytes(n) => with_number(b"midi", b"bytes", *n),
    }
}

fn two_words(class: &[u8], name: &[u8]) -> ArrayVec<u8, 8400>
    requires class { length class.now ≤ 16 }
    requires name { length name.now ≤ 16 }
    ensures { result.items ≡ spaced (class.now ∷ name.now ∷ []) }
{
    let mut out = text_of(class);
    push_word(&mut out, name);
    out
}

fn three_words(class: &[u8], name: &[u8], word: &[u8]) -> ArrayVec<u8, 8400>
    requires class { length class.now ≤ 16 }
    requires name { length name.now ≤ 16 }
    requires word { length word.now ≤ 16 }
    ensures { result.items ≡ spaced (class.now ∷ name.now ∷ word.now ∷ []) }
{
    let mut out = text_of(class);
    push_word(&mut out, name);
    push_word(&mut out, word);
    out
}

fn with_number(class: &[u8], name: &[u8], n: u16) -> ArrayVec<u8, 8400>
    requires class { length class.now ≤ 16 }
    requires name { length name.now ≤ 16 }
    ensures { result.items ≡ spaced (class.now ∷ name.now ∷ decimal n ∷ []) }
{
    let mut out = text_of(class);
    push_word(&mut out, name);
    push_number(&mut out, n);
    out
}

fn with_bytes(class: &[u8], name: &[u8], bytes: &[u8]) -> ArrayVec<u8, 8400>
    requires class { length class.now ≤ 16 }
    requires name { length name.now ≤ 16 }
    requires bytes { length bytes.now ≤ 1024 }
    ensures { result.items ≡ spaced (class.now ∷ name.now ∷ hex bytes.now ∷ []) }
{
    let mut out = text_of(class);
    push_word(&mut out, name);
    push_bytes(&mut out, bytes);
    out
}

/// A text of so many bytes, at most 16.
pub fn text_of(bytes: &[u8]) -> ArrayVec<u8, 8400>
    requires { length bytes.now ≤ 16 }
    ensures items { result.items ≡ bytes.now }
    ensures length { array_vec_len result ≡ length bytes.now }
{
    let mut out = ArrayVec::new();
    push_text(&mut out, bytes);
    out
}
