ghost use Rattle.std.specs.Prelude.{◌≡◌, Some};
ghost use Rattle.call_text.specs.Reading.{bare, cdc_fields, hid_fields, msc_fields, midi_fields, cdc_call, hid_call, msc_call, midi_call, class_call};

use device_line::DevCall;
use line_rules::{
    CdcKind, Class, HidKind, MidiKind, MscKind, cdc_kind_of, hid_kind_of, midi_kind_of, msc_kind_of,
};
use usb_pipe::{CdcDeviceCall, HidDeviceCall, MidiCall, MscDeviceCall};
use usb_words::{Words, last_bytes, last_number, none_left};

/// The call of a class that the words after the class are the text of.
pub fn read_call(class: Class, words: &mut Words<'_>) -> Option<DevCall>
    ensures { result ≡ class_call class words.old }
{
    match class {
        Class::Cdc => {
            let call = read_cdc(words)?;
            Some(DevCall::Cdc(call))
        }
        Class::Hid => {
            let call = read_hid(words)?;
            Some(DevCall::Hid(call))
        }
        Class::Msc => {
            let call = read_msc(words)?;
            Some(DevCall::Msc(call))
        }
        Class::Midi => {
            let call = read_midi(words)?;
            Some(DevCall::Midi(call))
        }
    }
}

fn read_cdc(words: &mut Words<'_>) -> Option<CdcDeviceCall>
    ensures { result ≡ cdc_call words.old }
{
    let name = words.next()?;
    let kind = cdc_kind_of(name)?;
    cdc_fields(kind, words)
}

/// Reads the words after a call's name.
fn cdc_fields(kind: CdcKind, words: &mut Words<'_>) -> Option<CdcDeviceCall>
    ensures { result ≡ cdc_fields (Some kind) words.old }
{
    match kind {
        CdcKind::Write => {
            let bytes = last_bytes::<1024>(words, 1)?;
            Some(CdcDeviceCall::Write(bytes))
        }
        CdcKind::Read => {
            let n = last_number(words, 1, 1024)?;
            Some(CdcDeviceCall::Read(n))
        }
        CdcKind::Flush => bare(words, CdcDeviceCall::Flush),
        CdcKind::Avail => bare(words, CdcDeviceCall::Avail),
        CdcKind::Line => bare(words, CdcDeviceCall::Line),
        CdcKind::Notify => {
            let bits = last_number(words, 0, 65535)?;
            Some(CdcDeviceCall::Notify(bits))
        }
    }
}

fn read_hid(words: &mut Words<'_>) -> Option<HidDeviceCall>
    ensures { result ≡ hid_call words.old }
{
    let name = words.next()?;
    let kind = hid_kind_of(name)?;
    hid_fields(kind, words)
}

fn hid_fields(kind: HidKind, words: &mut Words<'_>) -> Option<HidDeviceCall>
    ensures { result ≡ hid_fields (Some kind) words.old }
{
    match kind {
        HidKind::Report => {
            let bytes = last_bytes::<64>(words, 1)?;
            Some(HidDeviceCall::Report(bytes))
        }
        HidKind::Take => bare(words, HidDeviceCall::Take),
        HidKind::Set => bare(words, HidDeviceCall::Set),
        HidKind::Idle => bare(words, HidDeviceCall::Idle),
    }
}

fn read_msc(words: &mut Words<'_>) -> Option<MscDeviceCall>
    ensures { result ≡ msc_call words.old }
{
    let name = words.next()?;
    let kind = msc_kind_of(name)?;
    msc_fields(kind, words)
}

fn msc_fields(kind: MscKind, words: &mut Words<'_>) -> Option<MscDeviceCall>
    ensures { result ≡ msc_fields (Some kind) words.old }
{
    match kind {
        MscKind::Eject => bare(words, MscDeviceCall::Eject),
        MscKind::Insert => bare(words, MscDeviceCall::Insert),
        MscKind::Protect => {
            let n = last_number(words, 0, 1)?;
            Some(MscDeviceCall::Protect(n == 1))
        }
    }
}

fn read_midi(words: &mut Words<'_>) -> Option<MidiCall>
    ensures { result ≡ midi_call words.old }
{
    let name = words.next()?;
    let kind = midi_kind_of(name)?;
    midi_fields(kind, words)
}

fn midi_fields(kind: MidiKind, words: &mut Words<'_>) -> Option<MidiCall>
    ensures { result ≡ midi_fields (Some kind) words.old }
{
    match kind {
        MidiKind::Send => {
            let bytes = last_bytes::<1024>(words, 1)?;
            Some(MidiCall::Send(bytes))
        }
        MidiKind::Recv => {
            let n = last_number(words, 1, 1024)?;
            Some(MidiCall::Recv(n))
        }
        MidiKind::Bytes => {
            let n = last_number(words, 1, 1024)?;
            Some(MidiCall::Bytes(n))
        }
    }
}

/// The call, where no word is left.
fn bare<T: Drop>(words: &mut Words<'_>, call: T) -> Option<T>
    ensures { result ≡ bare words.old call }
{
    if none_left(words) { Some(call) } else { None }
}
