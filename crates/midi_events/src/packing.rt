// The stream into events.
ghost use Rattle.std.specs.Prelude.{◌≡◌, [], if◌then◌else◌, option_to_list};
ghost use Rattle.midi_events.specs.Bytes.{kind, data_count, code_index, runs_on};
ghost use Rattle.midi_events.specs.Packing.{Idle, InSysEx, InMessage, event_at, kept_after, event, after};
ghost use Rattle.midi_events.specs.Kept.{kept_bytes, state_of};

use std::marker::Model;

/// What a byte of the stream is.
#[derive(Clone, Copy)]
enum Kind {
    /// 00 to 7f.
    Data,
    /// 80 to ef: the status of a channel message.
    Channel,
    /// f0.
    SysExStart,
    /// f1 to f3: the status of a system common message with data.
    Common,
    /// f4 and f5.
    Undefined,
    /// f6.
    TuneRequest,
    /// f7.
    SysExEnd,
    /// f8 to ff.
    RealTime,
}

/// The bytes of a SysEx since its last event.
#[derive(Clone, Copy)]
enum Kept {
    Nothing,
    One(u8),
    Two(u8, u8),
}

/// What the next data byte belongs to.
#[derive(Clone, Copy)]
enum Unfinished {
    Nothing,
    SysEx(Kept),
    /// A message with its status and its first data byte, if that has come. Without one it may be a message to come
    /// under the running status.
    Message(u8, Option<u8>),
}

fn kind_of(byte: u8) -> Kind
    ensures { result ≡ kind byte }
{
    match byte {
        0x00..=0x7f => Kind::Data,
        0x80..=0xef => Kind::Channel,
        0xf0 => Kind::SysExStart,
        0xf1..=0xf3 => Kind::Common,
        0xf4..=0xf5 => Kind::Undefined,
        0xf6 => Kind::TuneRequest,
        0xf7 => Kind::SysExEnd,
        0xf8..=0xff => Kind::RealTime,
    }
}

/// How many data bytes a message with this status takes.
fn data_count_of(status: u8) -> u8
    ensures { result ≡ data_count status }
{
    match status {
        0xc0..=0xdf => 1,
        0x00..=0xef | 0xf2 => 2,
        _ => 1,
    }
}

fn code_index_of(status: u8) -> u8
    ensures { result ≡ code_index status }
{
    match status {
        0x00..=0xef => status / 16,
        0xf2 => 3,
        _ => 2,
    }
}

/// What the next data byte belongs to after a whole message: the status of a channel message runs on.
fn unfinished_after(status: u8) -> Unfinished
    ensures { state_of result ≡ (if runs_on status then InMessage status [] else Idle) }
{
    if status < 0xf0 {
        Unfinished::Message(status, None)
    } else {
        Unfinished::Nothing
    }
}

/// A data byte in a SysEx: the third one kept gives an event.
fn data_in_sysex(kept: Kept, byte: u8) -> (Unfinished, Option<[u8; 4]>)
    ensures kept { state_of result.0 ≡ kept_after Kind.Data (InSysEx (kept_bytes kept)) byte }
    ensures event { result.1 ≡ event_at Kind.Data (InSysEx (kept_bytes kept)) byte }
{
    match kept {
        Kept::Nothing => (Unfinished::SysEx(Kept::One(byte)), None),
        Kept::One(a) => (Unfinished::SysEx(Kept::Two(a, byte)), None),
        Kept::Two(a, b) => (Unfinished::SysEx(Kept::Nothing), Some([0x04, a, b, byte])),
    }
}

/// A data byte in a message: the last one that it takes gives the event.
fn data_in_message(status: u8, first: Option<u8>, byte: u8) -> (Unfinished, Option<[u8; 4]>)
    ensures kept { state_of result.0 ≡ kept_after Kind.Data (InMessage status (option_to_list first)) byte }
    ensures event { result.1 ≡ event_at Kind.Data (InMessage status (option_to_list first)) byte }
{
    let code = code_index_of(status);
    match first {
        Some(a) => (unfinished_after(status), Some([code, status, a, byte])),
        None => {
            if data_count_of(status) == 2 {
                (Unfinished::Message(status, Some(byte)), None)
            } else {
                (unfinished_after(status), Some([code, status, byte, 0]))
            }
        }
    }
}

/// A data byte, wherever it belongs.
fn data_in(unfinished: Unfinished, byte: u8) -> (Unfinished, Option<[u8; 4]>)
    ensures kept { state_of result.0 ≡ kept_after Kind.Data (state_of unfinished) byte }
    ensures event { result.1 ≡ event_at Kind.Data (state_of unfinished) byte }
{
    match unfinished {
        Unfinished::Nothing => (Unfinished::Nothing, None),
        Unfinished::SysEx(kept) => data_in_sysex(kept, byte),
        Unfinished::Message(status, first) => data_in_message(status, first, byte),
    }
}

/// The event at f7, which is the last byte of an open SysEx and of nothing else.
fn end_of_sysex(unfinished: Unfinished, byte: u8) -> Option<[u8; 4]>
    ensures { result ≡ event_at Kind.SysExEnd (state_of unfinished) byte }
{
    match unfinished {
        Unfinished::SysEx(Kept::Nothing) => Some([0x05, byte, 0, 0]),
        Unfinished::SysEx(Kept::One(a)) => Some([0x06, a, byte, 0]),
        Unfinished::SysEx(Kept::Two(a, b)) => Some([0x07, a, b, byte]),
        Unfinished::Nothing | Unfinished::Message(_, _) => None,
    }
}

/// What the next data byte belongs to after this byte of the stream, and the event that the byte makes whole.
fn step(unfinished: Unfinished, byte: u8) -> (Unfinished, Option<[u8; 4]>)
    ensures kept { state_of result.0 ≡ after (state_of unfinished) byte }
    ensures event { result.1 ≡ event (state_of unfinished) byte }
{
    match kind_of(byte) {
        Kind::RealTime => (unfinished, Some([0x0f, byte, 0, 0])),
        Kind::Data => data_in(unfinished, byte),
        Kind::SysExStart => (Unfinished::SysEx(Kept::One(byte)), None),
        Kind::SysExEnd => (Unfinished::Nothing, end_of_sysex(unfinished, byte)),
        Kind::TuneRequest => (Unfinished::Nothing, Some([0x05, byte, 0, 0])),
        Kind::Undefined => (Unfinished::Nothing, None),
        Kind::Common | Kind::Channel => (Unfinished::Message(byte, None), None),
    }
}

/// Packs a MIDI stream into events on cable 0 (USB MIDI 1.0, section 4).
///
/// Real-time bytes pass at once. Other bytes are kept until a message or three bytes of a SysEx are whole; what a status
/// byte cuts short is dropped, and so are data bytes that belong to nothing. A message under running status goes out with
/// its status.
#[derive(Drop)]
pub struct Packer {
    unfinished: Unfinished,
}

impl Model for Packer {
    ghost use Rattle.midi_events.specs.Packing.{State};
    ghost use Rattle.midi_events.specs.Kept.{state_of};

    ghost Value = { State };

    ghost view = { λ p. state_of p.unfinished };
}

impl Packer {
    /// A packer that has seen nothing.
    pub fn new() -> Packer
        ensures { result ≡ Idle }
    {
        Packer {
            unfinished: Unfinished::Nothing,
        }
    }

    /// Takes the next byte of the stream, and gives the event that it makes whole, if it does.
    pub fn push(&mut self, byte: u8) -> Option<[u8; 4]>
        ensures event { result ≡ event self.old byte }
        ensures kept { self.new ≡ after self.old byte }
    {
        let (unfinished, event) = step(self.unfinished, byte);
        self.unfinished = unfinished;
        event
    }
}
