ghost use Rattle.std.specs.Prelude.{◌≡◌, ◌≤◌, [], ◌∷◌, length, codes};
ghost use Rattle.std.specs.Fmt.{decimal};
ghost use Rattle.usb_packet.specs.declared.bus.BusEvent.TheVariants as event;
ghost use Rattle.usb_words.specs.Field.{spaced, hex};
ghost use Rattle.usb_text.specs.Line.{fate_text, toggle_text, event_words, IsEvent, device_words, IsDeviceLine, line_text, IsLine};
ghost use Rattle.usb_text.specs.Head.{head_text, IsHead};

use crate::head::HeadLine;
use crate::line::Line;
use arrayvec::ArrayVec;
use call_text::{call_text, text_of};
use device_line::DevLine;
use usb_packet::{BusEvent, Packet, Toggle};
use usb_words::{push_bytes, push_number, push_text, push_word};

/// A text of at most a line's length.
type Text = ArrayVec<u8, 8400>;

/// The text of a line, without the newline that ends it.
pub fn line_text(line: &Line) -> ArrayVec<u8, 8400>
    requires { IsLine line.now }
    ensures { result.items ≡ line_text line.now }
{
    match line {
        Line::Head(line) => head_text(line),
        Line::Device(line) => device_text(line),
        Line::End => text_of(b"end"),
    }
}

fn device_text(line: &DevLine) -> Text
    requires { IsDeviceLine line.now }
    ensures { result.items ≡ spaced (device_words line.now) }
{
    match line {
        DevLine::Bus(event) => event_text(event),
        DevLine::Irq => text_of(b"irq"),
        DevLine::Task => text_of(b"task"),
        DevLine::Call(call) => call_text(call),
    }
}

fn event_text(event: &BusEvent) -> Text
    requires { IsEvent event.now }
    ensures { result.items ≡ spaced (event_words event.now) }
{
    match event {
        BusEvent::Reset => text_of(b"reset"),
        BusEvent::Setup { addr, bytes, ok } => setup_text(*addr, bytes, *ok),
        BusEvent::Out {
            addr,
            ep,
            toggle,
            packet,
            ok,
        } => out_text(*addr, *ep, *toggle, packet, *ok),
        BusEvent::In { addr, ep, ok } => in_text(*addr, *ep, *ok),
    }
}

/// `setup ADDR HEX FATE`
fn setup_text(addr: u8, bytes: &[u8; 8], ok: bool) -> Text
    ensures { result.items ≡ spaced (event_words (event.Setup addr bytes.now ok)) }
{
    let mut out = text_of(b"setup");
    push_number(&mut out, u16::from(addr));
    push_bytes(&mut out, bytes);
    push_word(&mut out, fate_word(ok, b"bad"));
    out
}

/// `out ADDR EP T HEX FATE`
fn out_text(addr: u8, ep: u8, toggle: Toggle, packet: &Packet, ok: bool) -> Text
    ensures { result.items ≡ spaced (event_words (event.Out addr ep toggle packet.now ok)) }
{
    let mut out = text_of(b"out");
    push_number(&mut out, u16::from(addr));
    push_number(&mut out, u16::from(ep));
    push_word(&mut out, toggle_word(toggle));
    push_bytes(&mut out, packet.bytes());
    push_word(&mut out, fate_word(ok, b"bad"));
    out
}

/// `in ADDR EP FATE`
fn in_text(addr: u8, ep: u8, ok: bool) -> Text
    ensures { result.items ≡ spaced (event_words (event.In addr ep ok)) }
{
    let mut out = text_of(b"in");
    push_number(&mut out, u16::from(addr));
    push_number(&mut out, u16::from(ep));
    push_word(&mut out, fate_word(ok, b"noack"));
    out
}

fn fate_word(ok: bool, other: &'static [u8]) -> &'static [u8]
    requires { length other.now ≤ 5 }
    ensures word { result.now ≡ fate_text other.now ok }
    ensures short { length result.now ≤ 5 }
{
    if ok { b"ok" } else { other }
}

fn toggle_word(toggle: Toggle) -> &'static [u8]
    ensures word { result.now ≡ toggle_text toggle }
    ensures short { length result.now ≤ 1 }
{
    match toggle {
        Toggle::D0 => b"0",
        Toggle::D1 => b"1",
    }
}

/// The text of a line of the head, without the newline that ends it.
pub fn head_text(line: &HeadLine) -> ArrayVec<u8, 8400>
    requires { IsHead line.now }
    ensures { result.items ≡ head_text line.now }
{
    match line {
        HeadLine::Device(bytes) => bytes_line(b"device", bytes.as_slice()),
        HeadLine::Config(bytes) => bytes_line(b"config", bytes.as_slice()),
        HeadLine::Text { index, body } => string_text(*index, body.as_slice()),
        HeadLine::Report(bytes) => bytes_line(b"report", bytes.as_slice()),
        HeadLine::Begin => text_of(b"begin"),
    }
}

/// `NAME HEX`
fn bytes_line(name: &[u8], bytes: &[u8]) -> Text
    requires name { length name.now ≤ 16 }
    requires bytes { length bytes.now ≤ 1024 }
    ensures { result.items ≡ spaced (name.now ∷ hex bytes.now ∷ []) }
{
    let mut out = text_of(name);
    push_bytes(&mut out, bytes);
    out
}

/// `string I HEX`
fn string_text(index: u8, body: &[u8]) -> Text
    requires { length body.now ≤ 60 }
    ensures { result.items ≡ spaced (codes "string" ∷ decimal index ∷ hex body.now ∷ []) }
{
    let mut out = text_of(b"string");
    push_number(&mut out, u16::from(index));
    push_bytes(&mut out, body);
    out
}
