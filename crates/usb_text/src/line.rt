ghost use Rattle.std.specs.Prelude.{◌≡◌, codes};
ghost use Rattle.std.specs.Option.{option_map};
ghost use Rattle.usb_words.specs.Field.{none_left, number_of, bytes_in, exactly, fate_of};
ghost use Rattle.line_rules.specs.Kinds.{kind_of, bad, noack};
ghost use Rattle.usb_packet.specs.declared.bus.BusEvent.TheVariants as event;
ghost use Rattle.device_line.specs.declared.line.DevLine.TheVariants.{Bus};
ghost use Rattle.usb_text.specs.Scheduled.{scheduled, Device};
ghost use Rattle.usb_text.specs.Line.{most_address, most_endpoint};
ghost use Rattle.usb_text.specs.Reading.{three, five, toggle_of, setup_words, out_words, in_words, alone, on_bus, event_in, fields_line, line_of};

use crate::head::HeadLine;
use call_text::read_call;
use device_line::{DevCall, DevLine};
use line_rules::{Kind, kind_of};
use usb_packet::{BusEvent, Packet, Toggle};
use usb_words::{Words, read_hex, small_number};

/// The greatest device address (USB 2.0, 8.3.2.1).
const MOST_ADDRESS: u8 = 127;

/// The greatest endpoint number (USB 2.0, 8.3.2.2).
const MOST_ENDPOINT: u8 = 15;

/// A line of a job.
#[derive(Drop)]
pub enum Line {
    /// A line of the job's head.
    Head(HeadLine),
    /// A line of a device's schedule.
    Device(DevLine),
    /// The job's last line.
    End,
}

/// A line of a job after its head.
#[derive(Drop)]
pub enum ScheduleLine {
    /// What happens on the bus, a run, or a call.
    Served(DevLine),
    /// The job's last line.
    End,
}

/// The line of the schedule that these bytes are the text of.
pub fn line_of(line: &[u8]) -> Option<ScheduleLine>
    ensures { option_map scheduled result ≡ line_of line.now }
{
    let mut words = Words::of(line);
    let name = words.next()?;
    let kind = kind_of(name)?;
    read_fields(kind, &mut words)
}

/// Reads the words after a line's name.
fn read_fields(kind: Kind, words: &mut Words<'_>) -> Option<ScheduleLine>
    ensures { option_map scheduled result ≡ fields_line (Some kind) words.old }
{
    match kind {
        Kind::Reset => alone(words, ScheduleLine::Served(DevLine::Bus(BusEvent::Reset))),
        Kind::Irq => alone(words, ScheduleLine::Served(DevLine::Irq)),
        Kind::Task => alone(words, ScheduleLine::Served(DevLine::Task)),
        Kind::State => alone(words, ScheduleLine::Served(DevLine::Call(DevCall::State))),
        Kind::End => alone(words, ScheduleLine::End),
        Kind::Setup => on_bus(read_setup(words)),
        Kind::Out => on_bus(read_out(words)),
        Kind::In => on_bus(read_in(words)),
        Kind::Class(class) => {
            let call = read_call(class, words)?;
            Some(ScheduleLine::Served(DevLine::Call(call)))
        }
    }
}

/// The line that a bus event is.
fn on_bus(event: Option<BusEvent>) -> Option<ScheduleLine>
    ensures { option_map scheduled result ≡ option_map on_bus event }
{
    let event = event?;
    Some(ScheduleLine::Served(DevLine::Bus(event)))
}

#[tactic(auto, using(crate::proofs::Events::event_again, crate::proofs::Events::irq_is_none, crate::proofs::Events::task_is_none, crate::proofs::Events::state_is_none, crate::proofs::Events::end_is_none, crate::proofs::Events::call_is_none))]
/// The bus event whose line these bytes are the text of, with no room for the bytes of a call on the way.
pub fn event_of(line: &[u8]) -> Option<BusEvent>
    ensures { result ≡ event_in (line_of line.now) }
{
    let mut words = Words::of(line);
    let name = words.next()?;
    match kind_of(name)? {
        Kind::Reset => read_reset(&mut words),
        Kind::Setup => read_setup(&mut words),
        Kind::Out => read_out(&mut words),
        Kind::In => read_in(&mut words),
        Kind::Irq => None,
        Kind::Task => None,
        Kind::State => None,
        Kind::End => None,
        Kind::Class(_) => None,
    }
}

/// `reset`
fn read_reset(words: &mut Words<'_>) -> Option<BusEvent>
    ensures { option_map on_bus result ≡ alone words.old (Device (Bus event.Reset)) }
{
    match words.next() {
        None => Some(BusEvent::Reset),
        Some(_) => None,
    }
}

/// The line, where no word is left.
fn alone(words: &mut Words<'_>, line: ScheduleLine) -> Option<ScheduleLine>
    ensures { option_map scheduled result ≡ alone words.old (scheduled line) }
{
    match words.next() {
        None => Some(line),
        Some(_) => None,
    }
}

/// The words that are left, where they are three.
fn three<'a>(words: &mut Words<'a>) -> Option<(&'a [u8], &'a [u8], &'a [u8])>
    ensures { option_map (λ w. (w.0.now, w.1.now, w.2.now)) result ≡ three words.old }
{
    let a = words.next()?;
    let b = words.next()?;
    let c = words.next()?;
    match words.next() {
        None => Some((a, b, c)),
        Some(_) => None,
    }
}

/// `setup ADDR HEX FATE`
#[inline(never)]
fn read_setup(words: &mut Words<'_>) -> Option<BusEvent>
    ensures { option_map on_bus result ≡ setup_words (three words.old) }
{
    let (addr, bytes, fate) = three(words)?;
    let addr = small_number(addr, MOST_ADDRESS)?;
    let bytes = eight(bytes)?;
    let ok = fate_of(fate, b"bad")?;
    Some(BusEvent::Setup { addr, bytes, ok })
}

/// The words that are left, where they are five.
#[allow(clippy::type_complexity)]
fn five<'a>(words: &mut Words<'a>) -> Option<(&'a [u8], &'a [u8], &'a [u8], &'a [u8], &'a [u8])>
    ensures { option_map (λ w. (w.0.now, w.1.now, w.2.now, w.3.now, w.4.now)) result ≡ five words.old }
{
    let a = words.next()?;
    let b = words.next()?;
    let c = words.next()?;
    let d = words.next()?;
    let e = words.next()?;
    match words.next() {
        None => Some((a, b, c, d, e)),
        Some(_) => None,
    }
}

/// `out ADDR EP T HEX FATE`
#[inline(never)]
fn read_out(words: &mut Words<'_>) -> Option<BusEvent>
    ensures { option_map on_bus result ≡ out_words (five words.old) }
{
    let (addr, ep, toggle, bytes, fate) = five(words)?;
    let addr = small_number(addr, MOST_ADDRESS)?;
    let ep = small_number(ep, MOST_ENDPOINT)?;
    let toggle = toggle_of(toggle)?;
    let packet = packet(bytes)?;
    let ok = fate_of(fate, b"bad")?;
    Some(BusEvent::Out {
        addr,
        ep,
        toggle,
        packet,
        ok,
    })
}

/// `in ADDR EP FATE`
#[inline(never)]
fn read_in(words: &mut Words<'_>) -> Option<BusEvent>
    ensures { option_map on_bus result ≡ in_words (three words.old) }
{
    let (addr, ep, fate) = three(words)?;
    let addr = small_number(addr, MOST_ADDRESS)?;
    let ep = small_number(ep, MOST_ENDPOINT)?;
    let ok = fate_of(fate, b"noack")?;
    Some(BusEvent::In { addr, ep, ok })
}

/// The eight bytes that a word is the text of.
fn eight(word: &[u8]) -> Option<[u8; 8]>
    ensures { result ≡ exactly 8 (bytes_in 8 word.now) }
{
    let bytes = read_hex::<8>(word)?;
    if bytes.len() != 8 {
        return None;
    }
    let mut eight = [0; 8];
    eight.copy_from_slice(bytes.as_slice());
    Some(eight)
}

/// The packet whose bytes, at most 64, a word is the text of.
fn packet(word: &[u8]) -> Option<Packet>
    ensures { result ≡ bytes_in 64 word.now }
{
    let bytes = read_hex::<64>(word)?;
    Some(Packet::of(bytes))
}

/// Whether a packet was whole or acknowledged: `ok`, or the word for the other case.
fn fate_of(word: &[u8], other: &[u8]) -> Option<bool>
    ensures { result ≡ fate_of other.now word.now }
{
    if word == b"ok".as_slice() {
        Some(true)
    } else if word == other {
        Some(false)
    } else {
        None
    }
}

fn toggle_of(word: &[u8]) -> Option<Toggle>
    ensures { result ≡ toggle_of word.now }
{
    if word == b"0".as_slice() {
        Some(Toggle::D0)
    } else if word == b"1".as_slice() {
        Some(Toggle::D1)
    } else {
        None
    }
}
