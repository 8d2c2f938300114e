ghost use Rattle.std.specs.Prelude.{◌≡◌, None, Some, Ok, IfOk, IfErr, IfSome, IfNone};
ghost use Rattle.line_rules.specs.declared.rules.Mode.TheVariants as mode;
ghost use Rattle.line_rules.specs.declared.rules.Place.TheVariants as place;
ghost use Rattle.line_rules.specs.Rules.{lowest};
ghost use Rattle.usb_text.specs.declared.line.Line.{Line};
ghost use Rattle.usb_text.specs.Scheduled.{Scheduled, scheduled, run_line};
ghost use Rattle.usb_text.specs.declared.head.HeadLine.{HeadLine};
ghost use Rattle.usb_packet.specs.declared.bus.BusEvent.{BusEvent};
ghost use Rattle.device_line.specs.declared.line.DevLine.TheVariants.{Bus};
ghost use Rattle.usb_text.specs.Scheduled.{Device};
ghost use Rattle.usb_text.specs.declared.reading.RunLine.{RunLine};
ghost use Rattle.usb_text.specs.Line.{line_text, schedule_text_of, IsLine, IsScheduled};
ghost use Rattle.usb_text.specs.Lines.{StandsIn, line_in};
ghost use Rattle.usb_text.specs.Head.{head_text, IsHead};

use crate::head::{HeadLine, head_of};
use crate::line::{Line, ScheduleLine, event_of, line_of};
use line_rules::{LineFault, Mode, Place, lowest_rule};
use usb_packet::BusEvent;

/// Reads a line that stands at this place of a job of this mode. The line has no newline. Where it isn't
/// the text of one, the error is the lowest rule that it breaks, 1 to 7.
pub fn read_line(bytes: &[u8], mode: Mode, place: Place) -> Result<Line, LineFault>
    ensures found { IfOk result (λ value. (bytes.now ≡ line_text value) × IsLine value × StandsIn mode place value) }
    ensures again { (value : Line) → IsLine value → StandsIn mode place value → bytes.now ≡ line_text value → result ≡ Ok value }
    ensures printable { IfOk result (λ value. IsLine value) }
    ensures kept { IfOk result (λ value. lowest mode place bytes.now ≡ None) }
    ensures rule { IfErr result (λ fault. lowest mode place bytes.now ≡ Some fault.rule) }
{
    match line_in(bytes, mode, place) {
        Some(value) => Ok(value),
        None => match lowest_rule(bytes, mode, place) {
            Some(rule) => Err(LineFault { rule }),
            None => unreachable!(),
        },
    }
}

/// The line of this mode and place that bytes are the text of.
fn line_in(bytes: &[u8], mode: Mode, place: Place) -> Option<Line>
    ensures { result ≡ line_in mode place bytes.now }
{
    match (mode, place) {
        (Mode::Device, Place::Head) => {
            let line = head_of(bytes)?;
            Some(Line::Head(line))
        }
        (Mode::Device, Place::Schedule) => match line_of(bytes)? {
            ScheduleLine::Served(line) => Some(Line::Device(line)),
            ScheduleLine::End => Some(Line::End),
        },
        (Mode::Host, _) => None,
        (Mode::Link, _) => None,
    }
}

/// Reads a line of the head. The line has no newline.
pub fn read_head(line: &[u8]) -> Result<HeadLine, LineFault>
    ensures found { IfOk result (λ value. (line.now ≡ head_text value) × IsHead value) }
    ensures kept { IfOk result (λ value. lowest mode.Device place.Head line.now ≡ None) }
    ensures none { IfErr result (λ fault. (value : HeadLine) → IsHead value → line.now ≡ head_text value → ⊥) }
    ensures rule { IfErr result (λ fault. lowest mode.Device place.Head line.now ≡ Some fault.rule) }
{
    match head_of(line) {
        Some(value) => Ok(value),
        None => match lowest_rule(line, Mode::Device, Place::Head) {
            Some(rule) => Err(LineFault { rule }),
            None => unreachable!(),
        },
    }
}

/// Reads a line of the schedule, or its `end`. The line has no newline.
pub fn read_schedule(line: &[u8]) -> Result<ScheduleLine, LineFault>
    ensures found { IfOk result (λ value. (line.now ≡ schedule_text_of (scheduled value)) × IsScheduled (scheduled value)) }
    ensures kept { IfOk result (λ value. lowest mode.Device place.Schedule line.now ≡ None) }
    ensures none { IfErr result (λ fault. (value : Scheduled) → IsScheduled value → line.now ≡ schedule_text_of value → ⊥) }
    ensures rule { IfErr result (λ fault. lowest mode.Device place.Schedule line.now ≡ Some fault.rule) }
{
    match line_of(line) {
        Some(value) => Ok(value),
        None => match lowest_rule(line, Mode::Device, Place::Schedule) {
            Some(rule) => Err(LineFault { rule }),
            None => unreachable!(),
        },
    }
}

#[tactic(auto, using(crate::proofs::Events::event_only))]
/// The bus event that a line of the schedule is, where it is one. It has no room for the bytes of a call.
pub fn read_bus(line: &[u8]) -> Option<BusEvent>
    ensures found { IfSome result (λ event. (line.now ≡ schedule_text_of (Device (Bus event))) × IsScheduled (Device (Bus event))) }
    ensures none { IfNone result ((event : BusEvent) → IsScheduled (Device (Bus event)) → line.now ≡ schedule_text_of (Device (Bus event)) → ⊥) }
{
    event_of(line)
}

/// A line of the schedule that is one run.
#[derive(Clone, Copy, Debug, PartialEq, Eq)]
pub enum RunLine {
    Irq,
    Task,
}

/// The run that a line of the schedule is, where it is one. Most lines are, and this has no room for a packet.
pub fn read_run(line: &[u8]) -> Option<RunLine>
    ensures found { IfSome result (λ run. line.now ≡ schedule_text_of (Device (run_line run))) }
    ensures none { IfNone result ((run : RunLine) → line.now ≡ schedule_text_of (Device (run_line run)) → ⊥) }
{
    if line == b"irq".as_slice() {
        Some(RunLine::Irq)
    } else if line == b"task".as_slice() {
        Some(RunLine::Task)
    } else {
        None
    }
}
