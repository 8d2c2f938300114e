ghost use Rattle.std.specs.Prelude.{◌≤◌, length};
ghost use Rattle.usb_pipe.specs.Said.{Fits};
ghost use Rattle.usbrun.specs.Replies.{fits_once};

use crate::writer::push_lines;
use arrayvec::ArrayVec;
use dwc2_regs::Access;
use usb_edge::{MOST_TEXT, Text};
use usb_packet::BusAnswer;
use usb_pipe::Said;
use usb_text::{push_bus_line, push_said_line};

/// What the trace is told of a line: its accesses, at most 400, and then what the device answers on the bus.
#[derive(Clone, Copy)]
pub struct BusTurn<'a> {
    /// The accesses, the oldest first.
    pub accesses: &'a [Access],
    /// The answer.
    pub answer: &'a BusAnswer,
    ghost few: { length accesses.now ≤ 400 },
}

impl<'a> Text for BusTurn<'a> {
    ghost use Rattle.device_line.specs.declared.line.Answer.TheVariants.{Bus};
    ghost use Rattle.usbrun.specs.Texts.{trace_part};

    ghost text = { λ t. trace_part t.accesses.now (Bus t.answer.now) };

    fn put(&self, to: &mut ArrayVec<u8, MOST_TEXT>) {
        push_lines(to, self.accesses);
        push_bus_line(to, self.answer);
    }
}

/// The same with a reply to a call: what is said, and its bytes, at most 4,096, where they stand.
#[derive(Clone, Copy)]
pub struct ReplyTurn<'a> {
    /// The accesses, the oldest first.
    pub accesses: &'a [Access],
    /// What is said.
    pub said: Said,
    /// Its bytes.
    pub bytes: &'a [u8],
    ghost few: { length accesses.now ≤ 400 },
    ghost fits: { Fits said bytes.now } by { fits_once said bytes.now },
    ghost most: { length bytes.now ≤ 4096 },
}

impl<'a> Text for ReplyTurn<'a> {
    ghost use Rattle.device_line.specs.declared.line.Answer.TheVariants.{Reply as TheReply};
    ghost use Rattle.usb_pipe.specs.Said.{reply_with};
    ghost use Rattle.usbrun.specs.Texts.{trace_part};

    ghost text = { λ t. trace_part t.accesses.now (TheReply (reply_with t.said t.bytes.now)) };

    fn put(&self, to: &mut ArrayVec<u8, MOST_TEXT>) {
        push_lines(to, self.accesses);
        push_said_line(to, self.said, self.bytes);
    }
}
