ghost use Rattle.std.specs.Prelude.{◌≡◌, ◌+◌, ◌^◌, ◌<◌, ◌≤◌, [], true, false, length, take, drop};
ghost use Rattle.usb_edge.specs.Stream.{IsAtEnd};
ghost use Rattle.job_reader.specs.Lines.{Finds, IsNext, size_of};

use crate::reader::{Reader, line_break};
use usb_edge::{Got, Source};
use usb_text::MOST_LINE;

/// What stands at the front of the bytes that were read ahead.
#[derive(Clone, Copy, PartialEq, Eq, Debug)]
pub enum Next {
    /// A line of so many bytes. Its newline follows, which the last line of a source may lack.
    Line(usize),
    /// Nothing, and the source ended.
    Nothing,
    /// More bytes than a line may have, with no newline among them: rule 1.
    LineTooLong,
    /// The source failed.
    ReadFault,
}

/// The lines of a source, one after another.
#[derive(Drop)]
pub struct Lines {
    /// What was read ahead.
    pub reader: Reader,
    /// The source ended. It isn't read again.
    pub ended: bool,
    /// How many bytes the lines so far have, with their newlines.
    pub count: u64,
    /// How many lines there were so far.
    pub lines: u32,
}

impl Lines {
    /// Nothing was read.
    pub fn new() -> Lines
        ensures { result ≡ record { reader = []; ended = false; count = 0; lines = 0 } }
    {
        Lines {
            reader: Reader::new(),
            ended: false,
            count: 0,
            lines: 0,
        }
    }

    /// Finds the next line, and reads on until it stands whole.
    #[tactic(auto, using(crate::proofs::Gone::finds_nothing, crate::proofs::Gone::finds_more, crate::proofs::Gone::finds_end, crate::proofs::Gone::line_found, crate::proofs::Gone::last_found))]
    pub fn find<S: Source>(&mut self, src: &mut S) -> Next
        requires ended { (self.old.ended ≡ true) → IsAtEnd (S.left src.old) }
        ensures finds { Finds (S.left src.old) (S.left src.new) self.old self.new }
        ensures next { IsNext result self.new (S.faults src.old) (S.faults src.new) }
        ensures ended { (self.new.ended ≡ true) → IsAtEnd (S.left src.new) }
        ensures count { S.faults src.old ≤ S.faults src.new }
    {
        'reads: loop {
            match line_break(self.reader.ahead()) {
                Some(n) => return Next::Line(n),
                None => {}
            }
            let len = self.reader.ahead().len();
            if len > MOST_LINE {
                return Next::LineTooLong;
            }
            if self.ended {
                return if len == 0 {
                    Next::Nothing
                } else {
                    Next::Line(len)
                };
            }
            match self.reader.fill(src) {
                Got::Bytes(_) => {}
                Got::End => self.ended = true,
                Got::Failed => return Next::ReadFault,
            }
        }
    }

    /// The line of `n` bytes that stands in front.
    pub fn line(&self, n: usize) -> &[u8]
        requires { n ≤ length self.now.reader }
        ensures { result.now ≡ take n self.now.reader }
    {
        &self.reader.ahead()[..n]
    }

    /// How many bytes a line of `n` bytes has with its newline, which the last line may lack.
    pub fn size(&self, n: usize) -> usize
        requires { n ≤ length self.now.reader }
        ensures { result ≡ size_of n self.now.reader }
    {
        if n < self.reader.ahead().len() {
            n + 1
        } else {
            n
        }
    }

    /// Takes the line of `n` bytes that stands in front, with its newline.
    #[tactic(auto, using(crate::proofs::Gone::dropped))]
    pub fn take(&mut self, n: usize)
        requires within { n ≤ length self.old.reader }
        requires count { self.old.count + size_of n self.old.reader < 2 ^ 64 }
        requires lines { self.old.lines + 1 < 2 ^ 32 }
        ensures reader { self.new.reader ≡ drop (n + 1) self.old.reader }
        ensures ended { self.new.ended ≡ self.old.ended }
        ensures count { self.new.count ≡ self.old.count + size_of n self.old.reader }
        ensures lines { self.new.lines ≡ self.old.lines + 1 }
    {
        let size = self.size(n);
        self.reader.skip(size);
        self.count += size as u64;
        self.lines += 1;
    }
}
