ghost use Rattle.std.specs.Prelude.{◌≡◌, ◌≤◌, true, length, is_some, IfSome};
ghost use Rattle.std.specs.Option.{option_map};
ghost use Rattle.job_reader.specs.Draft.{new_draft, accepts, with_head, takes_text, is_whole};

use arrayvec::ArrayVec;
use usb_descriptor::StringPart;
use usb_text::HeadLine;

/// The most strings that a head has.
const MOST_STRINGS: usize = 8;

/// How far a head was read: its last line.
#[derive(Clone, Copy, PartialEq, Eq, Debug)]
pub enum Stage {
    /// None yet.
    Start,
    Device,
    Config,
    /// The string with this index.
    Text(u8),
    Report,
    Begin,
}

/// What the lines of a head gave so far.
#[derive(Drop)]
pub struct Draft {
    /// The device descriptor, of at most 64 bytes.
    pub device: ArrayVec<u8, 64>,
    /// The configuration descriptor with all that comes with it, of at most 600 bytes.
    pub config: ArrayVec<u8, 600>,
    /// The strings, at most 8, by rising indices.
    pub strings: ArrayVec<StringPart, 8>,
    /// The report descriptor, of at most 512 bytes.
    pub report: Option<ArrayVec<u8, 512>>,
    stage: Stage,
}

impl Draft {
    /// No line was read.
    pub fn new() -> Draft
        ensures { result ≡ new_draft }
    {
        Draft {
            device: ArrayVec::new(),
            config: ArrayVec::new(),
            strings: ArrayVec::new(),
            report: None,
            stage: Stage::Start,
        }
    }

    /// Whether a line has its place behind those read so far.
    pub fn accepts(&self, line: &HeadLine) -> bool
        ensures { result ≡ accepts self.now.stage (length self.now.strings.items) line.now }
    {
        match line {
            HeadLine::Device(_) => self.stage == Stage::Start,
            HeadLine::Config(_) => self.stage == Stage::Device,
            HeadLine::Text { index, .. } => self.strings.len() < MOST_STRINGS
                && self.takes_text(*index),
            HeadLine::Report(_) => matches!(self.stage, Stage::Config | Stage::Text(_)),
            HeadLine::Begin => matches!(self.stage, Stage::Config | Stage::Text(_) | Stage::Report),
        }
    }

    /// Whether a string with this index may come next.
    fn takes_text(&self, index: u8) -> bool
        ensures { result ≡ takes_text self.now.stage index }
    {
        match self.stage {
            Stage::Config => true,
            Stage::Text(last) => last < index,
            _ => false,
        }
    }

    /// Adds a line that has its place.
    pub fn add(&mut self, line: HeadLine)
        requires { accepts self.old.stage (length self.old.strings.items) line ≡ true }
        ensures { self.new ≡ with_head self.old line }
    {
        match line {
            HeadLine::Device(bytes) => {
                self.device = bytes;
                self.stage = Stage::Device;
            }
            HeadLine::Config(bytes) => {
                self.config = bytes;
                self.stage = Stage::Config;
            }
            HeadLine::Text { index, body } => {
                self.strings.push(StringPart { index, body });
                self.stage = Stage::Text(index);
            }
            HeadLine::Report(bytes) => {
                self.report = Some(bytes);
                self.stage = Stage::Report;
            }
            HeadLine::Begin => self.stage = Stage::Begin,
        }
    }

    /// The report descriptor, where there is one.
    pub fn report(&self) -> Option<&[u8]>
        ensures value { option_map (λ r. r.now) result ≡ option_map (λ r. r.items) self.now.report }
        ensures some { is_some result ≡ is_some self.now.report }
        ensures size { IfSome result (λ r. length r.now ≤ 512) }
    {
        match &self.report {
            None => None,
            Some(report) => Some(report.as_slice()),
        }
    }

    /// Whether the head ended.
    pub fn is_whole(&self) -> bool
        ensures { result ≡ is_whole self.now.stage }
    {
        self.stage == Stage::Begin
    }
}
