ghost use Rattle.std.specs.Prelude.{◌≡◌, IfOk, IfErr};
ghost use Rattle.std.specs.Option.{option_map};
ghost use Rattle.usb_words.specs.Field.{number_of, from};
ghost use Rattle.line_rules.specs.Kinds.{head_kind_of};
ghost use Rattle.usb_text.specs.declared.head.HeadLine.{HeadLine};
ghost use Rattle.usb_text.specs.Head.{head_text, IsHead, two, text_words, head_fields, head_of};

use arrayvec::ArrayVec;
use line_rules::{HeadKind, head_kind_of};
use usb_words::{Words, last_bytes, read_hex, small_number};

/// A line of a job's head.
#[derive(Drop)]
pub enum HeadLine {
    /// The device descriptor, 1 to 64 bytes.
    Device(ArrayVec<u8, 64>),
    /// The configuration with all that follows its descriptor, 1 to 600 bytes.
    Config(ArrayVec<u8, 600>),
    /// The line `string`: the string of an index from 1 on, 2 to 60 bytes of UTF-16LE.
    Text { index: u8, body: ArrayVec<u8, 60> },
    /// The report descriptor, 1 to 512 bytes.
    Report(ArrayVec<u8, 512>),
    /// The head's last line.
    Begin,
}

/// The line of the head that these bytes are the text of.
pub fn head_of(line: &[u8]) -> Option<HeadLine>
    ensures { result ≡ head_of line.now }
{
    let mut words = Words::of(line);
    let name = words.next()?;
    let kind = head_kind_of(name)?;
    head_fields(kind, &mut words)
}

/// Reads the words after a line's name.
fn head_fields(kind: HeadKind, words: &mut Words<'_>) -> Option<HeadLine>
    ensures { result ≡ head_fields (Some kind) words.old }
{
    match kind {
        HeadKind::Device => {
            let bytes = last_bytes::<64>(words, 1)?;
            Some(HeadLine::Device(bytes))
        }
        HeadKind::Config => {
            let bytes = last_bytes::<600>(words, 1)?;
            Some(HeadLine::Config(bytes))
        }
        HeadKind::Text => read_text(words),
        HeadKind::Report => {
            let bytes = last_bytes::<512>(words, 1)?;
            Some(HeadLine::Report(bytes))
        }
        HeadKind::Begin => match words.next() {
            None => Some(HeadLine::Begin),
            Some(_) => None,
        },
    }
}

/// The words that are left, where they are two.
fn two<'a>(words: &mut Words<'a>) -> Option<(&'a [u8], &'a [u8])>
    ensures { option_map (λ w. (w.0.now, w.1.now)) result ≡ two words.old }
{
    let a = words.next()?;
    let b = words.next()?;
    match words.next() {
        None => Some((a, b)),
        Some(_) => None,
    }
}

/// `string I HEX`
fn read_text(words: &mut Words<'_>) -> Option<HeadLine>
    ensures { result ≡ text_words (two words.old) }
{
    let (index, body) = two(words)?;
    let index = index_of(index)?;
    let body = read_hex::<60>(body)?;
    if body.len() < 2 {
        None
    } else {
        Some(HeadLine::Text { index, body })
    }
}

/// A string's index, 1 to 255.
fn index_of(word: &[u8]) -> Option<u8>
    ensures { result ≡ from 1 (number_of 255 word.now) }
{
    let n = small_number(word, 255)?;
    if n == 0 { None } else { Some(n) }
}
