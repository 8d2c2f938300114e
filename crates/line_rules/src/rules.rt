ghost use Rattle.std.specs.Prelude.{◌≡◌, codes, drop};
ghost use Rattle.std.specs.Option.{option_map};
ghost use Rattle.std.specs.List.{list_all};
ghost use Rattle.usb_words.specs.Field.{pieces};
ghost use Rattle.line_rules.specs.Rules.{is_printable, first_of, after_first, schedule_row, class_row, cdc_row, hid_row, msc_row, midi_row, head_row, row, has_words, is_number, is_data_bits, is_endpoint, is_hex_digit, is_pairs, is_bytes, is_blocks, is_either, is_data, is_sent, front, further, by_word, keeps, all_keep, after_name, lowest_of, lowest};
ghost use Rattle.line_rules.specs.Walks.{begins_with_word, begins_with, after_field, next_keeps, words_keep};

use crate::kinds::{
    CdcKind, Class, HeadKind, HidKind, Kind, MidiKind, MscKind, cdc_kind_of, head_kind_of,
    hid_kind_of, kind_of, midi_kind_of, msc_kind_of,
};
use usb_words::{Words, is_numeral, value};

/// The most bytes that a line has, without the newline that ends it.
pub const MOST_LINE: usize = 8400;

/// What a job is for.
#[derive(Clone, Copy, PartialEq, Eq, Debug)]
pub enum Mode {
    Device,
    Host,
    Link,
}

/// Where a line stands in its job.
#[derive(Clone, Copy, PartialEq, Eq, Debug)]
pub enum Place {
    Head,
    Schedule,
}

/// A line is refused: `rule` is the lowest that it breaks, 1 to 7.
#[derive(Clone, Copy, PartialEq, Eq, Debug)]
pub struct LineFault {
    pub rule: u8,
}

/// The words of which a word is one.
#[derive(Clone, Copy)]
pub enum Choice {
    /// A packet of the host comes whole, `ok`, or it is `bad`.
    Whole,
    /// The host acknowledges data, `ok`, or gives `noack`.
    Acknowledged,
}

/// What a word after a line's first stands for.
#[derive(Clone, Copy)]
pub enum Field {
    /// A further word of the line's name.
    Name,
    /// A number with its least and its greatest value.
    Number(u32, u32),
    /// How many bits a character has: 5, 6, 7, 8 or 16 (CDC PSTN 1.2, 6.3.11).
    DataBits,
    /// An endpoint's address in two hexadecimal digits: its number, and 80 more where it is IN (USB 2.0, 9.6.6).
    Endpoint,
    /// A HEX with the fewest and the most bytes.
    Bytes(usize, usize),
    /// A HEX of whole blocks of 512 bytes, with the fewest and the most bytes.
    Blocks(usize, usize),
    Choice(Choice),
    /// What a device sends (USB 2.0, 8.3.1): `ack`, `nak`, `stall` or `none`, or `data0` or `data1` and then, as a further
    /// word, a HEX with the fewest and the most bytes.
    Sent(usize, usize),
}

/// The bytes of a block of a disk.
const BLOCK: usize = 512;

static SETUP: [Field; 3] = [
    Field::Number(0, 127),
    Field::Bytes(8, 8),
    Field::Choice(Choice::Whole),
];

static OUT: [Field; 5] = [
    Field::Number(0, 127),
    Field::Number(0, 15),
    Field::Number(0, 1),
    Field::Bytes(0, 64),
    Field::Choice(Choice::Whole),
];

static IN: [Field; 3] = [
    Field::Number(0, 127),
    Field::Number(0, 15),
    Field::Choice(Choice::Acknowledged),
];

static NAMED: [Field; 1] = [Field::Name];

/// The name of a call, and how many bytes or events it asks for.
static ASKED: [Field; 2] = [Field::Name, Field::Number(1, 1024)];

/// The name of a call, and the bytes that it gives.
static GIVEN: [Field; 2] = [Field::Name, Field::Bytes(1, 1024)];

static NOTIFIED: [Field; 2] = [Field::Name, Field::Number(0, 65535)];

static REPORTED: [Field; 2] = [Field::Name, Field::Bytes(1, 64)];

static PROTECTED: [Field; 2] = [Field::Name, Field::Number(0, 1)];

static DEVICE: [Field; 1] = [Field::Bytes(1, 64)];

static CONFIG: [Field; 1] = [Field::Bytes(1, 600)];

static TEXT: [Field; 2] = [Field::Number(1, 255), Field::Bytes(2, 60)];

static REPORT: [Field; 1] = [Field::Bytes(1, 512)];

/// The lowest rule that a line breaks. The line has no newline.
pub fn lowest_rule(line: &[u8], mode: Mode, place: Place) -> Option<u8>
    ensures { result ≡ lowest mode place line.now }
{
    if line.len() > MOST_LINE {
        return Some(1);
    }
    if !is_printable(line) {
        return Some(2);
    }
    let Some(fields) = row_of(mode, place, line) else {
        return Some(3);
    };
    lowest_of(fields, line)
}

/// The lowest of the rules 4 to 7 that a line breaks, where its words after the first stand for these fields.
pub fn lowest_of(fields: &[Field], line: &[u8]) -> Option<u8>
    ensures { result ≡ lowest_of (by_word fields.now (after_name (pieces line.now))) (pieces line.now) }
{
    if !has_words(fields, line) {
        return Some(4);
    }
    if !all_keep(5, fields, line) {
        return Some(5);
    }
    if !all_keep(6, fields, line) {
        return Some(6);
    }
    if !all_keep(7, fields, line) {
        return Some(7);
    }
    None
}

fn is_printable(line: &[u8]) -> bool
    ensures { result ≡ list_all is_printable line.now }
{
    line.iter().all(|b| 32 <= *b && *b <= 126)
}

/// Takes the words up to and with the first that isn't empty, and gives that one.
fn next_name<'a>(words: &mut Words<'a>) -> &'a [u8]
    ensures word { result.now ≡ first_of words.old }
    ensures rest { words.new ≡ after_first words.old }
{
    while let Some(word) = words.next() {
        if !word.is_empty() {
            return word;
        }
    }
    b""
}

/// What the words of a line after its first stand for.
fn row_of(mode: Mode, place: Place, line: &[u8]) -> Option<&'static [Field]>
    ensures { option_map (λ f. f.now) result ≡ row mode place line.now }
{
    let mut words = Words::of(line);
    let name = next_name(&mut words);
    match (mode, place) {
        (Mode::Device, Place::Head) => {
            let kind = head_kind_of(name)?;
            Some(head_row(kind))
        }
        (Mode::Device, Place::Schedule) => {
            let kind = kind_of(name)?;
            schedule_row(kind, next_name(&mut words))
        }
        (Mode::Host, _) => None,
        (Mode::Link, _) => None,
    }
}

fn schedule_row(kind: Kind, next: &[u8]) -> Option<&'static [Field]>
    ensures { option_map (λ f. f.now) result ≡ schedule_row kind next.now }
{
    match kind {
        Kind::Setup => Some(&SETUP),
        Kind::Out => Some(&OUT),
        Kind::In => Some(&IN),
        Kind::Reset => Some(&[]),
        Kind::Irq => Some(&[]),
        Kind::Task => Some(&[]),
        Kind::State => Some(&[]),
        Kind::End => Some(&[]),
        Kind::Class(class) => class_row(class, next),
    }
}

/// The row of a class's call with this name.
fn class_row(class: Class, name: &[u8]) -> Option<&'static [Field]>
    ensures { option_map (λ f. f.now) result ≡ class_row class name.now }
{
    match class {
        Class::Cdc => {
            let kind = cdc_kind_of(name)?;
            Some(cdc_row(kind))
        }
        Class::Hid => {
            let kind = hid_kind_of(name)?;
            Some(hid_row(kind))
        }
        Class::Msc => {
            let kind = msc_kind_of(name)?;
            Some(msc_row(kind))
        }
        Class::Midi => {
            let kind = midi_kind_of(name)?;
            Some(midi_row(kind))
        }
    }
}

fn cdc_row(kind: CdcKind) -> &'static [Field]
    ensures { result.now ≡ cdc_row kind }
{
    match kind {
        CdcKind::Write => &GIVEN,
        CdcKind::Read => &ASKED,
        CdcKind::Flush => &NAMED,
        CdcKind::Avail => &NAMED,
        CdcKind::Line => &NAMED,
        CdcKind::Notify => &NOTIFIED,
    }
}

fn hid_row(kind: HidKind) -> &'static [Field]
    ensures { result.now ≡ hid_row kind }
{
    match kind {
        HidKind::Report => &REPORTED,
        HidKind::Take => &NAMED,
        HidKind::Set => &NAMED,
        HidKind::Idle => &NAMED,
    }
}

fn msc_row(kind: MscKind) -> &'static [Field]
    ensures { result.now ≡ msc_row kind }
{
    match kind {
        MscKind::Eject => &NAMED,
        MscKind::Insert => &NAMED,
        MscKind::Protect => &PROTECTED,
    }
}

fn midi_row(kind: MidiKind) -> &'static [Field]
    ensures { result.now ≡ midi_row kind }
{
    match kind {
        MidiKind::Send => &GIVEN,
        MidiKind::Recv => &ASKED,
        MidiKind::Bytes => &ASKED,
    }
}

fn head_row(kind: HeadKind) -> &'static [Field]
    ensures { result.now ≡ head_row kind }
{
    match kind {
        HeadKind::Device => &DEVICE,
        HeadKind::Config => &CONFIG,
        HeadKind::Text => &TEXT,
        HeadKind::Report => &REPORT,
        HeadKind::Begin => &[],
    }
}

/// Whether a line has its first word and those of each field, with one space between them.
fn has_words(fields: &[Field], line: &[u8]) -> bool
    ensures { result ≡ has_words (by_word fields.now (after_name (pieces line.now))) (pieces line.now) }
{
    let mut words = Words::of(line);
    let mut whole = next_is_word(&mut words);
    for field in fields {
        let there = next_are_words(*field, &mut words);
        whole = whole && there;
    }
    whole && words.next().is_none()
}

/// Takes the next word, and says whether there was one that isn't empty.
fn next_is_word(words: &mut Words<'_>) -> bool
    ensures word { result ≡ begins_with_word words.old }
    ensures rest { words.new ≡ drop 1 words.old }
{
    match words.next() {
        Some(word) => !word.is_empty(),
        None => false,
    }
}

/// Takes the words of a field, and says whether each was there and isn't empty.
fn next_are_words(field: Field, words: &mut Words<'_>) -> bool
    ensures word { result ≡ begins_with (further field (front words.old)) words.old }
    ensures rest { words.new ≡ after_field (further field (front words.old)) words.old }
{
    let Some(word) = words.next() else {
        return false;
    };
    match further(field, word) {
        Some(_) => {
            let there = next_is_word(words);
            there && !word.is_empty()
        }
        None => !word.is_empty(),
    }
}

/// What a further word of a field stands for, where it has one after this word.
fn further(field: Field, word: &[u8]) -> Option<Field>
    ensures { result ≡ further field word.now }
{
    match field {
        Field::Sent(least, most) if is_data(word) => Some(Field::Bytes(least, most)),
        _ => None,
    }
}

/// Whether the words after a line's first are as one rule asks.
fn all_keep(rule: u8, fields: &[Field], line: &[u8]) -> bool
    ensures { result ≡ all_keep rule (by_word fields.now (after_name (pieces line.now))) (after_name (pieces line.now)) }
{
    let mut words = Words::of(line);
    let _name = next_is_word(&mut words);
    let mut kept = true;
    for field in fields {
        let keep = next_keep(rule, *field, &mut words);
        kept = kept && keep;
    }
    kept
}

/// Takes the words of a field, where they are left, and says whether they are as a rule asks.
fn next_keep(rule: u8, field: Field, words: &mut Words<'_>) -> bool
    ensures word { result ≡ words_keep rule field (further field (front words.old)) words.old }
    ensures rest { words.new ≡ after_field (further field (front words.old)) words.old }
{
    let Some(word) = words.next() else {
        return true;
    };
    match further(field, word) {
        Some(further) => {
            let kept = next_keeps(rule, further, words);
            kept && keeps(rule, field, word)
        }
        None => keeps(rule, field, word),
    }
}

/// Takes the next word, where one is left, and says whether it is as a rule asks.
fn next_keeps(rule: u8, field: Field, words: &mut Words<'_>) -> bool
    ensures word { result ≡ next_keeps rule field words.old }
    ensures rest { words.new ≡ drop 1 words.old }
{
    match words.next() {
        Some(word) => keeps(rule, field, word),
        None => true,
    }
}

/// Whether a word is as a rule asks of what it stands for.
fn keeps(rule: u8, field: Field, word: &[u8]) -> bool
    ensures { result ≡ keeps rule field word.now }
{
    match field {
        Field::Name => true,
        Field::Number(least, most) => rule != 5 || is_number(word, least, most),
        Field::DataBits => rule != 5 || is_data_bits(word),
        Field::Endpoint => rule != 5 || is_endpoint(word),
        Field::Bytes(least, most) => rule != 6 || is_bytes(word, least, most),
        Field::Blocks(least, most) => rule != 6 || is_blocks(word, least, most),
        Field::Choice(Choice::Whole) => rule != 7 || is_either(word, b"ok", b"bad"),
        Field::Choice(Choice::Acknowledged) => rule != 7 || is_either(word, b"ok", b"noack"),
        Field::Sent(_, _) => rule != 7 || is_sent(word),
    }
}

fn is_number(word: &[u8], least: u32, most: u32) -> bool
    ensures { result ≡ is_number least most word.now }
{
    if !is_numeral(word) {
        return false;
    }
    let value = value(word);
    u64::from(least) <= value && value <= u64::from(most)
}

fn is_data_bits(word: &[u8]) -> bool
    ensures { result ≡ is_data_bits word.now }
{
    is_number(word, 5, 8) || is_number(word, 16, 16)
}

fn is_endpoint(word: &[u8]) -> bool
    ensures { result ≡ is_endpoint word.now }
{
    match word {
        [high, low] => (*high == b'0' || *high == b'8') && is_hex_digit(*low),
        _ => false,
    }
}

fn is_bytes(word: &[u8], least: usize, most: usize) -> bool
    ensures { result ≡ is_bytes least most word.now }
{
    if word == b"-".as_slice() {
        return least == 0;
    }
    if word.is_empty() {
        return false;
    }
    is_pairs(word) && least <= word.len() / 2 && word.len() / 2 <= most
}

fn is_blocks(word: &[u8], least: usize, most: usize) -> bool
    ensures { result ≡ is_blocks least most word.now }
{
    is_bytes(word, least, most) && word.len() / 2 % BLOCK == 0
}

fn is_pairs(word: &[u8]) -> bool
    ensures { result ≡ is_pairs word.now }
{
    all_hex_digits(word) && word.len() % 2 == 0
}

fn all_hex_digits(word: &[u8]) -> bool
    ensures { result ≡ list_all is_hex_digit word.now }
{
    word.iter().all(|b| is_hex_digit(*b))
}

fn is_hex_digit(digit: u8) -> bool
    ensures { result ≡ is_hex_digit digit }
{
    (b'0' <= digit && digit <= b'9') || (b'a' <= digit && digit <= b'f')
}

fn is_either(word: &[u8], this: &[u8], that: &[u8]) -> bool
    ensures { result ≡ is_either this.now that.now word.now }
{
    word == this || word == that
}

/// Whether a word is what a device sends.
fn is_sent(word: &[u8]) -> bool
    ensures { result ≡ is_sent word.now }
{
    is_either(word, b"ack", b"nak") || is_either(word, b"stall", b"none") || is_data(word)
}

fn is_data(word: &[u8]) -> bool
    ensures { result ≡ is_data word.now }
{
    is_either(word, b"data0", b"data1")
}
