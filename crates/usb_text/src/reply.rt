ghost use Rattle.std.specs.Prelude.{◌≡◌, ◌+◌, ◌*◌, ◌≤◌, [], ◌∷◌, ◌++◌, length, codes};
ghost use Rattle.arrayvec.specs.ArrayVec.{array_vec_len};
ghost use Rattle.std.specs.Fmt.{decimal};
ghost use Rattle.usb_words.specs.Field.{spaced, hex};
ghost use Rattle.device_line.specs.declared.line.Answer.TheVariants.{Bus as TheBus, Reply as TheReply};
ghost use Rattle.usb_packet.specs.declared.bus.BusAnswer.TheVariants.{Done};
ghost use Rattle.usb_pipe.specs.Said.{Fits, reply_with};
ghost use Rattle.usb_text.specs.Line.{answer_words, answer_text, newline};
ghost use Rattle.usb_text.specs.Reply.{data_name, bus_words, host_words, reply_words};

use arrayvec::ArrayVec;
use device_line::Answer;
use usb_packet::{BusAnswer, Packet, Toggle};
use usb_pipe::{HostWord, Reply, Said};
use usb_words::{push_bytes, push_hex, push_number, push_text, push_wide, push_word};

/// The most bytes that an answer's line has, with its newline: `passed` with 4,096 bytes.
pub const MOST_ANSWER: usize = 8200;

/// Appends the line of what a device answers on the bus, with its newline. A run appends this, and a reply, without an
/// `Answer`, which has room for the longest one.
#[inline(always)]
pub fn push_bus_line<const N: usize>(out: &mut ArrayVec<u8, N>, answer: &BusAnswer)
    requires { array_vec_len out.old + MOST_ANSWER ≤ N }
    ensures items { out.new.items ≡ out.old.items ++ (answer_text (TheBus answer.now) ++ newline ∷ []) }
    ensures length { array_vec_len out.new ≤ array_vec_len out.old + MOST_ANSWER }
{
    match answer {
        BusAnswer::Done => push_text(out, b"ok\n"),
        BusAnswer::Ack => push_text(out, b"ack\n"),
        BusAnswer::Nak => push_text(out, b"nak\n"),
        BusAnswer::Stall => push_text(out, b"stall\n"),
        BusAnswer::NoAnswer => push_text(out, b"none\n"),
        BusAnswer::Data(toggle, packet) => push_data_line(out, *toggle, packet),
    }
}

/// Appends the line of a handler run or a task run, which is answered `Done`, with its newline.
#[inline(always)]
pub fn push_done_line<const N: usize>(out: &mut ArrayVec<u8, N>)
    requires { array_vec_len out.old + MOST_ANSWER ≤ N }
    ensures items { out.new.items ≡ out.old.items ++ (answer_text (TheBus Done) ++ newline ∷ []) }
    ensures length { array_vec_len out.new ≤ array_vec_len out.old + MOST_ANSWER }
{
    push_text(out, b"ok\n");
}

fn push_data_line<const N: usize>(out: &mut ArrayVec<u8, N>, toggle: Toggle, packet: &Packet)
    requires { array_vec_len out.old + MOST_ANSWER ≤ N }
    ensures items { out.new.items ≡ out.old.items ++ (spaced (data_name toggle ∷ hex packet.now ∷ []) ++ newline ∷ []) }
    ensures length { array_vec_len out.new ≤ array_vec_len out.old + MOST_ANSWER }
{
    push_data(out, toggle, packet);
    out.push(b'\n');
}

/// Appends the line of a reply, with its newline: what is said, and the bytes that it has.
pub fn push_said_line<const N: usize>(out: &mut ArrayVec<u8, N>, said: Said, bytes: &[u8])
    requires room { array_vec_len out.old + MOST_ANSWER ≤ N }
    requires fits { Fits said bytes.now }
    requires few { length bytes.now ≤ 4096 }
    ensures items { out.new.items ≡ out.old.items ++ (answer_text (TheReply (reply_with said bytes.now)) ++ newline ∷ []) }
    ensures length { array_vec_len out.new ≤ array_vec_len out.old + MOST_ANSWER }
{
    push_said(out, said, bytes);
    out.push(b'\n');
}

/// An answer's text, without the newline that ends its line.
pub fn answer_text(answer: &Answer) -> ArrayVec<u8, 8400>
    ensures { result.items ≡ answer_text answer.now }
{
    let mut out = ArrayVec::new();
    push_words(&mut out, answer);
    out
}

fn push_words<const N: usize>(out: &mut ArrayVec<u8, N>, answer: &Answer)
    requires { array_vec_len out.old + 8199 ≤ N }
    ensures items { out.new.items ≡ out.old.items ++ spaced (answer_words answer.now) }
    ensures length { array_vec_len out.new ≤ array_vec_len out.old + 8199 }
{
    match answer {
        Answer::Bus(answer) => push_bus(out, answer),
        Answer::Reply(reply) => push_reply(out, reply),
    }
}

fn push_bus<const N: usize>(out: &mut ArrayVec<u8, N>, answer: &BusAnswer)
    requires { array_vec_len out.old + 8199 ≤ N }
    ensures items { out.new.items ≡ out.old.items ++ spaced (bus_words answer.now) }
    ensures length { array_vec_len out.new ≤ array_vec_len out.old + 8199 }
{
    match answer {
        BusAnswer::Done => push_text(out, b"ok"),
        BusAnswer::Ack => push_text(out, b"ack"),
        BusAnswer::Nak => push_text(out, b"nak"),
        BusAnswer::Stall => push_text(out, b"stall"),
        BusAnswer::NoAnswer => push_text(out, b"none"),
        BusAnswer::Data(toggle, packet) => push_data(out, *toggle, packet),
    }
}

/// `data0 HEX` or `data1 HEX`
fn push_data<const N: usize>(out: &mut ArrayVec<u8, N>, toggle: Toggle, packet: &Packet)
    requires { array_vec_len out.old + 8199 ≤ N }
    ensures items { out.new.items ≡ out.old.items ++ spaced (data_name toggle ∷ hex packet.now ∷ []) }
    ensures length { array_vec_len out.new ≤ array_vec_len out.old + 8199 }
{
    match toggle {
        Toggle::D0 => named_bytes(out, b"data0", packet.bytes()),
        Toggle::D1 => named_bytes(out, b"data1", packet.bytes()),
    }
}

fn push_reply<const N: usize>(out: &mut ArrayVec<u8, N>, reply: &Reply)
    requires { array_vec_len out.old + 8199 ≤ N }
    ensures items { out.new.items ≡ out.old.items ++ spaced (reply_words reply.now) }
    ensures length { array_vec_len out.new ≤ array_vec_len out.old + 8199 }
{
    let (said, bytes) = said_of(reply);
    push_said(out, said, bytes);
}

/// The words of what is said, with these bytes.
fn push_said<const N: usize>(out: &mut ArrayVec<u8, N>, said: Said, bytes: &[u8])
    requires room { array_vec_len out.old + 8199 ≤ N }
    requires fits { Fits said bytes.now }
    requires few { length bytes.now ≤ 4096 }
    ensures items { out.new.items ≡ out.old.items ++ spaced (reply_words (reply_with said bytes.now)) }
    ensures length { array_vec_len out.new ≤ array_vec_len out.old + 8199 }
{
    match said {
        Said::Done => push_text(out, b"done"),
        Said::Took(n) => named_number(out, b"took", n),
        Said::Got => named_bytes(out, b"got", bytes),
        Said::Held(n) => named_number(out, b"held", n),
        Said::Events => named_bytes(out, b"events", bytes),
        Said::Report => named_bytes(out, b"report", bytes),
        Said::SetReport(kind) => push_set(out, kind, bytes),
        Said::Idle(rate, protocol) => two_numbers(out, b"idle", rate, protocol),
        Said::LineIs(rate, stop, parity, bits, dtr, rts) => {
            push_line(out, rate, stop, parity, bits);
            push_number(out, u16::from(dtr));
            push_number(out, u16::from(rts));
        }
        Said::Serial(bits) => named_number(out, b"serial", bits),
        Said::Started => push_text(out, b"started"),
        Said::Running => push_text(out, b"running"),
        Said::Passed => named_bytes(out, b"passed", bytes),
        Said::ControlPassed => push_text(out, b"passed"),
        Said::Failed(residue) => push_failed(out, residue),
        Said::Phase => push_text(out, b"phase"),
        Said::Stalled => push_text(out, b"stalled"),
        Said::NoReply => push_text(out, b"noreply"),
        Said::Halted => push_text(out, b"halted"),
        Said::Dead => push_text(out, b"dead"),
        Said::Busy => push_text(out, b"busy"),
        Said::BadLength => push_text(out, b"badlength"),
        Said::NoPipe => push_text(out, b"nopipe"),
        Said::Nothing => push_text(out, b"none"),
        Said::Closed => push_text(out, b"closed"),
        Said::Core(addr, configured) => two_numbers(out, b"state", addr, configured),
        Said::Host(word) => push_host(out, word),
    }
}

/// What a reply says, and its bytes where they stand.
fn said_of(reply: &Reply) -> (Said, &[u8])
    ensures reply { reply_with result.0 result.1.now ≡ reply.now }
    ensures fits { Fits result.0 result.1.now }
    ensures few { length result.1.now ≤ 4096 }
{
    match reply {
        Reply::Done => (Said::Done, &[]),
        Reply::Took(n) => (Said::Took(*n), &[]),
        Reply::Got(bytes) => (Said::Got, bytes.as_slice()),
        Reply::Held(n) => (Said::Held(*n), &[]),
        Reply::Events(bytes) => (Said::Events, bytes.as_slice()),
        Reply::Report(bytes) => (Said::Report, bytes.as_slice()),
        Reply::SetReport(kind, bytes) => (Said::SetReport(*kind), bytes.as_slice()),
        Reply::Idle(rate, protocol) => (Said::Idle(*rate, *protocol), &[]),
        Reply::LineIs(rate, stop, parity, bits, dtr, rts) => (
            Said::LineIs(*rate, *stop, *parity, *bits, *dtr, *rts),
            &[],
        ),
        Reply::Serial(bits) => (Said::Serial(*bits), &[]),
        Reply::Started => (Said::Started, &[]),
        Reply::Running => (Said::Running, &[]),
        Reply::Passed(bytes) => (Said::Passed, bytes.as_slice()),
        Reply::ControlPassed => (Said::ControlPassed, &[]),
        Reply::Failed(residue) => (Said::Failed(*residue), &[]),
        Reply::Phase => (Said::Phase, &[]),
        Reply::Stalled => (Said::Stalled, &[]),
        Reply::NoReply => (Said::NoReply, &[]),
        Reply::Halted => (Said::Halted, &[]),
        Reply::Dead => (Said::Dead, &[]),
        Reply::Busy => (Said::Busy, &[]),
        Reply::BadLength => (Said::BadLength, &[]),
        Reply::NoPipe => (Said::NoPipe, &[]),
        Reply::Nothing => (Said::Nothing, &[]),
        Reply::Closed => (Said::Closed, &[]),
        Reply::Core(addr, session) => (Said::Core(*addr, *session), &[]),
        Reply::Host(word) => (Said::Host(*word), &[]),
    }
}

/// The state of a host's core.
fn push_host<const N: usize>(out: &mut ArrayVec<u8, N>, word: HostWord)
    requires { array_vec_len out.old + 8199 ≤ N }
    ensures items { out.new.items ≡ out.old.items ++ spaced (host_words word) }
    ensures length { array_vec_len out.new ≤ array_vec_len out.old + 8199 }
{
    match word {
        HostWord::Empty => push_text(out, b"empty"),
        HostWord::Waiting => push_text(out, b"waiting"),
        HostWord::Mounted => push_text(out, b"mounted"),
        HostWord::NoReply(stage) => push_fault(out, b"noreply", u16::from(stage)),
        HostWord::Stalled(stage) => push_fault(out, b"stalled", u16::from(stage)),
        HostWord::BadSet(rule) => push_fault(out, b"badset", u16::from(rule)),
        HostWord::TooLarge(total) => push_fault(out, b"toolarge", total),
    }
}

/// `fault NAME N`
fn push_fault<const N: usize>(out: &mut ArrayVec<u8, N>, name: &[u8], n: u16)
    requires room { array_vec_len out.old + 8199 ≤ N }
    requires name { length name.now ≤ 16 }
    ensures items { out.new.items ≡ out.old.items ++ spaced (codes "fault" ∷ name.now ∷ decimal n ∷ []) }
    ensures length { array_vec_len out.new ≤ array_vec_len out.old + 8199 }
{
    push_text(out, b"fault");
    push_word(out, name);
    push_number(out, n);
}

/// `NAME N`
fn named_number<const N: usize>(out: &mut ArrayVec<u8, N>, name: &[u8], n: u16)
    requires room { array_vec_len out.old + 8199 ≤ N }
    requires name { length name.now ≤ 16 }
    ensures items { out.new.items ≡ out.old.items ++ spaced (name.now ∷ decimal n ∷ []) }
    ensures length { array_vec_len out.new ≤ array_vec_len out.old + 8199 }
{
    push_text(out, name);
    push_number(out, n);
}

/// `NAME M N`
fn two_numbers<const N: usize>(out: &mut ArrayVec<u8, N>, name: &[u8], m: u8, n: u8)
    requires room { array_vec_len out.old + 8199 ≤ N }
    requires name { length name.now ≤ 16 }
    ensures items { out.new.items ≡ out.old.items ++ spaced (name.now ∷ decimal m ∷ decimal n ∷ []) }
    ensures length { array_vec_len out.new ≤ array_vec_len out.old + 8199 }
{
    push_text(out, name);
    push_number(out, u16::from(m));
    push_number(out, u16::from(n));
}

/// `NAME HEX`
fn named_bytes<const N: usize>(out: &mut ArrayVec<u8, N>, name: &[u8], bytes: &[u8])
    requires room { array_vec_len out.old + 8199 ≤ N }
    requires name { length name.now ≤ 6 }
    requires bytes { length bytes.now ≤ 4096 }
    ensures items { out.new.items ≡ out.old.items ++ spaced (name.now ∷ hex bytes.now ∷ []) }
    ensures length { array_vec_len out.new ≤ array_vec_len out.old + 8199 }
{
    push_text(out, name);
    out.push(b' ');
    push_hex(out, bytes);
}

/// `set TYPE HEX`
fn push_set<const N: usize>(out: &mut ArrayVec<u8, N>, kind: u8, bytes: &[u8])
    requires room { array_vec_len out.old + 8199 ≤ N }
    requires bytes { length bytes.now ≤ 64 }
    ensures items { out.new.items ≡ out.old.items ++ spaced (codes "set" ∷ decimal kind ∷ hex bytes.now ∷ []) }
    ensures length { array_vec_len out.new ≤ array_vec_len out.old + 8199 }
{
    push_text(out, b"set");
    push_number(out, u16::from(kind));
    push_bytes(out, bytes);
}

/// `failed RESIDUE`
fn push_failed<const N: usize>(out: &mut ArrayVec<u8, N>, residue: u32)
    requires { array_vec_len out.old + 8199 ≤ N }
    ensures items { out.new.items ≡ out.old.items ++ spaced (codes "failed" ∷ decimal residue ∷ []) }
    ensures length { array_vec_len out.new ≤ array_vec_len out.old + 8199 }
{
    push_text(out, b"failed");
    push_wide(out, residue);
}

/// `line RATE STOP PARITY BITS`
fn push_line<const N: usize>(out: &mut ArrayVec<u8, N>, rate: u32, stop: u8, parity: u8, bits: u8)
    requires { array_vec_len out.old + 8199 ≤ N }
    ensures items { out.new.items ≡ out.old.items ++ spaced (codes "line" ∷ decimal rate ∷ decimal stop ∷ decimal parity ∷ decimal bits ∷ []) }
    ensures length { array_vec_len out.new ≤ array_vec_len out.old + 64 }
{
    push_text(out, b"line");
    push_wide(out, rate);
    push_number(out, u16::from(stop));
    push_number(out, u16::from(parity));
    push_number(out, u16::from(bits));
}
