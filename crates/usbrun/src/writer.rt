ghost use Rattle.std.specs.Prelude.{◌≡◌, ℕ, ◌+◌, ◌*◌, ◌≤◌, ◌↔◌, List, [], ◌++◌, length, drop, IsTrue};
ghost use Rattle.arrayvec.specs.ArrayVec.{array_vec_len};
ghost use Rattle.usb_edge.specs.Outcome.{faults_at_tell};
ghost use Rattle.usb_packet.specs.declared.bus.BusAnswer.TheVariants.{Done};
ghost use Rattle.device_line.specs.declared.line.Answer.TheVariants.{Bus, Reply as TheReply};
ghost use Rattle.usb_pipe.specs.Said.{Fits, reply_with};
ghost use Rattle.device_text.specs.Answers.{answer_line};
ghost use Rattle.usbrun.specs.Stream.{Hands, HasRoom};
ghost use Rattle.usbrun.specs.Texts.{access_lines};

use arrayvec::ArrayVec;
use dwc2_regs::Access;
use std::marker::Model;
use usb_edge::Sink;
use usb_packet::BusAnswer;
use usb_pipe::Said;
use usb_text::{
    MOST_ACCESS, MOST_ANSWER, Side, push_access_line, push_bus_line, push_done_line, push_said_line,
};

/// How many bytes wait at most.
const BLOCK: usize = 32768;

/// What one line of a schedule adds at most: the register lines of 400 accesses, and an answer.
const MOST_TURN: usize = 400 * MOST_ACCESS + MOST_ANSWER;

/// The text that waits to be written.
#[derive(Drop)]
pub struct Writer {
    waiting: ArrayVec<u8, 32768>,
}

impl Model for Writer {
    ghost use Rattle.std.specs.Prelude.{ℕ, ◌≤◌, List, length};

    ghost Value = { List ℕ };

    ghost view = { λ w. w.waiting.items };

    ghost invariant = { λ w. length w.waiting.items ≤ 32768 };
}

impl Writer {
    /// Nothing waits.
    pub fn new() -> Writer
        ensures { result ≡ [] }
    {
        Writer {
            waiting: ArrayVec::new(),
        }
    }

    /// Whether what one line more adds has room.
    pub fn has_room(&self) -> bool
        ensures { IsTrue result ↔ HasRoom self.now }
    {
        self.waiting.len() + MOST_TURN <= BLOCK
    }

    /// Puts the lines of accesses to registers behind what waits.
    pub fn push_accesses(&mut self, accesses: &[Access])
        requires { length self.old + 17 * length accesses.now ≤ 32768 }
        ensures text { self.new ≡ self.old ++ access_lines accesses.now }
        ensures length { length self.new ≤ length self.old + 17 * length accesses.now }
    {
        push_lines(&mut self.waiting, accesses);
    }

    /// Puts the line of what the device answers on the bus behind what waits.
    pub fn push_bus(&mut self, answer: &BusAnswer)
        requires { length self.old + 8200 ≤ 32768 }
        ensures text { self.new ≡ self.old ++ answer_line (Bus answer.now) }
        ensures length { length self.new ≤ length self.old + 8200 }
    {
        push_bus_line(&mut self.waiting, answer);
    }

    /// The same of a run, which is answered `Done`.
    #[inline(always)]
    pub fn push_done(&mut self)
        requires { length self.old + 8200 ≤ 32768 }
        ensures text { self.new ≡ self.old ++ answer_line (Bus Done) }
        ensures length { length self.new ≤ length self.old + 8200 }
    {
        push_done_line(&mut self.waiting);
    }

    /// The same of a reply: what is said, and its bytes.
    pub fn push_said(&mut self, said: Said, bytes: &[u8])
        requires room { length self.old + 8200 ≤ 32768 }
        requires fits { Fits said bytes.now }
        requires few { length bytes.now ≤ 4096 }
        ensures text { self.new ≡ self.old ++ answer_line (TheReply (reply_with said bytes.now)) }
        ensures length { length self.new ≤ length self.old + 8200 }
    {
        push_said_line(&mut self.waiting, said, bytes);
    }

    /// Hands on all that waits: whether the sink took it.
    #[tactic(auto, using(crate::proofs::Handed::all_handed, crate::proofs::Handed::some_handed))]
    pub fn flush<K: Sink>(&mut self, out: &mut K) -> bool
        ensures hands { Hands (K.taken out.old) (K.taken out.new) self.old self.new }
        ensures done { IsTrue result → self.new ≡ [] }
        ensures exact { K.faults out.new ≡ faults_at_tell result (K.faults out.old) }
    {
        let given = out.write_all(self.waiting.as_slice());
        if given == self.waiting.len() {
            self.waiting.clear();
            true
        } else {
            self.waiting = rest_of(&self.waiting, given);
            false
        }
    }
}

/// Appends the lines of accesses.
pub fn push_lines(out: &mut ArrayVec<u8, 32768>, accesses: &[Access])
    requires { array_vec_len out.old + 17 * length accesses.now ≤ 32768 }
    ensures items { out.new.items ≡ out.old.items ++ access_lines accesses.now }
    ensures length { array_vec_len out.new ≤ array_vec_len out.old + 17 * length accesses.now }
{
    for access in accesses {
        push_access_line(out, access, Side::Plain);
    }
}

/// What stands behind the first `n` bytes.
fn rest_of(bytes: &ArrayVec<u8, 32768>, n: usize) -> ArrayVec<u8, 32768>
    requires { n ≤ array_vec_len bytes.now }
    ensures { result.items ≡ drop n bytes.now.items }
{
    let mut rest = ArrayVec::new();
    let _ = rest.try_extend_from_slice(&bytes.as_slice()[n..]);
    rest
}
