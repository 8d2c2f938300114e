ghost use Rattle.std.specs.Prelude.{◌≡◌, ◌+◌, ◌≤◌, ◌↔◌, [], ◌++◌, length, IsTrue};
ghost use Rattle.usb_edge.specs.Outcome.{faults_at_tell};
ghost use Rattle.usb_packet.specs.declared.bus.BusAnswer.TheVariants.{Done};
ghost use Rattle.device_line.specs.declared.line.Answer.TheVariants.{Bus, Reply as TheReply};
ghost use Rattle.usb_pipe.specs.Said.{reply_with};
ghost use Rattle.usbrun.specs.Stream.{HasRoom};
ghost use Rattle.usbrun.specs.Texts.{shown, added, HandsOut};

use crate::turn::ReplyTurn;
use crate::writer::Writer;
use dwc2_regs::Access;
use usb_edge::Sink;
use usb_packet::BusAnswer;

/// The output's text that waits to be written.
#[derive(Drop)]
pub struct Texts {
    /// Whether the output shows the register lines.
    pub regs: bool,
    /// What waits.
    pub out: Writer,
}

impl Texts {
    /// Nothing waits.
    pub fn new(regs: bool) -> Texts
        ensures { result ≡ record { regs = regs; out = [] } }
    {
        Texts {
            regs,
            out: Writer::new(),
        }
    }

    /// Whether what one line more adds has room.
    pub fn has_room(&self) -> bool
        ensures { IsTrue result ↔ HasRoom self.now.out }
    {
        self.out.has_room()
    }

    /// Adds what a line adds, where the device's answer stands on the bus.
    pub fn push_bus(&mut self, accesses: &[Access], answer: &BusAnswer)
        requires room { HasRoom self.old.out }
        requires few { length accesses.now ≤ 400 }
        ensures { self.new ≡ added self.old accesses.now (Bus answer.now) }
    {
        self.push_accesses(accesses);
        self.out.push_bus(answer);
    }

    /// The same with a run, which is answered `Done`.
    #[inline(always)]
    pub fn push_done(&mut self, accesses: &[Access])
        requires room { HasRoom self.old.out }
        requires few { length accesses.now ≤ 400 }
        ensures { self.new ≡ added self.old accesses.now (Bus Done) }
    {
        self.push_accesses(accesses);
        self.out.push_done();
    }

    /// The same with a reply.
    pub fn push_reply(&mut self, turn: &ReplyTurn)
        requires { HasRoom self.old.out }
        ensures { self.new ≡ added self.old turn.now.accesses.now (TheReply (reply_with turn.now.said turn.now.bytes.now)) }
    {
        self.push_accesses(turn.accesses);
        self.out.push_said(turn.said, turn.bytes);
    }

    /// Adds register lines where the output shows them.
    #[inline(always)]
    fn push_accesses(&mut self, accesses: &[Access])
        requires room { HasRoom self.old.out }
        requires few { length accesses.now ≤ 400 }
        ensures regs { self.new.regs ≡ self.old.regs }
        ensures out { self.new.out ≡ self.old.out ++ shown self.old.regs accesses.now }
        ensures length { length self.new.out ≤ length self.old.out + 6800 }
    {
        if self.regs {
            self.out.push_accesses(accesses);
        }
    }

    /// Hands on all that waits: whether the sink took it.
    pub fn flush<K: Sink>(&mut self, out: &mut K) -> bool
        ensures hands { HandsOut (K.taken out.old) (K.taken out.new) self.old self.new }
        ensures done { IsTrue result → self.new.out ≡ [] }
        ensures exact { K.faults out.new ≡ faults_at_tell result (K.faults out.old) }
    {
        self.out.flush(out)
    }
}
