//! OUT endpoints other than 0: what the driver writes to them, and the packets that came.
ghost use Rattle.std.specs.Prelude.{◌≡◌, ◌+◌, ◌≤◌, ◌<◌, ◌&&◌, if◌then◌else◌, false, length};
ghost use Rattle.usb_ring.specs.Ring.{appended};
ghost use Rattle.dwc2_fifo.specs.Words.{word_count};
ghost use Rattle.dwc2_regs.specs.Register.{grxstsp, doepctl, doeptsiz};
ghost use Rattle.device_table.specs.State.{out_end};
ghost use Rattle.device_table.specs.Read.{value_read};
ghost use Rattle.device_table.specs.Write.{after_write};
ghost use Rattle.device_rings.specs.Rings.{out_ring, with_out_ring};
ghost use Rattle.endpoint_relation.specs.OutWords.{base, stall_if, type_of, one_packet};
ghost use Rattle.endpoint_relation.specs.OutSteps.{moved, opened, over_at};
ghost use Rattle.endpoint_relation.specs.OutTable.{reads_landed, halt_writes};
ghost use Rattle.device_relation.specs.Software.{out_kept};
ghost use Rattle.device_relation.specs.Run.{with_table, after_words, bytes_read, end_popped, xfrc_cleared, taken_unless, pipe_taken};
ghost use Rattle.dwc2_device.specs.Driver.{joint, whole, Has, Spends};
ghost use Rattle.dwc2_device.specs.Standing.{EndsAt};
ghost use Rattle.access_order.specs.Phase.{serving, out_sized};
ghost use Rattle.dwc2_device.specs.Order.{Goes};
ghost use Rattle.dwc2_device.specs.Writes.{opens_out, arms_out, halts_out, clears_out, closes_out};

use crate::DevPort;
use crate::words::{
    CNAK_EPENA, SD0PID, SNAK_EPDIS, SNAK_SD0PID, STALL, USBAEP, all_in_interrupts, xfrc,
};
use device_rings::DevRings;
use dwc2_access::Regs;
use dwc2_regs::{DOEPCTL_NAKSTS, doepctl, doeptsiz, get_field};
use endpoint_relation::{OutEndpoint, OutState};
use usb_descriptor::{Endpoint, EpKind, is_core};

/// DOEPTSIZx: a count of one packet.
const ONE_PACKET: u32 = 1 << 19;

fn stall_bit(stalls: bool) -> u32
    ensures { result ≡ stall_if stalls }
{
    if stalls { STALL } else { 0 }
}

/// The transfer type of an endpoint: 2 is bulk, and 3 interrupt.
fn type_bits(kind: EpKind) -> u32
    ensures value { result ≡ type_of kind }
    ensures few { result ≤ 3 }
{
    match kind {
        EpKind::Bulk => 2,
        EpKind::Interrupt => 3,
    }
}

/// What each write of DOEPCTLx carries: size, USBAEP, type and STALL.
fn base_word(kept: &OutEndpoint) -> u32
    ensures value { result ≡ base kept.now }
    ensures few { result < 0x40_0000 }
{
    let stalls = kept.halted && !is_core(kept.endpoint.owner);
    kept.endpoint.size as u32
        + USBAEP
        + 0x4_0000 * type_bits(kept.endpoint.kind)
        + stall_bit(stalls)
}

fn opened_state(over: bool) -> OutState
    ensures { result ≡ (if over then OutState.Stale else OutState.Rest) }
{
    if over {
        OutState::Stale
    } else {
        OutState::Rest
    }
}

/// What is kept of an endpoint that is opened.
fn opened(kept: &OutEndpoint, endpoint: &Endpoint) -> OutEndpoint
    ensures { result ≡ opened kept.now endpoint.now }
{
    OutEndpoint {
        endpoint: *endpoint,
        state: opened_state(kept.over),
        halted: false,
        over: kept.over,
    }
}

/// What is kept once a packet was taken.
fn moved(kept: &OutEndpoint) -> OutEndpoint
    ensures { result ≡ moved kept.now }
{
    let state = match (kept.over, kept.state) {
        (false, _) => OutState::Posted,
        (true, OutState::Stale) => OutState::Rest,
        (true, state) => state,
    };
    OutEndpoint {
        endpoint: kept.endpoint,
        state,
        halted: kept.halted,
        over: false,
    }
}

impl<R: Regs + Drop> DevPort<R> {
    /// DOEPCTLx is written with these bits that act.
    fn write_base(&mut self, number: u8, kept: &OutEndpoint, acts: u32)
        requires known { number ≤ 3 }
        requires few { acts ≤ 0xff00_0000 }
        requires has { Has 1 self.old.bank }
        ensures joint { joint self.new ≡ with_table (joint self.old) (after_write self.old.bank.table (doepctl number) (base kept.now + acts)) }
        ensures plain { acts < 0x4000_0000 → Goes (serving 0) (serving 0) self.old self.new }
        ensures arms { Goes (out_sized number 0) (serving 0) self.old self.new }
        ensures spends { Spends 1 self.old.bank self.new.bank }
    {
        self.write_out_control(number, base_word(kept) + acts);
    }

    pub(crate) fn add_out(&mut self, ep: &Endpoint)
        requires from { 1 ≤ ep.now.addr }
        requires to { ep.now.addr ≤ 3 }
        requires has { Has 1 self.old.bank }
        ensures joint { joint self.new ≡ opens_out (joint self.old) ep.now ep.now.addr }
        ensures order { Goes (serving 0) (serving 0) self.old self.new }
        ensures spends { Spends 1 self.old.bank self.new.bank }
    {
        let opened = opened(&self.out_kept(ep.addr), ep);
        self.write_base(ep.addr, &opened, SNAK_SD0PID);
        self.keep_out(ep.addr, opened);
    }

    /// The endpoint is armed for one packet: its size comes before EPENA (RM0090, OUT data transfers).
    pub(crate) fn arm_one(&mut self, number: u8)
        requires from { 1 ≤ number }
        requires to { number ≤ 3 }
        requires has { Has 2 self.old.bank }
        ensures joint { joint self.new ≡ arms_out (joint self.old) number }
        ensures order { Goes (serving 0) (serving 0) self.old self.new }
        ensures spends { Spends 2 self.old.bank self.new.bank }
    {
        let mut kept = self.out_kept(number);
        self.write_one_packet(number, kept.endpoint.size);
        self.write_base(number, &kept, CNAK_EPENA);
        kept.state = OutState::Armed;
        self.keep_out(number, kept);
    }

    fn write_one_packet(&mut self, number: u8, size: u8)
        requires known { number ≤ 3 }
        requires has { Has 1 self.old.bank }
        ensures joint { joint self.new ≡ with_table (joint self.old) (after_write self.old.bank.table (doeptsiz number) (one_packet size)) }
        ensures order { Goes (serving 0) (out_sized number 0) self.old self.new }
        ensures spends { Spends 1 self.old.bank self.new.bank }
    {
        self.write(doeptsiz(number), size as u32 + ONE_PACKET);
    }

    /// A class's endpoint shows its halt by STALL, and the core's is halted in the software alone.
    pub(crate) fn halt_out(&mut self, number: u8)
        requires from { 1 ≤ number }
        requires to { number ≤ 3 }
        requires has { Has 1 self.old.bank }
        ensures joint { joint self.new ≡ halts_out (joint self.old) number }
        ensures order { Goes (serving 0) (serving 0) self.old self.new }
        ensures spends { Spends 1 self.old.bank self.new.bank }
    {
        let mut kept = self.out_kept(number);
        self.show_out_halt(number, &kept);
        kept.halted = true;
        self.keep_out(number, kept);
    }

    fn show_out_halt(&mut self, number: u8, kept: &OutEndpoint)
        requires known { number ≤ 3 }
        requires has { Has 1 self.old.bank }
        ensures joint { joint self.new ≡ with_table (joint self.old) (halt_writes self.old.bank.table number kept.now) }
        ensures order { Goes (serving 0) (serving 0) self.old self.new }
        ensures spends { Spends 1 self.old.bank self.new.bank }
    {
        if is_core(kept.endpoint.owner) {
            return;
        }
        let mut halted = *kept;
        halted.halted = true;
        self.write_out_control(number, base_word(&halted));
    }

    pub(crate) fn clear_out(&mut self, number: u8)
        requires from { 1 ≤ number }
        requires to { number ≤ 3 }
        requires has { Has 1 self.old.bank }
        ensures joint { joint self.new ≡ clears_out (joint self.old) number }
        ensures order { Goes (serving 0) (serving 0) self.old self.new }
        ensures spends { Spends 1 self.old.bank self.new.bank }
    {
        let mut kept = self.out_kept(number);
        kept.halted = false;
        self.write_base(number, &kept, SD0PID);
        self.keep_out(number, kept);
    }

    /// Where the endpoint was armed, DOEPCTLx tells whether a packet landed, which then is dropped.
    pub(crate) fn close_out(&mut self, number: u8)
        requires from { 1 ≤ number }
        requires to { number ≤ 3 }
        requires has { Has 3 self.old.bank }
        ensures joint { joint self.new ≡ closes_out (joint self.old) number }
        ensures order { Goes (serving 0) (serving 0) self.old self.new }
        ensures spends { Spends 3 self.old.bank self.new.bank }
    {
        let kept = self.out_kept(number);
        let over = self.find_over(number, &kept);
        self.write_out_control(number, SNAK_EPDIS);
        self.clear_out_interrupts(number, all_in_interrupts());
        self.keep_out(number, OutEndpoint::shut(over));
    }

    fn find_over(&mut self, number: u8, kept: &OutEndpoint) -> bool
        requires known { number ≤ 3 }
        requires has { Has 1 self.old.bank }
        ensures value { result ≡ over_at (out_end self.old.bank.table number) kept.now }
        ensures joint { joint self.new ≡ joint self.old }
        ensures order { Goes (serving 0) (serving 0) self.old self.new }
        ensures spends { Spends 1 self.old.bank self.new.bank }
    {
        if kept.over {
            return true;
        }
        match kept.state {
            OutState::Armed => self.find_nak(number),
            OutState::Closed => false,
            OutState::Rest => false,
            OutState::Posted => false,
            OutState::Stale => false,
        }
    }

    fn find_nak(&mut self, number: u8) -> bool
        requires known { number ≤ 3 }
        requires has { Has 1 self.old.bank }
        ensures value { result ≡ reads_landed self.old.bank.table number }
        ensures joint { joint self.new ≡ joint self.old }
        ensures order { Goes (serving 0) (serving 0) self.old self.new }
        ensures spends { Spends 1 self.old.bank self.new.bank }
    {
        get_field(self.read(doepctl(number)), DOEPCTL_NAKSTS) == 1
    }

    /// A packet of so many bytes, whose first entry was popped: its words go to the ring, those of one that was dropped
    /// nowhere.
    pub(crate) fn take_pipe(&mut self, rings: &mut DevRings, number: u8, bytes: u8)
        requires from { 1 ≤ number }
        requires to { number ≤ 3 }
        requires few { bytes ≤ 64 }
        requires room { (out_kept self.old.software number).over ≡ false → length (out_ring rings.old number).bytes + bytes ≤ (out_ring rings.old number).capacity }
        requires ends { EndsAt number (value_read self.old.bank.table grxstsp) }
        requires has { Has 18 self.old.bank }
        ensures whole { whole self.new rings.new ≡ pipe_taken (whole self.old rings.old) number bytes }
        ensures order { Goes (serving 0) (serving 0) self.old self.new }
        ensures spends { Spends 18 self.old.bank self.new.bank }
    {
        let kept = self.out_kept(number);
        self.move_unless(rings, number, bytes, kept.over);
        self.end_packet(number);
        self.keep_out(number, moved(&kept));
    }

    fn move_unless(&mut self, rings: &mut DevRings, number: u8, bytes: u8, over: bool)
        requires few { bytes ≤ 64 }
        requires room { over ≡ false → length (out_ring rings.old number).bytes + bytes ≤ (out_ring rings.old number).capacity }
        requires has { Has 16 self.old.bank }
        ensures whole { whole self.new rings.new ≡ taken_unless over (whole self.old rings.old) number bytes }
        ensures software { self.new.software ≡ self.old.software }
        ensures order { Goes (serving 0) (serving 0) self.old self.new }
        ensures spends { Spends 16 self.old.bank self.new.bank }
    {
        if !over {
            self.move_words(rings, number, bytes);
        }
    }

    /// Four bytes a word, and of the last word as many as the packet has.
    #[tactic(auto, using(crate::proofs::Moves::moves))]
    fn move_words(&mut self, rings: &mut DevRings, number: u8, bytes: u8)
        requires few { bytes ≤ 64 }
        requires room { length (out_ring rings.old number).bytes + bytes ≤ (out_ring rings.old number).capacity }
        requires has { Has 16 self.old.bank }
        ensures joint { joint self.new ≡ with_table (joint self.old) (after_words (word_count bytes) self.old.bank.table) }
        ensures rings { rings.new ≡ with_out_ring rings.old number (appended (out_ring rings.old number) (bytes_read bytes self.old.bank.table)) }
        ensures order { Goes (serving 0) (serving 0) self.old self.new }
        ensures spends { Spends 16 self.old.bank self.new.bank }
    {
        let mut left = bytes;
        while left > 0 {
            let count = left.min(4);
            let word = self.read_fifo();
            rings.push_word(number, word, count);
            left -= count;
        }
    }

    /// The end of a packet is popped, which sets XFRC, and XFRC is cleared.
    pub(crate) fn end_packet(&mut self, number: u8)
        requires known { number ≤ 3 }
        requires ends { EndsAt number (value_read self.old.bank.table grxstsp) }
        requires has { Has 2 self.old.bank }
        ensures joint { joint self.new ≡ xfrc_cleared (end_popped (joint self.old)) number }
        ensures order { Goes (serving 0) (serving 0) self.old self.new }
        ensures spends { Spends 2 self.old.bank self.new.bank }
    {
        self.pop();
        self.clear_out_interrupts(number, xfrc());
    }
}
