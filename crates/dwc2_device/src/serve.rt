//! IN endpoints other than 0 in a handler run: packets are loaded from the ring, and those that were acknowledged are found.
ghost use Rattle.std.specs.Prelude.{◌≡◌, ◌+◌, ◌-◌, ◌*◌, ◌≤◌, ◌<◌, [], true, false, length, min};
ghost use Rattle.dwc2_regs.specs.declared.TheConstants.{DIEPINT_XFRC};
ghost use Rattle.dwc2_regs.specs.Register.{dieptsiz, diepint, fifo};
ghost use Rattle.dwc2_fifo.specs.Words.{words_of};
ghost use Rattle.device_table.specs.State.{in_end};
ghost use Rattle.device_table.specs.Words.{flag};
ghost use Rattle.device_table.specs.Read.{value_read};
ghost use Rattle.device_table.specs.Write.{after_write};
ghost use Rattle.device_pipe.specs.InPipe.{most_loaded};
ghost use Rattle.device_rings.specs.Rings.{in_ring, with_in_ring};
ghost use Rattle.endpoint_relation.specs.declared.in_.InState.TheVariants.{Running};
ghost use Rattle.endpoint_relation.specs.InWords.{in_size_word};
ghost use Rattle.endpoint_relation.specs.InRelation.{InStands, IsTransfer};
ghost use Rattle.endpoint_relation.specs.InPackets.{bytes_at, packet_at, placed_packets};
ghost use Rattle.endpoint_relation.specs.InSteps.{found_software, next_packets, shows_xfrc};
ghost use Rattle.endpoint_relation.specs.InTable.{words_at, packets_at, loaded_at, goes_on_at, run_at, served_at};
ghost use Rattle.device_relation.specs.Software.{in_kept, with_in_kept};
ghost use Rattle.device_relation.specs.Run.{with_table, in_joint_of, in_pipe_served};
ghost use Rattle.dwc2_device.specs.Driver.{joint, whole, Has, Spends};
ghost use Rattle.access_order.specs.Phase.{serving, at, fresh, sized, filling, answering, disabled, fits};
ghost use Rattle.dwc2_device.specs.Order.{is_loaded, Goes};
ghost use Rattle.dwc2_device.specs.Serves.{kept_on, bytes_on, kept_run, bytes_run, kept_served, bytes_served};

use crate::DevPort;
use crate::words::{CNAK, SNAK_EPENA, xfrc};
use bitflags::Flags;
use device_rings::DevRings;
use dwc2_access::Regs;
use dwc2_regs::{EndpointInterrupts, diepint, dieptsiz, fifo_window};
use endpoint_relation::{InEndpoint, InState};

/// DIEPTSIZx: where the count of packets stands.
const COUNT: u32 = 1 << 19;

/// The most packets that are loaded at once.
const MOST_LOADED: u16 = 2;

/// All that was loaded is acknowledged.
#[tactic(auto, using(crate::proofs::Loaded::product_few))]
fn found(kept: &InEndpoint) -> InEndpoint
    requires few { kept.now.loaded ≤ kept.now.left }
    requires two { kept.now.loaded ≤ 2 }
    requires size { kept.now.endpoint.size ≤ 64 }
    ensures { result ≡ found_software kept.now }
{
    let more = kept.loaded as u32 * kept.endpoint.size as u32;
    let sent = (kept.bytes as u32).min(kept.sent as u32 + more) as u16;
    InEndpoint {
        endpoint: kept.endpoint,
        state: kept.state,
        halted: kept.halted,
        bytes: kept.bytes,
        sent,
        left: kept.left - kept.loaded as u16,
        loaded: 0,
    }
}

impl<R: Regs + Drop> DevPort<R> {
    /// So many bytes of the ring from a place on go into the endpoint's FIFO, four a word.
    #[tactic(auto, using(crate::proofs::Loaded::words))]
    fn load_words(&mut self, rings: &DevRings, number: u8, place: u16, bytes: u16)
        requires known { number ≤ 3 }
        requires few { bytes ≤ 64 }
        requires there { place + bytes ≤ length (in_ring rings.now number).bytes }
        requires inside { place + bytes < 65536 }
        requires has { Has 16 self.old.bank }
        ensures joint { joint self.new ≡ with_table (joint self.old) (words_at number self.old.bank.table (words_of (bytes_at (in_ring rings.now number).bytes place bytes))) }
        ensures order { Goes (at number number (filling true)) (at number number (filling true)) self.old self.new }
        ensures spends { Spends 16 self.old.bank self.new.bank }
    {
        let mut at = place;
        let mut left = bytes;
        while left > 0 {
            let count = left.min(4);
            self.write_fifo(number, rings.peek_word(number, at, count as u8));
            at += count;
            left -= count;
        }
    }

    fn write_fifo(&mut self, number: u8, word: u32)
        requires known { number ≤ 3 }
        requires has { Has 1 self.old.bank }
        ensures joint { joint self.new ≡ with_table (joint self.old) (after_write self.old.bank.table (fifo number) word) }
        ensures order { Goes (at number number (filling true)) (at number number (filling true)) self.old self.new }
        ensures spends { Spends 1 self.old.bank self.new.bank }
    {
        self.write(fifo_window(number), word);
    }

    /// The packet behind those that were acknowledged.
    #[tactic(auto, using(crate::proofs::Loaded::first_at, crate::proofs::Loaded::transfer))]
    fn load_first(&mut self, rings: &DevRings, number: u8, kept: &InEndpoint)
        requires known { number ≤ 3 }
        requires transfer { IsTransfer kept.now (in_ring rings.now number).bytes }
        requires has { Has 16 self.old.bank }
        ensures joint { joint self.new ≡ with_table (joint self.old) (words_at number self.old.bank.table (words_of (packet_at kept.now (in_ring rings.now number).bytes 0))) }
        ensures order { Goes (at number number (filling true)) (at number number (filling true)) self.old self.new }
        ensures spends { Spends 16 self.old.bank self.new.bank }
    {
        let bytes = (kept.bytes - kept.sent).min(kept.endpoint.size as u16);
        self.load_words(rings, number, kept.sent, bytes);
    }

    /// The one behind that.
    #[tactic(auto, using(crate::proofs::Loaded::second_at, crate::proofs::Loaded::transfer))]
    fn load_second(&mut self, rings: &DevRings, number: u8, kept: &InEndpoint)
        requires known { number ≤ 3 }
        requires transfer { IsTransfer kept.now (in_ring rings.now number).bytes }
        requires has { Has 16 self.old.bank }
        ensures joint { joint self.new ≡ with_table (joint self.old) (words_at number self.old.bank.table (words_of (packet_at kept.now (in_ring rings.now number).bytes 1))) }
        ensures order { Goes (at number number (filling true)) (at number number (filling true)) self.old self.new }
        ensures spends { Spends 16 self.old.bank self.new.bank }
    {
        let size = kept.endpoint.size as u16;
        let left = kept.bytes - kept.sent;
        let first = left.min(size);
        self.load_words(rings, number, kept.sent + first, (left - first).min(size));
    }

    #[tactic(auto, using(crate::proofs::Loaded::placed_one, crate::proofs::Loaded::placed_two))]
    fn load_packets(&mut self, rings: &DevRings, number: u8, kept: &InEndpoint)
        requires known { number ≤ 3 }
        requires transfer { IsTransfer kept.now (in_ring rings.now number).bytes }
        requires some { 1 ≤ kept.now.left }
        requires has { Has 32 self.old.bank }
        ensures joint { joint self.new ≡ with_table (joint self.old) (packets_at number self.old.bank.table (placed_packets kept.now.left kept.now (in_ring rings.now number).bytes)) }
        ensures order { Goes (at number number (filling true)) (at number number (filling true)) self.old self.new }
        ensures spends { Spends 32 self.old.bank self.new.bank }
    {
        self.load_first(rings, number, kept);
        if kept.left >= MOST_LOADED {
            self.load_second(rings, number, kept);
        }
    }

    /// How many packets are loaded, and how many bytes they have.
    #[tactic(auto, using(crate::proofs::Loaded::product_few))]
    fn write_in_size(&mut self, number: u8, kept: &InEndpoint)
        requires known { number ≤ 3 }
        requires sent { kept.now.sent ≤ kept.now.bytes }
        requires size { kept.now.endpoint.size ≤ 64 }
        requires has { Has 1 self.old.bank }
        ensures joint { joint self.new ≡ with_table (joint self.old) (after_write self.old.bank.table (dieptsiz number) (in_size_word (min most_loaded kept.now.left) (min (min most_loaded kept.now.left * kept.now.endpoint.size) (kept.now.bytes - kept.now.sent)))) }
        ensures order { Goes (at number number (fresh false)) (at number number (sized true)) self.old self.new }
        ensures spends { Spends 1 self.old.bank self.new.bank }
    {
        let count = MOST_LOADED.min(kept.left);
        let bytes = (count * kept.endpoint.size as u16).min(kept.bytes - kept.sent);
        self.write(dieptsiz(number), COUNT * count as u32 + bytes as u32);
    }

    /// The next two packets are loaded, or the last one: their size, SNAK and EPENA, their words, and then CNAK.
    #[tactic(auto, using(crate::proofs::Loaded::transfer))]
    fn load_next(&mut self, rings: &DevRings, number: u8, kept: &InEndpoint)
        requires known { number ≤ 3 }
        requires transfer { IsTransfer kept.now (in_ring rings.now number).bytes }
        requires some { 1 ≤ kept.now.left }
        requires has { Has 35 self.old.bank }
        ensures joint { joint self.new ≡ with_table (joint self.old) (loaded_at number kept.now (next_packets kept.now (in_ring rings.now number).bytes) self.old.bank.table) }
        ensures order { Goes (at number number (fresh false)) (at number number answering) self.old self.new }
        ensures spends { Spends 35 self.old.bank self.new.bank }
    {
        self.write_in_size(number, kept);
        self.write_in_base(number, kept, SNAK_EPENA);
        self.load_packets(rings, number, kept);
        self.write_in_base(number, kept, CNAK);
    }

    /// The next packets are loaded; where none is left the transfer ends, and its bytes leave the ring.
    #[tactic(auto, using(crate::proofs::Loaded::somes, crate::proofs::Loaded::transfer))]
    fn go_on(&mut self, rings: &mut DevRings, number: u8, kept: &InEndpoint) -> InEndpoint
        requires from { 1 ≤ number }
        requires to { number ≤ 3 }
        requires transfer { IsTransfer kept.now (in_ring rings.old number).bytes }
        requires running { kept.now.state ≡ Running }
        requires none { kept.now.loaded ≡ 0 }
        requires has { Has 35 self.old.bank }
        ensures value { result ≡ kept_on kept.now.left kept.now }
        ensures joint { joint self.new ≡ with_table (joint self.old) (goes_on_at kept.now.left number kept.now (in_ring rings.old number).bytes self.old.bank.table) }
        ensures rings { rings.new ≡ with_in_ring rings.old number (record (in_ring rings.old number) { bytes = bytes_on kept.now.left kept.now (in_ring rings.old number).bytes }) }
        ensures order { Goes (at number number (fresh false)) (at number number (fits (is_loaded result))) self.old self.new }
        ensures spends { Spends 35 self.old.bank self.new.bank }
    {
        let mut after = *kept;
        if kept.left == 0 {
            rings.commit(number, kept.bytes);
            after.state = InState::Posted;
            return after;
        }
        self.load_next(rings, number, kept);
        after.loaded = MOST_LOADED.min(kept.left) as u8;
        after
    }

    #[tactic(auto, using(dwc2_regs::proofs::SetLemmas::interrupt_bits))]
    fn find_in_ack(&mut self, number: u8) -> bool
        requires known { number ≤ 3 }
        requires has { Has 1 self.old.bank }
        ensures value { result ≡ flag (value_read self.old.bank.table (diepint number)) DIEPINT_XFRC }
        ensures joint { joint self.new ≡ joint self.old }
        ensures found { flag (value_read self.old.bank.table (diepint number)) DIEPINT_XFRC ≡ true → Goes (at number number (fresh true)) (at number number disabled) self.old self.new }
        ensures none { Goes (at number number (fresh true)) (at number number (fresh true)) self.old self.new }
        ensures spends { Spends 1 self.old.bank self.new.bank }
    {
        let interrupts = EndpointInterrupts::from_bits_retain(self.read(diepint(number)));
        interrupts.contains(EndpointInterrupts::XFRC)
    }

    /// Where packets are loaded, DIEPINTx tells whether all of them were acknowledged. XFRC is cleared before the next are loaded.
    #[tactic(auto, using(crate::proofs::Loaded::somes, crate::proofs::Loaded::transfer, crate::proofs::Loaded::found_some))]
    fn serve_transfer(&mut self, rings: &mut DevRings, number: u8, kept: &InEndpoint) -> InEndpoint
        requires from { 1 ≤ number }
        requires to { number ≤ 3 }
        requires transfer { IsTransfer kept.now (in_ring rings.old number).bytes }
        requires running { kept.now.state ≡ Running }
        requires has { Has 37 self.old.bank }
        ensures value { result ≡ kept_run kept.now.loaded (flag (value_read self.old.bank.table (diepint number)) DIEPINT_XFRC) kept.now }
        ensures joint { joint self.new ≡ with_table (joint self.old) (run_at kept.now.loaded number kept.now (in_ring rings.old number).bytes self.old.bank.table) }
        ensures rings { rings.new ≡ with_in_ring rings.old number (record (in_ring rings.old number) { bytes = bytes_run kept.now.loaded (flag (value_read self.old.bank.table (diepint number)) DIEPINT_XFRC) kept.now (in_ring rings.old number).bytes }) }
        ensures order { Goes (at number number (fresh (is_loaded kept.now))) (at number number (fits (is_loaded result))) self.old self.new }
        ensures spends { Spends 37 self.old.bank self.new.bank }
    {
        if kept.loaded == 0 {
            return self.go_on(rings, number, kept);
        }
        if !self.find_in_ack(number) {
            return *kept;
        }
        let found = found(kept);
        self.clear_in_interrupts(number, xfrc());
        self.go_on(rings, number, &found)
    }

    #[tactic(auto, using(crate::proofs::Loaded::same_ring))]
    fn serve_kept(&mut self, rings: &mut DevRings, number: u8, kept: &InEndpoint) -> InEndpoint
        requires from { 1 ≤ number }
        requires to { number ≤ 3 }
        requires transfer { kept.now.state ≡ Running → IsTransfer kept.now (in_ring rings.old number).bytes }
        requires has { Has 37 self.old.bank }
        ensures value { result ≡ kept_served kept.now.state (flag (value_read self.old.bank.table (diepint number)) DIEPINT_XFRC) kept.now }
        ensures joint { joint self.new ≡ with_table (joint self.old) (served_at kept.now.state number kept.now (in_ring rings.old number).bytes self.old.bank.table) }
        ensures rings { rings.new ≡ with_in_ring rings.old number (record (in_ring rings.old number) { bytes = bytes_served kept.now.state (flag (value_read self.old.bank.table (diepint number)) DIEPINT_XFRC) kept.now (in_ring rings.old number).bytes }) }
        ensures order { Goes (at number number (fresh (is_loaded kept.now))) (at number number (fits (is_loaded result))) self.old self.new }
        ensures spends { Spends 37 self.old.bank self.new.bank }
    {
        match kept.state {
            InState::Running => self.serve_transfer(rings, number, kept),
            InState::Closed => *kept,
            InState::Rest => *kept,
            InState::Posted => *kept,
        }
    }

    /// The IN endpoint of a number in a handler run.
    #[tactic(auto, using(crate::proofs::Loaded::is_transfer, crate::proofs::Loaded::served_is))]
    pub(crate) fn serve_in(&mut self, rings: &mut DevRings, number: u8)
        requires from { 1 ≤ number }
        requires to { number ≤ 3 }
        requires stands { InStands number (in_joint_of (whole self.old rings.old) number) }
        requires ends { length self.old.bank.table.ins ≡ 3 }
        requires has { Has 37 self.old.bank }
        ensures whole { whole self.new rings.new ≡ in_pipe_served (whole self.old rings.old) number }
        ensures order { Goes (serving number) (serving (number + 1)) self.old self.new }
        ensures spends { Spends 37 self.old.bank self.new.bank }
    {
        let kept = self.in_kept(number);
        let after = self.serve_kept(rings, number, &kept);
        self.keep_in(number, after);
    }
}
