//! IN endpoints other than 0: what the driver writes to them.
ghost use Rattle.std.specs.Prelude.{◌≡◌, ◌+◌, ◌≤◌, ◌<◌, [], Bool, true, false};
ghost use Rattle.usb_descriptor.specs.Set.{is_core};
ghost use Rattle.dwc2_regs.specs.Register.{diepctl, grstctl};
ghost use Rattle.device_table.specs.Write.{after_write};
ghost use Rattle.endpoint_relation.specs.InWords.{in_base, in_type, in_stall_bit, in_flush, in_cnak, in_snak_epena, in_snak_sd0pid};
ghost use Rattle.endpoint_relation.specs.InRelation.{in_unused, stalls};
ghost use Rattle.endpoint_relation.specs.InSteps.{control_with, in_at_rest, software_opened, software_halted};
ghost use Rattle.endpoint_relation.specs.InTable.{halted_at, stopped_at};
ghost use Rattle.device_relation.specs.Run.{with_table};
ghost use Rattle.dwc2_device.specs.Driver.{joint, Has, Spends};
ghost use Rattle.access_order.specs.Phase.{serving, at, fresh, sized, filling, answering, disabled};
ghost use Rattle.access_order.specs.Control.{Disables};
ghost use Rattle.dwc2_device.specs.Order.{loads, Goes};
ghost use Rattle.dwc2_device.specs.Writes.{opens_in, halts_in, clears_in, drops_in, closes_in};

use crate::DevPort;
use crate::words::{
    FLUSH, SNAK_EPDIS, SNAK_SD0PID, SNAK_SD0PID_EPDIS, STALL, USBAEP, all_in_interrupts,
};
use dwc2_access::Regs;
use dwc2_regs::GRSTCTL;
use endpoint_relation::{InEndpoint, InState};
use usb_descriptor::{Endpoint, EpKind, is_core};

fn stall_bit(stalls: bool) -> u32
    ensures { result ≡ in_stall_bit stalls }
{
    if stalls { STALL } else { 0 }
}

/// The transfer type of an endpoint: 2 is bulk, and 3 interrupt.
fn type_bits(kind: EpKind) -> u32
    ensures value { result ≡ in_type kind }
    ensures few { result ≤ 3 }
{
    match kind {
        EpKind::Bulk => 2,
        EpKind::Interrupt => 3,
    }
}

/// What each write of DIEPCTLx carries: size, USBAEP, type, the number of the FIFO and STALL.
fn base_word(number: u8, kept: &InEndpoint) -> u32
    requires known { number ≤ 3 }
    ensures value { result ≡ in_base number kept.now.endpoint (stalls kept.now) }
    ensures few { result < 0x100_0000 }
{
    let stalls = kept.halted && !is_core(kept.endpoint.owner);
    let open = kept.endpoint.size as u32 + USBAEP + 0x4_0000 * type_bits(kept.endpoint.kind);
    open + 0x40_0000 * number as u32 + stall_bit(stalls)
}

/// What is kept of an endpoint that is opened.
fn opened(ep: &Endpoint) -> InEndpoint
    ensures { result ≡ software_opened ep.now }
{
    let mut kept = InEndpoint::unused();
    kept.endpoint = *ep;
    kept.state = InState::Rest;
    kept
}

/// No transfer runs.
fn at_rest(state: InState) -> InState
    ensures { result ≡ in_at_rest state }
{
    match state {
        InState::Closed => InState::Closed,
        InState::Rest => InState::Rest,
        InState::Running => InState::Rest,
        InState::Posted => InState::Rest,
    }
}

impl<R: Regs + Drop> DevPort<R> {
    /// DIEPCTLx is written with these bits that act.
    pub(crate) fn write_in_base(&mut self, number: u8, kept: &InEndpoint, acts: u32)
        requires known { number ≤ 3 }
        requires few { acts ≤ 0xfe00_0000 }
        requires has { Has 1 self.old.bank }
        ensures joint { joint self.new ≡ with_table (joint self.old) (after_write self.old.bank.table (diepctl number) (control_with number kept.now acts)) }
        ensures enables { acts ≡ in_snak_epena → Goes (at number number (sized true)) (at number number (filling true)) self.old self.new }
        ensures answers { acts ≡ in_cnak → Goes (at number number (filling true)) (at number number answering) self.old self.new }
        ensures opens { acts ≡ in_snak_sd0pid → Goes (at 0 number (fresh false)) (at 0 number (fresh false)) self.old self.new }
        ensures stays { (b : Bool) → acts ≡ 0 → Goes (at 0 number (fresh b)) (at 0 number (fresh b)) self.old self.new }
        ensures spends { Spends 1 self.old.bank self.new.bank }
    {
        self.write_in_control(number, base_word(number, kept) + acts);
    }

    pub(crate) fn add_in(&mut self, ep: &Endpoint, number: u8)
        requires from { 1 ≤ number }
        requires to { number ≤ 3 }
        requires has { Has 1 self.old.bank }
        ensures joint { joint self.new ≡ opens_in (joint self.old) ep.now number }
        ensures order { loads self.old number ≡ false → Goes (serving 0) (serving 0) self.old self.new }
        ensures spends { Spends 1 self.old.bank self.new.bank }
    {
        let opened = opened(ep);
        self.write_in_base(number, &opened, SNAK_SD0PID);
        self.keep_in(number, opened);
    }

    /// A class's endpoint shows its halt by STALL, and the core's is halted in the software alone.
    pub(crate) fn halt_in(&mut self, number: u8)
        requires from { 1 ≤ number }
        requires to { number ≤ 3 }
        requires has { Has 1 self.old.bank }
        ensures joint { joint self.new ≡ halts_in (joint self.old) number }
        ensures order { Goes (serving 0) (serving 0) self.old self.new }
        ensures spends { Spends 1 self.old.bank self.new.bank }
    {
        let mut kept = self.in_kept(number);
        kept.halted = true;
        self.show_in_halt(number, &kept);
        self.keep_in(number, kept);
    }

    fn show_in_halt(&mut self, number: u8, kept: &InEndpoint)
        requires known { number ≤ 3 }
        requires has { Has 1 self.old.bank }
        ensures joint { joint self.new ≡ with_table (joint self.old) (halted_at (is_core kept.now.endpoint.owner) number kept.now self.old.bank.table) }
        ensures order { (b : Bool) → Goes (at 0 number (fresh b)) (at 0 number (fresh b)) self.old self.new }
        ensures spends { Spends 1 self.old.bank self.new.bank }
    {
        if is_core(kept.endpoint.owner) {
            return;
        }
        self.write_in_base(number, kept, 0);
    }

    /// What was loaded is dropped: DIEPCTLx with EPDIS, the endpoint's FIFO flushed, and XFRC and EPDISD cleared.
    fn stop_in(&mut self, number: u8, word: u32)
        requires known { number ≤ 3 }
        requires has { Has 3 self.old.bank }
        ensures joint { joint self.new ≡ with_table (joint self.old) (stopped_at number word self.old.bank.table) }
        ensures order { (b : Bool) → Disables word → Goes (at 0 number (fresh b)) (at 0 number (fresh false)) self.old self.new }
        ensures spends { Spends 3 self.old.bank self.new.bank }
    {
        self.write_in_control(number, word);
        self.flush_one(number);
        self.clear_in_interrupts(number, all_in_interrupts());
    }

    fn flush_one(&mut self, number: u8)
        requires known { number ≤ 3 }
        requires has { Has 1 self.old.bank }
        ensures joint { joint self.new ≡ with_table (joint self.old) (after_write self.old.bank.table grstctl (in_flush number)) }
        ensures order { Goes (at 0 number disabled) (at 0 number disabled) self.old self.new }
        ensures spends { Spends 1 self.old.bank self.new.bank }
    {
        self.write(GRSTCTL, FLUSH + 64 * number as u32);
    }

    pub(crate) fn clear_in(&mut self, number: u8)
        requires from { 1 ≤ number }
        requires to { number ≤ 3 }
        requires has { Has 3 self.old.bank }
        ensures joint { joint self.new ≡ clears_in (joint self.old) number }
        ensures order { Goes (serving 0) (serving 0) self.old self.new }
        ensures spends { Spends 3 self.old.bank self.new.bank }
    {
        let mut kept = self.in_kept(number);
        kept.state = at_rest(kept.state);
        kept.halted = false;
        kept.loaded = 0;
        self.stop_in(number, base_word(number, &kept) + SNAK_SD0PID_EPDIS);
        self.keep_in(number, kept);
    }

    pub(crate) fn drop_in(&mut self, number: u8)
        requires from { 1 ≤ number }
        requires to { number ≤ 3 }
        requires has { Has 3 self.old.bank }
        ensures joint { joint self.new ≡ drops_in (joint self.old) number }
        ensures order { Goes (serving 0) (serving 0) self.old self.new }
        ensures spends { Spends 3 self.old.bank self.new.bank }
    {
        let mut kept = self.in_kept(number);
        self.stop_in(number, base_word(number, &kept) + SNAK_EPDIS);
        kept.state = at_rest(kept.state);
        kept.loaded = 0;
        self.keep_in(number, kept);
    }

    pub(crate) fn close_in(&mut self, number: u8)
        requires from { 1 ≤ number }
        requires to { number ≤ 3 }
        requires has { Has 3 self.old.bank }
        ensures joint { joint self.new ≡ closes_in (joint self.old) number }
        ensures order { Goes (serving 0) (serving 0) self.old self.new }
        ensures spends { Spends 3 self.old.bank self.new.bank }
    {
        self.stop_in(number, SNAK_EPDIS);
        self.keep_in(number, InEndpoint::unused());
    }
}
