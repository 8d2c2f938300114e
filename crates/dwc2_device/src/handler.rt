//! The handler run.
ghost use Rattle.std.specs.Prelude.{◌≡◌, ℕ, ◌+◌, ◌*◌, ◌≤◌, ◌<◌, [], true, false, Some, None};
ghost use Rattle.dwc2_regs.specs.declared.access.TheConstants.{FS4};
ghost use Rattle.dwc2_regs.specs.declared.TheConstants.{GINTSTS_USBRST};
ghost use Rattle.dwc2_regs.specs.Register.{gintsts, diepint};
ghost use Rattle.device_table.specs.Read.{value_read};
ghost use Rattle.device_table.specs.Words.{flag};
ghost use Rattle.device_rings.specs.Capacities.{capacities_of};
ghost use Rattle.device_relation.specs.PipeRelation.{IsSound};
ghost use Rattle.device_relation.specs.Port.{port_of, after_handler};
ghost use Rattle.device_relation.specs.Run.{with_table, run, served_by, rest_served, sent_noted, sent_served, last_acknowledged, last_served, acknowledged, cleared_ack, in_pipes_served};
ghost use Rattle.device_relation.specs.declared.software.Ready.TheVariants.{Loaded, Last};
ghost use Rattle.dwc2_device.specs.Driver.{joint, whole, Wakes, Has, Spends};
ghost use Rattle.dwc2_device.specs.Standing.{IsStanding, InsStand};
ghost use Rattle.access_order.specs.Phase.{serving, acked, found, over};
ghost use Rattle.dwc2_device.specs.Order.{Goes};

use crate::DevPort;
use crate::words::xfrc;
use bitflags::Flags;
use device_machine::Stage;
use device_relation::Ready;
use device_rings::DevRings;
use dwc2_access::Regs;
use dwc2_regs::{CoreInterrupts, EndpointInterrupts, GINTSTS, diepint};

impl<R: Regs + Drop> DevPort<R> {
    /// One handler run. It serves a reset, and wakes with its last access; or notes a stage that finished, sets the address
    /// where that was to bring one, and else takes what came, loads the packet that waits, and serves the other endpoints: their
    /// packets go to the rings, and come from them.
    pub fn run_handler(&mut self, rings: &mut DevRings)
        requires sound { IsSound FS4 (joint self.old) rings.old }
        requires has { Has 400 self.old.bank }
        ensures port { port_of (joint self.new) rings.new ≡ after_handler (port_of (joint self.old) rings.old) }
        ensures capacities { capacities_of rings.new ≡ capacities_of rings.old }
        ensures wakes { (port_of (joint self.old) rings.old).bus.reset ≡ true → Wakes self.new.bank }
        ensures sound { IsSound FS4 (joint self.new) rings.new }
        ensures order { Goes (serving 0) over self.old self.new }
        ensures spends { Spends 300 self.old.bank self.new.bank }
    {
        self.handle(rings);
    }

    #[tactic(auto, using(crate::proofs::Arrivals::sound_stands))]
    fn handle(&mut self, rings: &mut DevRings)
        requires sound { IsSound FS4 (joint self.old) rings.old }
        requires has { Has 300 self.old.bank }
        ensures whole { whole self.new rings.new ≡ run FS4 (whole self.old rings.old) }
        ensures wakes { flag (value_read self.old.bank.table gintsts) GINTSTS_USBRST ≡ true → Wakes self.new.bank }
        ensures order { Goes (serving 0) over self.old self.new }
        ensures spends { Spends 300 self.old.bank self.new.bank }
    {
        if self.find_reset() {
            self.serve_reset();
            rings.clear_all();
        } else {
            self.serve(rings);
        }
    }

    #[tactic(auto, using(dwc2_regs::proofs::SetLemmas::interrupt_bits))]
    fn find_reset(&mut self) -> bool
        requires has { Has 1 self.old.bank }
        ensures value { result ≡ flag (value_read self.old.bank.table gintsts) GINTSTS_USBRST }
        ensures joint { joint self.new ≡ joint self.old }
        ensures found { flag (value_read self.old.bank.table gintsts) GINTSTS_USBRST ≡ true → Goes (serving 0) (λ _. found) self.old self.new }
        ensures none { flag (value_read self.old.bank.table gintsts) GINTSTS_USBRST ≡ false → Goes (serving 0) (serving 0) self.old self.new }
        ensures spends { Spends 1 self.old.bank self.new.bank }
    {
        CoreInterrupts::from_bits_retain(self.read(GINTSTS)).contains(CoreInterrupts::USBRST)
    }

    /// A run that finds no reset.
    fn serve(&mut self, rings: &mut DevRings)
        requires standing { IsStanding (whole self.old rings.old) }
        requires has { Has 270 self.old.bank }
        ensures whole { whole self.new rings.new ≡ served_by FS4 (whole self.old rings.old) self.old.software.side }
        ensures order { Goes (serving 0) over self.old self.new }
        ensures spends { Spends 270 self.old.bank self.new.bank }
    {
        match self.side {
            Ready::Loaded => self.serve_loaded(rings),
            Ready::Last => self.serve_last(rings),
            Ready::Off => self.serve_rest(rings),
            Ready::Wait { .. } => self.serve_rest(rings),
            Ready::Armed => self.serve_rest(rings),
            Ready::Stall => self.serve_rest(rings),
        }
    }

    /// Takes what came, loads the packet that waits, and serves the other IN endpoints: at most 133 accesses, 22, and three
    /// times 37.
    fn serve_rest(&mut self, rings: &mut DevRings)
        requires standing { IsStanding (whole self.old rings.old) }
        requires has { Has 266 self.old.bank }
        ensures whole { whole self.new rings.new ≡ rest_served FS4 (whole self.old rings.old) }
        ensures order { Goes (serving 0) over self.old self.new }
        ensures spends { Spends 266 self.old.bank self.new.bank }
    {
        self.take_arrivals(rings);
        self.load_waiting();
        self.serve_ins(rings);
    }

    #[tactic(auto, unfolding(device_relation::specs::Run::in_pipes_served), using(crate::proofs::Ordered::four_over, crate::proofs::Loaded::next_stands, crate::proofs::Loaded::last_stands, crate::proofs::Loaded::ends_kept))]
    fn serve_ins(&mut self, rings: &mut DevRings)
        requires stand { InsStand (whole self.old rings.old) }
        requires has { Has 111 self.old.bank }
        ensures whole { whole self.new rings.new ≡ in_pipes_served 3 1 (whole self.old rings.old) }
        ensures order { Goes (serving 1) over self.old self.new }
        ensures spends { Spends 111 self.old.bank self.new.bank }
    {
        self.serve_in(rings, 1);
        self.serve_in(rings, 2);
        self.serve_in(rings, 3);
    }

    #[tactic(auto, using(dwc2_regs::proofs::SetLemmas::interrupt_bits))]
    fn find_ack(&mut self) -> bool
        requires has { Has 1 self.old.bank }
        ensures value { result ≡ acknowledged (joint self.old) }
        ensures joint { joint self.new ≡ joint self.old }
        ensures found { acknowledged (joint self.old) ≡ true → Goes (serving 0) acked self.old self.new }
        ensures none { Goes (serving 0) (serving 0) self.old self.new }
        ensures spends { Spends 1 self.old.bank self.new.bank }
    {
        let interrupts = EndpointInterrupts::from_bits_retain(self.read(diepint(0)));
        interrupts.contains(EndpointInterrupts::XFRC)
    }

    /// A packet was loaded: where the host acknowledged it, that stage is finished.
    fn serve_loaded(&mut self, rings: &mut DevRings)
        requires standing { IsStanding (whole self.old rings.old) }
        requires side { self.old.software.side ≡ Loaded }
        requires has { Has 270 self.old.bank }
        ensures whole { whole self.new rings.new ≡ served_by FS4 (whole self.old rings.old) Loaded }
        ensures order { Goes (serving 0) over self.old self.new }
        ensures spends { Spends 270 self.old.bank self.new.bank }
    {
        if self.find_ack() {
            self.serve_sent(rings);
        } else {
            self.serve_rest(rings);
        }
    }

    /// It was acknowledged. Where the device gets a new address by that, nothing else is served (USB 2.0, 9.4.6).
    #[tactic(auto, using(crate::proofs::Ordered::zero_over))]
    fn serve_sent(&mut self, rings: &mut DevRings)
        requires standing { IsStanding (whole self.old rings.old) }
        requires side { self.old.software.side ≡ Loaded }
        requires found { acknowledged (joint self.old) ≡ true }
        requires has { Has 269 self.old.bank }
        ensures whole { whole self.new rings.new ≡ sent_served FS4 (whole self.old rings.old) self.old.software.next_address }
        ensures order { Goes acked over self.old self.new }
        ensures spends { Spends 269 self.old.bank self.new.bank }
    {
        self.note_sent();
        match self.next_address {
            Some(address) => {
                self.write_dcfg(16 * address as u32);
                self.next_address = None;
            }
            None => self.serve_rest(rings),
        }
    }

    fn note_sent(&mut self)
        requires has { Has 1 self.old.bank }
        ensures joint { joint self.new ≡ sent_noted (joint self.old) }
        ensures order { Goes acked (serving 0) self.old self.new }
        ensures spends { Spends 1 self.old.bank self.new.bank }
    {
        self.clear_in_interrupts(0, xfrc());
        self.side = Ready::Off;
        self.finished = Some(Stage::Sent);
    }

    /// The last packet of data was loaded. Where it was acknowledged, the status stage alone stays armed.
    fn serve_last(&mut self, rings: &mut DevRings)
        requires standing { IsStanding (whole self.old rings.old) }
        requires side { self.old.software.side ≡ Last }
        requires has { Has 270 self.old.bank }
        ensures whole { whole self.new rings.new ≡ served_by FS4 (whole self.old rings.old) Last }
        ensures order { Goes (serving 0) over self.old self.new }
        ensures spends { Spends 270 self.old.bank self.new.bank }
    {
        if self.find_ack() {
            self.serve_last_sent(rings);
        } else {
            self.serve_rest(rings);
        }
    }

    fn serve_last_sent(&mut self, rings: &mut DevRings)
        requires standing { IsStanding (whole self.old rings.old) }
        requires side { self.old.software.side ≡ Last }
        requires found { acknowledged (joint self.old) ≡ true }
        requires has { Has 269 self.old.bank }
        ensures whole { whole self.new rings.new ≡ last_served FS4 (whole self.old rings.old) }
        ensures order { Goes acked over self.old self.new }
        ensures spends { Spends 269 self.old.bank self.new.bank }
    {
        self.note_last();
        self.serve_rest(rings);
    }

    fn note_last(&mut self)
        requires has { Has 1 self.old.bank }
        ensures joint { joint self.new ≡ last_acknowledged (joint self.old) }
        ensures order { Goes acked (serving 0) self.old self.new }
        ensures spends { Spends 1 self.old.bank self.new.bank }
    {
        self.clear_in_interrupts(0, xfrc());
        self.side = Ready::Armed;
    }
}
