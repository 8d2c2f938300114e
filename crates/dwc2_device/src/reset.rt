//! A bus reset, served.
ghost use Rattle.std.specs.Prelude.{◌≡◌, ◌+◌, ◌*◌, ◌≤◌, [], true};
ghost use Rattle.dwc2_regs.specs.declared.access.TheConstants.{FS4};
ghost use Rattle.dwc2_regs.specs.Register.{dcfg, grstctl, gintsts};
ghost use Rattle.device_table.specs.Write.{after_write};
ghost use Rattle.device_relation.specs.Software.{unused};
ghost use Rattle.device_relation.specs.Run.{with_table, pipe_closed, pipes_closed, others_closed, interrupts_cleared, all_cleared, popped_all, reset_served, flush_all, reset_bits};
ghost use Rattle.dwc2_device.specs.Driver.{joint, Wakes, Has, Spends};
ghost use Rattle.access_order.specs.Phase.{Keeps, serving, found, closing, clearing, over};
ghost use Rattle.dwc2_device.specs.Order.{loaded_in, Goes};

use crate::DevPort;
use crate::port::{no_ins, no_outs};
use crate::receive::MOST_ENTRIES;
use crate::words::{FLUSH_ALL, SNAK_EPDIS, all_in_interrupts, all_out_interrupts, reset_bits};
use device_relation::{Heard, Ready};
use dwc2_access::Regs;
use dwc2_regs::{DCFG, GINTSTS, GRSTCTL};

impl<R: Regs + Drop> DevPort<R> {
    /// All endpoints are closed and all FIFOs emptied before the bits of the reset are cleared, which wakes the device.
    pub(crate) fn serve_reset(&mut self)
        requires has { Has 33 self.old.bank }
        ensures joint { joint self.new ≡ record { table = reset_served FS4 self.old.bank.table; software = unused FS4 true } }
        ensures wakes { Wakes self.new.bank }
        ensures order { Goes (λ _. found) over self.old self.new }
        ensures spends { Spends 33 self.old.bank self.new.bank }
    {
        self.write_dcfg(0);
        self.close_pipes();
        self.flush_all();
        self.pop_all();
        self.clear_all();
        self.end_reset();
        self.forget();
    }

    fn forget(&mut self)
        ensures { self.new ≡ record self.old { software = unused FS4 true } }
    {
        self.side = Ready::Off;
        self.heard = Heard::Nothing;
        self.next_address = None;
        self.outs = no_outs();
        self.ins = no_ins();
        self.reset = true;
        self.finished = None;
        self.request = None;
    }

    pub(crate) fn write_dcfg(&mut self, word: u32)
        requires has { Has 1 self.old.bank }
        ensures joint { joint self.new ≡ with_table (joint self.old) (after_write self.old.bank.table dcfg word) }
        ensures order { Goes (serving 0) (serving 0) self.old self.new }
        ensures found { Keeps found found self.old.bank.log self.new.bank.log }
        ensures spends { Spends 1 self.old.bank self.new.bank }
    {
        self.write(DCFG, word);
    }

    fn flush_all(&mut self)
        requires has { Has 1 self.old.bank }
        ensures joint { joint self.new ≡ with_table (joint self.old) (after_write self.old.bank.table grstctl flush_all) }
        ensures order { Keeps (closing 4) (closing 4) self.old.bank.log self.new.bank.log }
        ensures spends { Spends 1 self.old.bank self.new.bank }
    {
        self.write(GRSTCTL, FLUSH_ALL);
    }

    #[tactic(auto, using(crate::proofs::Goes::wakes_last))]
    fn end_reset(&mut self)
        requires has { Has 1 self.old.bank }
        ensures joint { joint self.new ≡ with_table (joint self.old) (after_write self.old.bank.table gintsts reset_bits) }
        ensures wakes { Wakes self.new.bank }
        ensures order { Keeps (clearing 4) (over (loaded_in (unused FS4 true).ins)) self.old.bank.log self.new.bank.log }
        ensures spends { Spends 1 self.old.bank self.new.bank }
    {
        self.write(GINTSTS, reset_bits());
    }

    /// Both directions of one endpoint answer NAK and are disabled and closed.
    fn close_pipe(&mut self, x: u8)
        requires known { x ≤ 3 }
        requires has { Has 2 self.old.bank }
        ensures joint { joint self.new ≡ with_table (joint self.old) (pipe_closed self.old.bank.table x) }
        ensures order { Keeps (closing x) (closing (x + 1)) self.old.bank.log self.new.bank.log }
        ensures spends { Spends 2 self.old.bank self.new.bank }
    {
        self.write_in_control(x, SNAK_EPDIS);
        self.write_out_control(x, SNAK_EPDIS);
    }

    #[tactic(auto, unfolding(device_relation::specs::Run::pipes_closed), using(access_order::proofs::Leads::found_closing))]
    fn close_pipes(&mut self)
        requires has { Has 8 self.old.bank }
        ensures joint { joint self.new ≡ with_table (joint self.old) (pipes_closed FS4 self.old.bank.table) }
        ensures order { Keeps found (closing 4) self.old.bank.log self.new.bank.log }
        ensures spends { Spends 8 self.old.bank self.new.bank }
    {
        self.close_pipe(0);
        self.close_others();
    }

    /// All endpoints but endpoint 0.
    fn close_others(&mut self)
        requires has { Has 6 self.old.bank }
        ensures joint { joint self.new ≡ with_table (joint self.old) (others_closed FS4 self.old.bank.table) }
        ensures order { Keeps (closing 1) (closing 4) self.old.bank.log self.new.bank.log }
        ensures spends { Spends 6 self.old.bank self.new.bank }
    {
        self.close_pipe(1);
        self.close_pipe(2);
        self.close_pipe(3);
    }

    fn clear_interrupts(&mut self, x: u8)
        requires known { x ≤ 3 }
        requires has { Has 2 self.old.bank }
        ensures joint { joint self.new ≡ with_table (joint self.old) (interrupts_cleared self.old.bank.table x) }
        ensures order { Keeps (clearing x) (clearing (x + 1)) self.old.bank.log self.new.bank.log }
        ensures spends { Spends 2 self.old.bank self.new.bank }
    {
        self.clear_in_interrupts(x, all_in_interrupts());
        self.clear_out_interrupts(x, all_out_interrupts());
    }

    #[tactic(auto, unfolding(device_relation::specs::Run::all_cleared), using(access_order::proofs::Leads::closing_clearing))]
    fn clear_all(&mut self)
        requires has { Has 8 self.old.bank }
        ensures joint { joint self.new ≡ with_table (joint self.old) (all_cleared FS4 self.old.bank.table) }
        ensures order { Keeps (closing 4) (clearing 4) self.old.bank.log self.new.bank.log }
        ensures spends { Spends 8 self.old.bank self.new.bank }
    {
        self.clear_interrupts(0);
        self.clear_interrupts(1);
        self.clear_interrupts(2);
        self.clear_interrupts(3);
    }

    /// The receive FIFO is popped, and no word read.
    #[tactic(auto, using(crate::proofs::Loops::steps))]
    fn pop_all(&mut self)
        requires has { Has 14 self.old.bank }
        ensures joint { joint self.new ≡ with_table (joint self.old) (popped_all 14 self.old.bank.table) }
        ensures order { Keeps (closing 4) (closing 4) self.old.bank.log self.new.bank.log }
        ensures spends { Spends 14 self.old.bank self.new.bank }
    {
        for _ in 0..MOST_ENTRIES {
            if self.pop() == 0 {
                return;
            }
        }
    }
}
