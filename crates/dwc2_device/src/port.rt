ghost use Rattle.std.specs.Prelude.{◌≡◌, ◌+◌, ◌≤◌, [], ◌∷◌, ◌++◌, true, false};
ghost use Rattle.std.specs.Borrow.{Lends, sem};
ghost use Rattle.dwc2_access.specs.Registers.{IsRegister};
ghost use Rattle.dwc2_regs.specs.declared.access.TheConstants.{FS4};
ghost use Rattle.device_table.specs.Bank.{bank_read, bank_write};
ghost use Rattle.device_table.specs.Read.{read_value, read_table};
ghost use Rattle.device_table.specs.Write.{write_table, after_write};
ghost use Rattle.dwc2_regs.specs.Register.{offset_of, diepctl, diepint, doepctl, doepint};
ghost use Rattle.device_relation.specs.Software.{unused, out_kept, in_kept, with_out_kept, with_in_kept};
ghost use Rattle.device_relation.specs.Run.{with_table};
ghost use Rattle.dwc2_device.specs.Driver.{joint, Has, Spends};

use device_machine::Stage;
use device_relation::{Heard, Ready};
use dwc2_access::Regs;
use dwc2_regs::{Profile, diepctl, diepint, doepctl, doepint};
use endpoint_relation::{InEndpoint, OutEndpoint};
use std::marker::Model;

/// The driver of a device's controller. A clause sees it as the controller and what the driver keeps.
#[derive(Drop)]
pub struct DevPort<R: Regs> {
    pub(crate) regs: R,
    pub(crate) side: Ready,
    pub(crate) heard: Heard,
    pub(crate) next_address: Option<u8>,
    pub(crate) outs: [OutEndpoint; 3],
    pub(crate) ins: [InEndpoint; 3],
    pub(crate) reset: bool,
    pub(crate) finished: Option<Stage>,
    pub(crate) request: Option<[u8; 8]>,
}

impl<R: Regs> Model for DevPort<R> {
    ghost use Rattle.dwc2_device.specs.Driver.{Driver};

    ghost Value = { Driver };

    ghost view = { λ p. record { bank = R.bank p.regs; software = record { side = p.side; heard = p.heard; next_address = p.next_address; outs = p.outs; ins = p.ins; reset = p.reset; finished = p.finished; request = p.request } } };
}

/// What is kept where no endpoint is open.
pub(crate) fn no_outs() -> [OutEndpoint; 3]
    ensures { result ≡ (unused FS4 false).outs }
{
    let unused = OutEndpoint::unused();
    [unused, unused, unused]
}

pub(crate) fn no_ins() -> [InEndpoint; 3]
    ensures { result ≡ (unused FS4 false).ins }
{
    let unused = InEndpoint::unused();
    [unused, unused, unused]
}

/// The place of a number among those of its direction.
fn place(number: u8) -> usize
    requires { 1 ≤ number }
    ensures { result + 1 ≡ number }
{
    (number - 1) as usize
}

impl<R: Regs + Drop> DevPort<R> {
    ghost use Rattle.dwc2_device.specs.contracts.port.DevPort.{the_row};

    /// A driver of this controller, which has to be an `FS4` at its start. It has no note, and makes no access.
    #[allow(unused_variables)]
    pub fn new(regs: R, profile: Profile) -> DevPort<R>
        requires { profile ≡ FS4 }
        ensures { result ≡ record { bank = R.bank regs; software = unused FS4 false } }
    {
        DevPort {
            regs,
            side: Ready::Off,
            heard: Heard::Nothing,
            next_address: None,
            outs: no_outs(),
            ins: no_ins(),
            reset: false,
            finished: None,
            request: None,
        }
    }

    /// The controller, for bus events and to begin to count accesses.
    pub fn regs(&mut self) -> &mut R
        ensures value { R.bank result.now ≡ self.old.bank }
        ensures* writes_back { sem 𝓛 (Lends (the_row R.row R.Regs) R.row self.entry result (λ w. record self.old { bank = R.bank w })) }
    {
        &mut self.regs
    }

    /// The controller, to look at.
    pub fn controller(&self) -> &R
        ensures { R.bank result.now ≡ self.now.bank }
    {
        &self.regs
    }

    #[tactic(auto, using(crate::proofs::Goes::read_goes_on, crate::proofs::Goes::read_told, crate::proofs::Goes::read_still))]
    #[inline(always)]
    pub(crate) fn read(&mut self, off: u16) -> u32
        requires known { IsRegister off }
        requires has { Has 1 self.old.bank }
        ensures value { result ≡ read_value self.old.bank.table off }
        ensures joint { joint self.new ≡ with_table (joint self.old) (read_table self.old.bank.table off) }
        ensures told { self.new.bank.log ≡ self.old.bank.log ++ record { write = false; off = off; value = read_value self.old.bank.table off } ∷ [] }
        ensures spends { Spends 1 self.old.bank self.new.bank }
    {
        self.regs.read(off)
    }

    #[tactic(auto, using(crate::proofs::Goes::write_goes_on, crate::proofs::Goes::write_told, crate::proofs::Goes::write_still))]
    #[inline(always)]
    pub(crate) fn write(&mut self, off: u16, word: u32)
        requires known { IsRegister off }
        requires has { Has 1 self.old.bank }
        ensures joint { joint self.new ≡ with_table (joint self.old) (write_table self.old.bank.table off word) }
        ensures told { self.new.bank.log ≡ self.old.bank.log ++ record { write = true; off = off; value = word } ∷ [] }
        ensures spends { Spends 1 self.old.bank self.new.bank }
    {
        self.regs.write(off, word);
    }

    /// A word is written to DIEPCTLx.
    #[inline(always)]
    pub(crate) fn write_in_control(&mut self, x: u8, word: u32)
        requires known { x ≤ 11 }
        requires has { Has 1 self.old.bank }
        ensures joint { joint self.new ≡ with_table (joint self.old) (after_write self.old.bank.table (diepctl x) word) }
        ensures told { self.new.bank.log ≡ self.old.bank.log ++ record { write = true; off = offset_of (diepctl x); value = word } ∷ [] }
        ensures spends { Spends 1 self.old.bank self.new.bank }
    {
        self.write(diepctl(x), word);
    }

    /// A word is written to DOEPCTLx.
    #[inline(always)]
    pub(crate) fn write_out_control(&mut self, x: u8, word: u32)
        requires known { x ≤ 11 }
        requires has { Has 1 self.old.bank }
        ensures joint { joint self.new ≡ with_table (joint self.old) (after_write self.old.bank.table (doepctl x) word) }
        ensures told { self.new.bank.log ≡ self.old.bank.log ++ record { write = true; off = offset_of (doepctl x); value = word } ∷ [] }
        ensures spends { Spends 1 self.old.bank self.new.bank }
    {
        self.write(doepctl(x), word);
    }

    /// A word is written to DIEPINTx.
    #[inline(always)]
    pub(crate) fn clear_in_interrupts(&mut self, x: u8, word: u32)
        requires known { x ≤ 11 }
        requires has { Has 1 self.old.bank }
        ensures joint { joint self.new ≡ with_table (joint self.old) (after_write self.old.bank.table (diepint x) word) }
        ensures told { self.new.bank.log ≡ self.old.bank.log ++ record { write = true; off = offset_of (diepint x); value = word } ∷ [] }
        ensures spends { Spends 1 self.old.bank self.new.bank }
    {
        self.write(diepint(x), word);
    }

    /// A word is written to DOEPINTx.
    #[inline(always)]
    pub(crate) fn clear_out_interrupts(&mut self, x: u8, word: u32)
        requires known { x ≤ 11 }
        requires has { Has 1 self.old.bank }
        ensures joint { joint self.new ≡ with_table (joint self.old) (after_write self.old.bank.table (doepint x) word) }
        ensures told { self.new.bank.log ≡ self.old.bank.log ++ record { write = true; off = offset_of (doepint x); value = word } ∷ [] }
        ensures spends { Spends 1 self.old.bank self.new.bank }
    {
        self.write(doepint(x), word);
    }

    /// What is kept of the OUT endpoint of a number.
    pub(crate) fn out_kept(&self, number: u8) -> OutEndpoint
        requires from { 1 ≤ number }
        requires to { number ≤ 3 }
        ensures { result ≡ out_kept self.now.software number }
    {
        self.outs[place(number)]
    }

    /// What is kept of the IN endpoint of a number.
    pub(crate) fn in_kept(&self, number: u8) -> InEndpoint
        requires from { 1 ≤ number }
        requires to { number ≤ 3 }
        ensures { result ≡ in_kept self.now.software number }
    {
        self.ins[place(number)]
    }

    pub(crate) fn keep_out(&mut self, number: u8, kept: OutEndpoint)
        requires from { 1 ≤ number }
        requires to { number ≤ 3 }
        ensures { self.new ≡ record self.old { software = with_out_kept self.old.software number kept } }
    {
        self.outs[place(number)] = kept;
    }

    pub(crate) fn keep_in(&mut self, number: u8, kept: InEndpoint)
        requires from { 1 ≤ number }
        requires to { number ≤ 3 }
        ensures { self.new ≡ record self.old { software = with_in_kept self.old.software number kept } }
    {
        self.ins[place(number)] = kept;
    }
}
