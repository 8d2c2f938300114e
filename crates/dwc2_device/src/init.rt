//! The driver at its start.
ghost use Rattle.std.specs.Prelude.{◌≡◌, ◌+◌, ◌*◌, ◌≤◌, [], false};
ghost use Rattle.dwc2_regs.specs.declared.access.TheConstants.{FS4};
ghost use Rattle.dwc2_regs.specs.Register.{dieptxf};
ghost use Rattle.device_machine.specs.Bus.{unconfigured};
ghost use Rattle.device_table.specs.State.{first, rx_depth, tx0_depth, tx_depth, fifo_size};
ghost use Rattle.device_table.specs.Write.{after_write};
ghost use Rattle.device_relation.specs.Software.{unused};
ghost use Rattle.device_relation.specs.Relation.{abstract};
ghost use Rattle.device_rings.specs.Rings.{Rings};
ghost use Rattle.device_relation.specs.PipeRelation.{IsSound};
ghost use Rattle.device_relation.specs.Laws.{at_start, AreEmpty};
ghost use Rattle.device_relation.specs.Run.{with_table};
ghost use Rattle.dwc2_device.specs.Driver.{joint, Has, Spends};
ghost use Rattle.dwc2_device.specs.Init.{masks_written, channel_masked, channels_masked, sizes_written};

use crate::DevPort;
use dwc2_access::Regs;
use dwc2_regs::{
    DAINTMSK, DIEPMSK, DIEPTXF0, DOEPMSK, GINTMSK, GRXFSIZ, HAINTMSK, dieptxf, hcintmsk,
};
use usb_compose::FifoPlan;

/// A mask that lets every interrupt through.
const ALL: u32 = 0xffff_ffff;

impl<R: Regs + Drop> DevPort<R> {
    /// Opens a controller that is at its start: no interrupt is masked but that of an empty transmit FIFO, and the FIFOs have
    /// the sizes of the plan of an `FS4`. Controller and driver are then the device at its start.
    pub fn init(&mut self, plan: &FifoPlan)
        requires plan { plan.now ≡ record { rx = rx_depth FS4; tx0 = tx0_depth; tx = tx_depth; ins = FS4.in_eps } }
        requires table { self.old.bank.table ≡ first FS4 }
        requires software { self.old.software ≡ unused FS4 false }
        requires has { Has 18 self.old.bank }
        ensures joint { joint self.new ≡ at_start FS4 }
        ensures device { abstract (joint self.new) ≡ unconfigured false }
        ensures sound { (r : Rings) → AreEmpty FS4 r → IsSound FS4 (joint self.new) r }
        ensures spends { Spends 18 self.old.bank self.new.bank }
    {
        self.write_all(plan);
    }

    #[tactic(auto, using(crate::proofs::Opened::opened_joint))]
    fn write_all(&mut self, plan: &FifoPlan)
        requires plan { plan.now ≡ record { rx = rx_depth FS4; tx0 = tx0_depth; tx = tx_depth; ins = FS4.in_eps } }
        requires table { self.old.bank.table ≡ first FS4 }
        requires software { self.old.software ≡ unused FS4 false }
        requires has { Has 18 self.old.bank }
        ensures joint { joint self.new ≡ at_start FS4 }
        ensures spends { Spends 18 self.old.bank self.new.bank }
    {
        self.write_masks();
        self.mask_channels();
        self.write_sizes(plan);
    }

    #[tactic(auto, unfolding(crate::specs::Init::masks_written))]
    fn write_masks(&mut self)
        requires has { Has 5 self.old.bank }
        ensures joint { joint self.new ≡ with_table (joint self.old) (masks_written self.old.bank.table) }
        ensures spends { Spends 5 self.old.bank self.new.bank }
    {
        self.write(GINTMSK, ALL);
        self.write(DIEPMSK, ALL);
        self.write(DOEPMSK, ALL);
        self.write(DAINTMSK, ALL);
        self.write(HAINTMSK, ALL);
    }

    fn mask_channel(&mut self, x: u8)
        requires known { x ≤ 7 }
        requires has { Has 1 self.old.bank }
        ensures joint { joint self.new ≡ with_table (joint self.old) (channel_masked self.old.bank.table x) }
        ensures spends { Spends 1 self.old.bank self.new.bank }
    {
        self.write(hcintmsk(x), ALL);
    }

    /// The host's channels, which have no effect in device mode.
    #[tactic(auto, unfolding(crate::specs::Init::channels_masked))]
    fn mask_channels(&mut self)
        requires has { Has 8 self.old.bank }
        ensures joint { joint self.new ≡ with_table (joint self.old) (channels_masked FS4 self.old.bank.table) }
        ensures spends { Spends 8 self.old.bank self.new.bank }
    {
        self.mask_channel(0);
        self.mask_channel(1);
        self.mask_channel(2);
        self.mask_channel(3);
        self.mask_channel(4);
        self.mask_channel(5);
        self.mask_channel(6);
        self.mask_channel(7);
    }

    fn size_fifo(&mut self, x: u8, start: u16, depth: u16)
        requires from { 1 ≤ x }
        requires to { x ≤ 3 }
        requires has { Has 1 self.old.bank }
        ensures joint { joint self.new ≡ with_table (joint self.old) (after_write self.old.bank.table (dieptxf x) (fifo_size start depth)) }
        ensures spends { Spends 1 self.old.bank self.new.bank }
    {
        self.write(dieptxf(x), size_word(start, depth));
    }

    /// The FIFOs are laid end to end from word 0 on.
    #[tactic(auto, unfolding(crate::specs::Init::sizes_written))]
    fn write_sizes(&mut self, plan: &FifoPlan)
        requires plan { plan.now ≡ record { rx = rx_depth FS4; tx0 = tx0_depth; tx = tx_depth; ins = FS4.in_eps } }
        requires has { Has 5 self.old.bank }
        ensures joint { joint self.new ≡ with_table (joint self.old) (sizes_written FS4 self.old.bank.table) }
        ensures spends { Spends 5 self.old.bank self.new.bank }
    {
        let first = plan.rx + plan.tx0;
        self.write(GRXFSIZ, plan.rx as u32);
        self.write(DIEPTXF0, size_word(plan.rx, plan.tx0));
        self.size_fifo(1, first, plan.tx);
        self.size_fifo(2, first + plan.tx, plan.tx);
        self.size_fifo(3, first + 2 * plan.tx, plan.tx);
    }
}

/// The word of a FIFO's size: its first word below, its depth above.
fn size_word(start: u16, depth: u16) -> u32
    ensures { result ≡ fifo_size start depth }
{
    start as u32 + 0x1_0000 * depth as u32
}
