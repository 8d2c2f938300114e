//! The calls between handler runs.
ghost use Rattle.std.specs.Prelude.{◌≡◌, ℕ, ◌+◌, ◌≤◌, ◌<◌, [], true, false, IsTrue, Some, None, length, slice_index};
ghost use Rattle.dwc2_regs.specs.declared.access.TheConstants.{FS4};
ghost use Rattle.dwc2_regs.specs.Register.{diepctl, doepctl};
ghost use Rattle.device_table.specs.Write.{after_write};
ghost use Rattle.device_rings.specs.Rings.{Rings};
ghost use Rattle.device_relation.specs.Relation.{IsPacket, side_of, was_heard};
ghost use Rattle.device_relation.specs.PipeRelation.{IsSound};
ghost use Rattle.device_relation.specs.Port.{Port, may_start, started, armed, stalled, addressed};
ghost use Rattle.device_relation.specs.Run.{with_table, unstalled, out_armed, run_start, run_arm, run_stall, run_address};
ghost use Rattle.dwc2_device.specs.Driver.{joint, Has, Spends};
ghost use Rattle.dwc2_device.specs.Keeps.{Keeps};
ghost use Rattle.access_order.specs.Phase.{serving};
ghost use Rattle.dwc2_device.specs.Order.{Goes};

use crate::DevPort;
use crate::words::STALL;
use device_relation::Ready;
use device_relation::laws::packet_fits;
use dwc2_access::Regs;
use usb_packet::Packet;

impl<R: Regs + Drop> DevPort<R> {
    /// Endpoint 0 has this packet for the host from the next handler run on. `last` is true exactly for the last packet of
    /// data for the host, with which the status stage is armed (USB 2.0, 8.5.3.3). A control transfer has to run: a SETUP
    /// was noted since the last reset, and nothing is on its way on endpoint 0.
    pub fn start_ep0(&mut self, packet: &Packet, last: bool)
        requires free { IsTrue (may_start (side_of self.old.bank.table self.old.software)) }
        requires heard { was_heard self.old.software.heard ≡ true }
        requires has { Has 2 self.old.bank }
        ensures keeps { Keeps (λ port. started port packet.now last) (joint self.old) (joint self.new) }
        ensures order { Goes (serving 0) (serving 0) self.old self.new }
        ensures spends { Spends 2 self.old.bank self.new.bank }
    {
        packet_fits(packet);
        self.wait(packet, last);
    }

    pub(crate) fn wait(&mut self, packet: &Packet, last: bool)
        requires has { Has 2 self.old.bank }
        ensures joint { joint self.new ≡ run_start (joint self.old) packet.now last }
        ensures order { Goes (serving 0) (serving 0) self.old self.new }
        ensures spends { Spends 2 self.old.bank self.new.bank }
    {
        self.end_stall();
        self.side = Ready::Wait {
            packet: packet.copy(),
            last,
        };
        self.next_address = None;
    }

    /// Endpoint 0 is armed for a packet from the host. What has to hold before is as for [`DevPort::start_ep0`].
    pub fn arm_ep0(&mut self)
        requires free { IsTrue (may_start (side_of self.old.bank.table self.old.software)) }
        requires heard { was_heard self.old.software.heard ≡ true }
        requires has { Has 4 self.old.bank }
        ensures keeps { Keeps armed (joint self.old) (joint self.new) }
        ensures order { Goes (serving 0) (serving 0) self.old self.new }
        ensures spends { Spends 4 self.old.bank self.new.bank }
    {
        self.arm();
    }

    pub(crate) fn arm(&mut self)
        requires has { Has 4 self.old.bank }
        ensures joint { joint self.new ≡ run_arm (joint self.old) }
        ensures order { Goes (serving 0) (serving 0) self.old self.new }
        ensures spends { Spends 4 self.old.bank self.new.bank }
    {
        self.end_stall();
        self.arm_zero();
        self.side = Ready::Armed;
        self.next_address = None;
    }

    /// Endpoint 0 answers STALL until the next SETUP (USB 2.0, 8.5.3.4). Nothing may be on its way on it.
    pub fn stall_ep0(&mut self)
        requires free { IsTrue (may_start (side_of self.old.bank.table self.old.software)) }
        requires has { Has 2 self.old.bank }
        ensures keeps { Keeps stalled (joint self.old) (joint self.new) }
        ensures order { Goes (serving 0) (serving 0) self.old self.new }
        ensures spends { Spends 2 self.old.bank self.new.bank }
    {
        self.stall();
    }

    pub(crate) fn stall(&mut self)
        requires has { Has 2 self.old.bank }
        ensures joint { joint self.new ≡ run_stall (joint self.old) }
        ensures order { Goes (serving 0) (serving 0) self.old self.new }
        ensures spends { Spends 2 self.old.bank self.new.bank }
    {
        self.write_in_control(0, STALL);
        self.write_out_control(0, STALL);
        self.side = Ready::Stall;
        self.next_address = None;
    }

    /// STALL is kept as written, so that a write without it ends it.
    fn end_stall(&mut self)
        requires has { Has 2 self.old.bank }
        ensures joint { joint self.new ≡ with_table (joint self.old) (unstalled self.old.bank.table self.old.software.side) }
        ensures order { Goes (serving 0) (serving 0) self.old self.new }
        ensures spends { Spends 2 self.old.bank self.new.bank }
    {
        match self.side {
            Ready::Stall => {
                self.write_in_control(0, 0);
                self.write_out_control(0, 0);
            }
            Ready::Off => {}
            Ready::Wait { .. } => {}
            Ready::Loaded => {}
            Ready::Last => {}
            Ready::Armed => {}
        }
    }

    /// The device has this address, at most 127, from the handler run on that finds the packet acknowledged which endpoint 0
    /// has for the host (USB 2.0, 9.4.6). A call that gives endpoint 0 something else to do forgets it.
    pub fn set_address(&mut self, addr: u8)
        requires address { addr < 128 }
        ensures keeps { Keeps (λ port. addressed port addr) (joint self.old) (joint self.new) }
        ensures order { Goes (serving 0) (serving 0) self.old self.new }
        ensures bank { self.new.bank ≡ self.old.bank }
    {
        self.keep_address(addr);
    }

    pub(crate) fn keep_address(&mut self, addr: u8)
        ensures joint { joint self.new ≡ run_address (joint self.old) addr }
        ensures bank { self.new.bank ≡ self.old.bank }
    {
        self.next_address = Some(addr);
    }
}
