//! Packets for the host on endpoint 0.
ghost use Rattle.std.specs.Prelude.{◌≡◌, ◌+◌, ◌≤◌, [], false, length};
ghost use Rattle.dwc2_regs.specs.Register.{dieptsiz, diepctl, diepint, doeptsiz, fifo};
ghost use Rattle.dwc2_fifo.specs.Words.{words_of};
ghost use Rattle.device_table.specs.Write.{after_write};
ghost use Rattle.device_relation.specs.Relation.{one_packet};
ghost use Rattle.device_relation.specs.Run.{with_table, snak_epena, cnak, xfrc, words_written, packet_loaded, out_packet, out_armed, packet_ready, waiting_loaded, loaded_from};
ghost use Rattle.dwc2_device.specs.Driver.{joint, Has, Spends};
ghost use Rattle.access_order.specs.Phase.{serving, out_sized, at, filling};
ghost use Rattle.dwc2_device.specs.Order.{Goes};

use crate::DevPort;
use crate::words::{CNAK, CNAK_EPENA, SNAK_EPENA, xfrc};
use device_relation::{Heard, Ready};
use dwc2_access::Regs;
use dwc2_regs::{DIEPTSIZ0, DOEPTSIZ0, DOEPTSIZ0_COUNT, DOEPTSIZ0_STUPCNT, fifo_window, pack_word};
use usb_packet::Packet;

/// DIEPTSIZ0: a count of one packet.
const ONE_PACKET: u32 = 1 << 19;

/// DOEPTSIZ0: one packet of at most 64 bytes, and three SETUPs in a row.
const OUT_PACKET: u32 = 3 << DOEPTSIZ0_STUPCNT.low | 1 << DOEPTSIZ0_COUNT.low | 64;

impl<R: Regs + Drop> DevPort<R> {
    /// Loads the packet that waits, where one does.
    #[tactic(auto, using(crate::proofs::Ordered::nothing_loaded))]
    pub(crate) fn load_waiting(&mut self)
        requires has { Has 22 self.old.bank }
        ensures joint { joint self.new ≡ waiting_loaded (joint self.old) }
        ensures order { Goes (serving 0) (serving 1) self.old self.new }
        ensures spends { Spends 22 self.old.bank self.new.bank }
    {
        match &self.side {
            Ready::Wait { packet, last } => {
                let packet = packet.copy();
                let last = *last;
                self.load(&packet, last);
            }
            Ready::Off => {}
            Ready::Loaded => {}
            Ready::Last => {}
            Ready::Armed => {}
            Ready::Stall => {}
        }
    }

    /// Loads a packet, and arms the status stage with the last one of its data (USB 2.0, 8.5.3.3).
    fn load(&mut self, packet: &Packet, last: bool)
        requires has { Has 22 self.old.bank }
        ensures joint { joint self.new ≡ packet_ready (joint self.old) packet.now last }
        ensures order { Goes (serving 0) (serving 1) self.old self.new }
        ensures spends { Spends 22 self.old.bank self.new.bank }
    {
        self.write_packet(packet.bytes());
        if last {
            self.arm_zero();
            self.side = Ready::Last;
        } else {
            self.side = Ready::Loaded;
        }
    }

    /// Its size, SNAK and EPENA, its words; then XFRC is cleared, and last of all the NAK ends.
    fn write_packet(&mut self, packet: &[u8])
        requires few { length packet.now ≤ 64 }
        requires has { Has 20 self.old.bank }
        ensures joint { joint self.new ≡ with_table (joint self.old) (packet_loaded self.old.bank.table packet.now) }
        ensures order { Goes (serving 0) (serving 1) self.old self.new }
        ensures spends { Spends 20 self.old.bank self.new.bank }
    {
        self.begin_load(packet.len() as u32);
        self.write_words(packet);
        self.end_load();
    }

    fn begin_load(&mut self, bytes: u32)
        requires few { bytes ≤ 64 }
        requires has { Has 2 self.old.bank }
        ensures joint { joint self.new ≡ with_table (joint self.old) (after_write (after_write self.old.bank.table (dieptsiz 0) (one_packet bytes)) (diepctl 0) snak_epena) }
        ensures order { Goes (serving 0) (at 0 0 (filling false)) self.old self.new }
        ensures spends { Spends 2 self.old.bank self.new.bank }
    {
        self.write(DIEPTSIZ0, ONE_PACKET + bytes);
        self.write_in_control(0, SNAK_EPENA);
    }

    /// The host may acknowledge the packet from CNAK on, and then finds XFRC cleared.
    fn end_load(&mut self)
        requires has { Has 2 self.old.bank }
        ensures joint { joint self.new ≡ with_table (joint self.old) (after_write (after_write self.old.bank.table (diepint 0) xfrc) (diepctl 0) cnak) }
        ensures order { Goes (at 0 0 (filling false)) (serving 1) self.old self.new }
        ensures spends { Spends 2 self.old.bank self.new.bank }
    {
        self.clear_in_interrupts(0, xfrc());
        self.write_in_control(0, CNAK);
    }

    /// The words of a packet, four bytes each.
    #[tactic(auto, using(crate::proofs::Chunks::chunks))]
    fn write_words(&mut self, packet: &[u8])
        requires few { length packet.now ≤ 64 }
        requires has { Has 16 self.old.bank }
        ensures joint { joint self.new ≡ with_table (joint self.old) (words_written self.old.bank.table (words_of packet.now)) }
        ensures order { Goes (at 0 0 (filling false)) (at 0 0 (filling false)) self.old self.new }
        ensures spends { Spends 16 self.old.bank self.new.bank }
    {
        let mut rest = packet;
        while !rest.is_empty() {
            let (word, behind) = rest.split_at(rest.len().min(4));
            self.write_word(pack_word(word));
            rest = behind;
        }
    }

    fn write_word(&mut self, word: u32)
        requires has { Has 1 self.old.bank }
        ensures joint { joint self.new ≡ with_table (joint self.old) (after_write self.old.bank.table (fifo 0) word) }
        ensures order { Goes (at 0 0 (filling false)) (at 0 0 (filling false)) self.old self.new }
        ensures spends { Spends 1 self.old.bank self.new.bank }
    {
        self.write(fifo_window(0), word);
    }

    /// Endpoint 0 is enabled for a packet from the host. Where one came since the last SETUP it answers NAK: each one that
    /// comes is that packet again (USB 2.0, 8.6.4).
    pub(crate) fn arm_zero(&mut self)
        requires has { Has 2 self.old.bank }
        ensures joint { joint self.new ≡ with_table (joint self.old) (out_armed self.old.bank.table self.old.software.heard) }
        ensures order { Goes (serving 0) (serving 0) self.old self.new }
        ensures last { Goes (serving 1) (serving 1) self.old self.new }
        ensures spends { Spends 2 self.old.bank self.new.bank }
    {
        self.write_out_size();
        let word = match self.heard {
            Heard::Packet => SNAK_EPENA,
            Heard::Nothing => CNAK_EPENA,
            Heard::Setup => CNAK_EPENA,
        };
        self.write_out_control(0, word);
    }

    /// The size of what comes is written before the endpoint is enabled (RM0090, OUT data transfers).
    fn write_out_size(&mut self)
        requires has { Has 1 self.old.bank }
        ensures joint { joint self.new ≡ with_table (joint self.old) (after_write self.old.bank.table (doeptsiz 0) out_packet) }
        ensures order { Goes (serving 0) (out_sized 0 0) self.old self.new }
        ensures last { Goes (serving 1) (out_sized 0 1) self.old self.new }
        ensures spends { Spends 1 self.old.bank self.new.bank }
    {
        self.write(DOEPTSIZ0, OUT_PACKET);
    }
}
