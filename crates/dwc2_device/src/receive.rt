//! The receive FIFO: the packets and the SETUPs that came.
ghost use Rattle.std.specs.Prelude.{◌≡◌, ◌≢◌, ℕ, ◌+◌, ◌-◌, ◌*◌, ◌≤◌, ◌++◌, false, length, min};
ghost use Rattle.dwc2_regs.specs.declared.TheConstants.{GRXSTSP_STATUS, OUT_DONE};
ghost use Rattle.dwc2_regs.specs.Field.{field_of};
ghost use Rattle.dwc2_regs.specs.Word.{bytes_of};
ghost use Rattle.dwc2_regs.specs.Register.{grxstsp, fifo};
ghost use Rattle.dwc2_fifo.specs.Words.{word_count, bytes_in};
ghost use Rattle.dwc2_fifo.specs.Rx.{first_word};
ghost use Rattle.device_table.specs.Read.{value_read, after_read};
ghost use Rattle.device_rings.specs.Rings.{out_ring};
ghost use Rattle.device_relation.specs.Software.{out_kept};
ghost use Rattle.device_relation.specs.Run.{with_table, after_words, words_read, bytes_read, packet_taken, setup_taken, setup_ended, end_popped, packet_from, arrival_taken, arrivals_taken};
ghost use Rattle.dwc2_device.specs.Driver.{joint, whole, Has, Spends};
ghost use Rattle.dwc2_device.specs.Standing.{IsStanding, Fits, InsStand, EndsAt};
ghost use Rattle.access_order.specs.Phase.{Keeps, serving, ended, closing};
ghost use Rattle.dwc2_device.specs.Order.{Goes};

use crate::DevPort;
use crate::words::{SNAK_EPDIS, all_out_interrupts};
use arrayvec::ArrayVec;
use device_machine::Stage;
use device_relation::{Heard, Ready};
use device_rings::DevRings;
use dwc2_access::Regs;
use dwc2_regs::{
    GRXSTSP, GRXSTSP_BYTES, GRXSTSP_NUMBER, GRXSTSP_STATUS, OUT_DATA, SETUP_DATA, fifo_window,
    get_field,
};
use usb_packet::Packet;

/// The most that lies there: three SETUPs, and a packet of each OUT endpoint, endpoint 0 among them.
const MOST_ARRIVALS: u8 = 7;

/// Each has two entries.
pub const MOST_ENTRIES: u8 = 2 * MOST_ARRIVALS;

/// The bytes of two words, the lowest first.
fn eight_bytes(low: u32, high: u32) -> [u8; 8]
    ensures { result ≡ bytes_of 4 low ++ bytes_of 4 high }
{
    let low = low.to_le_bytes();
    let high = high.to_le_bytes();
    [
        low[0], low[1], low[2], low[3], high[0], high[1], high[2], high[3],
    ]
}

impl<R: Regs + Drop> DevPort<R> {
    /// Takes what lies in the receive FIFO, one after another: SETUPs, and the packets of all OUT endpoints.
    #[tactic(auto, using(crate::proofs::Loops::steps, crate::proofs::Arrivals::ins_stand, crate::proofs::Arrivals::popped_stand))]
    pub(crate) fn take_arrivals(&mut self, rings: &mut DevRings)
        requires standing { IsStanding (whole self.old rings.old) }
        requires has { Has 133 self.old.bank }
        ensures whole { whole self.new rings.new ≡ arrivals_taken 7 (whole self.old rings.old) }
        ensures stand { InsStand (whole self.new rings.new) }
        ensures order { Goes (serving 0) (serving 0) self.old self.new }
        ensures spends { Spends 133 self.old.bank self.new.bank }
    {
        for _ in 0..MOST_ARRIVALS {
            let status = self.pop();
            if status == 0 {
                return;
            }
            self.take_arrival(rings, status);
        }
    }

    pub(crate) fn pop(&mut self) -> u32
        requires has { Has 1 self.old.bank }
        ensures value { result ≡ value_read self.old.bank.table grxstsp }
        ensures joint { joint self.new ≡ with_table (joint self.old) (after_read self.old.bank.table grxstsp) }
        ensures plain { field_of result GRXSTSP_STATUS ≢ OUT_DONE → Goes (serving 0) (serving 0) self.old self.new }
        ensures ends { (n : ℕ) → EndsAt n result → Goes (serving 0) (ended n) self.old self.new }
        ensures closed { Keeps (closing 4) (closing 4) self.old.bank.log self.new.bank.log }
        ensures spends { Spends 1 self.old.bank self.new.bank }
    {
        self.read(GRXSTSP)
    }

    /// The next word of what was popped.
    pub(crate) fn read_fifo(&mut self) -> u32
        requires has { Has 1 self.old.bank }
        ensures value { result ≡ first_word self.old.bank.table.rx.left }
        ensures joint { joint self.new ≡ with_table (joint self.old) (after_read self.old.bank.table (fifo 0)) }
        ensures order { Goes (serving 0) (serving 0) self.old self.new }
        ensures spends { Spends 1 self.old.bank self.new.bank }
    {
        self.read(fifo_window(0))
    }

    /// What came, by the word that was popped.
    fn take_arrival(&mut self, rings: &mut DevRings, status: u32)
        requires fits { Fits (whole self.old rings.old) status }
        requires has { Has 18 self.old.bank }
        ensures whole { whole self.new rings.new ≡ arrival_taken (whole self.old rings.old) status }
        ensures order { Goes (serving 0) (serving 0) self.old self.new }
        ensures spends { Spends 18 self.old.bank self.new.bank }
    {
        match get_field(status, GRXSTSP_STATUS) {
            SETUP_DATA => self.take_setup(),
            OUT_DATA => {
                let number = get_field(status, GRXSTSP_NUMBER) as u8;
                let bytes = get_field(status, GRXSTSP_BYTES).min(64) as u8;
                self.take_data(rings, number, bytes);
            }
            _ => {}
        }
    }

    /// A packet of so many bytes on the OUT endpoint of a number.
    #[tactic(auto, using(crate::proofs::Arrivals::other_number))]
    fn take_data(&mut self, rings: &mut DevRings, number: u8, bytes: u8)
        requires known { number ≤ 3 }
        requires few { bytes ≤ 64 }
        requires room { 1 ≤ number → (out_kept self.old.software number).over ≡ false → length (out_ring rings.old number).bytes + bytes ≤ (out_ring rings.old number).capacity }
        requires ends { EndsAt number (value_read self.old.bank.table grxstsp) }
        requires has { Has 18 self.old.bank }
        ensures whole { whole self.new rings.new ≡ packet_from (whole self.old rings.old) number bytes }
        ensures order { Goes (serving 0) (serving 0) self.old self.new }
        ensures spends { Spends 18 self.old.bank self.new.bank }
    {
        if number == 0 {
            self.take_packet(bytes as usize);
            self.end_packet(0);
        } else {
            self.take_pipe(rings, number, bytes);
        }
    }

    /// The bytes of a SETUP, and its end, at which endpoint 0 is disabled and what was ready is forgotten.
    fn take_setup(&mut self)
        requires ends { field_of (value_read self.old.bank.table grxstsp) GRXSTSP_STATUS ≢ OUT_DONE }
        requires has { Has 6 self.old.bank }
        ensures joint { joint self.new ≡ setup_ended (end_popped (setup_taken (joint self.old))) }
        ensures order { Goes (serving 0) (serving 0) self.old self.new }
        ensures spends { Spends 6 self.old.bank self.new.bank }
    {
        self.read_setup();
        self.pop();
        self.end_setup();
    }

    fn read_setup(&mut self)
        requires has { Has 2 self.old.bank }
        ensures joint { joint self.new ≡ setup_taken (joint self.old) }
        ensures order { Goes (serving 0) (serving 0) self.old self.new }
        ensures spends { Spends 2 self.old.bank self.new.bank }
    {
        let low = self.read_fifo();
        let high = self.read_fifo();
        self.request = Some(eight_bytes(low, high));
    }

    fn end_setup(&mut self)
        requires has { Has 3 self.old.bank }
        ensures joint { joint self.new ≡ setup_ended (joint self.old) }
        ensures order { Goes (serving 0) (serving 0) self.old self.new }
        ensures spends { Spends 3 self.old.bank self.new.bank }
    {
        self.write_in_control(0, SNAK_EPDIS);
        self.write_out_control(0, SNAK_EPDIS);
        self.clear_out_interrupts(0, all_out_interrupts());
        self.side = Ready::Off;
        self.heard = Heard::Setup;
        self.next_address = None;
    }

    /// A packet of so many bytes on endpoint 0.
    fn take_packet(&mut self, bytes: usize)
        requires few { bytes ≤ 64 }
        requires has { Has 16 self.old.bank }
        ensures joint { joint self.new ≡ packet_taken (joint self.old) bytes }
        ensures order { Goes (serving 0) (serving 0) self.old self.new }
        ensures spends { Spends 16 self.old.bank self.new.bank }
    {
        let packet = self.read_packet(bytes);
        self.side = Ready::Off;
        self.heard = Heard::Packet;
        self.finished = Some(Stage::Came(packet));
    }

    /// The words of a packet of so many bytes are read.
    fn read_packet(&mut self, bytes: usize) -> Packet
        requires few { bytes ≤ 64 }
        requires has { Has 16 self.old.bank }
        ensures value { result ≡ bytes_read bytes self.old.bank.table }
        ensures joint { joint self.new ≡ with_table (joint self.old) (after_words (word_count bytes) self.old.bank.table) }
        ensures order { Goes (serving 0) (serving 0) self.old self.new }
        ensures spends { Spends 16 self.old.bank self.new.bank }
    {
        let mut items = self.read_words(bytes.div_ceil(4));
        items.truncate(bytes);
        match Packet::new(items.as_slice()) {
            Ok(packet) => packet,
            Err(_) => Packet::empty(),
        }
    }

    /// So many words of window 0, as bytes.
    #[tactic(auto, using(crate::proofs::Loops::steps))]
    fn read_words(&mut self, words: usize) -> ArrayVec<u8, 64>
        requires few { words ≤ 16 }
        requires has { Has 16 self.old.bank }
        ensures value { result.items ≡ bytes_in (words_read words self.old.bank.table.rx.left) }
        ensures joint { joint self.new ≡ with_table (joint self.old) (after_words words self.old.bank.table) }
        ensures order { Goes (serving 0) (serving 0) self.old self.new }
        ensures spends { Spends 16 self.old.bank self.new.bank }
    {
        let mut items = ArrayVec::new();
        for _ in 0..words {
            let word = self.read_fifo();
            let _ = items.try_extend_from_slice(&word.to_le_bytes());
        }
        items
    }
}
