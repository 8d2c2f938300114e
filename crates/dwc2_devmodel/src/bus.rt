// What the device answers to each bus event, and what the event changes.
ghost use Rattle.std.specs.Prelude.{◌≡◌, ◌≢◌, ◌+◌, ◌<◌, ◌≤◌, ◌++◌, length, IsTrue, true, None, Some};
ghost use Rattle.usb_packet.specs.declared.bus.BusEvent.TheVariants.{Reset, Setup, Out, In};
ghost use Rattle.usb_packet.specs.declared.bus.Toggle.TheVariants.{D1};
ghost use Rattle.dwc2_fifo.specs.Words.{word_count};
ghost use Rattle.dwc2_fifo.specs.Rx.{room_of};
ghost use Rattle.dwc2_devmodel.specs.declared.bus.OutOutcome.TheVariants.{Lands};
ghost use Rattle.dwc2_devmodel.specs.Outcomes.{out_outcome_of, in_outcome_of};
ghost use Rattle.dwc2_regs.specs.declared.access.TheConstants.{FS4};
ghost use Rattle.device_table.specs.State.{out_end, with_out, in_end, with_in};
ghost use Rattle.device_table.specs.Words.{status_word};
ghost use Rattle.device_table.specs.Write.{emptied};
ghost use Rattle.device_table.specs.Bus.{hears, hears_setup, hears_out, has_room, is_repeated, after_reset, after_setup, setup_entries, out_entries, out_landed, landed_on_0, after_landing, bus_answer, after_bus, in_acked, packet_ready, sends_of, in_answer, after_in, out_outcome, in_outcome};

use crate::controller::Controller;
use dwc2_regs::{DCFG_ADDRESS, OUT_DATA, OUT_DONE, SETUP_DATA, SETUP_DONE, get_field};
use dwc2_state::{OutEndpoint, pid_of, same_toggle};
use usb_packet::{BusAnswer, BusEvent, Packet, Toggle};

/// What comes of an OUT packet: nothing is heard, NAK, STALL, it is acknowledged and dropped, or it lands.
#[derive(Clone, Copy)]
enum OutOutcome {
    Unheard,
    Naks,
    Stalls,
    Drops,
    Lands,
}

/// What comes of an IN token: nothing is heard, NAK, STALL, or the endpoint is asked for its packet.
#[derive(Clone, Copy)]
enum InOutcome {
    Unheard,
    Naks,
    Stalls,
    Asked,
}

/// The most SETUPs that lie unserved.
const MOST_SETUPS: u8 = 3;

/// Words of the entries of a SETUP.
const SETUP_WORDS: u16 = 4;

/// The status word of an entry: endpoint, number of bytes, PID and kind.
fn status_word(number: u8, bytes: u8, pid: u32, kind: u32) -> u32
    requires pid { pid < 4 }
    requires kind { kind < 16 }
    ensures { result ≡ status_word number bytes pid kind }
{
    number as u32 + 0x10 * bytes as u32 + 0x8000 * pid + 0x20000 * kind
}

impl Controller {
    /// What the bus does, and the answer on the bus.
    pub fn bus(&mut self, event: &BusEvent) -> BusAnswer
        ensures answer { result ≡ bus_answer self.old event.now }
        ensures after { self.new ≡ after_bus self.old event.now }
    {
        match event {
            BusEvent::Reset => self.meet_reset(),
            BusEvent::Setup { addr, bytes, ok } => self.setup(*addr, bytes, *ok),
            BusEvent::Out {
                addr,
                ep,
                toggle,
                packet,
                ok,
            } => self.packet(*addr, *ep, *toggle, packet, *ok),
            // Nearly all tokens are for endpoint 0, so what its number decides is decided here.
            BusEvent::In { addr, ep: 0, ok } => self.token(*addr, 0, *ok),
            BusEvent::In { addr, ep, ok } => self.token(*addr, *ep, *ok),
        }
    }

    fn meet_reset(&mut self) -> BusAnswer
        ensures answer { result ≡ bus_answer self.old Reset }
        ensures after { self.new ≡ after_reset self.old }
    {
        self.core.awake = false;
        self.core.usbrst = true;
        self.core.enumdne = true;
        self.core.landed = None;
        BusAnswer::Done
    }

    // Whether the device is awake and has that address.
    fn hears(&self, addr: u8) -> bool
        ensures { result ≡ hears self.now addr }
    {
        self.core.awake && addr as u32 == get_field(self.kept.dcfg, DCFG_ADDRESS)
    }

    fn setup(&mut self, addr: u8, bytes: &[u8; 8], ok: bool) -> BusAnswer
        ensures answer { result ≡ bus_answer self.old (Setup addr bytes.now ok) }
        ensures after { self.new ≡ after_bus self.old (Setup addr bytes.now ok) }
    {
        if !self.hears_setup(addr, ok) {
            return BusAnswer::NoAnswer;
        }
        self.meet_setup(bytes);
        BusAnswer::Ack
    }

    fn hears_setup(&self, addr: u8, ok: bool) -> bool
        ensures { result ≡ hears_setup self.now addr ok }
    {
        self.hears(addr) && ok && self.core.unserved < MOST_SETUPS && SETUP_WORDS <= self.rx.room()
    }

    fn meet_setup(&mut self, bytes: &[u8; 8])
        requires few { self.old.core.unserved < 3 }
        requires room { 4 ≤ room_of self.old.rx }
        ensures { self.new ≡ after_setup self.old bytes.now }
    {
        self.push_setup(bytes);
        self.core.unserved += 1;
        self.core.landed = None;
        self.in0.meet_setup();
        self.out0.meet_setup();
    }

    // The entries of a SETUP: its bytes, and its end.
    fn push_setup(&mut self, bytes: &[u8; 8])
        requires { 4 ≤ room_of self.old.rx }
        ensures { self.new ≡ record self.old { rx = record self.old.rx { entries = self.old.rx.entries ++ setup_entries bytes.now } } }
    {
        self.rx
            .push_entry(status_word(0, 8, 0, SETUP_DATA), bytes.as_slice());
        self.rx.push_entry(status_word(0, 0, 0, SETUP_DONE), &[]);
        self.setups += 2;
    }

    fn packet(&mut self, addr: u8, ep: u8, toggle: Toggle, packet: &Packet, ok: bool) -> BusAnswer
        ensures answer { result ≡ bus_answer self.old (Out addr ep toggle packet.now ok) }
        ensures after { self.new ≡ after_bus self.old (Out addr ep toggle packet.now ok) }
    {
        match self.out_outcome(addr, ep, toggle, packet, ok) {
            OutOutcome::Unheard => BusAnswer::NoAnswer,
            OutOutcome::Naks => BusAnswer::Nak,
            OutOutcome::Stalls => BusAnswer::Stall,
            OutOutcome::Drops => BusAnswer::Ack,
            OutOutcome::Lands => {
                self.land(ep, toggle, packet);
                BusAnswer::Ack
            }
        }
    }

    fn out_outcome(&self, addr: u8, ep: u8, toggle: Toggle, packet: &Packet, ok: bool) -> OutOutcome
        ensures value { out_outcome_of result ≡ out_outcome self.now addr ep toggle packet.now ok }
        ensures room { result ≡ Lands → 2 + word_count (length packet.now) ≤ room_of self.now.rx }
        ensures number { result ≡ Lands → ep ≤ FS4.out_eps }
    {
        let Some(end) = self.out_end(ep) else {
            return OutOutcome::Unheard;
        };
        if !self.hears_out(end, addr, ep, packet, ok) {
            OutOutcome::Unheard
        } else if self.setup_waits(ep) {
            OutOutcome::Naks
        } else if end.control().stalls() {
            OutOutcome::Stalls
        } else if self.is_repeated(ep, toggle) {
            OutOutcome::Drops
        } else if end.control().naks() {
            OutOutcome::Naks
        } else if !same_toggle(end.toggle(), toggle) {
            OutOutcome::Drops
        } else if !self.has_room(packet) {
            OutOutcome::Naks
        } else {
            OutOutcome::Lands
        }
    }

    // Whether an OUT packet is heard at all.
    fn hears_out(&self, end: &OutEndpoint, addr: u8, ep: u8, packet: &Packet, ok: bool) -> bool
        requires { end.now ≡ out_end self.now ep }
        ensures { result ≡ hears_out self.now addr ep packet.now ok }
    {
        let control = end.control();
        self.hears(addr)
            && ok
            && control.is_open(ep)
            && packet.bytes().len() <= control.packet_size(ep) as usize
    }

    // Whether a packet on endpoint 0 has the toggle of the one that landed there last.
    fn is_repeated(&self, ep: u8, toggle: Toggle) -> bool
        ensures { result ≡ is_repeated self.now ep toggle }
    {
        match (ep, self.core.landed) {
            (0, Some(landed)) => same_toggle(landed, toggle),
            (0, None) => false,
            _ => false,
        }
    }

    // Whether the receive FIFO has room for the packet and its status.
    fn has_room(&self, packet: &Packet) -> bool
        ensures value { result ≡ has_room self.now packet.now }
        ensures room { IsTrue result → 2 + word_count (length packet.now) ≤ room_of self.now.rx }
    {
        2 + (packet.bytes().len() as u16 + 3) / 4 <= self.rx.room()
    }

    fn land(&mut self, ep: u8, toggle: Toggle, packet: &Packet)
        requires room { 2 + word_count (length packet.now) ≤ room_of self.old.rx }
        requires number { ep ≤ FS4.out_eps }
        ensures { self.new ≡ after_landing self.old ep toggle packet.now }
    {
        self.push_packet(ep, toggle, packet);
        match ep {
            0 => {
                self.out0.land();
                self.core.landed = Some(toggle);
                self.in0.meet_landing();
            }
            _ => self.outs[ep as usize - 1].land(),
        }
    }

    // The entries of an OUT packet: its bytes, and its end.
    fn push_packet(&mut self, ep: u8, toggle: Toggle, packet: &Packet)
        requires room { 2 + word_count (length packet.now) ≤ room_of self.old.rx }
        requires number { ep ≤ FS4.out_eps }
        ensures { self.new ≡ record self.old { rx = record self.old.rx { entries = self.old.rx.entries ++ out_entries ep toggle packet.now } } }
    {
        let bytes = packet.bytes();
        let status = status_word(ep, bytes.len() as u8, pid_of(toggle), OUT_DATA);
        self.rx.push_entry(status, bytes);
        self.rx.push_entry(status_word(ep, 0, 0, OUT_DONE), &[]);
    }

    #[inline(always)]
    fn token(&mut self, addr: u8, ep: u8, ok: bool) -> BusAnswer
        ensures answer { result ≡ bus_answer self.old (In addr ep ok) }
        ensures after { self.new ≡ after_bus self.old (In addr ep ok) }
    {
        match self.in_outcome(addr, ep) {
            InOutcome::Unheard => BusAnswer::NoAnswer,
            InOutcome::Naks => BusAnswer::Nak,
            InOutcome::Stalls => BusAnswer::Stall,
            InOutcome::Asked => self.send(ep, ok),
        }
    }

    #[inline(always)]
    fn in_outcome(&self, addr: u8, ep: u8) -> InOutcome
        ensures { in_outcome_of result (packet_ready ep (in_end self.now ep)) ≡ in_outcome self.now addr ep }
    {
        let Some(end) = self.in_end(ep) else {
            return InOutcome::Unheard;
        };
        if !self.hears(addr) || !end.control().is_open(ep) {
            InOutcome::Unheard
        } else if self.setup_waits(ep) {
            InOutcome::Naks
        } else if end.control().stalls() {
            InOutcome::Stalls
        } else if end.control().naks() {
            InOutcome::Naks
        } else {
            InOutcome::Asked
        }
    }

    // The packet that is ready, if one is, and whether the host acknowledges it.
    #[tactic(auto, using(crate::proofs::ReadLemmas::no_packet))]
    #[inline(always)]
    fn send(&mut self, ep: u8, ok: bool) -> BusAnswer
        ensures answer { result ≡ in_answer (in_end self.old ep).toggle (sends_of (packet_ready ep (in_end self.old ep))) }
        ensures after { self.new ≡ after_in self.old ep ok (sends_of (packet_ready ep (in_end self.old ep))) }
    {
        let Some(end) = self.in_end(ep) else {
            return BusAnswer::Nak;
        };
        let toggle = end.toggle();
        match end.packet_ready(ep) {
            Some(packet) => {
                if ok {
                    self.acknowledge(ep);
                }
                BusAnswer::Data(toggle, packet)
            }
            None => BusAnswer::Nak,
        }
    }

    // The host acknowledged the packet of an IN endpoint.
    #[inline(always)]
    fn acknowledge(&mut self, x: u8)
        ensures { self.new ≡ with_in self.old x (in_acked x (in_end self.old x)) }
    {
        match x {
            0 => self.in0.acknowledge(0),
            _ if x as usize <= self.ins.len() => self.ins[x as usize - 1].acknowledge(x),
            _ => {}
        }
    }
}
