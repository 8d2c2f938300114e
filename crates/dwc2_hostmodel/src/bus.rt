// Which channel takes the bus, what the host sends, and what each answer changes.
ghost use Rattle.std.specs.Prelude.{◌≡◌, ◌+◌, ◌<◌, ◌≤◌, ◌++◌, length, map, IsTrue, IfSome, Some, None};
ghost use Rattle.dwc2_regs.specs.declared.access.TheConstants.{FS4};
ghost use Rattle.dwc2_fifo.specs.Words.{word_count};
ghost use Rattle.dwc2_fifo.specs.Rx.{room_of};
ghost use Rattle.device_table.specs.Words.{status_word};
ghost use Rattle.device_table.specs.Bus.{out_entries};
ghost use Rattle.host_table.specs.State.{channel_at};
ghost use Rattle.host_table.specs.Bus.{after_attach, after_detach, reset_asked, after_reset_asked, disabled, packet_in, packet_ready, packet_sent, sent_where_ready, sent_by, is_sent, can_take, lowest_from, taker, offer, has_room, acked, naked, stalled, unanswered, wrong_pid, lands, data_outcome, in_outcome, out_outcome, data_landed, after_some, after_xact};

use crate::controller::Controller;
use dwc2_hoststate::ChannelState;
use dwc2_regs::{OUT_DATA, OUT_DONE};
use dwc2_state::{pid_of, same_toggle};
use host_table::HostSent;
use usb_packet::{BusAnswer, Packet, Toggle};

/// The status word of an entry: channel, number of bytes, PID and kind.
fn status_word(number: u8, bytes: u8, pid: u32, kind: u32) -> u32
    requires pid { pid < 4 }
    requires kind { kind < 16 }
    ensures { result ≡ status_word number bytes pid kind }
{
    number as u32 + 0x10 * bytes as u32 + 0x8000 * pid + 0x20000 * kind
}

fn disable_each(channels: &mut [ChannelState])
    ensures { channels.new ≡ map disabled channels.old }
{
    for channel in channels {
        channel.disable();
    }
}

fn is_sent(sent: &HostSent) -> bool
    ensures { result ≡ is_sent sent.now }
{
    match sent {
        HostSent::Idle => false,
        HostSent::Setup(_) => true,
        HostSent::Out(_, _) => true,
        HostSent::In => true,
    }
}

// What a channel sends of its whole packet: a SETUP has eight bytes.
fn sent_packet(channel: &ChannelState, packet: Packet) -> HostSent
    ensures { result ≡ packet_sent channel.now packet }
{
    if !channel.is_setup() {
        return HostSent::Out(channel.toggle(), packet);
    }
    match packet.bytes() {
        [a, b, c, d, e, f, g, h] => HostSent::Setup([*a, *b, *c, *d, *e, *f, *g, *h]),
        _ => HostSent::Idle,
    }
}

impl Controller {
    /// A device is attached.
    pub fn attach(&mut self)
        ensures { self.new ≡ after_attach self.old }
    {
        self.port.attach();
    }

    /// It is detached.
    pub fn detach(&mut self)
        ensures { self.new ≡ after_detach self.old }
    {
        self.port.detach();
        disable_each(&mut self.channels);
    }

    /// Tells whether a port reset was driven since this was last asked.
    pub fn take_reset(&mut self) -> bool
        ensures value { result ≡ reset_asked self.old }
        ensures after { self.new ≡ after_reset_asked self.old }
    {
        self.port.take_reset()
    }

    /// What the host sends to that address and endpoint.
    pub fn offer(&self, addr: u8, ep: u8) -> HostSent
        ensures { result ≡ offer self.now addr ep }
    {
        match self.taker(addr, ep) {
            Some(x) => self.sent_by(x),
            None => HostSent::Idle,
        }
    }

    // The channel that takes the bus.
    fn taker(&self, addr: u8, ep: u8) -> Option<u8>
        ensures value { result ≡ taker self.now addr ep }
        ensures inside { IfSome result (λ x. x < FS4.channels) }
    {
        if self.port.pena {
            self.lowest(self.channels.as_slice(), addr, ep, 0)
        } else {
            None
        }
    }

    // The lowest of these channels that can take the bus. The first one has this number.
    fn lowest(&self, channels: &[ChannelState], addr: u8, ep: u8, number: u8) -> Option<u8>
        requires { number + length channels.now ≤ 12 }
        ensures value { result ≡ lowest_from self.now number addr ep channels.now }
        ensures inside { IfSome result (λ x. x < number + length channels.now) }
    {
        match channels {
            [] => None,
            [channel, rest @ ..] => {
                if self.can_take(number, channel, addr, ep) {
                    Some(number)
                } else {
                    self.lowest(rest, addr, ep, number + 1)
                }
            }
        }
    }

    // Whether a channel asks for that address and endpoint, and has what it needs.
    fn can_take(&self, x: u8, channel: &ChannelState, addr: u8, ep: u8) -> bool
        ensures { result ≡ can_take self.now addr ep x channel.now }
    {
        channel.asks(addr, ep) && is_sent(&self.sent_from(x, channel))
    }

    fn sent_by(&self, x: u8) -> HostSent
        requires { x < FS4.channels }
        ensures { result ≡ sent_by self.now x (channel_at self.now x) }
    {
        self.sent_from(x, &self.channels[x as usize])
    }

    fn sent_from(&self, x: u8, channel: &ChannelState) -> HostSent
        ensures { result ≡ sent_by self.now x channel.now }
    {
        if channel.is_in() {
            HostSent::In
        } else {
            self.sent_where_ready(x, channel)
        }
    }

    fn sent_where_ready(&self, x: u8, channel: &ChannelState) -> HostSent
        ensures { result ≡ sent_where_ready channel.now (packet_ready self.now x channel.now) }
    {
        match self.packet_ready(x, channel) {
            Some(packet) => sent_packet(channel, packet),
            None => HostSent::Idle,
        }
    }

    // A packet of no bytes has no words in a FIFO.
    fn packet_ready(&self, x: u8, channel: &ChannelState) -> Option<Packet>
        ensures { result ≡ packet_ready self.now x channel.now }
    {
        if channel.sends_no_bytes() {
            Some(Packet::empty())
        } else {
            self.packet_in(x, channel)
        }
    }

    fn packet_in(&self, x: u8, channel: &ChannelState) -> Option<Packet>
        ensures { result ≡ packet_in self.now x channel.now }
    {
        if channel.is_periodic() {
            self.periodic.front_packet(x)
        } else if channel.is_nonperiodic() {
            self.nonperiodic.front_packet(x)
        } else {
            None
        }
    }

    /// The transaction with that address and endpoint, and its answer. Gives what was sent.
    pub fn xact(&mut self, addr: u8, ep: u8, answer: &BusAnswer) -> HostSent
        ensures sent { result ≡ offer self.old addr ep }
        ensures after { self.new ≡ after_xact self.old addr ep answer.now }
    {
        let Some(x) = self.taker(addr, ep) else {
            return HostSent::Idle;
        };
        let sent = self.sent_by(x);
        match &sent {
            HostSent::Idle => {}
            HostSent::In => self.meet_in_answer(x, answer),
            HostSent::Setup(_) => self.meet_out_answer(x, answer),
            HostSent::Out(_, _) => self.meet_out_answer(x, answer),
        }
        sent
    }

    fn meet_out_answer(&mut self, x: u8, answer: &BusAnswer)
        requires { x < FS4.channels }
        ensures { self.new ≡ after_some self.old x (Some (out_outcome answer.now)) }
    {
        match answer {
            BusAnswer::Ack => self.meet_ack(x),
            BusAnswer::Nak => self.meet_nak(x),
            BusAnswer::Stall => self.meet_stall(x),
            BusAnswer::NoAnswer => self.meet_silence(x),
            BusAnswer::Done => self.meet_silence(x),
            BusAnswer::Data(_, _) => self.meet_silence(x),
        }
    }

    fn meet_in_answer(&mut self, x: u8, answer: &BusAnswer)
        requires { x < FS4.channels }
        ensures { self.new ≡ after_some self.old x (Some (in_outcome self.old (channel_at self.old x) answer.now)) }
    {
        match answer {
            BusAnswer::Data(toggle, packet) => self.meet_data(x, *toggle, packet),
            BusAnswer::Nak => self.meet_nak(x),
            BusAnswer::Stall => self.meet_stall(x),
            BusAnswer::NoAnswer => self.meet_silence(x),
            BusAnswer::Done => self.meet_silence(x),
            BusAnswer::Ack => self.meet_silence(x),
        }
    }

    fn meet_ack(&mut self, x: u8)
        requires { x < FS4.channels }
        ensures { self.new ≡ after_some self.old x (Some acked) }
    {
        self.remove_packets(x);
        self.channels[x as usize].meet_ack();
    }

    fn meet_nak(&mut self, x: u8)
        requires { x < FS4.channels }
        ensures { self.new ≡ after_some self.old x (Some naked) }
    {
        self.channels[x as usize].meet_nak();
    }

    fn meet_stall(&mut self, x: u8)
        requires { x < FS4.channels }
        ensures { self.new ≡ after_some self.old x (Some stalled) }
    {
        self.remove_packets(x);
        self.channels[x as usize].meet_stall();
    }

    fn meet_silence(&mut self, x: u8)
        requires { x < FS4.channels }
        ensures { self.new ≡ after_some self.old x (Some unanswered) }
    {
        self.remove_packets(x);
        self.channels[x as usize].meet_silence();
    }

    fn meet_other_pid(&mut self, x: u8)
        requires { x < FS4.channels }
        ensures { self.new ≡ after_some self.old x (Some wrong_pid) }
    {
        self.channels[x as usize].meet_other_pid();
    }

    fn meet_data(&mut self, x: u8, toggle: Toggle, packet: &Packet)
        requires { x < FS4.channels }
        ensures { self.new ≡ after_some self.old x (Some (data_outcome self.old (channel_at self.old x) toggle packet.now)) }
    {
        let size = self.channels[x as usize].packet_size();
        let expected = self.channels[x as usize].toggle();
        if (size as usize) < packet.bytes().len() {
            self.meet_silence(x);
        } else if !same_toggle(expected, toggle) {
            self.meet_other_pid(x);
        } else if !self.has_room(packet) {
            self.meet_silence(x);
        } else {
            self.land(x, toggle, packet);
        }
    }

    // Whether the receive FIFO has room for the packet and its status.
    fn has_room(&self, packet: &Packet) -> bool
        ensures value { result ≡ has_room self.now packet.now }
        ensures room { IsTrue result → 2 + word_count (length packet.now) ≤ room_of self.now.rx }
    {
        2 + (packet.bytes().len() as u16 + 3) / 4 <= self.rx.room()
    }

    fn land(&mut self, x: u8, toggle: Toggle, packet: &Packet)
        requires room { 2 + word_count (length packet.now) ≤ room_of self.old.rx }
        requires number { x < FS4.channels }
        ensures { self.new ≡ data_landed self.old x toggle packet.now }
    {
        self.push_packet(x, toggle, packet);
        self.channels[x as usize].disable();
    }

    // The entries of a data packet: its bytes, and its end.
    fn push_packet(&mut self, x: u8, toggle: Toggle, packet: &Packet)
        requires { 2 + word_count (length packet.now) ≤ room_of self.old.rx }
        ensures { self.new ≡ record self.old { rx = record self.old.rx { entries = self.old.rx.entries ++ out_entries x toggle packet.now } } }
    {
        let bytes = packet.bytes();
        let status = status_word(x, bytes.len() as u8, pid_of(toggle), OUT_DATA);
        self.rx.push_entry(status, bytes);
        self.rx.push_entry(status_word(x, 0, 0, OUT_DONE), &[]);
    }
}
