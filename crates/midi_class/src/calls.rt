// What an application asks.
ghost use Rattle.std.specs.Prelude.{◌≡◌, ◌≢◌, ◌+◌, ◌*◌, ◌≤◌, [], ◌∷◌, ◌++◌, length};
ghost use Rattle.std.specs.List.{flat_map};
ghost use Rattle.usb_pipe.specs.Said.{Fits, reply_with};
ghost use Rattle.usb_pipe.specs.Own.{phase_at, held_at, room_at, written, given, read as read_};
ghost use Rattle.midi_events.specs.Events.{unpacked};
ghost use Rattle.midi_events.specs.Packing.{after_all};
ghost use Rattle.midi_device_machine.specs.Sending.{event_bytes, taken_count};
ghost use Rattle.midi_device_machine.specs.Port.{taken, event_count, come, in_fours, call_reply, after_call, pipes_after_call};

use crate::device::MidiDevice;
use arrayvec::ArrayVec;
use class_pipes::{DATA_IN, DATA_OUT, is_shut_down};
use midi_events::unpack;
use usb_pipe::{DevPipes, MidiCall, Phase, Reply, Said, reply_of};

/// The bytes of an event (USB MIDI 1.0, 4).
const EVENT_SIZE: u16 = 4;

/// The most events that a call takes.
const MOST_EVENTS: u16 = 1024;

/// The bytes of those.
const MOST_BYTES: usize = 4096;

impl MidiDevice {
    /// Answers a call. The bytes of the answer are left in `bytes`, which is emptied first.
    pub fn answer<P: DevPipes>(
        &mut self,
        pipes: &mut P,
        call: &MidiCall,
        bytes: &mut ArrayVec<u8, 4096>,
    ) -> Said
        requires sound { P.sound pipes.old }
        ensures reply { reply_with result bytes.new.items ≡ call_reply self.old (P.pipes pipes.old) call.now }
        ensures fits { Fits result bytes.new.items }
        ensures port { self.new ≡ after_call self.old (P.pipes pipes.old) call.now }
        ensures pipes { P.pipes pipes.new ≡ pipes_after_call self.old (P.pipes pipes.old) call.now }
        ensures beside { P.beside pipes.old pipes.new }
        ensures sound { P.sound pipes.new }
        ensures spare { P.spare pipes.new ≡ P.spare pipes.old }
    {
        bytes.clear();
        if is_shut_down(pipes) {
            return Said::Closed;
        }
        match call {
            MidiCall::Send(stream) => Said::Took(self.send(pipes, stream.as_slice())),
            MidiCall::Recv(most) => recv(pipes, *most, bytes),
            MidiCall::Bytes(most) => unpack_all(pipes, *most, bytes),
        }
    }

    /// Answers a call with a reply that has its bytes.
    pub fn call<P: DevPipes>(&mut self, pipes: &mut P, call: &MidiCall) -> Reply
        requires sound { P.sound pipes.old }
        ensures reply { result ≡ call_reply self.old (P.pipes pipes.old) call.now }
        ensures port { self.new ≡ after_call self.old (P.pipes pipes.old) call.now }
        ensures pipes { P.pipes pipes.new ≡ pipes_after_call self.old (P.pipes pipes.old) call.now }
        ensures beside { P.beside pipes.old pipes.new }
        ensures sound { P.sound pipes.new }
        ensures spare { P.spare pipes.new ≡ P.spare pipes.old }
    {
        let mut bytes = ArrayVec::new();
        let said = self.answer(pipes, call, &mut bytes);
        reply_of(said, bytes)
    }

    /// Packs bytes of a stream, as long as an event has room, and queues the events: how many bytes.
    fn send<P: DevPipes>(&mut self, pipes: &mut P, stream: &[u8]) -> u16
        requires sound { P.sound pipes.old }
        requires open { phase_at (P.pipes pipes.old) 0 ≢ Phase.Closed }
        requires few { length stream.now ≤ 1024 }
        ensures took { result ≡ taken_count self.old.packer (room_at (P.pipes pipes.old) 0) stream.now }
        ensures packer { self.new.packer ≡ after_all self.old.packer (taken self.old (P.pipes pipes.old) stream.now) }
        ensures pipes { P.pipes pipes.new ≡ written (P.pipes pipes.old) 0 (event_bytes self.old.packer (taken self.old (P.pipes pipes.old) stream.now)) }
        ensures beside { P.beside pipes.old pipes.new }
        ensures sound { P.sound pipes.new }
        ensures spare { P.spare pipes.new ≡ P.spare pipes.old }
    {
        for count in 0..stream.len() {
            if pipes.room(DATA_IN) < EVENT_SIZE {
                return count as u16;
            }
            self.push(pipes, stream[count]);
        }
        stream.len() as u16
    }

    /// Packs one byte, and queues the event that it makes whole.
    fn push<P: DevPipes>(&mut self, pipes: &mut P, byte: u8)
        requires sound { P.sound pipes.old }
        requires open { phase_at (P.pipes pipes.old) 0 ≢ Phase.Closed }
        ensures packer { self.new.packer ≡ after_all self.old.packer (byte ∷ []) }
        ensures pipes { P.pipes pipes.new ≡ written (P.pipes pipes.old) 0 (event_bytes self.old.packer (byte ∷ [])) }
        ensures beside { P.beside pipes.old pipes.new }
        ensures sound { P.sound pipes.new }
        ensures spare { P.spare pipes.new ≡ P.spare pipes.old }
    {
        if let Some(event) = self.packer.push(byte) {
            let _ = pipes.write(DATA_IN, &event);
        }
    }
}

/// How many events a call takes: whole ones, at most so many and at most 1,024.
fn count_events<P: DevPipes>(pipes: &P, most: u16) -> u16
    requires sound { P.sound pipes.now }
    ensures count { result ≡ event_count (P.pipes pipes.now) most }
    ensures few { result ≤ 1024 }
    ensures held { 4 * result ≤ held_at (P.pipes pipes.now) 1 }
{
    most.min(MOST_EVENTS).min(pipes.held(DATA_OUT) / EVENT_SIZE)
}

/// Takes the first events, as they came.
fn recv<P: DevPipes>(pipes: &mut P, most: u16, bytes: &mut ArrayVec<u8, 4096>) -> Said
    requires sound { P.sound pipes.old }
    requires open { phase_at (P.pipes pipes.old) 1 ≢ Phase.Closed }
    requires empty { bytes.old.items ≡ [] }
    ensures events { result ≡ Said.Events }
    ensures bytes { bytes.new.items ≡ come (P.pipes pipes.old) most }
    ensures pipes { P.pipes pipes.new ≡ read_ (P.pipes pipes.old) (4 * event_count (P.pipes pipes.old) most) }
    ensures beside { P.beside pipes.old pipes.new }
    ensures sound { P.sound pipes.new }
    ensures spare { P.spare pipes.new ≡ P.spare pipes.old }
{
    let mut cells = [0; MOST_BYTES];
    let size = (EVENT_SIZE * count_events(pipes, most)) as usize;
    let buf = &mut cells[..size];
    let count = pipes.read(DATA_OUT, buf);
    let _ = bytes.try_extend_from_slice(&buf[..count as usize]);
    Said::Events
}

/// Takes the first events, as the bytes that they carry.
fn unpack_all<P: DevPipes>(pipes: &mut P, most: u16, bytes: &mut ArrayVec<u8, 4096>) -> Said
    requires sound { P.sound pipes.old }
    requires open { phase_at (P.pipes pipes.old) 1 ≢ Phase.Closed }
    requires empty { bytes.old.items ≡ [] }
    ensures got { result ≡ Said.Got }
    ensures bytes { bytes.new.items ≡ flat_map unpacked (in_fours (come (P.pipes pipes.old) most)) }
    ensures pipes { P.pipes pipes.new ≡ read_ (P.pipes pipes.old) (4 * event_count (P.pipes pipes.old) most) }
    ensures beside { P.beside pipes.old pipes.new }
    ensures sound { P.sound pipes.new }
    ensures spare { P.spare pipes.new ≡ P.spare pipes.old }
{
    for _done in 0..count_events(pipes, most) {
        let event = take_event(pipes);
        append(bytes, unpack(event).as_slice());
    }
    Said::Got
}

/// Takes the first event.
fn take_event<P: DevPipes>(pipes: &mut P) -> [u8; 4]
    requires sound { P.sound pipes.old }
    requires open { phase_at (P.pipes pipes.old) 1 ≢ Phase.Closed }
    requires whole { 4 ≤ held_at (P.pipes pipes.old) 1 }
    ensures event { result ≡ given (P.pipes pipes.old) 4 }
    ensures pipes { P.pipes pipes.new ≡ read_ (P.pipes pipes.old) 4 }
    ensures beside { P.beside pipes.old pipes.new }
    ensures sound { P.sound pipes.new }
    ensures spare { P.spare pipes.new ≡ P.spare pipes.old }
{
    let mut event = [0; 4];
    let _ = pipes.read(DATA_OUT, &mut event);
    event
}

/// Puts bytes behind others, with room for all.
fn append(bytes: &mut ArrayVec<u8, 4096>, more: &[u8])
    requires { length bytes.old.items + length more.now ≤ 4096 }
    ensures { bytes.new.items ≡ bytes.old.items ++ more.now }
{
    let _ = bytes.try_extend_from_slice(more);
}
