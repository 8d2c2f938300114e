ghost use Rattle.std.specs.Prelude.{◌≡◌, ◌-◌, [], false, ⊤, length, take, min, MatchOption};
ghost use Rattle.device_pipe.specs.InPipe as inward;
ghost use Rattle.device_pipe.specs.OutPipe as out;
ghost use Rattle.usb_pipe.specs.Own.{IsPipe, Sends, sender, bytes_at, in_phase, out_phase, unless_halted, work_accesses};
ghost use Rattle.usb_pipe.specs.Memory.{packet_size, most_bytes, sender_of, receiver_of, own_of, shut_pipes, fresh_pipes, IsIdle, Runs, running_size, ended_sender, receiver_with, after_transfer, with_packet};

use crate::phase::Phase;
use crate::pipes::DevPipes;
use arrayvec::ArrayVec;

/// What a pipe that sends does.
#[derive(Drop)]
pub(crate) enum Sending {
    Closed,
    Rest,
    /// A transfer of these bytes, the first ones of the queue.
    Running(ArrayVec<u8, 256>),
}

/// A pipe that sends, with packets of 64 bytes and a queue of 256.
#[derive(Drop)]
pub(crate) struct Outward {
    pub(crate) phase: Sending,
    pub(crate) halted: bool,
    pub(crate) queue: ArrayVec<u8, 256>,
}

impl Outward {
    /// A pipe with nothing queued.
    pub(crate) fn new(phase: Sending) -> Outward
        ensures { result ≡ record { phase = phase; halted = false; queue = record { items = [] } } }
    {
        Outward {
            phase,
            halted: false,
            queue: ArrayVec::new(),
        }
    }

    /// What a class sees of it.
    pub(crate) fn phase(&self) -> Phase
        ensures { result ≡ unless_halted self.now.halted (in_phase (sender_of self.now).pipe.phase) }
    {
        if self.halted {
            return Phase::Halted;
        }
        match self.phase {
            Sending::Closed => Phase::Closed,
            Sending::Rest => Phase::Rest,
            Sending::Running(_) => Phase::Running,
        }
    }

    /// Queues the first bytes, as many as there is room for: how many.
    pub(crate) fn write(&mut self, bytes: &[u8]) -> u16
        ensures took { result ≡ min (length bytes.now) (most_bytes - length self.old.queue.items) }
        ensures queue { sender_of self.new ≡ record (sender_of self.old) { pipe = inward.written most_bytes bytes.now (sender_of self.old).pipe } }
    {
        let count = bytes.len().min(self.queue.remaining_capacity());
        let _ = self.queue.try_extend_from_slice(&bytes[..count]);
        count as u16
    }

    /// Makes all that is queued one transfer. None runs.
    pub(crate) fn start(&mut self)
        requires { (sender_of self.old).pipe.phase ≡ inward.Rest }
        ensures { sender_of self.new ≡ record (sender_of self.old) { pipe = inward.started packet_size (sender_of self.old).pipe } }
    {
        let mut bytes = ArrayVec::new();
        let _ = bytes.try_extend_from_slice(self.queue.as_slice());
        self.phase = Sending::Running(bytes);
    }

    /// The bytes of the transfer that runs.
    pub(crate) fn running(&self) -> Option<&[u8]>
        ensures { MatchOption result (IsIdle (sender_of self.now)) (λ bytes. Runs (sender_of self.now) bytes.now) }
    {
        match &self.phase {
            Sending::Running(bytes) => Some(bytes.as_slice()),
            Sending::Closed | Sending::Rest => None,
        }
    }

    /// The host takes all bytes of the transfer that runs: how many.
    pub(crate) fn end(&mut self) -> u16
        ensures size { result ≡ running_size (sender_of self.old) }
        ensures after { sender_of self.new ≡ ended_sender (sender_of self.old) }
    {
        let Sending::Running(bytes) = &self.phase else {
            return 0;
        };
        let count = bytes.len();
        let queue = self.queue.as_slice();
        let mut rest = ArrayVec::new();
        let _ = rest.try_extend_from_slice(&queue[count.min(queue.len())..]);
        self.queue = rest;
        self.phase = Sending::Rest;
        count as u16
    }

    /// Drops all that is queued, with the transfer that runs.
    pub(crate) fn drop_all(&mut self)
        ensures { sender_of self.new ≡ record (sender_of self.old) { pipe = inward.dropped (sender_of self.old).pipe } }
    {
        self.queue.clear();
        if let Sending::Running(_) = self.phase {
            self.phase = Sending::Rest;
        }
    }
}

/// What a pipe that receives does.
#[derive(Clone, Copy)]
pub(crate) enum Receiving {
    Closed,
    Rest,
    Armed,
}

/// A pipe that receives, with room for 256 bytes.
#[derive(Drop)]
pub(crate) struct Inward {
    pub(crate) phase: Receiving,
    pub(crate) halted: bool,
    pub(crate) held: ArrayVec<u8, 256>,
}

impl Inward {
    /// A pipe that holds nothing.
    pub(crate) fn new(phase: Receiving) -> Inward
        ensures { result ≡ record { phase = phase; halted = false; held = record { items = [] } } }
    {
        Inward {
            phase,
            halted: false,
            held: ArrayVec::new(),
        }
    }

    /// What a class sees of it.
    pub(crate) fn phase(&self) -> Phase
        ensures { result ≡ unless_halted self.now.halted (out_phase (receiver_of self.now).pipe.phase) }
    {
        if self.halted {
            return Phase::Halted;
        }
        match self.phase {
            Receiving::Closed => Phase::Closed,
            Receiving::Rest => Phase::Rest,
            Receiving::Armed => Phase::Running,
        }
    }

    /// A packet comes. What there is no room for is lost.
    pub(crate) fn receive(&mut self, bytes: &[u8])
        ensures { receiver_of self.new ≡ receiver_with (receiver_of self.old) bytes.now }
    {
        let count = bytes.len().min(self.held.remaining_capacity());
        let _ = self.held.try_extend_from_slice(&bytes[..count]);
        if let Receiving::Armed = self.phase {
            self.phase = Receiving::Rest;
        }
    }

    /// Takes the first bytes, as many as the buffer has room for: how many.
    pub(crate) fn read(&mut self, buf: &mut [u8]) -> u16
        ensures gave { result ≡ length (take (length buf.old) self.old.held.items) }
        ensures bytes { take result buf.new ≡ take (length buf.old) self.old.held.items }
        ensures size { length buf.new ≡ length buf.old }
        ensures rest { receiver_of self.new ≡ record (receiver_of self.old) { pipe = out.taken (length buf.old) (receiver_of self.old).pipe } }
    {
        let held = self.held.as_slice();
        let count = held.len().min(buf.len());
        buf[..count].copy_from_slice(&held[..count]);
        let mut rest = ArrayVec::new();
        let _ = rest.try_extend_from_slice(&held[count..]);
        self.held = rest;
        count as u16
    }
}

/// Pipes in memory, by which a class is tried without a controller. Each has room for 256 bytes, and those that send have packets
/// of 64.
#[derive(Drop)]
pub struct MemoryPipes {
    pub(crate) sends: Outward,
    pub(crate) receives: Inward,
    pub(crate) notifies: Outward,
}

impl MemoryPipes {
    /// No session stands.
    pub fn new() -> MemoryPipes
        ensures { own_of result ≡ shut_pipes }
    {
        MemoryPipes {
            sends: Outward::new(Sending::Closed),
            receives: Inward::new(Receiving::Closed),
            notifies: Outward::new(Sending::Closed),
        }
    }

    /// A session begins.
    pub fn open(&mut self)
        ensures { own_of self.new ≡ fresh_pipes }
    {
        *self = MemoryPipes {
            sends: Outward::new(Sending::Rest),
            receives: Inward::new(Receiving::Rest),
            notifies: Outward::new(Sending::Rest),
        };
    }

    /// A packet comes on pipe 1, and the class is told. What there is no room for is lost.
    pub fn receive(&mut self, bytes: &[u8])
        ensures { own_of self.new ≡ with_packet (own_of self.old) bytes.now }
    {
        self.receives.receive(bytes);
    }

    /// The bytes of the transfer that runs on a pipe that sends.
    pub fn running(&self, pipe: u8) -> Option<&[u8]>
        requires { Sends pipe }
        ensures { MatchOption result (IsIdle (sender (own_of self.now) pipe)) (λ bytes. Runs (sender (own_of self.now) pipe) bytes.now) }
    {
        match pipe {
            2 => self.notifies.running(),
            _ => self.sends.running(),
        }
    }

    /// The host takes all bytes of the transfer that runs on a pipe that sends, and the class is told: how many.
    pub fn end(&mut self, pipe: u8) -> u16
        requires { Sends pipe }
        ensures size { result ≡ running_size (sender (own_of self.old) pipe) }
        ensures pipes { own_of self.new ≡ after_transfer (own_of self.old) pipe }
    {
        match pipe {
            2 => self.notifies.end(),
            _ => self.sends.end(),
        }
    }

    /// What a pipe holds or has queued.
    fn bytes_of(&self, pipe: u8) -> &ArrayVec<u8, 256>
        requires { IsPipe pipe }
        ensures { result.now.items ≡ bytes_at (own_of self.now) pipe }
    {
        match pipe {
            1 => &self.receives.held,
            2 => &self.notifies.queue,
            _ => &self.sends.queue,
        }
    }
}

impl DevPipes for MemoryPipes {
    ghost pipes = { own_of };

    ghost beside = { λ p q. ⊤ };

    ghost sound = { λ p. ⊤ };

    ghost spare = { λ p. work_accesses };

    ghost reflexive = { λ p. tt };

    ghost transitive = { λ p q r h k. tt };

    fn phase(&self, pipe: u8) -> Phase {
        match pipe {
            1 => self.receives.phase(),
            2 => self.notifies.phase(),
            _ => self.sends.phase(),
        }
    }

    fn held(&self, pipe: u8) -> u16 {
        self.bytes_of(pipe).len() as u16
    }

    fn room(&self, pipe: u8) -> u16 {
        self.bytes_of(pipe).remaining_capacity() as u16
    }

    fn write(&mut self, pipe: u8, bytes: &[u8]) -> u16 {
        match pipe {
            2 => self.notifies.write(bytes),
            _ => self.sends.write(bytes),
        }
    }

    fn read(&mut self, _pipe: u8, buf: &mut [u8]) -> u16 {
        self.receives.read(buf)
    }

    fn start(&mut self, pipe: u8) {
        match pipe {
            2 => self.notifies.start(),
            _ => self.sends.start(),
        }
    }

    fn arm(&mut self, _pipe: u8) {
        self.receives.phase = Receiving::Armed;
    }

    fn halt(&mut self, pipe: u8) {
        match pipe {
            1 => self.receives.halted = true,
            2 => self.notifies.halted = true,
            _ => self.sends.halted = true,
        }
    }

    fn drop_all(&mut self, pipe: u8) {
        match pipe {
            1 => self.receives.held.clear(),
            2 => self.notifies.drop_all(),
            _ => self.sends.drop_all(),
        }
    }
}
