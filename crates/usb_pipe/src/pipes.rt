ghost use Rattle.std.specs.Prelude.{◌≡◌, ◌≢◌, ℕ, ◌+◌, ◌≤◌, take, length};
ghost use Rattle.usb_pipe.specs.declared.phase.Phase.{Phase};
ghost use Rattle.usb_pipe.specs.Own.{Own, IsPipe, Sends, phase_at, held_at, room_at, taken_of, written, given, read, started, armed, halted_at, dropped_at, packet_room, call_accesses};

use crate::phase::Phase;

/// The pipes of one owner on a device. A class has no other way to them. Pipe 0 sends, pipe 1 receives, and pipe 2 is a
/// serial port's notification pipe (CDC 1.2, 3.4.1). A pipe that the owner hasn't is `Closed`.
pub trait DevPipes {
    /// The owner's pipes.
    ghost pipes: { Self → Own };

    /// All that isn't the owner's pipes is the same in both, but for what the accesses to those pipes move.
    ghost beside: { Self → Self → Type 0 };

    /// The pipes and the controller agree.
    ghost sound: { Self → Type 0 };

    /// How many more accesses may be made.
    ghost spare: { Self → ℕ };

    /// Nothing was done.
    ghost reflexive: { (p : Self) → beside p p };

    /// One thing was done after another.
    ghost transitive: { (p q r : Self) → beside p q → beside q r → beside p r };

    /// What a pipe does.
    fn phase(&self, pipe: u8) -> Phase
        requires sound { sound self.now }
        requires pipe { IsPipe pipe }
        ensures { result ≡ phase_at (pipes self.now) pipe };

    /// How many bytes it holds, or has queued.
    fn held(&self, pipe: u8) -> u16
        requires sound { sound self.now }
        requires pipe { IsPipe pipe }
        ensures { result ≡ held_at (pipes self.now) pipe };

    /// How many more bytes it has room for.
    fn room(&self, pipe: u8) -> u16
        requires sound { sound self.now }
        requires pipe { IsPipe pipe }
        ensures { result ≡ room_at (pipes self.now) pipe };

    /// Queues the first bytes, as many as there is room for: how many. The pipe sends and isn't `Closed`.
    fn write(&mut self, pipe: u8, bytes: &[u8]) -> u16
        requires sound { sound self.old }
        requires pipe { Sends pipe }
        requires open { phase_at (pipes self.old) pipe ≢ Phase.Closed }
        ensures took { result ≡ taken_of (pipes self.old) pipe bytes.now }
        ensures pipes { pipes self.new ≡ written (pipes self.old) pipe bytes.now }
        ensures beside { beside self.old self.new }
        ensures sound { sound self.new }
        ensures spare { spare self.new ≡ spare self.old };

    /// Takes the first bytes that came, as many as the buffer has room for: how many. The pipe receives and isn't `Closed`.
    fn read(&mut self, pipe: u8, buf: &mut [u8]) -> u16
        requires sound { sound self.old }
        requires pipe { pipe ≡ 1 }
        requires open { phase_at (pipes self.old) pipe ≢ Phase.Closed }
        ensures gave { result ≡ length (given (pipes self.old) (length buf.old)) }
        ensures bytes { take result buf.new ≡ given (pipes self.old) (length buf.old) }
        ensures size { length buf.new ≡ length buf.old }
        ensures pipes { pipes self.new ≡ read (pipes self.old) (length buf.old) }
        ensures beside { beside self.old self.new }
        ensures sound { sound self.new }
        ensures spare { spare self.new ≡ spare self.old };

    /// Makes all queued bytes one transfer, an empty packet where none is queued. The pipe sends and is at `Rest`.
    fn start(&mut self, pipe: u8)
        requires sound { sound self.old }
        requires pipe { Sends pipe }
        requires rests { phase_at (pipes self.old) pipe ≡ Phase.Rest }
        requires spare { call_accesses ≤ spare self.old }
        ensures pipes { pipes self.new ≡ started (pipes self.old) pipe }
        ensures beside { beside self.old self.new }
        ensures sound { sound self.new }
        ensures spends { spare self.old ≤ spare self.new + call_accesses };

    /// Takes the next packet. The pipe receives, is at `Rest` and has room for 64 bytes.
    fn arm(&mut self, pipe: u8)
        requires sound { sound self.old }
        requires pipe { pipe ≡ 1 }
        requires rests { phase_at (pipes self.old) pipe ≡ Phase.Rest }
        requires room { packet_room ≤ room_at (pipes self.old) pipe }
        requires spare { call_accesses ≤ spare self.old }
        ensures pipes { pipes self.new ≡ armed (pipes self.old) }
        ensures beside { beside self.old self.new }
        ensures sound { sound self.new }
        ensures spends { spare self.old ≤ spare self.new + call_accesses };

    /// Halts the endpoint of a pipe that isn't `Closed` (USB 2.0, 9.4.5).
    fn halt(&mut self, pipe: u8)
        requires sound { sound self.old }
        requires pipe { IsPipe pipe }
        requires open { phase_at (pipes self.old) pipe ≢ Phase.Closed }
        requires spare { call_accesses ≤ spare self.old }
        ensures pipes { pipes self.new ≡ halted_at (pipes self.old) pipe }
        ensures beside { beside self.old self.new }
        ensures sound { sound self.new }
        ensures spends { spare self.old ≤ spare self.new + call_accesses };

    /// Drops all that a pipe that isn't `Closed` holds or has queued, with the transfer that runs.
    fn drop_all(&mut self, pipe: u8)
        requires sound { sound self.old }
        requires pipe { IsPipe pipe }
        requires open { phase_at (pipes self.old) pipe ≢ Phase.Closed }
        requires spare { call_accesses ≤ spare self.old }
        ensures pipes { pipes self.new ≡ dropped_at (pipes self.old) pipe }
        ensures beside { beside self.old self.new }
        ensures sound { sound self.new }
        ensures spends { spare self.old ≤ spare self.new + call_accesses };
}
