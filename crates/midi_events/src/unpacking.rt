// Events back into the stream.
ghost use Rattle.std.specs.Prelude.{◌≡◌, ◌%◌, ◌≤◌, slice_index};
ghost use Rattle.midi_events.specs.Events.{unpacked, carried_counts};

use arrayvec::ArrayVec;

/// How many bytes an event carries, by its code index (USB MIDI 1.0, table 4-1; 0 and 1 are reserved).
const CARRIED: [usize; 16] = [0, 0, 2, 3, 3, 1, 2, 3, 3, 3, 3, 3, 2, 2, 3, 1];

/// How many bytes an event with this first byte carries.
fn carried_count(first: u8) -> usize
    ensures count { result ≡ slice_index carried_counts (first % 16) }
    ensures few { result ≤ 3 }
{
    CARRIED[(first % 16) as usize]
}

/// The bytes of the stream that an event carries: none to three, by its code index, whatever its cable.
pub fn unpack(event: [u8; 4]) -> ArrayVec<u8, 3>
    ensures { result.items ≡ unpacked event }
{
    let [first, a, b, c] = event;
    let carried = [a, b, c];
    let mut bytes = ArrayVec::new();
    for byte in &carried[..carried_count(first)] {
        bytes.push(*byte);
    }
    bytes
}
