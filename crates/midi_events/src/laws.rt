//! What holds over a whole stream. The functions do nothing: the clauses of [`Packer::push`](crate::Packer::push) and
//! [`unpack`](crate::unpack) give the law.
ghost use Rattle.std.specs.Prelude.{All};
ghost use Rattle.midi_events.specs.Packing.{Idle, packed};
ghost use Rattle.midi_events.specs.Spoken.{CarriesWhatIsSaid};
ghost use Rattle.midi_events.specs.Table.{IsTableEvent};
ghost use Rattle.midi_events.specs.Worked.{WorkedStreams};

/// Pushed through a new [`Packer`](crate::Packer), byte by byte, and unpacked again, a stream is what its messages say:
/// real-time bytes at once, every whole message with its status written out, each SysEx byte for byte. What is cut short
/// and what belongs to no message vanishes.
pub fn stream_is_carried(stream: &[u8])
    ensures { CarriesWhatIsSaid stream.now }
{}

/// Each event of a stream has four bytes, on cable 0 the code index that what it carries has in table 4-1 of USB MIDI 1.0,
/// and zeros behind that.
pub fn events_are_of_the_table(stream: &[u8])
    ensures { All IsTableEvent (packed Idle stream.now) }
{}

/// These streams have these events.
pub fn streams_worked()
    ensures { WorkedStreams }
{}
