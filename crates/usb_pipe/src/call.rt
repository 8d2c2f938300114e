use arrayvec::ArrayVec;

/// A call of the serial port's device side (CDC PSTN 1.2).
#[derive(Drop)]
pub enum CdcDeviceCall {
    /// Queues bytes for the host, 1 to 1,024.
    Write(ArrayVec<u8, 1024>),
    /// Takes up to so many of the bytes that came, 1 to 1,024.
    Read(u16),
    /// Starts a transfer of what is queued.
    Flush,
    /// Tells how many bytes that came are held.
    Avail,
    /// Tells the line coding (6.3.11) and the control lines DTR and RTS (6.3.12).
    Line,
    /// Starts the notification SERIAL_STATE (6.5.4) with these bits.
    Notify(u16),
}

/// A call of the human interface device (HID 1.11).
#[derive(Drop)]
pub enum HidDeviceCall {
    /// Starts an input report, 1 to 64 bytes with its id byte where it has one.
    Report(ArrayVec<u8, 64>),
    /// Takes the output report that is held.
    Take,
    /// Tells the last report that SET_REPORT (7.2.2) gave.
    Set,
    /// Tells the idle rate (7.2.4) and the protocol (7.2.6).
    Idle,
}

/// A call of the mass storage device: what its user does to the medium.
#[derive(Clone, Copy, Debug, PartialEq, Eq)]
pub enum MscDeviceCall {
    Eject,
    Insert,
    /// Protects the medium from writing, or ends that.
    Protect(bool),
}

/// A call of a MIDI port (USB MIDI 1.0, 4).
#[derive(Drop)]
pub enum MidiCall {
    /// Packs bytes of a MIDI stream into events, 1 to 1,024 bytes.
    Send(ArrayVec<u8, 1024>),
    /// Takes up to so many of the events that came, 1 to 1,024.
    Recv(u16),
    /// Takes up to so many events as the bytes that they stand for.
    Bytes(u16),
}
