use arrayvec::ArrayVec;

/// What an application's call is answered.
#[derive(Drop)]
pub enum Reply {
    /// It was done, or its transfer was started.
    Done,
    /// So many of the bytes given were queued.
    Took(u16),
    /// The bytes that came.
    Got(ArrayVec<u8, 4096>),
    /// So many bytes are held.
    Held(u16),
    /// The events that came, 4 bytes each (USB MIDI 1.0, 4).
    Events(ArrayVec<u8, 4096>),
    /// The report that came.
    Report(ArrayVec<u8, 64>),
    /// The last report of SET_REPORT with its type (HID 1.11, 7.2.2).
    SetReport(u8, ArrayVec<u8, 64>),
    /// The idle rate and the protocol (HID 1.11, 7.2.4 and 7.2.6).
    Idle(u8, u8),
    /// Rate in bits a second, stop bits, parity and data bits (CDC PSTN 1.2, 6.3.11), DTR and RTS (6.3.12).
    LineIs(u32, u8, u8, u8, u8, u8),
    /// The bits of the notification SERIAL_STATE (CDC PSTN 1.2, 6.5.4).
    Serial(u16),
    /// A command was started.
    Started,
    /// A command or a control call is under way.
    Running,
    /// A command passed, with the bytes that it gave.
    Passed(ArrayVec<u8, 4096>),
    /// A control call passed.
    ControlPassed,
    /// A command failed, with its residue (Bulk-Only 1.0, 5.2).
    Failed(u32),
    /// A command ended with a phase error or a bad status wrapper (Bulk-Only 1.0, 5.3).
    Phase,
    /// A control call was refused by STALL.
    Stalled,
    /// A control call got no answer.
    NoReply,
    /// The pipe is halted.
    Halted,
    /// The pipe is dead: its device gave no answer.
    Dead,
    /// The pipe or endpoint 0 is at work.
    Busy,
    /// The report has another length than its descriptor gives.
    BadLength,
    /// There is no such pipe.
    NoPipe,
    /// There is nothing to be told.
    Nothing,
    /// No session stands, or the device has no such class.
    Closed,
    /// The device's address, and 1 in a session, else 0 (USB 2.0, 9.1.1).
    Core(u8, u8),
    /// The state of the host's core.
    Host(HostWord),
}

/// The state of a host's core: how far it came with the device on its port.
#[derive(Clone, Copy, PartialEq, Eq, Debug)]
pub enum HostWord {
    /// Nothing is attached.
    Empty,
    /// A device is attached, and its enumeration (USB 2.0, 9.1.2) isn't over.
    Waiting,
    /// The device is configured.
    Mounted,
    /// A stage of enumeration got no answer.
    NoReply(u8),
    /// A stage of enumeration was refused by STALL.
    Stalled(u8),
    /// A descriptor breaks this rule.
    BadSet(u8),
    /// The configuration says that it has so many bytes, which are too many.
    TooLarge(u16),
}
