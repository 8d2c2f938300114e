/// A data stage: the command's tag, how many bytes the host expects, how many the device moves, how many were moved, and the
/// block of the disk that is next. The sizes are in bytes.
#[derive(Clone, Copy, PartialEq, Eq, Debug)]
pub struct Flow {
    pub tag: u32,
    pub host: u32,
    pub device: u32,
    pub moved: u32,
    pub next: u32,
}

/// What the transport does (Bulk-Only Transport 1.0, 5.3).
#[derive(Clone, Copy, PartialEq, Eq, Debug)]
pub enum Transport {
    /// It waits for a command wrapper.
    Command,
    /// It waits for a reset, after a wrapper that wasn't good (6.6.1).
    Broken,
    /// Data for the host: so many bytes are queued or under way.
    Sending { flow: Flow, loaded: u16 },
    /// Data from the host.
    Receiving { flow: Flow },
    /// The status wrapper is queued or under way.
    Status,
}

/// What is to be done with the disk in a task.
#[derive(Clone, Copy, PartialEq, Eq, Debug)]
pub enum Due {
    Nothing,
    /// The next block is to be read and sent.
    Read { flow: Flow },
    /// The block that came whole is to be written. Bytes past the device's came in the same packet, or not.
    Write { flow: Flow, is_over: bool },
    /// All written blocks are to be made durable, for a command of this tag, of which the host expects so many bytes, to it or from it.
    Sync { tag: u32, host: u32, is_in: bool },
}
