/// What a class sees of a pipe.
#[derive(Clone, Copy, PartialEq, Eq, Debug)]
pub enum Phase {
    /// No session has it open, or the owner hasn't got it.
    Closed,
    /// Nothing is under way.
    Rest,
    /// A transfer is under way, or the pipe waits for a packet or holds one that no handler run has moved.
    Running,
    /// A handler run found that a transfer ended or that a packet came, and no task has taken its note.
    Posted,
    /// Its endpoint is halted (USB 2.0, 9.4.5).
    Halted,
    /// On the host: its device gave no answer.
    Dead,
    /// On the host: its halt is being cleared.
    Clearing,
}
