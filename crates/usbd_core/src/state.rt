/// What the software keeps of a device's state (USB 2.0, 9.1.1). What is open and what is halted its driver keeps.
#[derive(Clone, Copy)]
pub struct DevState {
    /// The device address, 0 until one is given (9.4.6).
    pub addr: u8,
    /// Whether a session stands: the device is configured (9.4.7).
    pub configured: bool,
}

/// At the start and after a bus reset: address 0 and no session.
pub const UNCONFIGURED: DevState = DevState {
    addr: 0,
    configured: false,
};
