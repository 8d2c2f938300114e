ghost use Rattle.std.specs.Prelude.{◌≡◌};
ghost use Rattle.usb_control.specs.Table.{unconfigured};

use arrayvec::ArrayVec;
use usb_packet::Owner;
use usb_pipe::Decision;

/// What a device's core holds of its state (USB 2.0, 9.1.1).
#[derive(Drop)]
pub struct CoreState {
    /// The device address, 0 until one is given (9.4.6).
    pub addr: u8,
    /// Whether a session stands: the device is configured (9.4.7).
    pub configured: bool,
    /// The addresses of the halted endpoints, ascending (9.4.5).
    pub halted: ArrayVec<u8, 30>,
}

impl CoreState {
    /// The state at the start and after a bus reset: address 0, no session, nothing halted.
    pub fn new() -> CoreState
        ensures { result ≡ unconfigured }
    {
        CoreState {
            addr: 0,
            configured: false,
            halted: ArrayVec::new(),
        }
    }

    /// Another one with the same values.
    pub fn copy(&self) -> CoreState
        ensures { result ≡ self.now }
    {
        let mut halted = ArrayVec::new();
        let _ = halted.try_extend_from_slice(self.halted.as_slice());
        CoreState {
            addr: self.addr,
            configured: self.configured,
            halted,
        }
    }
}
/// What a request changes in the core.
#[derive(Clone, Copy, Debug, PartialEq, Eq)]
pub enum Effect {
    None,
    /// This address, from the end of the status stage on (USB 2.0, 9.4.6).
    Address(u8),
    /// A session ends, and with `true` a new one begins (9.4.7).
    Configure(bool),
    /// The endpoint at this address is halted (9.4.9).
    Halt(u8),
    /// Its halt ends, and its toggle is DATA0 (9.4.5).
    Clear(u8),
    /// The same for each endpoint of the interface with this number (9.4.10).
    ClearInterface(u8),
}

/// Who decides a request.
#[derive(Drop)]
pub enum Choice {
    /// The core, in this way.
    Own(Decision, Effect),
    /// The class with this owner.
    Class(Owner),
}
