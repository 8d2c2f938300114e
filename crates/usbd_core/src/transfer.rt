use usb_packet::{Owner, Setup};

/// The control transfer that runs (USB 2.0, 8.5.3).
#[derive(Drop)]
pub enum Transfer {
    /// None.
    Idle,
    /// A data stage for the host.
    Data,
    /// A data stage from the host, for the class that took the request.
    Take(Owner, Setup),
    /// A status stage for the host.
    Status,
    /// That of SET_ADDRESS, with the address (9.4.6).
    Address(u8),
}
