use usb_packet::{Packet, Toggle};

/// What a host sends on the bus when a channel's turn comes (USB 2.0, 8.4 and 8.5).
#[derive(Drop)]
pub enum HostSent {
    /// No channel takes the bus.
    Idle,
    /// A SETUP token with its eight bytes.
    Setup([u8; 8]),
    /// An OUT token with a data packet and its toggle.
    Out(Toggle, Packet),
    /// An IN token.
    In,
}
