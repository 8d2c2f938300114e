use usb_packet::Packet;

/// What the driver holds ready on endpoint 0, as far as it knows.
#[derive(Drop)]
pub enum Ready {
    /// Nothing.
    Off,
    /// A packet for the host that the next handler run loads. `last` says that it is the last packet of data for the
    /// host.
    Wait { packet: Packet, last: bool },
    /// A packet for the host is loaded.
    Loaded,
    /// The last packet of data for the host is loaded, and the status stage is armed (USB 2.0, 8.5.3.3).
    Last,
    /// Armed for a packet from the host.
    Armed,
    /// Protocol stall, until the next SETUP (USB 2.0, 8.5.3.4).
    Stall,
}

/// What the driver took from endpoint 0 last since the reset.
#[derive(Clone, Copy, Debug, PartialEq, Eq, Drop)]
pub enum Heard {
    Nothing,
    Setup,
    /// A packet from the host.
    Packet,
}
