use usb_packet::Packet;

/// A stage of a control transfer that finished on the bus (USB 2.0, 8.5.3).
#[derive(Drop)]
pub enum Stage {
    /// The host acknowledged a packet of endpoint 0.
    Sent,
    /// A packet came from the host.
    Came(Packet),
}

/// What endpoint 0 holds ready for the bus.
#[derive(Drop)]
pub enum Side {
    /// Nothing.
    Off,
    /// A packet for the host that the next handler run loads. `last` says that it is the last packet of
    /// data for the host.
    Wait { packet: Packet, last: bool },
    /// A loaded packet for the host.
    Loaded(Packet),
    /// The last packet of data for the host, loaded, with the status stage armed (USB 2.0, 8.5.3.3).
    Last(Packet),
    /// Ready for a packet from the host.
    Armed,
    /// Protocol stall, until the next SETUP (USB 2.0, 8.5.3.4).
    Stall,
    /// A stage that no handler run has seen.
    Finished(Stage),
}
