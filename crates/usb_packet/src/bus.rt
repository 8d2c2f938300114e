use crate::packet::Packet;

/// The data toggle of a packet, by its PID: DATA0 or DATA1 (USB 2.0, 8.4.4 and 8.6).
#[derive(Clone, Copy, Debug, PartialEq, Eq)]
pub enum Toggle {
    D0,
    D1,
}

/// Who answers a line of a device's schedule: the core, or the class that an endpoint or an interface
/// belongs to.
#[derive(Clone, Copy, Debug, PartialEq, Eq)]
pub enum Owner {
    /// Endpoint 0, and all that no class has.
    Core,
    /// A serial port (CDC 1.2, PSTN 1.2).
    Cdc,
    /// A keyboard, a mouse or another device of reports (HID 1.11).
    Hid,
    /// A disk (Mass Storage Bulk-Only 1.0).
    Msc,
    /// Music events (MIDI Devices 1.0).
    Midi,
}

/// What the host does on the bus of a device.
#[derive(Drop)]
pub enum BusEvent {
    /// A bus reset (USB 2.0, 7.1.7.5).
    Reset,
    /// A SETUP transaction to endpoint 0. It is damaged where `ok` is false.
    Setup {
        addr: u8,
        bytes: [u8; 8],
        ok: bool,
    },
    /// An OUT transaction. It is damaged where `ok` is false.
    Out {
        addr: u8,
        ep: u8,
        toggle: Toggle,
        packet: Packet,
        ok: bool,
    },
    /// An IN token. The host acknowledges the data exactly where `ok` is true.
    In {
        addr: u8,
        ep: u8,
        ok: bool,
    },
}

/// What a device answers on the bus (USB 2.0, 8.4.5 and 8.5).
#[derive(Drop)]
pub enum BusAnswer {
    /// A bus reset is not answered by a packet.
    Done,
    Ack,
    Nak,
    Stall,
    /// The device sends nothing.
    NoAnswer,
    /// A data packet with its toggle.
    Data(Toggle, Packet),
}
