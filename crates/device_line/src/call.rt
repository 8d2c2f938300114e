use usb_pipe::{CdcDeviceCall, HidDeviceCall, MidiCall, MscDeviceCall};

/// What an application asks of a device.
#[derive(Drop)]
pub enum DevCall {
    /// The core's address, and whether a session stands.
    State,
    Cdc(CdcDeviceCall),
    Hid(HidDeviceCall),
    Msc(MscDeviceCall),
    Midi(MidiCall),
}
