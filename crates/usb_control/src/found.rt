use crate::state::Effect;
use usb_packet::Owner;

/// What is done at a request, with its data where that lies. A [`crate::Choice`] has room for all data, and is moved with it.
#[derive(Clone, Copy)]
pub enum Found<'a> {
    /// The core gives these bytes, at most 512.
    Data(&'a [u8]),
    /// It passes to the status stage, with this effect.
    Status(Effect),
    /// It refuses (USB 2.0, 9.2.7).
    Stall,
    /// The class with this owner decides.
    Class(Owner),
}
