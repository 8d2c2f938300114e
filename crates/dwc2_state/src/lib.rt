//! The parts of the DWC2 USB controller in device mode (after RM0090, OTG_FS): one endpoint in each direction, the
//! registers that keep what was written, which register stands at an offset, and single bits of words.
//!
//! Each part is seen as the controller's definitions in the crate `device_table` have it, and each call as what they
//! say of that part. The crate `dwc2_devmodel` puts the parts together.
#![tactic(auto)]

mod bits;
mod control;
mod in_endpoint;
mod out_endpoint;
mod place;
mod registers;

pub use bits::{bit_at, flag, flipped, pid_of, same_toggle, with_flag};
pub use control::ControlRegister;
pub use in_endpoint::InEndpoint;
pub use out_endpoint::OutEndpoint;
pub use place::{
    ChannelRegister, CoreRegister, DeviceRegister, HostRegister, InRegister, OutRegister, Place,
    place_at,
};
pub use registers::{BusState, ChannelRegisters, HostRegisters, KeptRegisters};
