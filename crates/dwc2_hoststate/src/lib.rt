//! The parts of the DWC2 USB controller in host mode (after RM0090, OTG_FS): one channel, the port, the registers that an
//! endpoint keeps, and how channels use the transmit FIFOs.
//!
//! Each part is seen as the controller's definitions in the crate `host_table` have it, and each call as what they say of
//! that part. The crate `dwc2_hostmodel` puts the parts together.
#![tactic(auto)]

mod channel;
mod end;
mod port;
mod window;

pub use channel::{ChannelState, InterruptBits};
pub use end::EndRegisters;
pub use port::PortState;
pub use window::{push_word, remove_packet};
