//! Access to the registers of the DWC2 USB controller (after RM0090, OTG_FS), as a trait that the controller model
//! implements and the device driver is written over, and a layer that lists the accesses made.
//!
//! What a read gives and what an access changes is a step of the controller's definitions. Beside its state they hold how
//! many more accesses may be made, and which were made since the last [`Regs::begin`].
#![tactic(auto)]

mod regs;
mod traced;

pub use regs::Regs;
pub use traced::Traced;
