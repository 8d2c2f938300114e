//! The order of a driver's accesses to the DWC2 USB controller in device mode (after RM0090, OTG_FS programming model): what the
//! programming model asks and the controller's table doesn't.
//!
//! `Order` has the state that the accesses leave, endpoint by endpoint, and which access is in order there; `Phase` has how
//! far a driver is, as its accesses tell it. Nothing runs here: the functions of [`laws`] do nothing, and their contracts are
//! laws and worked lists of accesses.
#![tactic(auto)]

pub mod laws;
