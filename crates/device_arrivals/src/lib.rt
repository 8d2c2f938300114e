//! What lies in the receive FIFO of a DWC2 controller in device mode, as the list of what came: SETUPs and packets, each with
//! its endpoint (after RM0090, OTG_FS: GRXSTSP), with the entries that tell them, and what one endpoint has there.
//!
//! The functions of [`laws`] do nothing, and their contracts are laws of the definitions.
#![tactic(auto)]

pub mod laws;
