//! A disk behind USB mass storage as a device has it: the transport's state, what it does at each request, call and task, and what it asks
//! of its disk, as definitions (Bulk-Only Transport 1.0), and laws of them.
#![tactic(auto)]

pub mod laws;
mod transport;

pub use transport::{Due, Flow, Transport};
