//! The reports of a keyboard or a mouse as a device has them: what it holds, what it does at each request, call and task, as
//! definitions (HID 1.11), and laws of them.
#![tactic(auto)]

pub mod laws;
mod reports;

pub use reports::{IdReports, ReportType, SetReport};
