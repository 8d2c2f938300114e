//! The descriptors of a configuration as a row, what each of them is, and which stand together (USB 2.0, 9.5 and
//! 9.6).
#![tactic(auto)]

mod descriptor;
mod kinds;
pub mod laws;
mod left;
mod row;

pub use descriptor::{Descriptor, whole_at};
pub use kinds::{ASSOCIATION, BULK, ENDPOINT, INTERFACE, INTERRUPT, following};
pub use left::left_of;
pub use row::read_row;

#[cfg(test)]
mod tests;
