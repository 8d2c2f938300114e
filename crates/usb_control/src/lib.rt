//! What is done at each request on endpoint 0 (USB 2.0, 9.3 and 9.4).
#![tactic(auto)]

mod found;
pub mod laws;
mod state;
mod table;

pub use found::Found;
pub use state::{Choice, CoreState, Effect};
pub use table::{decide, find, owner_of};

#[cfg(test)]
mod tests;
