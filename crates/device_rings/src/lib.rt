//! The rings of a device's endpoints between the interrupt handler and the classes: one for each endpoint of a class, by
//! direction and number. Clauses see them as two lists of rings. A call changes one ring and leaves all others, and none but
//! those that make the rings takes memory.
#![tactic(auto)]

pub use rings::DevRings;

pub mod laws;
mod rings;
mod sizes;
mod slots;
#[cfg(test)]
mod tests;
