//! The line of an access to a register.
#![tactic(auto)]

mod access;

pub use access::{MOST_ACCESS, Side, access_text, push_access_line};

#[cfg(test)]
mod tests;
