//! The lines of an application's calls of a device's classes: how each is printed, and how its words are read.
#![tactic(auto)]

mod read;
mod show;

pub use read::read_call;
pub use show::{call_text, text_of};

#[cfg(test)]
mod tests;
