//! Byte rings between an interrupt handler and a task.
//!
//! A ring is a queue of bytes with a capacity of 2^log2 bytes that is fixed when it is made. What one side puts in, the
//! other takes out in the same order. In an [`RxRing`] the handler writes and the task reads; in a [`TxRing`] the task
//! writes and the handler reads. Each side borrows an end, which has the calls of that side and no other. Clauses see a
//! ring as its bytes, oldest first, with its capacity. No call but `new` takes memory.
#![tactic(auto)]

pub use rx::{RxHandler, RxRing, RxTask};
pub use tx::{TxHandler, TxRing, TxTask};

pub mod laws;
mod rx;
mod storage;
#[cfg(test)]
mod tests;
mod tx;
