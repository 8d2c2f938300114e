//! The FIFOs of the DWC2 USB controller: the receive FIFO of entries and the transmit FIFOs of packets.
//!
//! A receive FIFO is seen as the words left of the entry that was popped, the entries behind it and the depth; a
//! transmit FIFO as its whole packets, the one that is unfinished and the depth. A word of 32 bits holds four bytes,
//! the lowest first, and the last word of a packet is filled with 0. No call takes memory: a FIFO holds its words
//! itself, and has places for the greatest depth, 1,024 words.
#![tactic(auto)]

pub mod laws;
mod rx;
mod slots;
#[cfg(test)]
mod tests;
mod tx;

pub use rx::RxFifo;
pub use tx::TxFifo;
