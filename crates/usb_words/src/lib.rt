//! The words of a line: where they stand, and the numbers and bytes that they are the texts of.
#![tactic(auto)]

mod field;
mod last;
mod print;
mod words;

pub use field::{is_numeral, number, read_hex, small_number, value};
pub use last::{last_bytes, last_number, none_left};
pub use print::{hex_digit, push_bytes, push_hex, push_number, push_text, push_wide, push_word};
pub use words::Words;

#[cfg(test)]
mod tests;
