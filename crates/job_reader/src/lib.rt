//! The lines of a job's source, read in blocks, and the job's head.
#![tactic(auto)]

mod draft;
mod head;
mod lines;
mod reader;

pub use draft::Draft;
pub use head::{NoHead, read_heads};
pub use lines::{Lines, Next};
pub use reader::{Reader, line_break};
