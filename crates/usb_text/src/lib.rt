//! The lines of a job, of its answers and of accesses to registers: one spelling for each value.
#![tactic(auto)]

mod head;
mod laws;
mod line;
mod reading;
mod reply;
mod show;

pub use call_text::call_text;
pub use device_line::{Answer, DevCall, DevLine};
pub use head::HeadLine;
pub use laws::{one_spelling, register_lines, texts_keep_rules};
pub use line::{Line, ScheduleLine};
pub use line_rules::{LineFault, MOST_LINE, Mode, Place, lowest_rule};
pub use reading::{RunLine, read_bus, read_head, read_line, read_run, read_schedule};
pub use register_text::{MOST_ACCESS, Side, access_text, push_access_line};
pub use reply::{MOST_ANSWER, answer_text, push_bus_line, push_done_line, push_said_line};
pub use show::{head_text, line_text};

#[cfg(test)]
mod tests;
