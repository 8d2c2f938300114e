//! The text of a device's job, of its answers and of its trace, and how the reading of a job ends, as definitions that the
//! code above cites.
#![tactic(auto)]

ghost use Rattle.std.specs.Prelude.{◌≡◌, ℕ, List, true, map};
ghost use Rattle.std.specs.List.{list_all, flat_map};
ghost use Rattle.usb_text.specs.Plain.{is_plain};
ghost use Rattle.device_text.specs.Outcome.{Outcome, IsOutcome};
ghost use Rattle.device_text.specs.Answers.{answer_line};
ghost use Rattle.device_schedule.specs.Turns.{Turn, IsTrace};
ghost use Rattle.device_text.specs.Trace.{trace_lines, trace_text, without_registers};
ghost use Rattle.device_owners.specs.Device.{World};
ghost use Rattle.device_line.specs.declared.line.DevLine.{DevLine};

/// A law: a job is read in one way. No bytes have two outcomes: they spell one job at most, or their first line that is
/// refused and its rule, the rule that their set breaks, or the number of their lines, is one.
#[tactic(auto, using(crate::proofs::Outcomes::one_outcome))]
pub fn one_outcome()
    ensures { (input : List ℕ) (a b : Outcome) → IsOutcome input a → IsOutcome input b → a ≡ b }
{}

/// A law: a trace's text without its register lines is the text of its answers. No line of it has a newline inside.
pub fn without_register_lines()
    ensures answers { (turns : List Turn) → without_registers (trace_text turns) ≡ flat_map answer_line (map (λ turn. turn.answer) turns) }
    ensures plain { (turns : List Turn) → list_all is_plain (trace_lines turns) ≡ true }
{}

/// A law: a trace's text tells its accesses. Traces of one schedule with one text are one.
pub fn trace_is_told<S>()
    ensures { (world : World S) (schedule : List DevLine) (a b : List Turn) → IsTrace world schedule a → IsTrace world schedule b → trace_text a ≡ trace_text b → a ≡ b }
{}
