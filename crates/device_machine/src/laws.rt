//! Laws of the endpoints other than 0. The functions do nothing.
ghost use Rattle.std.specs.Prelude.{ℕ};
ghost use Rattle.device_machine.specs.Bus.{Bus};
ghost use Rattle.device_machine.specs.Pipes.{Pipes, OutSlot, InSlot};
ghost use Rattle.device_machine.specs.Laws.{Apart, Moves, Answers, AnswersToken, Serves};

/// A packet moves the pipe of its endpoint, as that pipe says, where the device and the endpoint hear it, and leaves the pipes of
/// all others; a SETUP and a reset leave all. The answer is the pipe's, NAK of an endpoint of the core, and none where the endpoint
/// isn't open or the packet is longer than its own. A handler run serves every pipe, and a task takes the note of every pipe (USB 2.0, 5.3.2 and 8.6).
pub fn endpoints_apart()
    ensures others { (bus : Bus) (pipes : Pipes) → Apart bus pipes }
    ensures moves { (bus : Bus) (pipes : Pipes) → Moves bus pipes }
    ensures answers { (slot : OutSlot) (bytes : ℕ) → Answers slot bytes }
    ensures answers_token { (slot : InSlot) → AnswersToken slot }
    ensures serves { (pipes : Pipes) → Serves pipes }
{}
