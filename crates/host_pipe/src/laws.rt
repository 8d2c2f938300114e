//! Laws of a host's pipes, by step and over whole runs (USB 2.0, 5.8.3, 8.4.5, 8.6 and 9.4.5). The functions do nothing.
ghost use Rattle.std.specs.Prelude.{◌≡◌, ◌≤◌, ℕ, ◌-◌, ◌++◌, List, [], Bool, true, false, length, take, drop, Option, Some, None};
ghost use Rattle.std.specs.List.{All};
ghost use Rattle.usb_packet.specs.declared.bus.Toggle.{Toggle};
ghost use Rattle.usb_packet.specs.declared.bus.Toggle.TheVariants.{D0};
ghost use Rattle.usb_packet.specs.declared.bus.BusAnswer.{BusAnswer};
ghost use Rattle.host_pipe.specs.Tries.{Note};
ghost use Rattle.host_pipe.specs.OutPipe as out;
ghost use Rattle.host_pipe.specs.OutPipe.{OutPipe, OutEvent, OutResult, out_sent};
ghost use Rattle.host_pipe.specs.InPipe as inward;
ghost use Rattle.host_pipe.specs.InPipe.{InPipe, InEvent, InResult, in_sent};
ghost use Rattle.host_pipe.specs.OutLink.{OutStep, out_run, out_start};
ghost use Rattle.host_pipe.specs.InLink.{InStep, in_run, in_start};
ghost use Rattle.host_pipe.specs.Laws.{IsSentOnce, IsHeldOnce, IsUnheard, IsItOrNothing, ClearsNoOut, EndsNoOut, ClearsNoIn, EndsNoIn, IsRow, out_row, IsInRow, in_row};
ghost use Rattle.host_pipe.specs.Steps.{out_pipe, in_pipe, OutStarts, OutMeets, OutServes, OutAcked, OutNotes, OutTries, OutWithdraws, OutWithdrawsEmpty, OutClearEnds, InStarts, InMeets, InData, InServes, InNotes, InTries, InClears};
ghost use Rattle.host_pipe.specs.OutExamples.{out_successful, out_successful_end, out_not_accepted, out_not_accepted_end, out_again, out_again_end, out_lost, out_lost_end, out_stalled, out_stalled_end, out_empty, out_empty_end};
ghost use Rattle.host_pipe.specs.ClearExamples.{OutClearsWorked, InClearsWorked};
ghost use Rattle.host_pipe.specs.InExamples.{in_successful, in_successful_end, in_not_accepted, in_not_accepted_end, in_again, in_again_end, in_lost, in_lost_end, in_stalled, in_stalled_end};

/// OUT, exactly once and in order, in runs without a clear: whatever is lost on the way, the device took each packet that a
/// handler run took off, and the one under way exactly where the toggles differ (8.6.4). Joined, those taken off are the front of
/// what the class wrote, and the packet under way, in every phase, is the front of what is left. What the device took, joined, is the
/// front of what the class wrote too.
pub fn out_exactly_once()
    ensures { (size : ℕ) (capacity : ℕ) (steps : List OutStep) → IsSentOnce (out_run size capacity out_start steps) }
{}

/// IN, exactly once and in order, in runs without a clear: whatever is lost on the way, what the class read, what is held and
/// what landed are the packets that the device moved on from, and its front packet behind them exactly where the toggles differ
/// (8.6.4).
pub fn in_exactly_once()
    ensures { (size : ℕ) (given : List (List ℕ)) (steps : List InStep) → IsHeldOnce given (in_run size (in_start given) steps) }
{}

/// A packet that isn't acknowledged stays under way, and is sent again byte for byte with the same toggle or not at all, whatever
/// other answers, handler runs, task runs, starts and writes come, until it is acknowledged or a clear is accepted (8.6.3).
pub fn sent_again()
    ensures it { (size : ℕ) (capacity : ℕ) (pipe : OutPipe) (events : List OutEvent) (packet : List ℕ) → All IsUnheard events → out_sent pipe ≡ Some packet →
        IsItOrNothing packet (out_sent (out.after_events size capacity pipe events)) }
    ensures under_way { (size : ℕ) (capacity : ℕ) (pipe : OutPipe) (events : List OutEvent) (packet : List ℕ) → All IsUnheard events → out_sent pipe ≡ Some packet →
        (out.after_events size capacity pipe events).under_way ≡ Some packet }
    ensures toggle { (size : ℕ) (capacity : ℕ) (pipe : OutPipe) (events : List OutEvent) (packet : List ℕ) → All IsUnheard events → out_sent pipe ≡ Some packet →
        (out.after_events size capacity pipe events).toggle ≡ pipe.toggle }
{}

/// A pipe that a clear was accepted for sends nothing until the clear's control transfer ends. One that is halted or dead sends
/// nothing until a clear is accepted, whatever is started, written and asked for.
pub fn sends_nothing()
    ensures out_clearing { (size : ℕ) (capacity : ℕ) (events : List OutEvent) (toggle : Toggle) (tries : ℕ) (pending : List ℕ) (under_way : Option (List ℕ)) (asked : Bool) → All EndsNoOut events →
        out_sent (out.after_events size capacity (out_pipe out.Clearing toggle tries pending under_way asked) events) ≡ None }
    ensures out_halted { (size : ℕ) (capacity : ℕ) (events : List OutEvent) (toggle : Toggle) (tries : ℕ) (pending : List ℕ) (under_way : Option (List ℕ)) (asked : Bool) → All ClearsNoOut events →
        out_sent (out.after_events size capacity (out_pipe out.Halted toggle tries pending under_way asked) events) ≡ None }
    ensures out_dead { (size : ℕ) (capacity : ℕ) (events : List OutEvent) (toggle : Toggle) (tries : ℕ) (pending : List ℕ) (under_way : Option (List ℕ)) (asked : Bool) → All ClearsNoOut events →
        out_sent (out.after_events size capacity (out_pipe out.Dead toggle tries pending under_way asked) events) ≡ None }
    ensures in_clearing { (size : ℕ) (events : List InEvent) (toggle : Toggle) (tries : ℕ) (held : List ℕ) → All EndsNoIn events →
        in_sent (inward.after_events size (in_pipe inward.Clearing toggle tries held) events) ≡ false }
    ensures in_halted { (size : ℕ) (events : List InEvent) (toggle : Toggle) (tries : ℕ) (held : List ℕ) → All ClearsNoIn events →
        in_sent (inward.after_events size (in_pipe inward.Halted toggle tries held) events) ≡ false }
    ensures in_dead { (size : ℕ) (events : List InEvent) (toggle : Toggle) (tries : ℕ) (held : List ℕ) → All ClearsNoIn events →
        in_sent (inward.after_events size (in_pipe inward.Dead toggle tries held) events) ≡ false }
{}

/// A start of an OUT pipe at rest sends the first pending bytes, or the empty packet that was asked for; one of an IN pipe sends
/// a token. It begins a row of tries, and no other phase starts.
pub fn starts()
    ensures out_starts { (size : ℕ) (toggle : Toggle) (tries : ℕ) (byte : ℕ) (bytes : List ℕ) (under_way : Option (List ℕ)) (asked : Bool) (note : Note) (result : OutResult) → OutStarts size toggle tries byte bytes under_way asked note result }
    ensures in_starts { (toggle : Toggle) (tries : ℕ) (held : List ℕ) (note : Note) (result : InResult) → InStarts toggle tries held note result }
{}

/// What each answer makes of a pipe that runs; the others send nothing, and no answer reaches them (8.4.5). NAK leaves the packet.
pub fn meets_answers()
    ensures out_meets { (toggle : Toggle) (other : Toggle) (tries : ℕ) (pending : List ℕ) (bytes : List ℕ) (under_way : Option (List ℕ)) (asked : Bool) (note : Note) (result : OutResult) (reply : BusAnswer) → OutMeets toggle other tries pending bytes under_way asked note result reply }
    ensures in_meets { (size : ℕ) (toggle : Toggle) (tries : ℕ) (held : List ℕ) (note : Note) (result : InResult) (reply : BusAnswer) → InMeets size toggle tries held note result reply }
    ensures in_content { (size : ℕ) (toggle : Toggle) (tries : ℕ) (held : List ℕ) (packet : List ℕ) → InData size toggle tries held packet }
{}

/// What a handler run makes of an answer (8.6.2): an acknowledged packet is taken off and data is held, each with the toggle
/// flipped; an unanswered one is sent again.
pub fn handler_run_serves()
    ensures out_serves { (toggle : Toggle) (tries : ℕ) (pending : List ℕ) (packet : List ℕ) (byte : ℕ) (under_way : Option (List ℕ)) (asked : Bool) (note : Note) → OutServes toggle tries pending packet byte under_way asked note }
    ensures out_acked { OutAcked }
    ensures in_serves { (toggle : Toggle) (tries : ℕ) (held : List ℕ) (packet : List ℕ) (note : Note) → InServes toggle tries held packet note }
{}

/// A task takes the note of a handler run, and changes no other phase.
pub fn task_takes_note()
    ensures out_notes { (toggle : Toggle) (tries : ℕ) (pending : List ℕ) (under_way : Option (List ℕ)) (asked : Bool) (result : OutResult) → OutNotes toggle tries pending under_way asked result }
    ensures in_notes { (toggle : Toggle) (tries : ℕ) (held : List ℕ) (result : InResult) → InNotes toggle tries held result }
{}

/// Three tries in a row without an answer make a pipe dead (10.2.6); two don't, and a NAK between them begins the row anew.
pub fn three_tries()
    ensures out_tries { (size : ℕ) (capacity : ℕ) (toggle : Toggle) (pending : List ℕ) (packet : List ℕ) (asked : Bool) → OutTries size capacity toggle pending packet asked }
    ensures in_tries { (size : ℕ) (toggle : Toggle) (held : List ℕ) → InTries size toggle held }
{}

/// In every run of a pipe, clears among it: one that runs was sent fewer than three times in a row without an answer, and one
/// whose tries are over exactly three times. A start and every answer begin the row anew (10.2.6).
pub fn tries_are_a_row()
    ensures out_rows { (size : ℕ) (capacity : ℕ) (events : List OutEvent) → IsRow (out.after_events size capacity out.opened events).phase (out.after_events size capacity out.opened events).tries (out_row size capacity out.opened 0 events) }
    ensures in_rows { (size : ℕ) (events : List InEvent) → IsInRow (inward.after_events size inward.opened events).phase (inward.after_events size inward.opened events).tries (in_row size inward.opened 0 events) }
{}

/// A clear that is accepted takes the packet under way off what is pending and drops data that landed. Once its control transfer
/// passed the pipe rests with DATA0, and otherwise it is dead (9.4.5).
pub fn clears()
    ensures withdraws { OutWithdraws }
    ensures withdraws_empty { OutWithdrawsEmpty }
    ensures out_ends { (toggle : Toggle) (tries : ℕ) (pending : List ℕ) (under_way : Option (List ℕ)) (asked : Bool) (passed : Bool) (note : Note) (result : OutResult) → OutClearEnds toggle tries pending under_way asked passed note result }
    ensures in_clears { (toggle : Toggle) (tries : ℕ) (held : List ℕ) (passed : Bool) (note : Note) (result : InResult) → InClears toggle tries held passed note result }
{}

/// A write makes all its bytes pending where there is room for them, and else the front that fits, in every phase. A read takes the
/// front of what is held. Neither changes anything else. `capacity` is the most bytes that are pending.
pub fn writes_and_reads()
    ensures all { (capacity : ℕ) (bytes : List ℕ) (pipe : OutPipe) → length bytes ≤ capacity - length pipe.pending →
        out.written capacity bytes pipe ≡ record pipe { pending = pipe.pending ++ bytes } }
    ensures front { (capacity : ℕ) (bytes : List ℕ) (pipe : OutPipe) →
        out.written capacity bytes pipe ≡ record pipe { pending = pipe.pending ++ take (capacity - length pipe.pending) bytes } }
    ensures full { (capacity : ℕ) (bytes : List ℕ) (pipe : OutPipe) → length pipe.pending ≤ capacity → capacity - length pipe.pending ≤ length bytes →
        length (out.written capacity bytes pipe).pending ≡ capacity }
    ensures event { (size : ℕ) (capacity : ℕ) (bytes : List ℕ) (pipe : OutPipe) →
        out.after_event size capacity pipe (out.Does (out.Writes bytes)) ≡ out.written capacity bytes pipe }
    ensures asks { (size : ℕ) (capacity : ℕ) (pipe : OutPipe) → out.after_event size capacity pipe (out.Does out.Asks) ≡ record pipe { asked = true } }
    ensures reads { (size : ℕ) (n : ℕ) (pipe : InPipe) → inward.after_event size pipe (inward.Does (inward.Reads n)) ≡ record pipe { held = drop n pipe.held } }
{}

/// A pipe is opened at rest with DATA0, nothing pending, nothing held and no empty packet asked for (9.1.1.5). A closed one sends
/// nothing, whatever happens.
pub fn opened_and_closed()
    ensures out_opened { out.opened ≡ out_pipe out.Rest D0 0 [] None false }
    ensures in_opened { inward.opened ≡ in_pipe inward.Rest D0 0 [] }
    ensures out_closed { (size : ℕ) (capacity : ℕ) (events : List OutEvent) → out_sent (out.after_events size capacity out.closed events) ≡ None }
    ensures in_closed { (size : ℕ) (events : List InEvent) → in_sent (inward.after_events size inward.closed events) ≡ false }
    ensures held { inward.closed.held ≡ [] }
    ensures pending { out.closed.pending ≡ [] }
{}

/// An OUT pipe in the standard's pictures: two successful transactions (8.6.2), data that isn't accepted or is lost (8.6.3), an
/// acknowledgement that is lost (8.6.4), three of them, STALL (8.4.5), and an empty packet (5.8.3).
pub fn out_examples()
    ensures successful { out_successful ≡ out_successful_end }
    ensures not_accepted { out_not_accepted ≡ out_not_accepted_end }
    ensures again { out_again ≡ out_again_end }
    ensures lost { out_lost ≡ out_lost_end }
    ensures stalled { out_stalled ≡ out_stalled_end }
    ensures empty { out_empty ≡ out_empty_end }
{}

/// An IN pipe in the standard's pictures: two successful transactions (8.6.2), data that is lost or not ready (8.6.3), an
/// acknowledgement that is lost (8.6.4), three tokens without an answer, and STALL (8.4.5).
pub fn in_examples()
    ensures successful { in_successful ≡ in_successful_end }
    ensures not_accepted { in_not_accepted ≡ in_not_accepted_end }
    ensures again { in_again ≡ in_again_end }
    ensures lost { in_lost ≡ in_lost_end }
    ensures stalled { in_stalled ≡ in_stalled_end }
{}

/// Clears of a halted pipe, of a dead one, of one whose answer nobody has looked at and of one at rest: accepted, twice, passed and
/// failed (9.4.5). What goes on after one that passed goes with DATA0.
pub fn worked_clears()
    ensures out { OutClearsWorked }
    ensures input { InClearsWorked }
{}
