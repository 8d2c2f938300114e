//! Laws over whole runs of a pipe (USB 2.0, 5.7.3 for interrupt and 5.8.3 for bulk, 8.4.5, 8.6 and 9.4.5). The functions do
//! nothing.
ghost use Rattle.std.specs.Prelude.{◌≡◌, ◌≤◌, ◌<◌, ℕ, ◌++◌, ◌-◌, List, [], ◌∷◌, Bool, true, false, length, take, drop, get_or, Option, Some};
ghost use Rattle.std.specs.List.{concat, All};
ghost use Rattle.usb_packet.specs.declared.bus.Toggle.{Toggle};
ghost use Rattle.usb_packet.specs.declared.bus.Toggle.TheVariants.{D0};
ghost use Rattle.usb_packet.specs.declared.bus.BusAnswer.TheVariants as answers;
ghost use Rattle.usb_packet.specs.Toggles.{flipped, same_toggle};
ghost use Rattle.device_pipe.specs.OutPipe as out;
ghost use Rattle.device_pipe.specs.OutPipe.{OutPipe, OutDeed, OutEvent, out_answer, is_ack, landed};
ghost use Rattle.device_pipe.specs.InPipe as inward;
ghost use Rattle.device_pipe.specs.InPipe.{InPipe, InEvent, in_answer, cut};
ghost use Rattle.device_pipe.specs.OutLink.{OutStep, out_run, out_start};
ghost use Rattle.device_pipe.specs.InLink.{InStep, in_run, in_start};
ghost use Rattle.device_pipe.specs.Laws.{IsTakenOnce, IsKeptOnce, IsBounded, AreFull, IsUnheard, took, read, DropsNothing, is_data, IsOutOpen, IsInOpen, ClearsNoOut, ClearsNoIn, ArmsNothing, ArmsAndHaltsNothing, LeavesArmed, LeavesToggle, RunsNoHandler, InRunsNoHandler, after_sessions, in_answers, rounds};
ghost use Rattle.device_pipe.specs.OutExamples.{out_successful, out_successful_end, out_not_accepted, out_not_accepted_end, out_unheard, out_unheard_end, out_again, out_again_end};
ghost use Rattle.device_pipe.specs.InExamples.{in_successful, in_successful_end, in_lost, in_lost_end, in_unheard, in_unheard_end, in_again, in_again_end, in_full, in_full_end};

/// OUT, exactly once and in order, in runs without a clear, a drop or a close: whatever is lost on the way, what the class
/// read, what is held and what landed are the packets that the host moved on from, and, exactly where the toggles differ, its
/// front packet behind them (8.6.4). The class learned once of each packet whose handler run and task came, which is each of
/// them but for one that landed or whose note no task has taken.
pub fn out_exactly_once()
    ensures { (pipe : OutPipe) (given : List (List ℕ)) (steps : List OutStep) → IsTakenOnce given (out_run (out_start pipe given) steps) }
{}

/// IN, exactly once and in order, in runs without a clear, a drop or a close: whatever is lost on the way, the packets that the
/// host kept are those of the transfers that started, but for the ones left of the transfer that runs, of which the front one
/// was kept exactly where the toggles differ (8.6.4). Joined they are the front of what the class queued.
pub fn in_exactly_once()
    ensures { (size : ℕ) (capacity : ℕ) (steps : List InStep) → IsKeptOnce capacity (in_run size capacity in_start steps) }
{}

/// A packet for the host that wasn't acknowledged is sent again byte for byte with the same toggle, whatever handler runs,
/// task runs, starts, writes and tokens without acknowledgement come between (8.6.3).
pub fn sent_again()
    ensures { (size : ℕ) (capacity : ℕ) (pipe : InPipe) (events : List InEvent) (toggle : Toggle) (packet : List ℕ) → All IsUnheard events →
        in_answer pipe ≡ answers.Data toggle packet → in_answer (inward.after_events size capacity pipe events) ≡ answers.Data toggle packet }
{}

/// A pipe that is armed stays so: it acknowledges each packet, whatever handler runs, task runs, arms, reads, drops and packets
/// of the other toggle come between, until one of its toggle comes. That lands.
pub fn stays_armed()
    ensures acknowledges { (pipe : OutPipe) (events : List OutEvent) → pipe.phase ≡ out.Armed → pipe.halted ≡ false → All (LeavesArmed pipe.toggle) events →
        out_answer (out.after_events pipe events) ≡ answers.Ack }
    ensures takes { (pipe : OutPipe) (events : List OutEvent) (packet : List ℕ) → pipe.phase ≡ out.Armed → pipe.halted ≡ false → All (LeavesArmed pipe.toggle) events →
        (out.after_packet (out.after_events pipe events) pipe.toggle packet).phase ≡ out.Landed packet }
{}

/// The packets of a transfer, joined, are its bytes (5.7.3 for interrupt, 5.8.3 for bulk). Each but the last has exactly the
/// endpoint's size, and the last has at most so many bytes. It is empty only where the transfer has no bytes, and then it is
/// the only one.
pub fn packets_of_a_transfer()
    ensures joined { (size : ℕ) (bytes : List ℕ) → concat (cut size bytes) ≡ bytes }
    ensures sizes { (size : ℕ) (bytes : List ℕ) → 1 ≤ size → 1 ≤ length bytes → AreFull size (cut size bytes) }
    ensures single { (size : ℕ) (bytes : List ℕ) → length bytes ≤ size → cut size bytes ≡ bytes ∷ [] }
    ensures more { (size : ℕ) (bytes : List ℕ) → 1 ≤ size → size < length bytes → cut size bytes ≡ take size bytes ∷ cut size (drop size bytes) }
{}

/// A packet of the other toggle changes nothing, and an armed pipe acknowledges it (8.6.4). So a packet that comes again with
/// the toggle of one that landed is held once, whatever the device did between but for a clear, and however often it came again
/// in the meantime. A clear sets the pipe back to DATA0, so that it may take the packet a second time.
pub fn repeated_packet()
    ensures acknowledged { (pipe : OutPipe) → pipe.phase ≡ out.Armed → pipe.halted ≡ false → out_answer pipe ≡ answers.Ack }
    ensures dropped { (pipe : OutPipe) (toggle : Toggle) (packet : List ℕ) → same_toggle toggle pipe.toggle ≡ false → out.after_packet pipe toggle packet ≡ pipe }
    ensures once { (pipe : OutPipe) (packet : List ℕ) (deeds : List OutDeed) (again : List ℕ) → out_answer pipe ≡ answers.Ack →
        out.after_packet (out.after_deeds (out.after_packet pipe pipe.toggle packet) deeds) pipe.toggle again ≡
        out.after_deeds (out.after_packet pipe pipe.toggle packet) deeds }
    ensures once_in_events { (pipe : OutPipe) (packet : List ℕ) (events : List OutEvent) (again : List ℕ) → out_answer pipe ≡ answers.Ack →
        All (LeavesToggle (flipped pipe.toggle)) events →
        out.after_packet (out.after_events (out.after_packet pipe pipe.toggle packet) events) pipe.toggle again ≡
        out.after_events (out.after_packet pipe pipe.toggle packet) events }
{}

/// No byte that an OUT pipe took is lost by a halt or a clear, or by anything else but a drop or a close: what lay at the
/// device and what was acknowledged with the pipe's toggle, in order, is what was read and what lies at the device then. Only
/// the bytes of packets with the pipe's toggle count: one of the other toggle is acknowledged and dropped (8.6.4). A halt of an
/// IN pipe leaves its queue, its transfer and what lies ready.
pub fn nothing_lost()
    ensures run { (pipe : OutPipe) (events : List OutEvent) → All DropsNothing events →
        pipe.held ++ landed pipe.phase ++ took pipe events ≡
        read pipe events ++ ((out.after_events pipe events).held ++ landed (out.after_events pipe events).phase) }
    ensures held { (pipe : OutPipe) → (out.cleared pipe).held ≡ pipe.held }
    ensures landed { (pipe : OutPipe) → (out.cleared pipe).phase ≡ pipe.phase }
    ensures held_at_halt { (pipe : OutPipe) → (out.halted_ pipe).held ≡ pipe.held }
    ensures landed_at_halt { (pipe : OutPipe) → (out.halted_ pipe).phase ≡ pipe.phase }
    ensures toggle_at_halt { (pipe : OutPipe) → (out.halted_ pipe).toggle ≡ pipe.toggle }
    ensures in_phase_at_halt { (pipe : InPipe) → (inward.halted_ pipe).phase ≡ pipe.phase }
    ensures in_loaded_at_halt { (pipe : InPipe) → (inward.halted_ pipe).loaded ≡ pipe.loaded }
    ensures in_queue_at_halt { (pipe : InPipe) → (inward.halted_ pipe).queue ≡ pipe.queue }
{}

/// A halt halts a pipe, and leaves its toggle (9.4.9). From then on an open pipe answers STALL until a clear, whatever comes
/// between (8.4.5, 9.4.5).
pub fn halt()
    ensures out_halt { (pipe : OutPipe) → (out.halted_ pipe).halted ≡ true }
    ensures in_halt { (pipe : InPipe) → (inward.halted_ pipe).halted ≡ true }
    ensures in_toggle { (pipe : InPipe) → (inward.halted_ pipe).toggle ≡ pipe.toggle }
    ensures out_stalls { (pipe : OutPipe) (events : List OutEvent) → IsOutOpen pipe.phase → All ClearsNoOut events →
        out_answer (out.after_events pipe (out.Does out.Halts ∷ events)) ≡ answers.Stall }
    ensures in_stalls { (size : ℕ) (capacity : ℕ) (pipe : InPipe) (events : List InEvent) → IsInOpen pipe.phase → All ClearsNoIn events →
        in_answer (inward.after_events size capacity pipe (inward.Does inward.Halts ∷ events)) ≡ answers.Stall }
{}

/// A clear sets DATA0 and ends the halt (9.4.5). That of an IN pipe takes the bytes of the transfer that runs off the queue,
/// and no others: where none runs, the queue stays. It leaves nothing ready: what is sent next is the first packet of what was
/// queued behind.
pub fn clear()
    ensures out_toggle { (pipe : OutPipe) → (out.cleared pipe).toggle ≡ D0 }
    ensures out_halt { (pipe : OutPipe) → (out.cleared pipe).halted ≡ false }
    ensures in_toggle { (pipe : InPipe) → (inward.cleared pipe).toggle ≡ D0 }
    ensures in_halt { (pipe : InPipe) → (inward.cleared pipe).halted ≡ false }
    ensures queue { (pipe : InPipe) (n : ℕ) (left : List (List ℕ)) → pipe.phase ≡ inward.Running n left → (inward.cleared pipe).queue ≡ drop n pipe.queue }
    ensures queue_at_rest { (pipe : InPipe) → pipe.phase ≡ inward.Rest → (inward.cleared pipe).queue ≡ pipe.queue }
    ensures queue_posted { (pipe : InPipe) (n : ℕ) → pipe.phase ≡ inward.Posted n → (inward.cleared pipe).queue ≡ pipe.queue }
    ensures rests { (pipe : InPipe) → IsInOpen pipe.phase → (inward.cleared pipe).phase ≡ inward.Rest }
    ensures waits { (size : ℕ) (capacity : ℕ) (pipe : InPipe) (events : List InEvent) → All InRunsNoHandler events →
        is_data (in_answer (inward.after_events size capacity (inward.cleared pipe) events)) ≡ false }
    ensures empty { (pipe : InPipe) → IsInOpen pipe.phase → in_answer (inward.cleared pipe) ≡ answers.Nak }
    ensures next { (size : ℕ) (capacity : ℕ) (queue : List ℕ) (n : ℕ) (left : List (List ℕ)) (loaded : ℕ) (toggle : Toggle) (halted : Bool) →
        in_answer
        (inward.after_events size capacity (record { queue = queue; phase = inward.Running n left; loaded = loaded; toggle = toggle; halted = halted })
        (inward.Clears ∷ inward.Does inward.Starts ∷ inward.Does inward.Irq ∷ [])) ≡
        answers.Data D0 (get_or (cut size (drop n queue)) 0 []) }
{}

/// Where a pipe answers NAK, STALL or nothing, the packet or the token changes nothing; nor does a token whose packet isn't
/// acknowledged. An open pipe that takes or sends none answers NAK: a packet on a pipe that isn't armed gets it before its
/// toggle is looked at, as this controller does. A halted pipe answers STALL to every packet and token until its halt is
/// cleared, so it takes none and sends none (8.4.5, 9.4.5).
pub fn refused()
    ensures out_packet { (pipe : OutPipe) (toggle : Toggle) (packet : List ℕ) → is_ack (out_answer pipe) ≡ false → out.after_packet pipe toggle packet ≡ pipe }
    ensures in_token { (pipe : InPipe) (ok : Bool) → is_data (in_answer pipe) ≡ false → inward.after_token pipe ok ≡ pipe }
    ensures unheard { (pipe : InPipe) → inward.after_token pipe false ≡ pipe }
    ensures out_nak { (pipe : OutPipe) → IsOutOpen pipe.phase → pipe.halted ≡ false → is_ack (out_answer pipe) ≡ false → out_answer pipe ≡ answers.Nak }
    ensures in_nak { (pipe : InPipe) → IsInOpen pipe.phase → pipe.halted ≡ false → is_data (in_answer pipe) ≡ false → in_answer pipe ≡ answers.Nak }
    ensures out_halted { (pipe : OutPipe) (events : List OutEvent) → pipe.halted ≡ true → IsOutOpen pipe.phase → All ClearsNoOut events →
        out_answer (out.after_events pipe events) ≡ answers.Stall }
    ensures in_halted { (size : ℕ) (capacity : ℕ) (pipe : InPipe) (events : List InEvent) → pipe.halted ≡ true → IsInOpen pipe.phase → All ClearsNoIn events →
        in_answer (inward.after_events size capacity pipe events) ≡ answers.Stall }
{}

/// After a packet landed no other is acknowledged until a task arms the pipe: each gets NAK, or STALL where the endpoint was
/// halted. That holds of the packet that landed too, where it comes again: this controller gives NAK before it looks at the
/// toggle. No task arms a pipe that is halted.
pub fn only_a_task_arms()
    ensures refused { (pipe : OutPipe) (packet : List ℕ) (events : List OutEvent) → out_answer pipe ≡ answers.Ack → All ArmsNothing events →
        is_ack (out_answer (out.after_events (out.after_packet pipe pipe.toggle packet) events)) ≡ false }
    ensures nak { (pipe : OutPipe) (packet : List ℕ) (events : List OutEvent) → out_answer pipe ≡ answers.Ack → All ArmsAndHaltsNothing events →
        out_answer (out.after_events (out.after_packet pipe pipe.toggle packet) events) ≡ answers.Nak }
    ensures halted { (pipe : OutPipe) → pipe.halted ≡ true → out.armed pipe ≡ pipe }
{}

/// Only a handler run loads: from a pipe with nothing loaded no packet is sent until one ran, whatever is started, cleared or
/// dropped.
pub fn only_a_handler_run_loads()
    ensures { (size : ℕ) (capacity : ℕ) (pipe : InPipe) (events : List InEvent) → pipe.loaded ≡ 0 → All InRunsNoHandler events →
        is_data (in_answer (inward.after_events size capacity pipe events)) ≡ false }
{}

/// A write queues all its bytes where there is room for them, and else the front that fits, in every phase, halted or not. It
/// changes nothing else. `capacity` is the most bytes that are queued.
pub fn writes()
    ensures all { (capacity : ℕ) (bytes : List ℕ) (pipe : InPipe) → length bytes ≤ capacity - length pipe.queue →
        inward.written capacity bytes pipe ≡ record pipe { queue = pipe.queue ++ bytes } }
    ensures front { (capacity : ℕ) (bytes : List ℕ) (pipe : InPipe) →
        inward.written capacity bytes pipe ≡ record pipe { queue = pipe.queue ++ take (capacity - length pipe.queue) bytes } }
    ensures full { (capacity : ℕ) (bytes : List ℕ) (pipe : InPipe) → length pipe.queue ≤ capacity → capacity - length pipe.queue ≤ length bytes →
        length (inward.written capacity bytes pipe).queue ≡ capacity }
    ensures event { (size : ℕ) (capacity : ℕ) (bytes : List ℕ) (pipe : InPipe) →
        inward.after_event size capacity pipe (inward.Does (inward.Writes bytes)) ≡ inward.written capacity bytes pipe }
{}

/// What an IN pipe keeps to in every run: what lies ready are packets of the transfer that runs, two at most; that transfer
/// lies in the queue, and the queue in its capacity.
pub fn in_bounded()
    ensures { (size : ℕ) (capacity : ℕ) (events : List InEvent) → IsBounded capacity (inward.after_events size capacity inward.opened events) }
{}

/// Dropping empties the bytes held of an OUT pipe and changes nothing else. It empties the queue of an IN pipe and ends its
/// transfer, so that nothing is sent until a handler run finds another; the toggle and the halt stay.
pub fn drop_all()
    ensures held { (pipe : OutPipe) → (out.dropped pipe).held ≡ [] }
    ensures phase { (pipe : OutPipe) → (out.dropped pipe).phase ≡ pipe.phase }
    ensures toggle { (pipe : OutPipe) → (out.dropped pipe).toggle ≡ pipe.toggle }
    ensures halt { (pipe : OutPipe) → (out.dropped pipe).halted ≡ pipe.halted }
    ensures queue { (pipe : InPipe) → (inward.dropped pipe).queue ≡ [] }
    ensures rests { (pipe : InPipe) → IsInOpen pipe.phase → (inward.dropped pipe).phase ≡ inward.Rest }
    ensures in_toggle { (pipe : InPipe) → (inward.dropped pipe).toggle ≡ pipe.toggle }
    ensures in_halt { (pipe : InPipe) → (inward.dropped pipe).halted ≡ pipe.halted }
    ensures waits { (size : ℕ) (capacity : ℕ) (pipe : InPipe) (events : List InEvent) → All InRunsNoHandler events →
        is_data (in_answer (inward.after_events size capacity (inward.dropped pipe) events)) ≡ false }
{}

/// A pipe that is served moves packets. An OUT pipe at rest that is armed takes a packet of its toggle, and is at rest again
/// after a handler run and a task run. A handler run that finds nothing loaded loads two packets of a transfer, or the last
/// one; one that finds a packet loaded loads none. A transfer whose packets are acknowledged ends.
pub fn moves_packets()
    ensures takes { (toggle : Toggle) (held : List ℕ) (packet : List ℕ) →
        out.after_events (record { phase = out.Rest; halted = false; toggle = toggle; held = held })
        (out.Does out.Arms ∷ out.Packet toggle packet ∷ out.Does out.Irq ∷ out.Does out.Task ∷ []) ≡
        record { phase = out.Rest; halted = false; toggle = flipped toggle; held = held ++ packet } }
    ensures first { (size : ℕ) (capacity : ℕ) (queue : List ℕ) (toggle : Toggle) →
        in_answer
        (inward.after_events size capacity (record { queue = queue; phase = inward.Rest; loaded = 0; toggle = toggle; halted = false })
        (inward.Does inward.Starts ∷ inward.Does inward.Irq ∷ [])) ≡
        answers.Data toggle (get_or (cut size queue) 0 []) }
    ensures two { (size : ℕ) (capacity : ℕ) (queue : List ℕ) (n : ℕ) (a : List ℕ) (b : List ℕ) (left : List (List ℕ)) (toggle : Toggle) →
        in_answers size capacity (record { queue = queue; phase = inward.Running n (a ∷ b ∷ left); loaded = 0; toggle = toggle; halted = false })
        (inward.Does inward.Irq ∷ inward.Token true ∷ inward.Token true ∷ inward.Token true ∷ []) ≡
        answers.Data toggle a ∷ answers.Data (flipped toggle) b ∷ answers.Nak ∷ [] }
    ensures one { (size : ℕ) (capacity : ℕ) (queue : List ℕ) (n : ℕ) (a : List ℕ) (toggle : Toggle) →
        in_answers size capacity (record { queue = queue; phase = inward.Running n (a ∷ []); loaded = 0; toggle = toggle; halted = false })
        (inward.Does inward.Irq ∷ inward.Token true ∷ inward.Token true ∷ []) ≡
        answers.Data toggle a ∷ answers.Nak ∷ [] }
    ensures pace { (size : ℕ) (capacity : ℕ) (queue : List ℕ) (n : ℕ) (a : List ℕ) (b : List ℕ) (left : List (List ℕ)) (toggle : Toggle) →
        in_answers size capacity (record { queue = queue; phase = inward.Running n (a ∷ b ∷ left); loaded = 0; toggle = toggle; halted = false })
        (inward.Does inward.Irq ∷ inward.Token true ∷ inward.Does inward.Irq ∷ inward.Token true ∷ inward.Token true ∷ []) ≡
        answers.Data toggle a ∷ answers.Data (flipped toggle) b ∷ answers.Nak ∷ [] }
    ensures ends { (size : ℕ) (capacity : ℕ) (queue : List ℕ) (n : ℕ) (left : List (List ℕ)) (toggle : Toggle) (k : ℕ) → length left ≤ k →
        inward.ended
        (inward.after_events size capacity (record { queue = queue; phase = inward.Running n left; loaded = 0; toggle = toggle; halted = false }) (rounds k)) ≡
        Some n }
{}

/// What came or was acknowledged is worked off, halted or not. Where no packet of a transfer is left, a handler run ends the
/// transfer: its bytes leave the queue, and the next task learns of them and takes the note. A handler run moves a packet that
/// landed, and the next task learns of it and takes the note.
pub fn halted_or_not()
    ensures over { (size : ℕ) (capacity : ℕ) (pipe : InPipe) (n : ℕ) → pipe.phase ≡ inward.Running n [] →
        inward.after_event size capacity pipe (inward.Does inward.Irq) ≡ record pipe { queue = drop n pipe.queue; phase = inward.Posted n } }
    ensures told { (pipe : InPipe) (n : ℕ) → pipe.phase ≡ inward.Posted n → inward.ended pipe ≡ Some n }
    ensures noted { (size : ℕ) (capacity : ℕ) (pipe : InPipe) (n : ℕ) → pipe.phase ≡ inward.Posted n →
        inward.after_event size capacity pipe (inward.Does inward.Task) ≡ record pipe { phase = inward.Rest } }
    ensures moved { (pipe : OutPipe) (packet : List ℕ) → pipe.phase ≡ out.Landed packet →
        out.after_event pipe (out.Does out.Irq) ≡ record pipe { held = pipe.held ++ packet; phase = out.Posted } }
    ensures out_told { (pipe : OutPipe) → pipe.phase ≡ out.Posted → out.came pipe ≡ true }
    ensures out_noted { (pipe : OutPipe) → pipe.phase ≡ out.Posted → out.after_event pipe (out.Does out.Task) ≡ record pipe { phase = out.Rest } }
{}

/// A pipe that is closed answers nothing, whatever comes, and holds nothing. Where a packet that was dropped with it still lies
/// in the receive FIFO, an OUT pipe that is opened takes no packet until a handler run has passed over that one, in however
/// many sessions; from then on it serves as every other, at DATA0 and with nothing held (9.1.1.5).
pub fn opened_and_closed()
    ensures silent { (pipe : OutPipe) (events : List OutEvent) → out_answer (out.after_events (out.closed pipe) events) ≡ answers.NoAnswer }
    ensures in_silent { (size : ℕ) (capacity : ℕ) (events : List InEvent) → in_answer (inward.after_events size capacity inward.closed events) ≡ answers.NoAnswer }
    ensures empty { (pipe : OutPipe) → (out.closed pipe).held ≡ [] }
    ensures fresh { (pipe : OutPipe) → (out.opened pipe).held ++ landed (out.opened pipe).phase ≡ [] }
    ensures toggle { (pipe : OutPipe) → (out.opened pipe).toggle ≡ D0 }
    ensures again { (pipe : OutPipe) → out.opened (out.closed pipe) ≡ out.opened pipe }
    ensures landed { (pipe : OutPipe) (packet : List ℕ) → pipe.phase ≡ out.Landed packet → (out.opened (out.closed pipe)).phase ≡ out.Stale }
    ensures passed { (pipe : OutPipe) → (out.opened (out.after_irq (out.closed pipe))).phase ≡ out.Rest }
    ensures stale { (pipe : OutPipe) (events : List OutEvent) → out.leaves_packet pipe.phase ≡ true → All RunsNoHandler events →
        is_ack (out_answer (out.after_events (out.opened pipe) events)) ≡ false }
    ensures rests { (pipe : OutPipe) → (out.opened (out.closed (out.after_irq pipe))).phase ≡ out.Rest }
    ensures over { (pipe : OutPipe) (packet : List ℕ) (events : List OutEvent) (sessions : List (List OutEvent)) → pipe.phase ≡ out.Landed packet →
        All (All RunsNoHandler) (events ∷ sessions) → is_ack (out_answer (after_sessions pipe (events ∷ sessions))) ≡ false }
    ensures in_opened { in_answer inward.opened ≡ answers.Nak }
    ensures unopened { (out.opened out.unopened).phase ≡ out.Rest }
    ensures serves { (pipe : OutPipe) → out_answer (out.after_events (out.opened pipe) (out.Does out.Irq ∷ out.Does out.Arms ∷ [])) ≡ answers.Ack }
{}

/// An OUT pipe in the standard's pictures: two successful transactions (8.6.2), data that isn't accepted or is lost (8.6.3),
/// and an acknowledgement that is lost (8.6.4).
pub fn out_examples()
    ensures successful { out_successful ≡ out_successful_end }
    ensures not_accepted { out_not_accepted ≡ out_not_accepted_end }
    ensures unheard { out_unheard ≡ out_unheard_end }
    ensures again { out_again ≡ out_again_end }
{}

/// An IN pipe in the standard's pictures: two successful transactions (8.6.2), data that is lost (8.6.3), an acknowledgement
/// that is lost (8.6.4), and transfers of one full packet and of no bytes
/// (5.7.3, 5.8.3).
pub fn in_examples()
    ensures successful { in_successful ≡ in_successful_end }
    ensures lost { in_lost ≡ in_lost_end }
    ensures unheard { in_unheard ≡ in_unheard_end }
    ensures again { in_again ≡ in_again_end }
    ensures full { in_full ≡ in_full_end }
{}
