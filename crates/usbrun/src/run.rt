ghost use Rattle.std.specs.Prelude.{◌≡◌, ◌↔◌, take, ◌+◌, ◌≤◌, ◌<◌, Some, IfSome, IsTrue, true, ◌⊎◌, [], length, is_some};
ghost use Rattle.dwc2_regs.specs.declared.access.TheConstants.{FS4};
ghost use Rattle.device_table.specs.State.{opened};
ghost use Rattle.usb_edge.specs.Stream.{Rose, IsAtEnd};
ghost use Rattle.usb_edge.specs.Outcome.{faults_at_tell};
ghost use Rattle.device_owners.specs.Device.{start};
ghost use Rattle.device_owners.specs.Isolation.{Isolates};
ghost use Rattle.usb_text.specs.Line.{schedule_text_of, IsScheduled};
ghost use Rattle.usb_text.specs.Scheduled.{Device, scheduled, run_line};
ghost use Rattle.device_line.specs.declared.line.DevLine.TheVariants.{Bus as BusLine, Call};
ghost use Rattle.usb_pipe.specs.Said.{reply_with};
ghost use Rattle.usb_packet.specs.declared.bus.BusAnswer.TheVariants.{Done};
ghost use Rattle.device_line.specs.declared.line.Answer.TheVariants.{Bus, Reply as TheReply};
ghost use Rattle.device_text.specs.Job.{most_bytes};
ghost use Rattle.device_run.specs.Run.{Steps, world, answer_of};
ghost use Rattle.usbrun.specs.Stream.{HasRoom};
ghost use Rattle.usbrun.specs.Texts.{trace_part, added_where, both, Hears};
ghost use Rattle.job_reader.specs.Lines.{IsLineAt, size_of};
ghost use Rattle.usbrun.specs.Session.{Looks, FindsNext, Keeps, TakesLine, Goes, Runs, out_faults, trace_faults, out_faults_at, trace_faults_at};

use crate::session::{Session, Stop};
use crate::texts::Texts;
use crate::turn::{BusTurn, ReplyTurn};
use arrayvec::ArrayVec;
use dwc2_regs::Access;
use job_reader::{Lines, Next, line_break};
use usb_edge::{Sink, Source};
use usb_packet::{BusAnswer, BusEvent};
use usb_text::{DevCall, DevLine, RunLine, ScheduleLine, read_bus, read_run, read_schedule};

/// The most bytes that a job has, up to and with its last line.
const MOST_BYTES: u64 = 1_073_741_824;

#[tactic(auto, using(crate::proofs::Turns::progress_start, crate::proofs::Turns::progress_more))]
/// Runs the schedule line by line until it stops.
pub fn run_schedule<S: Source, K: Sink, T: Sink>(
    session: &mut Session,
    src: &mut S,
    out: &mut K,
    trace: &mut T,
) -> Stop
    requires count { session.old.lines.count ≤ most_bytes }
    requires lines { session.old.lines.lines ≤ session.old.lines.count }
    requires ended { (session.old.lines.ended ≡ true) → IsAtEnd (S.left src.old) }
    requires start { session.old.run.device ≡ start (world session.old.run) }
    requires table { session.old.run.table ≡ opened FS4 }
    requires empty { session.old.texts.out ≡ [] }
    requires apart { Isolates (world session.old.run) }
    ensures runs { Runs result (S.left src.old) (S.left src.new) (both (K.taken out.old) (T.taken trace.old)) (both (K.taken out.new) (T.taken trace.new)) session.old session.new }
    ensures ended { (session.new.lines.ended ≡ true) → IsAtEnd (S.left src.new) }
    ensures source { S.faults src.old ≤ S.faults src.new }
    ensures read_fault { result ≡ Stop.ReadFault → Rose (S.faults src.old) (S.faults src.new) }
    ensures out_faults { K.faults out.new ≡ out_faults result (K.faults out.old) }
    ensures trace_faults { T.faults trace.new ≡ trace_faults result (T.faults trace.old) }
{
    let mut bytes = ArrayVec::new();
    'lines: loop {
        if let Some(stop) = go_on(session, src, &mut bytes, out, trace) {
            return stop;
        }
    }
}

/// Reads the next line of the schedule and answers it, or tells why the run ends. `bytes` has room for those of a reply.
fn go_on<S: Source, K: Sink, T: Sink>(
    session: &mut Session,
    src: &mut S,
    bytes: &mut ArrayVec<u8, 4096>,
    out: &mut K,
    trace: &mut T,
) -> Option<Stop>
    requires count { session.old.lines.count ≤ most_bytes }
    requires lines { session.old.lines.lines ≤ session.old.lines.count }
    requires ended { (session.old.lines.ended ≡ true) → IsAtEnd (S.left src.old) }
    ensures goes { Goes result (S.left src.old) (S.left src.new) (both (K.taken out.old) (T.taken trace.old)) (both (K.taken out.new) (T.taken trace.new)) session.old session.new }
    ensures ended { (session.new.lines.ended ≡ true) → IsAtEnd (S.left src.new) }
    ensures source { S.faults src.old ≤ S.faults src.new }
    ensures read_fault { result ≡ Some Stop.ReadFault → Rose (S.faults src.old) (S.faults src.new) }
    ensures out_faults { K.faults out.new ≡ out_faults_at result (K.faults out.old) }
    ensures trace_faults { T.faults trace.new ≡ trace_faults_at result (T.faults trace.old) }
{
    match look(session, src, out) {
        Some(Next::Line(n)) => take_line(session, n, bytes, out, trace),
        Some(Next::Nothing) => Some(Stop::Short),
        Some(Next::LineTooLong) => Some(Stop::Refused(1)),
        Some(Next::ReadFault) => Some(Stop::ReadFault),
        None => Some(Stop::OutFault),
    }
}

#[tactic(auto, using(job_reader::proofs::Gone::finds_nothing, job_reader::proofs::Gone::line_found, crate::proofs::Handed::nothing_handed))]
/// Looks for the next line. What waits is handed on before anything is read; where that fails there is none.
fn look<S: Source, K: Sink>(session: &mut Session, src: &mut S, out: &mut K) -> Option<Next>
    requires { (session.old.lines.ended ≡ true) → IsAtEnd (S.left src.old) }
    ensures looks { Looks (S.left src.old) (S.left src.new) (K.taken out.old) (K.taken out.new) session.old session.new }
    ensures next { FindsNext result session.new (S.faults src.old) (S.faults src.new) }
    ensures handed { (src.new ≡ src.old) ⊎ (session.new.texts.out ≡ []) }
    ensures ended { (session.new.lines.ended ≡ true) → IsAtEnd (S.left src.new) }
    ensures exact { K.faults out.new ≡ faults_at_tell (is_some result) (K.faults out.old) }
    ensures source { S.faults src.old ≤ S.faults src.new }
{
    if let Some(n) = line_break(session.lines.reader.ahead()) {
        return Some(Next::Line(n));
    }
    if !session.texts.flush(out) {
        return None;
    }
    Some(session.lines.find(src))
}

#[tactic(auto, using(crate::proofs::Handed::nothing_handed, crate::proofs::Handed::then_added))]
/// Answers the line of `n` bytes that stands in front, and takes it with its newline. The trace is told before the output
/// has anything of the line.
fn take_line<K: Sink, T: Sink>(
    session: &mut Session,
    n: usize,
    bytes: &mut ArrayVec<u8, 4096>,
    out: &mut K,
    trace: &mut T,
) -> Option<Stop>
    requires count { session.old.lines.count ≤ most_bytes }
    requires lines { session.old.lines.lines ≤ session.old.lines.count }
    requires line { IsLineAt n session.old.lines }
    ensures takes { TakesLine result n (both (K.taken out.old) (T.taken trace.old)) (both (K.taken out.new) (T.taken trace.new)) session.old session.new }
    ensures read_fault { result ≡ Some Stop.ReadFault → ⊥ }
    ensures out_faults { K.faults out.new ≡ out_faults_at result (K.faults out.old) }
    ensures trace_faults { T.faults trace.new ≡ trace_faults_at result (T.faults trace.old) }
{
    if let Some(run) = read_run(session.lines.line(n)) {
        return take_run(session, n, run, out, trace);
    }
    if let Some(event) = read_bus(session.lines.line(n)) {
        return take_bus(session, n, &event, out, trace);
    }
    take_other(session, n, bytes, out, trace)
}

#[tactic(auto, using(crate::proofs::Handed::nothing_handed, crate::proofs::Handed::then_added))]
/// The same with a call, the last line, or a line that is refused. It has room for the bytes of a call.
#[inline(never)]
fn take_other<K: Sink, T: Sink>(
    session: &mut Session,
    n: usize,
    bytes: &mut ArrayVec<u8, 4096>,
    out: &mut K,
    trace: &mut T,
) -> Option<Stop>
    requires count { session.old.lines.count ≤ most_bytes }
    requires lines { session.old.lines.lines ≤ session.old.lines.count }
    requires line { IsLineAt n session.old.lines }
    ensures takes { TakesLine result n (both (K.taken out.old) (T.taken trace.old)) (both (K.taken out.new) (T.taken trace.new)) session.old session.new }
    ensures read_fault { result ≡ Some Stop.ReadFault → ⊥ }
    ensures out_faults { K.faults out.new ≡ out_faults_at result (K.faults out.old) }
    ensures trace_faults { T.faults trace.new ≡ trace_faults_at result (T.faults trace.old) }
{
    let read = read_schedule(session.lines.line(n));
    match &read {
        Ok(line) => take_read(session, n, line, bytes, out, trace),
        Err(fault) => Some(Stop::Refused(fault.rule)),
    }
}

#[tactic(auto, using(crate::proofs::Handed::nothing_handed, crate::proofs::Handed::then_added))]
/// The same where the line was read.
fn take_read<K: Sink, T: Sink>(
    session: &mut Session,
    n: usize,
    line: &ScheduleLine,
    bytes: &mut ArrayVec<u8, 4096>,
    out: &mut K,
    trace: &mut T,
) -> Option<Stop>
    requires count { session.old.lines.count ≤ most_bytes }
    requires lines { session.old.lines.lines ≤ session.old.lines.count }
    requires line { IsLineAt n session.old.lines }
    requires text { take n session.old.lines.reader ≡ schedule_text_of (scheduled line.now) }
    requires fits { IsScheduled (scheduled line.now) }
    ensures takes { TakesLine result n (both (K.taken out.old) (T.taken trace.old)) (both (K.taken out.new) (T.taken trace.new)) session.old session.new }
    ensures read_fault { result ≡ Some Stop.ReadFault → ⊥ }
    ensures out_faults { K.faults out.new ≡ out_faults_at result (K.faults out.old) }
    ensures trace_faults { T.faults trace.new ≡ trace_faults_at result (T.faults trace.old) }
{
    if is_too_long(&session.lines, n) {
        return Some(Stop::TooLong);
    }
    match line {
        ScheduleLine::End => Some(Stop::End),
        ScheduleLine::Served(line) => {
            if !make_room(session, out) {
                return Some(Stop::OutFault);
            }
            let told = answer(session, line, bytes, trace);
            session.lines.take(n);
            if told { None } else { Some(Stop::TraceFault) }
        }
    }
}

/// Whether the job would have too many bytes with the line of `n` bytes that stands in front.
fn is_too_long(lines: &Lines, n: usize) -> bool
    requires count { lines.now.count ≤ most_bytes }
    requires line { IsLineAt n lines.now }
    ensures { IsTrue result ↔ (most_bytes < lines.now.count + size_of n lines.now.reader) }
{
    MOST_BYTES - lines.count < lines.size(n) as u64
}

#[tactic(auto, using(crate::proofs::Handed::nothing_handed, crate::proofs::Handed::then_added))]
/// The same where the line is one run.
fn take_run<K: Sink, T: Sink>(
    session: &mut Session,
    n: usize,
    run: RunLine,
    out: &mut K,
    trace: &mut T,
) -> Option<Stop>
    requires count { session.old.lines.count ≤ most_bytes }
    requires lines { session.old.lines.lines ≤ session.old.lines.count }
    requires line { IsLineAt n session.old.lines }
    requires text { take n session.old.lines.reader ≡ schedule_text_of (Device (run_line run)) }
    ensures takes { TakesLine result n (both (K.taken out.old) (T.taken trace.old)) (both (K.taken out.new) (T.taken trace.new)) session.old session.new }
    ensures read_fault { result ≡ Some Stop.ReadFault → ⊥ }
    ensures out_faults { K.faults out.new ≡ out_faults_at result (K.faults out.old) }
    ensures trace_faults { T.faults trace.new ≡ trace_faults_at result (T.faults trace.old) }
{
    if is_too_long(&session.lines, n) {
        return Some(Stop::TooLong);
    }
    if !make_room(session, out) {
        return Some(Stop::OutFault);
    }
    let told = answer_run(session, run, trace);
    session.lines.take(n);
    if told { None } else { Some(Stop::TraceFault) }
}

#[tactic(auto, using(crate::proofs::Handed::nothing_handed, crate::proofs::Handed::then_added))]
/// The same where the line is a bus event.
fn take_bus<K: Sink, T: Sink>(
    session: &mut Session,
    n: usize,
    event: &BusEvent,
    out: &mut K,
    trace: &mut T,
) -> Option<Stop>
    requires count { session.old.lines.count ≤ most_bytes }
    requires lines { session.old.lines.lines ≤ session.old.lines.count }
    requires line { IsLineAt n session.old.lines }
    requires text { take n session.old.lines.reader ≡ schedule_text_of (Device (BusLine event.now)) }
    requires fits { IsScheduled (Device (BusLine event.now)) }
    ensures takes { TakesLine result n (both (K.taken out.old) (T.taken trace.old)) (both (K.taken out.new) (T.taken trace.new)) session.old session.new }
    ensures read_fault { result ≡ Some Stop.ReadFault → ⊥ }
    ensures out_faults { K.faults out.new ≡ out_faults_at result (K.faults out.old) }
    ensures trace_faults { T.faults trace.new ≡ trace_faults_at result (T.faults trace.old) }
{
    if is_too_long(&session.lines, n) {
        return Some(Stop::TooLong);
    }
    if !make_room(session, out) {
        return Some(Stop::OutFault);
    }
    let told = answer_bus(session, event, trace);
    session.lines.take(n);
    if told { None } else { Some(Stop::TraceFault) }
}

/// Lets the device serve one run, and tells of it as of the answer to any line.
#[inline(always)]
fn answer_run<T: Sink>(session: &mut Session, run: RunLine, trace: &mut T) -> bool
    requires { HasRoom session.old.texts.out }
    ensures told { Hears result (T.taken trace.old) (T.taken trace.new) (trace_part session.new.run.log (answer_of session.old.run (run_line run))) }
    ensures texts { session.new.texts ≡ added_where result session.old.texts session.new.run.log (answer_of session.old.run (run_line run)) }
    ensures run { Steps session.old.run session.new.run (run_line run) (answer_of session.old.run (run_line run)) }
    ensures lines { session.new.lines ≡ session.old.lines }
    ensures exact { T.faults trace.new ≡ faults_at_tell result (T.faults trace.old) }
{
    match run {
        RunLine::Irq => session.run.irq(),
        RunLine::Task => session.run.task(),
    }
    tell_done(session.run.trace(), &mut session.texts, trace)
}

/// Lets the device answer a bus event, and tells of it as of the answer to any line.
fn answer_bus<T: Sink>(session: &mut Session, event: &BusEvent, trace: &mut T) -> bool
    requires { HasRoom session.old.texts.out }
    ensures told { Hears result (T.taken trace.old) (T.taken trace.new) (trace_part session.new.run.log (answer_of session.old.run (BusLine event.now))) }
    ensures texts { session.new.texts ≡ added_where result session.old.texts session.new.run.log (answer_of session.old.run (BusLine event.now)) }
    ensures run { Steps session.old.run session.new.run (BusLine event.now) (answer_of session.old.run (BusLine event.now)) }
    ensures lines { session.new.lines ≡ session.old.lines }
    ensures exact { T.faults trace.new ≡ faults_at_tell result (T.faults trace.old) }
{
    let answer = session.run.bus(event);
    tell_bus(session.run.trace(), &answer, &mut session.texts, trace)
}

#[tactic(auto, using(crate::proofs::Handed::nothing_handed))]
/// Makes room for what one line adds, by handing on what waits where there is none: whether there is room.
fn make_room<K: Sink>(session: &mut Session, out: &mut K) -> bool
    ensures keeps { Keeps (K.taken out.old) (K.taken out.new) session.old session.new }
    ensures room { IsTrue result → HasRoom session.new.texts.out }
    ensures exact { K.faults out.new ≡ faults_at_tell result (K.faults out.old) }
{
    if session.texts.has_room() {
        return true;
    }
    session.texts.flush(out)
}

/// Lets the device answer a line, tells the trace its accesses and the answer, and puts what the output shows of them
/// behind what waits: whether the trace took them.
fn answer<T: Sink>(
    session: &mut Session,
    line: &DevLine,
    bytes: &mut ArrayVec<u8, 4096>,
    trace: &mut T,
) -> bool
    requires { HasRoom session.old.texts.out }
    ensures told { Hears result (T.taken trace.old) (T.taken trace.new) (trace_part session.new.run.log (answer_of session.old.run line.now)) }
    ensures texts { session.new.texts ≡ added_where result session.old.texts session.new.run.log (answer_of session.old.run line.now) }
    ensures run { Steps session.old.run session.new.run line.now (answer_of session.old.run line.now) }
    ensures lines { session.new.lines ≡ session.old.lines }
    ensures exact { T.faults trace.new ≡ faults_at_tell result (T.faults trace.old) }
{
    match line {
        DevLine::Bus(event) => answer_bus(session, event, trace),
        DevLine::Irq => answer_run(session, RunLine::Irq, trace),
        DevLine::Task => answer_run(session, RunLine::Task, trace),
        DevLine::Call(call) => answer_call(session, call, bytes, trace),
    }
}

/// Lets the device answer a call, and tells of it as of the answer to any line. The bytes of the reply stand in `bytes`.
fn answer_call<T: Sink>(
    session: &mut Session,
    call: &DevCall,
    bytes: &mut ArrayVec<u8, 4096>,
    trace: &mut T,
) -> bool
    requires { HasRoom session.old.texts.out }
    ensures told { Hears result (T.taken trace.old) (T.taken trace.new) (trace_part session.new.run.log (answer_of session.old.run (Call call.now))) }
    ensures texts { session.new.texts ≡ added_where result session.old.texts session.new.run.log (answer_of session.old.run (Call call.now)) }
    ensures run { Steps session.old.run session.new.run (Call call.now) (answer_of session.old.run (Call call.now)) }
    ensures lines { session.new.lines ≡ session.old.lines }
    ensures exact { T.faults trace.new ≡ faults_at_tell result (T.faults trace.old) }
{
    let said = session.run.answer(call, bytes);
    let turn = ReplyTurn {
        accesses: session.run.trace(),
        said,
        bytes: bytes.as_slice(),
    };
    tell_reply(&turn, &mut session.texts, trace)
}

/// Tells the trace the accesses of a line and what the device answers on the bus, and then the output: whether the trace
/// took them.
#[inline(always)]
fn tell_bus<T: Sink>(
    accesses: &[Access],
    answer: &BusAnswer,
    texts: &mut Texts,
    trace: &mut T,
) -> bool
    requires room { HasRoom texts.old.out }
    requires few { length accesses.now ≤ 400 }
    ensures told { Hears result (T.taken trace.old) (T.taken trace.new) (trace_part accesses.now (Bus answer.now)) }
    ensures texts { texts.new ≡ added_where result texts.old accesses.now (Bus answer.now) }
    ensures exact { T.faults trace.new ≡ faults_at_tell result (T.faults trace.old) }
{
    if !trace.tell(&BusTurn { accesses, answer }) {
        return false;
    }
    texts.push_bus(accesses, answer);
    true
}

/// The same with a run, which is answered `Done`: most lines are runs, and this has no room for a packet.
#[inline(always)]
fn tell_done<T: Sink>(accesses: &[Access], texts: &mut Texts, trace: &mut T) -> bool
    requires room { HasRoom texts.old.out }
    requires few { length accesses.now ≤ 400 }
    ensures told { Hears result (T.taken trace.old) (T.taken trace.new) (trace_part accesses.now (Bus Done)) }
    ensures texts { texts.new ≡ added_where result texts.old accesses.now (Bus Done) }
    ensures exact { T.faults trace.new ≡ faults_at_tell result (T.faults trace.old) }
{
    let turn = BusTurn {
        accesses,
        answer: &BusAnswer::Done,
    };
    if !trace.tell(&turn) {
        return false;
    }
    texts.push_done(accesses);
    true
}

/// The same with a reply.
fn tell_reply<T: Sink>(turn: &ReplyTurn, texts: &mut Texts, trace: &mut T) -> bool
    requires { HasRoom texts.old.out }
    ensures told { Hears result (T.taken trace.old) (T.taken trace.new) (trace_part turn.now.accesses.now (TheReply (reply_with turn.now.said turn.now.bytes.now))) }
    ensures texts { texts.new ≡ added_where result texts.old turn.now.accesses.now (TheReply (reply_with turn.now.said turn.now.bytes.now)) }
    ensures exact { T.faults trace.new ≡ faults_at_tell result (T.faults trace.old) }
{
    if !trace.tell(turn) {
        return false;
    }
    texts.push_reply(turn);
    true
}
