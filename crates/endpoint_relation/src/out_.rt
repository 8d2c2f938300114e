//! An OUT endpoint other than 0: what the driver keeps of it, and laws of the relation. The functions do nothing.
ghost use Rattle.std.specs.Prelude.{◌≡◌, false};
ghost use Rattle.endpoint_relation.specs.OutRelation.{not_open};
ghost use Rattle.endpoint_relation.specs.OutLaws.{OutPacketKeeps, OutMoveKeeps, OutMoveFits, OutIdleKeeps, OutResetKeeps, OutNoteKeeps, OutReadKeeps, OutDropKeeps, OutArmKeeps, OutHaltKeeps, OutClearKeeps, OutOpenKeeps, OutCloseKeeps, OutStarts};
ghost use Rattle.endpoint_relation.specs.OutTable.{OutPuts, OutWritesMeet, OutBusMeets, OutLiesApart, OutPopsWhole};
ghost use Rattle.endpoint_relation.specs.OutEvents.{OutEventsKeep, OutEventsAnswer};
ghost use Rattle.endpoint_relation.specs.OutAccesses.{OutAccessesServe, OutAccessesLeave, OutPopsLeaveControl, OutResetServes};
ghost use Rattle.endpoint_relation.specs.OutExamples.{OutWordsWorked, OutSizesSay, OutRegistersWorked, OutAnswersWorked};

use usb_descriptor::{Endpoint, EpKind, Owner};

/// What an OUT endpoint does, as far as the driver knows. That a packet landed the driver learns in its next handler run.
#[derive(Clone, Copy, Debug, PartialEq, Eq)]
pub enum OutState {
    /// No session has it open.
    Closed,
    /// No packet is taken until a task arms it.
    Rest,
    /// The next packet is taken, or was.
    Armed,
    /// A handler run moved a packet into the ring, and no task has taken its note.
    Posted,
    /// It was opened while a packet that was dropped lay in the receive FIFO. It rests from the next handler run on.
    Stale,
}

/// What the driver keeps of an OUT endpoint.
#[derive(Clone, Copy)]
pub struct OutEndpoint {
    /// The endpoint that is open. Where none is, it has address 0, size 0 and the core as its owner.
    pub endpoint: Endpoint,
    pub state: OutState,
    /// It is halted (USB 2.0, 9.4.5).
    pub halted: bool,
    /// A packet that was dropped with the pipe lies in the receive FIFO.
    pub over: bool,
}

impl OutEndpoint {
    /// What is kept of an endpoint that isn't open.
    pub fn unused() -> OutEndpoint
        ensures { result ≡ not_open false }
    {
        OutEndpoint::shut(false)
    }

    /// The same, where a packet that was dropped may lie in the receive FIFO.
    pub fn shut(over: bool) -> OutEndpoint
        ensures { result ≡ not_open over }
    {
        OutEndpoint {
            endpoint: Endpoint {
                addr: 0,
                kind: EpKind::Bulk,
                size: 0,
                owner: Owner::Core,
            },
            state: OutState::Closed,
            halted: false,
            over,
        }
    }
}

/// The device's answer to a packet from the host is that of the endpoint's pipe, NAK for the core's. The packet makes of the
/// pipe what it makes of that, and all agrees again.
pub fn bus_keeps_out()
    ensures { OutPacketKeeps }
{}

/// A handler run that finds a packet of the endpoint moves exactly its bytes into the ring, which has room for them, or
/// passes over one that was dropped. One that finds none leaves the pipe. One that serves a reset closes it and leaves nothing of it.
pub fn handler_run_keeps_out()
    ensures moves { OutMoveKeeps }
    ensures fits { OutMoveFits }
    ensures leaves { OutIdleKeeps }
    ensures resets { OutResetKeeps }
{}

/// A task takes the note of a packet that was moved; the class reads bytes that came, drops them, or arms its pipe.
pub fn task_keeps_out()
    ensures notes { OutNoteKeeps }
    ensures reads { OutReadKeeps }
    ensures drops { OutDropKeeps }
    ensures arms { OutArmKeeps }
{}

/// An endpoint is halted and its halt ends; a packet that landed stays.
pub fn halt_keeps_out()
    ensures halts { OutHaltKeeps }
    ensures clears { OutClearKeeps }
{}

/// A session opens an endpoint and closes it.
pub fn session_keeps_out()
    ensures opens { OutOpenKeeps }
    ensures closes { OutCloseKeeps }
{}

/// At the start and in the opened state no endpoint is open, and all agrees.
pub fn out_starts()
    ensures { OutStarts }
{}

/// Of the endpoints that there are, each holds what was put into it last. The writes of each call make of the endpoint what the
/// call's own step makes of it, and leave all else. Where an armed endpoint is closed, NAKSTS tells whether a packet landed.
pub fn writes_meet_out()
    ensures puts { OutPuts }
    ensures writes { OutWritesMeet }
{}

/// The controller answers a packet as the endpoint's registers say, and the packet leaves in them and in the receive FIFO what
/// they say. A bus reset leaves both.
pub fn bus_meets_out()
    ensures { OutBusMeets }
{}

/// Every bus event keeps what holds of each OUT endpoint of a controller. A packet for one makes of its pipe what it makes of
/// that, and is answered as the pipe answers it; every other event leaves the pipe.
pub fn events_keep_out()
    ensures keeps { OutEventsKeep }
    ensures answers { OutEventsAnswer }
{}

/// The receive FIFO keeps each endpoint's packets in order and apart from the others' and from SETUPs. A handler run that pops a
/// packet's two entries finds its number, its count and its words, and leaves the entries behind it, however many of its words
/// are read.
pub fn fifo_tells_out_packets()
    ensures apart { OutLiesApart }
    ensures pops { OutPopsWhole }
{}

/// On the whole controller each call's writes, and a handler run's accesses where a packet of the endpoint lies foremost, make
/// of its pipe what that says. What is written to another endpoint, and what is popped and read of another's packets, leaves
/// it. No pop changes its control register, and a handler run that serves a reset leaves nothing of
/// it.
pub fn accesses_keep_out()
    ensures serve { OutAccessesServe }
    ensures leave { OutAccessesLeave }
    ensures controls { OutPopsLeaveControl }
    ensures resets { OutResetServes }
{}

/// Words of the registers of a bulk endpoint of 64 bytes and of an interrupt endpoint of 8, and what they read while the first
/// is opened, is armed, takes a packet, is served and is closed. How the device answers meanwhile.
pub fn worked_out_words()
    ensures words { OutWordsWorked }
    ensures sizes { OutSizesSay }
    ensures registers { OutRegistersWorked }
    ensures answers { OutAnswersWorked }
{}
