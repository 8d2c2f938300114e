//! What the driver keeps of an IN endpoint other than 0, and the laws of its relation to the controller. The functions do
//! nothing.
ghost use Rattle.std.specs.Prelude.{◌≡◌};
ghost use Rattle.endpoint_relation.specs.InRelation.{in_unused};
ghost use Rattle.endpoint_relation.specs.InLaws.{InTokens, InServes, InTasks, InWrites, InStarts, InDrops, InHalts, InClears, InOpens, InCloses, InBegins};
ghost use Rattle.endpoint_relation.specs.InPackets.{NextPackets, PacketCount};
ghost use Rattle.endpoint_relation.specs.InRuns.{InRuns};
ghost use Rattle.endpoint_relation.specs.InExamples.{ControlWords, OtherWords, TenBytes, TenAnswers};
ghost use Rattle.endpoint_relation.specs.InTable.{TokensAt, RunsAt, HaltsAt, ClearsAt, DropsAt, OpensAt, ClosesAt, StateIsKept, FlushesAll, ResetsAt};

use usb_descriptor::{Endpoint, EpKind, Owner};

/// How far an IN endpoint is.
#[derive(Clone, Copy, Debug, PartialEq, Eq, Drop)]
pub enum InState {
    /// No session has it open.
    Closed,
    /// No transfer runs.
    Rest,
    /// A transfer runs.
    Running,
    /// A handler run found that a transfer ended, and no task has taken its note.
    Posted,
}

/// What the driver keeps of an IN endpoint.
#[derive(Clone, Copy)]
pub struct InEndpoint {
    /// The endpoint that is open.
    pub endpoint: Endpoint,
    pub state: InState,
    /// It is halted (USB 2.0, 9.4.5).
    pub halted: bool,
    /// How many bytes the transfer has that runs or ended.
    pub bytes: u16,
    /// How many of them are in packets that the driver found acknowledged.
    pub sent: u16,
    /// How many packets of it the driver hasn't found acknowledged.
    pub left: u16,
    /// How many of these are loaded, 0 to 2.
    pub loaded: u8,
}

impl InEndpoint {
    /// What is kept of an endpoint that isn't open.
    pub fn unused() -> InEndpoint
        ensures { result ≡ in_unused }
    {
        InEndpoint {
            endpoint: Endpoint {
                addr: 0,
                kind: EpKind::Bulk,
                size: 0,
                owner: Owner::Core,
            },
            state: InState::Closed,
            halted: false,
            bytes: 0,
            sent: 0,
            left: 0,
            loaded: 0,
        }
    }
}

/// A token on an IN endpoint, where the device hears its address, is answered as the pipe answers it, and by NAK where the
/// core has the endpoint. What the token leaves is the pipe's next state (USB 2.0, 8.4.5 and 8.6).
pub fn tokens()
    ensures { InTokens }
{}

/// A handler run makes of the endpoint what it makes of the pipe: it reads DIEPINT once where packets are loaded, clears XFRC
/// where all are acknowledged, and then loads the next two packets, or the last one, or ends the transfer.
pub fn handler_runs()
    ensures { InServes }
{}

/// So does a task, which takes the note.
pub fn tasks()
    ensures { InTasks }
{}

/// So do a class's calls: it writes, starts what is queued, and drops what is queued and runs.
pub fn class_calls()
    ensures writes { InWrites }
    ensures starts { InStarts }
    ensures drops { InDrops }
{}

/// So do a halt and a clear (USB 2.0, 9.4.5).
pub fn halts()
    ensures halts { InHalts }
    ensures clears { InClears }
{}

/// So do the begin and the end of a session, and the start.
pub fn sessions()
    ensures opens { InOpens }
    ensures closes { InCloses }
    ensures begins { InBegins }
{}

/// A token for the device's address is the endpoint's step, one for another address changes nothing, and a bus reset leaves
/// the endpoint.
pub fn bus_lines()
    ensures { TokensAt }
{}

/// The register lines of each step at the controller are the step at the endpoint, and leave all else but GRSTCTL as it was.
pub fn register_lines()
    ensures runs { RunsAt }
    ensures halts { HaltsAt }
    ensures clears { ClearsAt }
    ensures drops { DropsAt }
    ensures opens { OpensAt }
    ensures closes { ClosesAt }
    ensures state { StateIsKept }
    ensures flushes { FlushesAll }
    ensures resets { ResetsAt }
{}

/// Where the packets that are loaded next lie in the ring, how many they are, and how many bytes they have; and how many
/// packets a transfer has: one of no bytes has an empty one.
pub fn packets()
    ensures next { NextPackets }
    ensures count { PacketCount }
{}

/// Whole runs: from the begin of a session on, whatever tokens, handler runs, tasks and calls come, an endpoint of a class is
/// the pipe to which the same happened, and answers each token as that pipe does (USB 2.0, 8.4.5 and 8.6).
pub fn runs()
    ensures { InRuns }
{}

/// Words of control registers, of DIEPTSIZ, DIEPINT and GRSTCTL, and the lines that load ten bytes as two packets.
pub fn worked_words()
    ensures control { ControlWords }
    ensures other { OtherWords }
    ensures lines { TenBytes }
{}

/// A transfer of ten bytes on an interrupt endpoint of eight, with a packet that is lost once, and one of no bytes.
pub fn worked_answers()
    ensures { TenAnswers }
{}
