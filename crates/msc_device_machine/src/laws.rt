//! Laws of the definitions. The functions do nothing: their clauses are the laws.
ghost use Rattle.msc_device_machine.specs.BlockLaws.{WritesStand, FirstBlocksAreWritten, OthersChangeNothing, DataIsRight, StatusIsRight, BlocksAreNamed};
ghost use Rattle.msc_device_machine.specs.Examples.{Wrappers, HostExpectsNothing, HostExpectsData, HostSendsData, Reads, ReadFaults, Writes, WriteFaults, Synchronizes, PhaseErrors, Clears, Resets, Requests, Sessions, Medium, Stories};
ghost use Rattle.msc_device_machine.specs.Laws.{BeginsSound, KeepsSound, WorksSound, AsksWithin, CasesAgree, MovesNoMore, HaltsWhatIsDue, NothingInPhaseErrors, OneCall, FaultsAreTold, PacketsAreWaitedFor};

/// What a device still has to move lies on its disk, and is no more than the host expects: so it is at the start, and so all that
/// happens keeps it. The disk is asked for blocks of its own alone.
pub fn blocks_lie_on_the_disk()
    ensures begins { BeginsSound }
    ensures keeps { KeepsSound }
    ensures works { WorksSound }
    ensures asks { AsksWithin }
{}

/// A phase error stands where the host and the device don't agree on what is moved, and moves nothing; the host's pipe is halted
/// exactly where bytes are due on it (Bulk-Only Transport 1.0, 6.7).
pub fn cases_agree()
    ensures agree { CasesAgree }
    ensures no_more { MovesNoMore }
    ensures due { HaltsWhatIsDue }
{}

/// The disk is asked at most once in a task, and nothing in a phase error. A fault is told by the sense of what was asked, and no
/// other way.
pub fn disk_is_asked_once()
    ensures phase_errors { NothingInPhaseErrors }
    ensures once { OneCall }
    ensures faults { FaultsAreTold }
{}

/// In every run a packet is taken only where one is waited for, and never beside a transfer for the host.
pub fn packets_are_waited_for()
    ensures { PacketsAreWaitedFor }
{}

/// In every run: a write that is reported with status 0 stands on the disk whole, as it came; one that failed or was cut off changed
/// the first blocks of its range and nothing else; no other command changes a block of any disk.
pub fn blocks_are_kept()
    ensures stand { WritesStand }
    ensures first { FirstBlocksAreWritten }
    ensures others { OthersChangeNothing }
{}

/// In every run: what was sent for a command is right, and whole with status 0; its status wrapper has its tag, and tells what wasn't
/// moved.
pub fn commands_are_answered()
    ensures data { DataIsRight }
    ensures status { StatusIsRight }
{}

/// READ(10) and WRITE(10), and no other command, move the blocks that they name (SBC-2).
pub fn blocks_are_named()
    ensures { BlocksAreNamed }
{}

/// These wrappers are good or not, and the thirteen cases end so (Bulk-Only Transport 1.0, 6.2 and 6.7).
pub fn cases_worked()
    ensures wrappers { Wrappers }
    ensures nothing { HostExpectsNothing }
    ensures expects { HostExpectsData }
    ensures sends { HostSendsData }
{}

/// These reads, writes and synchronizations end so, with and without calls of the disk that fail; phase errors leave the disk alone.
pub fn blocks_worked()
    ensures reads { Reads }
    ensures read_faults { ReadFaults }
    ensures writes { Writes }
    ensures write_faults { WriteFaults }
    ensures synchronizes { Synchronizes }
    ensures phase_errors { PhaseErrors }
{}

/// So do these clears, resets, requests and sessions, and what a user does to the medium.
pub fn sequences_worked()
    ensures clears { Clears }
    ensures resets { Resets }
    ensures requests { Requests }
    ensures sessions { Sessions }
    ensures medium { Medium }
    ensures stories { Stories }
{}
