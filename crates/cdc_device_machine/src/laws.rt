//! Laws of the definitions. The functions do nothing: their clauses are the laws.
ghost use Rattle.cdc_device_machine.specs.Examples.{WorkedPort};
ghost use Rattle.cdc_device_machine.specs.Laws.{CodingIsRead, BytesAreKept, TakesTheTable, RefusalKeepsCoding, CodingIsTold, CodingIsAlone, LinesAreSet, OthersAreRefused, SetupKeeps, EmptyPacketEndsWholePackets, OnlyDataEnds, ArmsWithRoom, WorkKeepsBytes, ClosedCallsDoNothing, CallsHaveTheirPipes, ReadsTheFirst, FlushStartsBytes, NotificationsAreWhole};

/// A line coding is read from its bytes, and written as those that it was read from.
pub fn codings_are_carried()
    ensures read { CodingIsRead }
    ensures kept { BytesAreKept }
{}

/// The codings of table 17 are taken (CDC PSTN 1.2, 6.3.11), and no other bytes.
pub fn codings_are_of_the_table()
    ensures taken { TakesTheTable }
    ensures refused { RefusalKeepsCoding }
{}

/// GET_LINE_CODING gives what SET_LINE_CODING set, and that sets nothing else.
pub fn codings_are_told()
    ensures told { CodingIsTold }
    ensures alone { CodingIsAlone }
{}

/// DTR is the lowest bit and RTS the next one, and no other request changes anything at its SETUP packet.
pub fn lines_are_set()
    ensures set { LinesAreSet }
    ensures keeps { SetupKeeps }
{}

/// A request to another interface is refused.
pub fn others_are_refused()
    ensures { OthersAreRefused }
{}

/// An empty packet ends whole packets, and nothing else.
pub fn whole_packets_are_ended()
    ensures owed { EmptyPacketEndsWholePackets }
    ensures data { OnlyDataEnds }
{}

/// A packet is taken where there is room for it, and no byte is lost by the work.
pub fn packets_have_room()
    ensures arms { ArmsWithRoom }
    ensures keeps { WorkKeepsBytes }
{}

/// No call does anything while no session stands.
pub fn closed_calls_do_nothing()
    ensures { ClosedCallsDoNothing }
{}

/// A call touches its own pipe alone; a read gives the first bytes, and a flush starts no empty transfer.
pub fn calls_have_their_pipes()
    ensures others { CallsHaveTheirPipes }
    ensures reads { ReadsTheFirst }
    ensures flush { FlushStartsBytes }
{}

/// A notification has as many bytes as it says.
pub fn notifications_are_whole()
    ensures { NotificationsAreWhole }
{}

/// These sequences have these outcomes: room for a packet, empty packets, flushes, reads and writes, notifications, calls without
/// a session, requests, and line codings.
pub fn sequences_worked()
    ensures { WorkedPort }
{}
