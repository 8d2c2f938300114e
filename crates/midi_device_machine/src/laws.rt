//! Laws of the definitions. The functions do nothing: their clauses are the laws.
ghost use Rattle.midi_device_machine.specs.Examples.{WorkedPort};
ghost use Rattle.midi_device_machine.specs.Laws.{TakesWhatHasRoom, SessionCarries, TakesWholeEvents, SessionTells, ArmsWithRoom, StartsWhatIsQueued, WorkKeepsBytes, ClosedCallsDoNothing, CallsHaveTheirPipes, TellingKeeps, RequestsAreRefused};

/// A byte is taken exactly where the four bytes of an event are free before it.
pub fn bytes_have_room()
    ensures { TakesWhatHasRoom }
{}

/// What leaves for the host in a session are the events of the stream that was taken, and they carry what it says: each message with
/// its status, a SysEx byte for byte, a real-time byte at once.
pub fn streams_are_carried()
    ensures { SessionCarries }
{}

/// Events are told whole, the first ones first, and as the bytes that they carry where those are asked for.
pub fn events_are_whole()
    ensures whole { TakesWholeEvents }
    ensures keeps { TellingKeeps }
{}

/// What is told in a session is what came, each byte once.
pub fn events_are_told_once()
    ensures { SessionTells }
{}

/// A packet is taken where there is room for it, what is queued starts where nothing runs, and no byte is lost by the work.
pub fn pipes_are_served()
    ensures arms { ArmsWithRoom }
    ensures starts { StartsWhatIsQueued }
    ensures keeps { WorkKeepsBytes }
{}

/// No call does anything while no session stands.
pub fn closed_calls_do_nothing()
    ensures { ClosedCallsDoNothing }
{}

/// A call touches its own pipe alone, and starts none.
pub fn calls_have_their_pipes()
    ensures { CallsHaveTheirPipes }
{}

/// All requests to its interface are refused.
pub fn requests_are_refused()
    ensures { RequestsAreRefused }
{}

/// These sequences have these outcomes: streams and events, room, packets, calls without a session, requests.
pub fn sequences_worked()
    ensures { WorkedPort }
{}
