//! Laws of the definitions. The functions do nothing: their clauses are the laws.
ghost use Rattle.hid_device_machine.specs.Examples.{WorkedDevice};
ghost use Rattle.hid_device_machine.specs.Laws.{ReportsComeOnce, ArmsForAReport, LastReportIsTold, BlankReports, ReportsAreAnswered, ReportsGoAlone, ReportsStart, SetReportIsTold, OtherDataIsRefused, IdleIsTold, ProtocolIsTold, BeginsAnew, OthersAreRefused, SetupKeeps, ClosedCallsDoNothing, CallsHaveTheirPipes, RefusedReportsDoNothing};

/// What `hid take` gave in a session is what came, each report once and in order, but for one that still waits.
pub fn reports_come_once()
    ensures { ReportsComeOnce }
{}

/// A packet is taken where no report is held.
pub fn packets_wait_for_reports()
    ensures { ArmsForAReport }
{}

/// GET_REPORT gives what the last `hid report` of an id started, and zeros behind the id before one (HID 1.11, 7.2.1).
pub fn last_reports_are_told()
    ensures last { LastReportIsTold }
    ensures blank { BlankReports }
{}

/// `hid report` is answered by the report's length first, and then by what the pipe does.
pub fn reports_are_answered()
    ensures answers { ReportsAreAnswered }
    ensures refused { RefusedReportsDoNothing }
{}

/// Each transfer is one report, and its packets are that report's.
pub fn reports_go_alone()
    ensures alone { ReportsGoAlone }
    ensures start { ReportsStart }
{}

/// SET_REPORT is told as it was given (HID 1.11, 7.2.2), and data of another length is refused.
pub fn set_reports_are_told()
    ensures told { SetReportIsTold }
    ensures refused { OtherDataIsRefused }
{}

/// The idle rate and the protocol are told as they were set (HID 1.11, 7.2.3 to 7.2.6).
pub fn settings_are_told()
    ensures idle { IdleIsTold }
    ensures protocol { ProtocolIsTold }
{}

/// Nothing of a session is left for the next one.
pub fn sessions_begin_anew()
    ensures { BeginsAnew }
{}

/// Requests that aren't listed are refused (HID 1.11, 7.2), and set nothing.
pub fn others_are_refused()
    ensures listed { OthersAreRefused }
    ensures keeps { SetupKeeps }
{}

/// No call does anything while no session stands.
pub fn closed_calls_do_nothing()
    ensures { ClosedCallsDoNothing }
{}

/// A call touches its own pipe alone.
pub fn calls_have_their_pipes()
    ensures { CallsHaveTheirPipes }
{}

/// These sequences have these outcomes: packets and reports, calls without a session, a session, requests, and data of SET_REPORT.
pub fn sequences_worked()
    ensures { WorkedDevice }
{}
