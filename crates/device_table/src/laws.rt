//! Laws of the controller's steps. The functions do nothing.
ghost use Rattle.device_table.specs.Laws.{PlainReadsBack, SizeReadsBack, CountsAreKept, BeyondReadsNothing, OthersStay, ResetLeaves, CnakWaits, StatusReadsBack, BusLeavesOthers, LandingComesOut, NothingDue, KeptBits};
ghost use Rattle.device_table.specs.Examples.{SetupWords, PacketStatus, DescriptorRead, FourthSetup, BeforeSetup, OpenedWords, OpenedEnds, SmallWords};

/// A register that keeps what is written reads as it was written: masks, sizes of FIFOs, DCFG, DCTL and the host's
/// configuration, and the transfer size of each endpoint that there is.
pub fn kept_registers_read_back()
    ensures plain { PlainReadsBack }
    ensures sizes { SizeReadsBack }
{}

/// At the start and once opened, a controller has the endpoints and channels of its profile. The registers of others read 0.
pub fn profile_counts()
    ensures counts { CountsAreKept }
    ensures beyond { BeyondReadsNothing }
{}

/// A write to one endpoint's registers or FIFO window changes that endpoint in that direction, and nothing else.
pub fn other_endpoints_stay()
    ensures { OthersStay }
{}

/// A packet on an endpoint from 1 on changes that endpoint in that direction, and what lies in the receive FIFO, and
/// nothing else.
pub fn bus_leaves_others()
    ensures { BusLeavesOthers }
{}

/// A packet that landed in an empty receive FIFO is read byte for byte.
pub fn landed_packets_come_out()
    ensures { LandingComesOut }
{}

/// Where no bus event is due, an access is one step of the controller.
pub fn accesses_are_steps()
    ensures { NothingDue }
{}

/// A bus reset leaves the FIFOs, the endpoints and the kept registers.
pub fn reset_leaves_endpoints()
    ensures { ResetLeaves }
{}

/// While a SETUP lies in the receive FIFO, a write of its control registers leaves NAKSTS of endpoint 0 where it is set.
pub fn cnak_waits_for_setup()
    ensures { CnakWaits }
{}

/// Which bits of a control register are kept as written.
pub fn control_registers_keep_bits()
    ensures { KeptBits }
{}

/// The fields of a status word are what it was made of.
pub fn status_words_read_back()
    ensures { StatusReadsBack }
{}

/// The words that a driver reads after a SETUP that asks for the device descriptor, and the status of a DATA1 packet of
/// five bytes on endpoint 1.
pub fn worked_words()
    ensures setup { SetupWords }
    ensures packet { PacketStatus }
{}

/// A device descriptor that is read through registers, with a lost acknowledgement and a repeated status packet; a fourth
/// SETUP; and OUT packets before the first SETUP.
pub fn worked_answers()
    ensures descriptor { DescriptorRead }
    ensures fourth { FourthSetup }
    ensures before { BeforeSetup }
{}

/// The opened state of an `FS4`: its plan of 84, 16, 32, 32 and 32 words, and which endpoints and channels there are. The
/// same of a smaller controller with fewer OUT than IN endpoints.
pub fn worked_profiles()
    ensures words { OpenedWords }
    ensures ends { OpenedEnds }
    ensures small { SmallWords }
{}
