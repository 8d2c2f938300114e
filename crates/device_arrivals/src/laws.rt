//! Laws of what lies in the receive FIFO (after RM0090, OTG_FS: GRXSTSP). The functions do nothing.
ghost use Rattle.device_arrivals.specs.Laws.{Lands, Requested, PacketComes, RequestComes, EntriesTell, EachHasItsOwn, StayFew, FewBehind, AreToldByIts, SetupLies, IsCounted, HasRoom};

/// A packet that lands, and a SETUP that is acknowledged, lie behind all that came before, and each endpoint has its own.
pub fn what_comes_lies_behind()
    ensures packet { Lands }
    ensures request { Requested }
{}

/// The packet in front is read byte for byte, with its endpoint. Its end sets XFRC of that endpoint, whether its words were read
/// or not; what came behind it is in front then.
pub fn packets_come_out()
    ensures { PacketComes }
{}

/// The SETUP in front is read byte for byte. Its end sets STUP, and the SETUP is served.
pub fn requests_come_out()
    ensures { RequestComes }
{}

/// Where endpoint 0 has a packet and three SETUPs there at most, and each other endpoint a packet, no more lie there than these
/// four and one for each OUT endpoint.
pub fn arrivals_are_few()
    ensures { IsCounted }
{}

/// Then the FIFO of the plan has room: for a packet of an endpoint that has none there, and for a SETUP where fewer than three
/// lie there.
pub fn there_is_room()
    ensures { HasRoom }
{}

/// What the entries tell is what came: the SETUPs in their order, and each endpoint's packets in theirs.
pub fn entries_tell()
    ensures tells { EntriesTell }
    ensures own { EachHasItsOwn }
{}

/// They stay few as they come and go.
pub fn arrivals_stay_few()
    ensures with_one { StayFew }
    ensures behind { FewBehind }
{}

/// What an endpoint has is told by what lies there for it, and a SETUP's entry lies there exactly where a SETUP is told.
pub fn each_is_told_by_its_own()
    ensures its { AreToldByIts }
    ensures lies { SetupLies }
{}
