//! Laws of what a device does, in the words of USB 2.0, over the definitions that the code below and above cites. The
//! functions do nothing: each contract is a law.
#![tactic(auto)]

ghost use Rattle.std.specs.Prelude.{◌≡◌, List, true};
ghost use Rattle.device_owners.specs.Device.{World};
ghost use Rattle.device_line.specs.declared.line.DevLine.{DevLine};
ghost use Rattle.device_owners.specs.Lines.{answer_to, whole_answer};
ghost use Rattle.usb_control.specs.Table.{rows};
ghost use Rattle.device_laws.specs.Stages.{DataStages, LongIsNotOne, HasPacket};
ghost use Rattle.device_laws.specs.Requests.{all_differ, Each, IsDone, UnnamedAreRefused, Directions};
ghost use Rattle.device_laws.specs.Examples.{PlainIsRead, Reads, Setups, Addresses, Sessions};
ghost use Rattle.device_laws.specs.Seen.{AddressIsSeen, SetupIsHeard, OthersAreIgnored, BusyAnswersNak, AddressIsTold};
ghost use Rattle.device_laws.specs.World.{IsOfSet};
ghost use Rattle.device_laws.specs.Others.{PartsAreWhole, EqualPartsAnswerAlike, OthersDontReach, ForeignKeepsNothing};
ghost use Rattle.usb_descriptor.specs.declared.limits.EpLimits.{EpLimits};
ghost use Rattle.usb_descriptor.specs.Set.{IsAccepted};
ghost use Rattle.device_laws.specs.Reading.{ReadsAreDelivered, ReadsEnd};
ghost use Rattle.device_laws.specs.Traces.{AreTraces, AreNoTraces, TurnsAreOfTheTable};
ghost use Rattle.device_laws.specs.LastLine.{LacksAtMostOne};

use usb_descriptor::DescSet;
use usb_descriptor::laws::{acceptance_serves, endpoints_are_grouped};

/// The packets of a data stage for the host: joined they are the data, cut to what the host asks for; each but the last has
/// 64 bytes, and none has more; the last is shorter, or the host has all that it asked for; and it is empty only where the host
/// asked for more than there is (USB 2.0, 8.5.3.2 and 5.5.3).
pub fn data_stages()
    ensures packets { DataStages }
    ensures some { HasPacket }
    ensures long { LongIsNotOne }
{}

/// The table of requests: no two rows are for one request, a request with a row is done as that row says, and one without a row
/// is refused, but for those of a class to an interface that has an owner, in a session (USB 2.0, 9.2.7). Data goes the way
/// that bit 7 of bmRequestType says (9.3.1).
pub fn request_table()
    ensures distinct { all_differ rows ≡ true }
    ensures each { Each IsDone rows }
    ensures unnamed { UnnamedAreRefused }
    ensures directions { Directions }
{}

/// Schedules of endpoint 0 of devices without classes, with their answers, worked by hand after USB 2.0: reads with lost packets,
/// with full packets and with an empty one; SETUPs that are heard, unheard and too many, and what they end; addresses; sessions
/// and halts.
pub fn worked_schedules()
    ensures reads { Reads }
    ensures setups { Setups }
    ensures addresses { Addresses }
    ensures sessions { Sessions }
{}

/// Over every schedule, by what is seen of the device from outside (its lines and their answers alone). The address is 0 until
/// a handler run finds the status stage of a SET_ADDRESS acknowledged, which sets the one asked for, and 0 again once a
/// handler run served a reset; it is always below 128 (USB 2.0, 9.4.6).
pub fn addresses_follow_their_requests<S>()
    ensures seen { (world : World S) → IsOfSet world → AddressIsSeen world }
    ensures told { (world : World S) → IsOfSet world → AddressIsTold world }
{}

/// Over every schedule. A device that isn't addressed, or no handler run of which has served the last reset, or that had none
/// yet, answers nothing. That silence from a reset until it is served is this device's rule; the host leaves the device time to
/// recover (USB 2.0, 9.2.6.2). An undamaged SETUP to it is acknowledged whatever endpoint 0 does, also where it stalls (8.5.3).
/// Where three lie unserved the next isn't answered, which is this controller's limit; and from an acknowledged one on endpoint
/// 0 answers NAK until a handler run served the SETUP and a task took it (8.5.3, 8.6.1).
pub fn setups_are_heard<S>()
    ensures ignored { (world : World S) → IsOfSet world → OthersAreIgnored world }
    ensures setup { (world : World S) → IsOfSet world → SetupIsHeard world }
    ensures busy { (world : World S) → IsOfSet world → BusyAnswersNak world }
{}

/// A control read of data that the core gives, over every order of IN tokens, handler runs and task runs behind its SETUP, whatever
/// data and whatever acknowledgements are lost, and whatever classes do in those task runs. What the host took, each packet once,
/// are the first packets of the data cut to what it asked for, and all of it once the stage is over for it. A packet that comes is
/// the next one, or the last one again: toggles alternate from DATA1 on, and the same toggle brings the same bytes (USB 2.0, 8.5.3
/// and 8.6). With handler runs and a task run before each token, as many tokens as there are packets bring them all. A device that
/// was just reset and is asked for its descriptor meets the law's conditions.
pub fn reads_are_delivered<S>()
    ensures delivered { (world : World S) → IsOfSet world → ReadsAreDelivered world }
    ensures ended { (world : World S) → IsOfSet world → ReadsEnd world }
    ensures met { PlainIsRead }
{}

/// Every accepted set meets what the laws ask of a world, whatever its classes are.
pub fn accepted_sets_have_laws<S>(set: &DescSet)
    ensures { (limits : EpLimits) → IsAccepted set.now limits → (world : World S) → world.set ≡ set.now → IsOfSet world }
{
    acceptance_serves(set);
    endpoints_are_grouped(set);
}

/// Each answer to a schedule is the whole device's, over all lines before it: the laws of the device's answers are laws of a
/// schedule's answers, whatever its classes do.
pub fn answers_are_of_the_device<S>()
    ensures { (world : World S) → IsOfSet world → (before : List DevLine) (line : DevLine) → answer_to world before line ≡ whole_answer world before line }
{}

/// Owners are apart over every schedule, whatever their classes do. An owner's part leaves out packets on other endpoints than 0 that
/// aren't its own, and calls of others, and no line that is its own. Behind two schedules with equal parts for it the device answers its
/// lines alike; so with a line of another taken out, each answer to one of its own is as it was. Of a control transfer of another class its
/// machine keeps that one stands, and nothing of its request and its bytes.
pub fn owners_are_apart<S>()
    ensures parts { (world : World S) → PartsAreWhole world }
    ensures equal { (world : World S) → IsOfSet world → EqualPartsAnswerAlike world }
    ensures others { (world : World S) → IsOfSet world → OthersDontReach world }
    ensures foreign { (world : World S) → ForeignKeepsNothing world }
{}

/// The accesses to registers in a trace are a run of the controller from its opened state on, over every trace: each turn's
/// accesses are steps of the controller after all turns before it, 400 at most, and on the bus there are none and the answer
/// is the controller's. Traces worked by hand after RM0090 are ones, and others are none: with a SETUP that is acknowledged
/// though nothing woke the device, with a read of another word, at no register, of more than 400 accesses, on the bus, and
/// from another state than the opened one.
pub fn traces_are_of_the_table<S>()
    ensures turns { (world : World S) → TurnsAreOfTheTable world }
    ensures some { AreTraces }
    ensures none { (world : World S) → AreNoTraces world }
{}

/// The last line of a job's text may lack its newline: a text that ends with one is read as it is, and one that ends with
/// another byte as if a newline stood behind it.
pub fn last_newline_may_lack()
    ensures { LacksAtMostOne }
{}
