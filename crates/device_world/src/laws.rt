//! Laws of a device's world. The functions do nothing: their clauses are the laws.
ghost use Rattle.std.specs.Prelude.{ℕ, Option};
ghost use Rattle.usb_descriptor.specs.Set.{Set};
ghost use Rattle.device_owners.specs.Steps.{OpenNone};
ghost use Rattle.device_world.specs.World.{world_of};
ghost use Rattle.device_world.specs.Examples.{SerialRequests, SerialRequestsEnd, SerialTransfers, SerialPipes, SerialParts, OthersAreClosed};

/// Schedules of a whole device with a serial port, worked by hand after USB 2.0 and CDC PSTN 1.2: its requests and where they end, its
/// transfers and its pipes, the parts of a schedule, and calls of classes that aren't there.
pub fn schedules_worked()
    ensures requests { SerialRequests }
    ensures ends { SerialRequestsEnd }
    ensures transfers { SerialTransfers }
    ensures pipes { SerialPipes }
    ensures parts { SerialParts }
    ensures others { OthersAreClosed }
{}

/// No class opens or closes a pipe, in its work or at a call: sessions do (USB 2.0, 9.4.7).
pub fn classes_open_none()
    ensures { (set : Set) (blocks : Option ℕ) → OpenNone (world_of set blocks) }
{}
