//! Laws of owners.
ghost use Rattle.usb_descriptor.specs.declared.limits.EpLimits.{EpLimits};
ghost use Rattle.device_owners.specs.Device.{World, Machinery};
ghost use Rattle.device_owners.specs.Isolation.{IsIsolating, EqualParts};
ghost use Rattle.device_owners.specs.NoCalls.{AskNoCalls};

/// Whatever the classes do by their rules: each answer of the whole device is that of its owner's own machine over that owner's part
/// of the schedule alone.
pub fn owners_are_isolated<S>()
    ensures { (world : World S) (limits : EpLimits) → IsIsolating world limits }
{}

/// Two schedules whose parts for one owner are equal give that owner equal answers, whatever the others did.
pub fn equal_parts<S>()
    ensures { (world : World S) → EqualParts world }
{}

/// A bus event, a handler run and a task run ask for no call, nor for what the classes held at the start: machines with the same
/// descriptors and rules make the same steps at them.
pub fn steps_ask_no_calls<S>()
    ensures { (m n : Machinery S) → AskNoCalls m n }
{}
