//! Laws of an owner's pipes. The functions do nothing: their clauses are the laws.
ghost use Rattle.usb_pipe.specs.Laws.{PhasesSeen, CallsAreApart, CallsWorked};

/// What a class sees of each pipe, whatever that does.
pub fn phases_are_seen()
    ensures { PhasesSeen }
{}

/// A call on one pipe leaves the others.
pub fn calls_are_apart()
    ensures { CallsAreApart }
{}

/// Calls on pipes that were worked by hand.
pub fn calls_worked()
    ensures { CallsWorked }
{}
