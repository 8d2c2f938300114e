//! Laws of the definitions. The functions do nothing: their clauses are the laws.
ghost use Rattle.class_pipes.specs.Laws.{ArmsWithRoom, StartsWhatIsQueued, BytesAreKept, ShutWhereClosed, StartsAreAnswered, LengthIsAsked};
ghost use Rattle.class_pipes.specs.Worked.{WorkedPipes};

/// A packet is taken where there is room for it, what is queued starts where the pipe rests, and no byte is lost by either.
pub fn pipes_are_served()
    ensures arms { ArmsWithRoom }
    ensures starts { StartsWhatIsQueued }
    ensures keeps { BytesAreKept }
{}

/// A class is shut where a data pipe of its is closed.
pub fn shut_where_closed()
    ensures { ShutWhereClosed }
{}

/// A call that starts a transfer is told what stands in its way, and a request's length has to be its own.
pub fn answers_are_told()
    ensures starts { StartsAreAnswered }
    ensures lengths { LengthIsAsked }
{}

/// These pipes and requests have these outcomes.
pub fn pipes_worked()
    ensures { WorkedPipes }
{}
