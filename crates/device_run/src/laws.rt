//! The law of steps. The function does nothing: its clause is the law.
ghost use Rattle.device_run.specs.Owners.{StepsAreOfOwners};

/// What `step` promises of one line, over many: each answer is that of its line's owner, by that owner's own machine over its part of the
/// lines before, alone.
pub fn steps_are_of_owners()
    ensures { StepsAreOfOwners }
{}
