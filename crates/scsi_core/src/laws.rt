//! Commands with their answers, worked out by hand. The function does nothing: its clause is the law.
ghost use Rattle.scsi_core.specs.Worked.{WorkedCommands};

/// [`command`](crate::command) answers these commands so, and leaves these units: data whole and cut, the last block and
/// those past it, which refusal comes first, what moves the medium, and which sense is told first.
pub fn commands_worked()
    ensures { WorkedCommands }
{}
