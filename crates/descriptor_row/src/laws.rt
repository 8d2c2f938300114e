//! A configuration with its row, worked out by hand. The function does nothing: its clause is the law.
ghost use Rattle.descriptor_row.specs.Left.{WorkedRow};

/// The row of a configuration of two interfaces, the first of them in two alternate settings, has its descriptors at these
/// places and ends there, what is left of it are these, and the one at 34 has these bytes.
pub fn row_worked()
    ensures { WorkedRow }
{}
