//! Report descriptors with their lengths and faults. The function does nothing: its clause is the law.
ghost use Rattle.hid_items.specs.Worked.{WorkedDescriptors};

/// The keyboard and the mouse of HID 1.11, E.6 and E.10, and small descriptors worked out by hand have these lengths, or these
/// faults at these places.
#[tactic(auto, unfolding(crate::specs::Lengths::lengths_of))]
pub fn descriptors_worked()
    ensures { WorkedDescriptors }
{}
