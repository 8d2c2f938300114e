//! What GET_DESCRIPTOR of an interface gives. The functions do nothing: their clauses are the laws.
ghost use Rattle.usb_control.specs.Interfaces.{InterfacesGive, DescriptorsWorked};

/// In a session an interface of HID gives its HID descriptor, whole, and the report descriptor; another value, another owner
/// and any without a session is refused (HID 1.11, 7.1.1).
pub fn interfaces_give()
    ensures { InterfacesGive }
{}

/// The descriptors of a set that was worked by hand: the HID descriptor has 12 bytes.
pub fn descriptors_worked()
    ensures { DescriptorsWorked }
{}
