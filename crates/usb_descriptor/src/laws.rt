//! What an accepted set promises to a controller's driver, that owners differ, and that the endpoints of an interface
//! have its owner. The functions only look at bytes.
ghost use Rattle.std.specs.Prelude.{ℕ, Bool, ◌^◌, ◌<◌, slice_index};
ghost use Rattle.usb_descriptor.specs.Set.{IsAccepted, endpoints_of};
ghost use Rattle.usb_descriptor.specs.Served.{AreServed};
ghost use Rattle.usb_descriptor.specs.Owners.{AreToldApart, AreGrouped, AreAlwaysGrouped, AreLed};
ghost use Rattle.usb_descriptor.specs.Examples.{OwnersWorked};
ghost use Rattle.usb_descriptor.specs.ReportExamples.{ReportSetsWorked};

use crate::limits::EpLimits;
use crate::set::DescSet;
use usb_packet::Owner;

/// No two endpoints of an accepted set have one address, each has a number that the controller has in its direction
/// and packets of 1 to 64 bytes, and they are at most thirty.
#[allow(unused_variables)]
pub fn endpoints_are_served(set: &DescSet, limits: EpLimits)
    requires { IsAccepted set.now limits }
    ensures { AreServed limits (endpoints_of set.now.config) }
{
    acceptance_serves(set);
}

/// So it is by whichever limits a set is accepted.
pub fn acceptance_serves(set: &DescSet)
    ensures { (limits : EpLimits) → IsAccepted set.now limits → AreServed limits (endpoints_of set.now.config) }
{
    bytes_are_small(set.config());
}

/// An interface belongs to one owner: no class passes for another one or for the core.
pub fn owners_are_told_apart()
    ensures { AreToldApart }
{}

/// Each endpoint of an interface of an accepted set belongs to the interface's owner, whichever classes are built.
#[allow(unused_variables)]
pub fn endpoints_are_grouped(set: &DescSet)
    ensures built { (limits : EpLimits) → IsAccepted set.now limits → AreGrouped set.now }
    ensures always { (limits : EpLimits) → IsAccepted set.now limits → AreAlwaysGrouped set.now }
{}

/// The interface that stands for a class in an accepted set is the class's own, and each class that has an interface has that
/// one, whichever classes are built.
#[allow(unused_variables)]
pub fn classes_are_led(set: &DescSet)
    ensures { (limits : EpLimits) → IsAccepted set.now limits → (built : Owner → Bool) → AreLed set.now built }
{}

/// The owners of the interfaces and endpoints of some configurations that were worked by hand, where every class is built.
pub fn owners_worked()
    ensures { OwnersWorked }
{}

/// The verdict on some sets with a HID interface that were worked by hand, and their HID descriptors.
#[tactic(auto, unfolding(hid_items::specs::Lengths::lengths_of))]
pub fn report_sets_worked()
    ensures { ReportSetsWorked }
{}

/// A byte has eight bits.
#[allow(unused_variables)]
fn bytes_are_small(bytes: &[u8])
    ensures { (i : ℕ) → slice_index bytes.now i < 2 ^ 8 }
{}
