//! The groups of worked rows, and whose the interfaces are that stand for the classes. The functions do nothing: their clauses
//! are the laws.
ghost use Rattle.descriptor_groups.specs.Groups.{LeadsBelong};
ghost use Rattle.descriptor_groups.specs.Reports.{ReportsJudged};
ghost use Rattle.descriptor_groups.specs.Examples.{GroupsWorked};
ghost use Rattle.descriptor_groups.specs.ReportExamples.{ReportsWorked};

/// Whose groups have the interfaces of some configurations that were worked by hand, where every class is built.
pub fn groups_worked()
    ensures { GroupsWorked }
{}

/// The interface that stands for a class is of its group, in a row where no two interfaces have one number.
pub fn leads_belong()
    ensures { LeadsBelong }
{}

/// A set without a report descriptor is wrong exactly where there is a HID interface. One with it is right exactly where the
/// first HID interface declares its length, the lengths of its reports can be told, and each fits its endpoint.
pub fn reports_are_judged()
    ensures { ReportsJudged }
{}

/// Whether the report descriptor of some configurations that were worked by hand is wrong, and where the HID descriptor stands.
#[tactic(auto, unfolding(hid_items::specs::Lengths::lengths_of))]
pub fn reports_worked()
    ensures { ReportsWorked }
{}
