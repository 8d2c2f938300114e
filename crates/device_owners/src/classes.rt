//! Laws of what classes make of their pipes. The functions do nothing.
ghost use Rattle.device_owners.specs.Device.{Machinery, Device};
ghost use Rattle.device_owners.specs.Classes.{CallsStayOpen, LeavePipes, IdleTask};

/// A class that does to its pipes what its calls on them do opens and closes none (USB 2.0, 9.4.7).
pub fn calls_stay_open()
    ensures { CallsStayOpen }
{}

/// Where classes leave their pipes, a task makes of them what the core makes: without a SETUP it takes their notes and changes no
/// halt (USB 2.0, 9.4.5).
pub fn idle_classes_leave_pipes<S>()
    ensures { (m : Machinery S) (d : Device S) → LeavePipes m.world → IdleTask m d }
{}
