//! Laws of each step of a device, and so of whole runs. The functions do nothing.
ghost use Rattle.std.specs.Prelude.{ℕ};
ghost use Rattle.device_machine.specs.Laws.{IsAddress};
ghost use Rattle.device_owners.specs.Device.{Machinery, Device};
ghost use Rattle.device_owners.specs.Steps.{IsOpen, StaysOpen, CoreServes, HaltsOne, KeepsHalts};

/// The endpoints other than 0 that are open are those of the set in a session, each as the set has it and of an owner that the machine
/// knows, and none outside one: so it is at the start, and each bus event, handler run, task run and call keeps it, where classes open
/// and close none of their pipes. There are 15 in each direction throughout.
pub fn open_in_a_session<S>()
    ensures { (m : Machinery S) → StaysOpen m }
{}

/// A bus event moves the pipes as those are moved, a handler run serves every pipe, and a task takes the note of every pipe before
/// its classes work (USB 2.0, 5.3.2 and 8.6).
pub fn pipes_are_served<S>()
    ensures { (m : Machinery S) (d : Device S) → CoreServes m d }
{}

/// A halt is told by GET_STATUS from SET_FEATURE on, until CLEAR_FEATURE, SET_CONFIGURATION or a reset that is served ends it, and
/// no packet, no handler run and no task without a SETUP changes it before its classes work
/// (USB 2.0, 9.1.1.5, 9.4.1, 9.4.5 and 9.4.9).
pub fn halts_are_told<S>()
    ensures one { (m : Machinery S) (d : Device S) (address : ℕ) → IsOpen m d → IsAddress address → HaltsOne m d address }
    ensures kept { (m : Machinery S) (d : Device S) → IsOpen m d → KeepsHalts m d }
{}
