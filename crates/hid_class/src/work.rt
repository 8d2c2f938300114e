// What it does on its pipes without being called.
ghost use Rattle.std.specs.Prelude.{◌≡◌, ◌+◌, ◌≤◌};
ghost use Rattle.usb_pipe.specs.Own.{work_accesses};
ghost use Rattle.hid_device_machine.specs.Device.{pipes_after_work};

use crate::device::HidDevice;
use class_pipes::{DATA_OUT, arm_with_room};
use usb_pipe::DevPipes;

impl HidDevice {
    /// One turn of its work: the pipe that receives takes another packet where no report is held.
    pub fn work<P: DevPipes>(&mut self, pipes: &mut P)
        requires sound { P.sound pipes.old }
        requires spare { work_accesses ≤ P.spare pipes.old }
        ensures pipes { P.pipes pipes.new ≡ pipes_after_work (P.pipes pipes.old) }
        ensures hid { self.new ≡ self.old }
        ensures beside { P.beside pipes.old pipes.new }
        ensures sound { P.sound pipes.new }
        ensures spends { P.spare pipes.old ≤ P.spare pipes.new + work_accesses }
    {
        if pipes.held(DATA_OUT) == 0 {
            arm_with_room(pipes);
        }
    }
}
