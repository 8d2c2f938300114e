// What it does on its pipes without being called.
ghost use Rattle.std.specs.Prelude.{◌≡◌, ◌+◌, ◌≤◌};
ghost use Rattle.usb_pipe.specs.Own.{call_accesses, work_accesses};
ghost use Rattle.cdc_device_machine.specs.Port.{owes_empty, with_end, pipes_after_work, after_work};

use crate::device::CdcDevice;
use class_pipes::{DATA_IN, arm_with_room, is_at_rest};
use usb_pipe::DevPipes;

impl CdcDevice {
    /// One turn of its work. The pipe that receives takes another packet where it has room for one. An empty packet ends a
    /// transfer whose end the host can't tell, where nothing more is queued (USB 2.0, 5.8.3).
    pub fn work<P: DevPipes>(&mut self, pipes: &mut P)
        requires sound { P.sound pipes.old }
        requires spare { work_accesses ≤ P.spare pipes.old }
        ensures pipes { P.pipes pipes.new ≡ pipes_after_work self.old.port (P.pipes pipes.old) }
        ensures port { self.new.port ≡ after_work self.old.port }
        ensures interface { self.new.interface ≡ self.old.interface }
        ensures beside { P.beside pipes.old pipes.new }
        ensures sound { P.sound pipes.new }
        ensures spends { P.spare pipes.old ≤ P.spare pipes.new + work_accesses }
    {
        arm_with_room(pipes);
        self.end(pipes);
        self.is_open_ended = false;
    }

    /// Sends the empty packet that is owed.
    fn end<P: DevPipes>(&self, pipes: &mut P)
        requires sound { P.sound pipes.old }
        requires spare { call_accesses ≤ P.spare pipes.old }
        ensures pipes { P.pipes pipes.new ≡ with_end self.now.port (P.pipes pipes.old) }
        ensures beside { P.beside pipes.old pipes.new }
        ensures sound { P.sound pipes.new }
        ensures spends { P.spare pipes.old ≤ P.spare pipes.new + call_accesses }
    {
        if self.is_empty_owed(pipes) {
            pipes.start(DATA_IN);
        }
    }

    /// Whether an empty packet is owed.
    fn is_empty_owed<P: DevPipes>(&self, pipes: &P) -> bool
        requires { P.sound pipes.now }
        ensures { result ≡ owes_empty self.now.port (P.pipes pipes.now) }
    {
        self.is_open_ended && pipes.held(DATA_IN) == 0 && is_at_rest(pipes, DATA_IN)
    }
}
