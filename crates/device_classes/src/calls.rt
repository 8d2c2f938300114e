//! What an application asks of a class.
ghost use Rattle.std.specs.Prelude.{◌≡◌, ◌+◌, ◌≤◌};
ghost use Rattle.usb_pipe.specs.Said.{Fits, reply_with};
ghost use Rattle.usb_pipe.specs.Own.{work_accesses};
ghost use Rattle.usb_pipe.specs.Classes.{class_at, with_class};
ghost use Rattle.device_owners.specs.Lines.{call_owner};
ghost use Rattle.device_world.specs.World.{calls};

use crate::classes::DeviceClasses;
use arrayvec::ArrayVec;
use device_line::DevCall;
use usb_pipe::{DevPipes, Reply, Said, reply_of};

impl DeviceClasses {
    /// Answers a call by the class that it is of, over that class's pipes. The bytes of the answer are left in `bytes`. A call of
    /// a class that isn't built is closed; so is `State`, which is no class's.
    pub fn answer<P: DevPipes>(
        &mut self,
        pipes: &mut P,
        call: &DevCall,
        bytes: &mut ArrayVec<u8, 4096>,
    ) -> Said
        requires sound { P.sound pipes.old }
        requires spare { work_accesses ≤ P.spare pipes.old }
        ensures reply { let o = call_owner call.now in reply_with result bytes.new.items ≡ (calls o).reply (class_at self.old o) (P.pipes pipes.old) call.now }
        ensures fits { Fits result bytes.new.items }
        ensures pipes { let o = call_owner call.now in P.pipes pipes.new ≡ (calls o).pipes_after_call (class_at self.old o) (P.pipes pipes.old) call.now }
        ensures states { let o = call_owner call.now in self.new ≡ with_class self.old o ((calls o).after_call (class_at self.old o) (P.pipes pipes.old) call.now) }
        ensures beside { P.beside pipes.old pipes.new }
        ensures sound { P.sound pipes.new }
        ensures spends { P.spare pipes.old ≤ P.spare pipes.new + work_accesses }
    {
        match call {
            DevCall::Cdc(call) => self.serial.answer(pipes, call, bytes),
            DevCall::Hid(call) => self.human.answer(pipes, call, bytes),
            DevCall::Midi(call) => self.music.answer(pipes, call, bytes),
            DevCall::State | DevCall::Msc(_) => Said::Closed,
        }
    }

    /// Answers a call with a reply that has its bytes.
    pub fn call<P: DevPipes>(&mut self, pipes: &mut P, call: &DevCall) -> Reply
        requires sound { P.sound pipes.old }
        requires spare { work_accesses ≤ P.spare pipes.old }
        ensures reply { let o = call_owner call.now in result ≡ (calls o).reply (class_at self.old o) (P.pipes pipes.old) call.now }
        ensures pipes { let o = call_owner call.now in P.pipes pipes.new ≡ (calls o).pipes_after_call (class_at self.old o) (P.pipes pipes.old) call.now }
        ensures states { let o = call_owner call.now in self.new ≡ with_class self.old o ((calls o).after_call (class_at self.old o) (P.pipes pipes.old) call.now) }
        ensures beside { P.beside pipes.old pipes.new }
        ensures sound { P.sound pipes.new }
        ensures spends { P.spare pipes.old ≤ P.spare pipes.new + work_accesses }
    {
        let mut bytes = ArrayVec::new();
        let said = self.answer(pipes, call, &mut bytes);
        reply_of(said, bytes)
    }
}
