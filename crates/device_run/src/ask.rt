//! A call of a class, over the pipes of its owner.
ghost use Rattle.std.specs.Prelude.{◌≡◌, ◌≤◌, false};
ghost use Rattle.usb_descriptor.specs.Set.{is_core};
ghost use Rattle.usb_pipe.specs.Said.{Fits, reply_with};
ghost use Rattle.usb_pipe.specs.Own.{work_accesses};
ghost use Rattle.usb_pipe.specs.Classes.{class_at, with_class};
ghost use Rattle.device_owners.specs.Lines.{call_owner};
ghost use Rattle.device_world.specs.World.{calls};
ghost use Rattle.usbd_core.specs.View.{IsWhole, Beside, own_of};

use arrayvec::ArrayVec;
use device_classes::DeviceClasses;
use device_line::DevCall;
use dwc2_devmodel::DevCore;
use usb_packet::Owner;
use usb_pipe::Said;
use usbd_core::DevStack;

/// Asks the class that a call is of. All but its owner's pipes and that class stays as it was.
pub fn ask(
    stack: &mut DevStack<DevCore>,
    classes: &mut DeviceClasses,
    call: &DevCall,
    bytes: &mut ArrayVec<u8, 4096>,
) -> Said
    requires whole { IsWhole stack.old }
    requires class { is_core (call_owner call.now) ≡ false }
    requires spare { work_accesses ≤ stack.old.port.bank.spare }
    ensures reply { let o = call_owner call.now in reply_with result bytes.new.items ≡ (calls o).reply (class_at classes.old o) (own_of o stack.old) call.now }
    ensures fits { Fits result bytes.new.items }
    ensures pipes { let o = call_owner call.now in own_of o stack.new ≡ (calls o).pipes_after_call (class_at classes.old o) (own_of o stack.old) call.now }
    ensures classes { let o = call_owner call.now in classes.new ≡ with_class classes.old o ((calls o).after_call (class_at classes.old o) (own_of o stack.old) call.now) }
    ensures beside { Beside (call_owner call.now) stack.old stack.new }
    ensures whole { IsWhole stack.new }
{
    let mut pipes = stack.pipes(owner_of(call));
    classes.answer(&mut pipes, call, bytes)
}

/// The owner of a call.
fn owner_of(call: &DevCall) -> Owner
    ensures { result ≡ call_owner call.now }
{
    match call {
        DevCall::State => Owner::Core,
        DevCall::Cdc(_) => Owner::Cdc,
        DevCall::Hid(_) => Owner::Hid,
        DevCall::Msc(_) => Owner::Msc,
        DevCall::Midi(_) => Owner::Midi,
    }
}
