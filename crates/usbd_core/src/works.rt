//! A task run: endpoint 0, what was found on the pipes, and the work of the classes.
ghost use Rattle.std.specs.Prelude.{◌≡◌, ◌≤◌, false};
ghost use Rattle.usb_packet.specs.declared.bus.Owner.{Owner};
ghost use Rattle.usb_descriptor.specs.Set.{is_core};
ghost use Rattle.usb_pipe.specs.Classes.{class_owners};
ghost use Rattle.dwc2_regs.specs.declared.access.TheConstants.{FS4};
ghost use Rattle.device_rings.specs.Capacities.{capacities_of};
ghost use Rattle.device_relation.specs.PipeRelation.{IsSound, out_slot_of, in_slot_of};
ghost use Rattle.device_owners.specs.Device.{after_task, with_control_worked, with_notes_taken, told_came, told_came_each, told_ended_each, worked, worked_each};
ghost use Rattle.dwc2_device.specs.Driver.{joint, Has, Spends};
ghost use Rattle.dwc2_device.specs.Notes.{is_out_posted, is_in_posted};
ghost use Rattle.usbd_core.specs.Device.{core_of, seen, machinery, Agrees};
ghost use Rattle.usbd_core.specs.Task.{GoesInOrder};
ghost use Rattle.usbd_core.specs.View.{IsWhole};
ghost use Rattle.usbd_core.specs.Works.{LeavesWhole, told_ended, with_pipes_noted};

use crate::DevStack;
use crate::numbers::pipe_of;
use dwc2_access::Regs;
use endpoint_relation::{InState, OutState};
use usb_packet::Owner;
use usb_pipe::DevClasses;

impl<R: Regs + Drop> DevStack<R> {
    /// One task run, of at most 200 accesses: it goes on after the stage that finished on endpoint 0 and begins the request that
    /// was noted (USB 2.0, 8.5.3), tells the classes what was found on their pipes, and lets each work. Endpoint 0 takes 30
    /// accesses at most, and each of the four classes 36.
    pub fn task<C: DevClasses>(&mut self, classes: &mut C)
        requires whole { IsWhole self.old }
        requires has { Has 400 self.old.port.bank }
        ensures seen { seen self.new (C.states classes.new) ≡ after_task (machinery C.rules self.old.set (C.states classes.old)) (seen self.old (C.states classes.old)) }
        ensures whole { IsWhole self.new }
        ensures set { self.new.set ≡ self.old.set }
        ensures order { GoesInOrder self.old.port self.new.port }
        ensures spends { Spends 200 self.old.port.bank self.new.port.bank }
    {
        self.work_core(classes);
        self.work_classes(classes);
    }

    /// Works endpoint 0: the stage that finished, and then the request. What was found on the pipes is taken up: the classes learn of
    /// it, and then the driver keeps no note of it.
    fn work_core<C: DevClasses>(&mut self, classes: &mut C)
        requires whole { IsWhole self.old }
        requires has { Has 30 self.old.port.bank }
        ensures seen { seen self.new (C.states classes.new) ≡ with_notes_taken (machinery C.rules self.old.set (C.states classes.old)) (with_control_worked (machinery C.rules self.old.set (C.states classes.old)) (seen self.old (C.states classes.old))) }
        ensures leaves { LeavesWhole 30 self.old self.new }
    {
        self.work_stage(classes);
        self.work_request(classes);
        self.tell_notes(classes);
        self.work_pipes();
    }

    /// The classes learn what was found on their pipes: on the OUT endpoints, and then on the IN endpoints, each by number.
    fn tell_notes<C: DevClasses>(&self, classes: &mut C)
        requires sound { IsSound FS4 (joint self.now.port) self.now.rings }
        ensures { C.states classes.new ≡ told_ended_each (machinery C.rules self.now.set (C.states classes.old)) (core_of self.now).pipes.ins (told_came_each (machinery C.rules self.now.set (C.states classes.old)) (core_of self.now).pipes.outs (C.states classes.old)) }
    {
        self.tell_came(1, classes);
        self.tell_came(2, classes);
        self.tell_came(3, classes);
        self.tell_ended(1, classes);
        self.tell_ended(2, classes);
        self.tell_ended(3, classes);
    }

    /// The class of an OUT endpoint learns that a packet came, where one did.
    fn tell_came<C: DevClasses>(&self, number: u8, classes: &mut C)
        ensures { C.states classes.new ≡ told_came (machinery C.rules self.now.set (C.states classes.old)) (out_slot_of self.now.port.bank.table self.now.port.software self.now.rings number) (C.states classes.old) }
    {
        let kept = self.port.out_at(number);
        if is_out_posted(kept.state) {
            classes.came(kept.endpoint.owner, pipe_of(&kept.endpoint));
        }
    }

    /// The class of an IN endpoint learns that a transfer ended, and of how many bytes, where one did.
    fn tell_ended<C: DevClasses>(&self, number: u8, classes: &mut C)
        ensures { C.states classes.new ≡ told_ended (machinery C.rules self.now.set (C.states classes.old)) (in_slot_of self.now.port.bank.table self.now.port.software self.now.rings number) (C.states classes.old) }
    {
        let kept = self.port.in_at(number);
        if is_in_posted(kept.state) {
            classes.ended(kept.endpoint.owner, pipe_of(&kept.endpoint), kept.bytes);
        }
    }

    /// The driver's notes of the pipes are taken.
    fn work_pipes(&mut self)
        requires agrees { Agrees FS4 self.old }
        ensures core { core_of self.new ≡ with_pipes_noted (core_of self.old) }
        ensures agrees { Agrees FS4 self.new }
        ensures capacities { capacities_of self.new.rings ≡ capacities_of self.old.rings }
        ensures set { self.new.set ≡ self.old.set }
        ensures order { GoesInOrder self.old.port self.new.port }
        ensures bank { self.new.port.bank ≡ self.old.port.bank }
    {
        self.port.take_pipe_notes();
    }

    /// The classes work, in their order.
    fn work_classes<C: DevClasses>(&mut self, classes: &mut C)
        requires whole { IsWhole self.old }
        requires has { Has 144 self.old.port.bank }
        ensures seen { seen self.new (C.states classes.new) ≡ worked_each (machinery C.rules self.old.set (C.states classes.old)) class_owners (seen self.old (C.states classes.old)) }
        ensures leaves { LeavesWhole 144 self.old self.new }
    {
        self.work_class(Owner::Cdc, classes);
        self.work_class(Owner::Hid, classes);
        self.work_class(Owner::Msc, classes);
        self.work_class(Owner::Midi, classes);
    }

    /// The class of an owner works on its pipes.
    fn work_class<C: DevClasses>(&mut self, owner: Owner, classes: &mut C)
        requires whole { IsWhole self.old }
        requires class { is_core owner ≡ false }
        requires has { Has 36 self.old.port.bank }
        ensures seen { seen self.new (C.states classes.new) ≡ worked (machinery C.rules self.old.set (C.states classes.old)) owner (seen self.old (C.states classes.old)) }
        ensures leaves { LeavesWhole 36 self.old self.new }
    {
        let mut pipes = self.pipes(owner);
        classes.work(owner, &mut pipes);
    }
}

/// A packet came on an OUT endpoint, and no task has taken its note.
fn is_out_posted(state: OutState) -> bool
    ensures { result ≡ is_out_posted state }
{
    match state {
        OutState::Posted => true,
        OutState::Closed => false,
        OutState::Rest => false,
        OutState::Armed => false,
        OutState::Stale => false,
    }
}

/// A transfer ended on an IN endpoint, and no task has taken its note.
fn is_in_posted(state: InState) -> bool
    ensures { result ≡ is_in_posted state }
{
    match state {
        InState::Posted => true,
        InState::Closed => false,
        InState::Rest => false,
        InState::Running => false,
    }
}
