ghost use Rattle.std.specs.Prelude.{◌≡◌, ◌<◌, ◌^◌, [], IfOk};
ghost use Rattle.usb_descriptor.specs.Set.{IsAccepted};
ghost use Rattle.dwc2_regs.specs.declared.access.TheConstants.{FS4};
ghost use Rattle.device_table.specs.State.{opened};
ghost use Rattle.device_owners.specs.Device.{start};
ghost use Rattle.device_owners.specs.Isolation.{Isolates};
ghost use Rattle.device_run.specs.Run.{world};
ghost use Rattle.device_world.specs.World.{world_of};
ghost use Rattle.usbd_core.specs.Device.{tops};
ghost use Rattle.std.specs.List.{AllByRecursion};
ghost use Rattle.register_text.specs.Access.{IsAccess};

use crate::ask::ask;
use arrayvec::ArrayVec;
use device_classes::DeviceClasses;
use device_line::{Answer, DevCall, DevLine};
use device_relation::laws::event_fits;
use dwc2_access::Regs;
use dwc2_devmodel::DevCore;
use dwc2_regs::{Access, FS4};
use std::alloc::{AllocError, Global};
use std::marker::Model;
use usb_descriptor::DescSet;
use usb_descriptor::laws::{acceptance_serves, endpoints_are_grouped};
use usb_edge::Disks;
use usb_packet::{BusAnswer, BusEvent};
use usb_pipe::{Reply, Said, reply_of};
use usbd_core::DevStack;
use usbd_core::laws::{bus_keeps, events_keep_whole};

/// A device between two lines of its schedule: its software over the controller, which agree, and its classes.
#[derive(Drop)]
pub struct DeviceRun {
    stack: DevStack<DevCore>,
    classes: DeviceClasses,
    /// The blocks of its disk. No class reads them yet.
    blocks: Option<u32>,
}

impl Model for DeviceRun {
    ghost use Rattle.usbd_core.specs.Device.{seen};
    ghost use Rattle.usbd_core.specs.View.{IsWhole};
    ghost use Rattle.device_run.specs.Run.{Run};

    ghost Value = { Run };

    ghost view = { λ r. record {
      set = r.stack.set;
      blocks = r.blocks;
      device = seen r.stack r.classes;
      table = r.stack.port.bank.table;
      ins = r.stack.port.software.ins;
      log = r.stack.port.bank.log;
    } };

    ghost invariant = { λ r. IsWhole r.stack };
}

impl DeviceRun {
    ghost use Rattle.std.specs.Prelude.{false};
    ghost use Rattle.device_line.specs.declared.line.DevLine.TheVariants.{Bus, Irq, Task, Call};
    ghost use Rattle.device_line.specs.declared.line.Answer.TheVariants.{Bus as TheBus, Reply as TheReply};
    ghost use Rattle.device_line.specs.declared.call.DevCall.TheVariants.{State};
    ghost use Rattle.usb_packet.specs.declared.bus.BusAnswer.TheVariants.{Done};
    ghost use Rattle.usb_pipe.specs.declared.reply.Reply.TheVariants.{Core};
    ghost use Rattle.usb_pipe.specs.Said.{Fits, reply_with};
    ghost use Rattle.usb_descriptor.specs.Set.{is_core};
    ghost use Rattle.device_owners.specs.Lines.{call_owner};
    ghost use Rattle.device_run.specs.Run.{Steps};

    /// A device with this set of descriptors, which has to be an accepted one, at its start, over a controller that is
    /// opened. `blocks` are those of its disk, where it has one. It is `AllocError` only where memory runs out.
    pub fn open(alloc: Global, set: DescSet, blocks: Option<u32>) -> Result<DeviceRun, AllocError>
        requires { IsAccepted set (tops FS4) }
        ensures set { IfOk result (λ run. run.set ≡ set) }
        ensures blocks { IfOk result (λ run. run.blocks ≡ blocks) }
        ensures device { IfOk result (λ run. run.device ≡ start (world_of set blocks)) }
        ensures table { IfOk result (λ run. run.table ≡ opened FS4) }
        ensures log { IfOk result (λ run. run.log ≡ []) }
        ensures apart { IfOk result (λ run. Isolates (world run)) }
    {
        acceptance_serves(&set);
        endpoints_are_grouped(&set);
        let classes = DeviceClasses::new(&set);
        let mut stack = DevStack::open(alloc, DevCore::new(FS4), set, FS4)?;
        stack.regs().begin();
        Ok(DeviceRun {
            stack,
            classes,
            blocks,
        })
    }

    /// One line of the schedule, and its answer. No class reads the disks yet.
    pub fn step<D: Disks>(&mut self, line: &DevLine, disks: &mut D) -> Answer
        ensures steps { Steps self.old self.new line.now result }
        ensures disks { disks.new ≡ disks.old }
    {
        let _ = disks;
        match line {
            DevLine::Bus(event) => Answer::Bus(self.bus(event)),
            DevLine::Irq => {
                self.irq();
                Answer::Bus(BusAnswer::Done)
            }
            DevLine::Task => {
                self.task();
                Answer::Bus(BusAnswer::Done)
            }
            DevLine::Call(call) => Answer::Reply(self.reply(call)),
        }
    }

    /// The accesses of the last line, the oldest first, at most 400. A line of the bus has none.
    pub fn trace(&self) -> &[Access]
        ensures { result.now ≡ self.now.log }
    {
        self.stack.controller().accesses()
    }

    /// An offset has 16 bits, and a word 32.
    fn trace_fits(&self)
        ensures { AllByRecursion IsAccess self.now.log }
    {
        accesses_fit(self.trace());
    }

    /// A line of the bus, and its answer there. It and the calls for the other lines are what `step` is made of, without
    /// an `Answer`, which has room for the longest one.
    #[inline(never)]
    pub fn bus(&mut self, event: &BusEvent) -> BusAnswer
        ensures { Steps self.old self.new (Bus event.now) (TheBus result) }
    {
        bus_keeps();
        events_keep_whole();
        event_fits(event);
        let controller = self.stack.regs();
        controller.begin();
        controller.bus(event)
    }

    /// A handler run, which is answered `Done`.
    pub fn irq(&mut self)
        ensures { Steps self.old self.new Irq (TheBus Done) }
    {
        self.stack.regs().begin();
        self.stack.irq(&mut self.classes);
        self.trace_fits();
    }

    /// A task run, which is answered `Done`.
    pub fn task(&mut self)
        ensures { Steps self.old self.new Task (TheBus Done) }
    {
        self.stack.regs().begin();
        self.stack.task(&mut self.classes);
        self.trace_fits();
    }

    /// Answers a call. The bytes of the answer are left in `bytes`.
    pub fn answer(&mut self, call: &DevCall, bytes: &mut ArrayVec<u8, 4096>) -> Said
        ensures steps { Steps self.old self.new (Call call.now) (TheReply (reply_with result bytes.new.items)) }
        ensures fits { Fits result bytes.new.items }
    {
        match call {
            DevCall::State => {
                let (address, session) = self.state();
                Said::Core(address, session)
            }
            DevCall::Cdc(_) | DevCall::Hid(_) | DevCall::Msc(_) | DevCall::Midi(_) => {
                self.ask_class(call, bytes)
            }
        }
    }

    /// Answers a call with a reply that has its bytes.
    #[inline(never)]
    pub fn reply(&mut self, call: &DevCall) -> Reply
        ensures { Steps self.old self.new (Call call.now) (TheReply result) }
    {
        let mut bytes = ArrayVec::new();
        let said = self.answer(call, &mut bytes);
        reply_of(said, bytes)
    }

    /// The core's address, and 1 where a session stands, else 0 (USB 2.0, 9.1.1).
    fn state(&mut self) -> (u8, u8)
        ensures { Steps self.old self.new (Call State) (TheReply (Core result.0 result.1)) }
    {
        self.stack.regs().begin();
        let state = self.stack.state();
        (state.addr, u8::from(state.configured))
    }

    /// Answers a call of a class by that class.
    fn ask_class(&mut self, call: &DevCall, bytes: &mut ArrayVec<u8, 4096>) -> Said
        requires class { is_core (call_owner call.now) ≡ false }
        ensures steps { Steps self.old self.new (Call call.now) (TheReply (reply_with result bytes.new.items)) }
        ensures fits { Fits result bytes.new.items }
    {
        self.stack.regs().begin();
        let said = ask(&mut self.stack, &mut self.classes, call, bytes);
        self.trace_fits();
        said
    }
}

/// Accesses have offsets of 16 bits and words of 32.
fn accesses_fit(accesses: &[Access])
    ensures { AllByRecursion IsAccess accesses.now }
{
    match accesses {
        [] => {}
        [access, rest @ ..] => {
            access_fits(access);
            accesses_fit(rest);
        }
    }
}

/// And so has one of them.
fn access_fits(access: &Access)
    ensures { IsAccess access.now }
{
    words_fit(access.off, access.value);
}

fn words_fit(off: u16, word: u32)
    ensures { (off < 2 ^ 16) × (word < 2 ^ 32) }
{
    let _ = (off, word);
}
