ghost use Rattle.std.specs.Prelude.{◌≡◌, ◌+◌, ◌≤◌, ◌&&◌, not, [], false, IfOk};
ghost use Rattle.std.specs.Borrow.{Lends, sem};
ghost use Rattle.usb_descriptor.specs.Set.{IsAccepted};
ghost use Rattle.dwc2_regs.specs.declared.access.TheConstants.{FS4};
ghost use Rattle.device_table.specs.State.{first, opened};
ghost use Rattle.device_owners.specs.Device.{emptied, core_state, core_after_irq, after_irq, classes_closed};
ghost use Rattle.access_order.specs.Phase.{serving, over};
ghost use Rattle.dwc2_device.specs.Driver.{Has, Spends};
ghost use Rattle.dwc2_device.specs.Order.{Goes};
ghost use Rattle.usbd_core.specs.Device.{tops, core_of, seen, machinery, Agrees};
ghost use Rattle.usbd_core.specs.Task.{Holds};
ghost use Rattle.usbd_core.specs.Hears.{forgotten, sent, after_note};
ghost use Rattle.usbd_core.specs.View.{IsWhole};

use crate::data::DataStage;
use crate::state::{DevState, UNCONFIGURED};
use crate::transfer::Transfer;
use device_machine::Stage;
use device_rings::DevRings;
use dwc2_access::Regs;
use dwc2_device::{DevPort, Note};
use dwc2_regs::{FS4, Profile};
use std::alloc::{AllocError, Global};
use std::marker::Model;
use usb_compose::fifo_plan;
use usb_control::CoreState;
use usb_descriptor::laws::endpoints_are_served;
use usb_descriptor::{DescSet, EpLimits};
use usb_pipe::DevClasses;

/// The highest endpoint numbers of an `FS4`, by which a set is accepted.
const LIMITS: EpLimits = EpLimits {
    in_top: FS4.in_eps,
    out_top: FS4.out_eps,
    report_known: true,
};

/// The software of a device over its controller. A clause sees it as the driver with the controller, the rings of the
/// endpoints, and what the software keeps beside them.
#[derive(Drop)]
pub struct DevStack<R: Regs> {
    pub(crate) port: DevPort<R>,
    pub(crate) rings: DevRings,
    pub(crate) set: DescSet,
    pub(crate) state: DevState,
    pub(crate) finished: Option<Stage>,
    pub(crate) request: Option<[u8; 8]>,
    pub(crate) transfer: Transfer,
    /// The packets of a data stage for the host that weren't handed over.
    pub(crate) stage: DataStage,
}

impl<R: Regs> Model for DevStack<R> {
    ghost use Rattle.usbd_core.specs.Device.{Device, transfer_of};

    ghost Value = { Device };

    ghost view = { λ d. record { set = d.set; port = d.port; rings = d.rings; state = d.state; finished = d.finished; request = d.request; transfer = transfer_of d.transfer d.stage } };
}

impl<R: Regs + Drop> DevStack<R> {
    ghost use Rattle.usbd_core.specs.contracts.stack.DevStack.{the_row};

    /// A device with these descriptors over a controller at its start, which has to be an `FS4`; the set has to be one that
    /// breaks no rule for it. It is opened, its rings are empty, and controller, rings and software agree. It is `AllocError` only where memory runs
    /// out.
    #[tactic(auto, using(crate::proofs::Begins::are_empty, crate::proofs::Begins::start_pipes))]
    pub fn open(
        alloc: Global,
        regs: R,
        set: DescSet,
        profile: Profile,
    ) -> Result<DevStack<R>, AllocError>
        requires profile { profile ≡ FS4 }
        requires accepted { IsAccepted set (tops FS4) }
        requires first { (R.bank regs).table ≡ first FS4 }
        requires still { (R.bank regs).due ≡ [] }
        ensures set { IfOk result (λ d. d.set ≡ set) }
        ensures core { IfOk result (λ d. core_of d ≡ emptied false) }
        ensures agrees { IfOk result (λ d. Agrees FS4 d) }
        ensures whole { IfOk result (λ d. IsWhole d) }
        ensures table { IfOk result (λ d. d.port.bank.table ≡ opened FS4) }
        ensures still { IfOk result (λ d. d.port.bank.due ≡ []) }
    {
        let rings = DevRings::new(alloc, &set)?;
        endpoints_are_served(&set, LIMITS);
        let plan = fifo_plan(&set, profile);
        let mut port = DevPort::new(regs, profile);
        port.regs().begin();
        port.init(&plan);
        Ok(DevStack {
            port,
            rings,
            set,
            state: UNCONFIGURED,
            finished: None,
            request: None,
            transfer: Transfer::Idle,
            stage: DataStage::new(),
        })
    }

    /// The controller, for bus events and to begin to count accesses.
    pub fn regs(&mut self) -> &mut R
        ensures value { R.bank result.now ≡ self.old.port.bank }
        ensures* writes_back { sem 𝓛 (Lends (the_row R.row R.Regs) R.row self.entry result (λ w. record self.old { port = record self.old.port { bank = R.bank w } })) }
    {
        self.port.regs()
    }

    /// The controller, to look at.
    pub fn controller(&self) -> &R
        ensures { R.bank result.now ≡ self.now.port.bank }
    {
        self.port.controller()
    }

    /// One handler run, of at most 300 accesses: it serves a reset; or notes a stage that finished, sets the address where that
    /// was the status stage of SET_ADDRESS, and else notes the last SETUP or loads the packet that waits, and serves the other
    /// endpoints. What it finds on those waits in the driver for a task. Where a reset ends a session, each class learns of it.
    pub fn irq<C: DevClasses>(&mut self, classes: &mut C)
        requires whole { IsWhole self.old }
        requires has { Has 400 self.old.port.bank }
        ensures seen { seen self.new (C.states classes.new) ≡ after_irq (machinery C.rules self.old.set (C.states classes.old)) (seen self.old (C.states classes.old)) }
        ensures whole { IsWhole self.new }
        ensures set { self.new.set ≡ self.old.set }
        ensures order { Goes (serving 0) over self.old.port self.new.port }
        ensures spends { Spends 300 self.old.port.bank self.new.port.bank }
    {
        let stood = self.state.configured;
        self.run();
        self.end_session(stood, classes);
    }

    /// Each class learns that a session ended, where one stood before and none does now.
    fn end_session<C: DevClasses>(&self, stood: bool, classes: &mut C)
        ensures { C.states classes.new ≡ classes_closed (machinery C.rules self.now.set (C.states classes.old)) (stood && not self.now.state.configured) (C.states classes.old) }
    {
        if stood && !self.state.configured {
            classes.closed();
        }
    }

    /// The driver's run, with its notes taken.
    fn run(&mut self)
        requires whole { IsWhole self.old }
        requires has { Has 400 self.old.port.bank }
        ensures core { core_of self.new ≡ core_after_irq (core_of self.old) }
        ensures whole { IsWhole self.new }
        ensures set { self.new.set ≡ self.old.set }
        ensures order { Goes (serving 0) over self.old.port self.new.port }
        ensures spends { Spends 300 self.old.port.bank self.new.port.bank }
    {
        self.port.run_handler(&mut self.rings);
        self.hear();
        self.hear();
    }

    /// Takes the driver's next note of endpoint 0 or of a reset, where there is one. A run leaves two at most.
    fn hear(&mut self)
        ensures { self.new ≡ after_note self.old }
    {
        match self.port.next_zero_note() {
            Some(Note::Reset) => self.forget(),
            Some(Note::Ep0In) => self.note_sent(),
            Some(Note::Ep0Out(packet)) => self.finished = Some(Stage::Came(packet)),
            Some(Note::Setup(bytes)) => self.request = Some(bytes),
            Some(Note::Out(_)) | Some(Note::In(_)) => {}
            None => {}
        }
    }

    /// A reset ends the session and all that went on (USB 2.0, 9.1.1.3).
    fn forget(&mut self)
        ensures { self.new ≡ forgotten self.old }
    {
        self.state = UNCONFIGURED;
        self.finished = None;
        self.request = None;
        self.transfer = Transfer::Idle;
    }

    /// The status stage of SET_ADDRESS gave the driver the new address (USB 2.0, 9.4.6).
    fn note_sent(&mut self)
        ensures { self.new ≡ sent self.old }
    {
        self.finished = Some(Stage::Sent);
        if let Transfer::Address(address) = &self.transfer {
            self.state.addr = *address;
        }
    }

    /// The address, whether a session stands, and the halted endpoints.
    pub fn state(&self) -> CoreState
        requires agrees { Agrees FS4 self.now }
        ensures { result ≡ core_state (core_of self.now) }
    {
        self.core_state()
    }

    /// What requests are decided by.
    pub(crate) fn core_state(&self) -> CoreState
        requires holds { Holds FS4 self.now }
        ensures { result ≡ core_state (core_of self.now) }
    {
        CoreState {
            addr: self.state.addr,
            configured: self.state.configured,
            halted: self.port.halted_addresses(),
        }
    }
}
