//! Endpoint 0 in a task: the stage that finished, and the request that was noted (USB 2.0, 8.5.3 and 9.4).
ghost use Rattle.std.specs.Prelude.{◌≡◌, ◌+◌, ◌<◌, ◌≤◌, [], length, None, false};
ghost use Rattle.usb_packet.specs.declared.bus.Owner.{Owner};
ghost use Rattle.usb_control.specs.Table.{choice};
ghost use Rattle.device_machine.specs.declared.control.Side.TheVariants.{Wait, Armed};
ghost use Rattle.device_owners.specs.Device.{Taking, Addressing, core_state, work_stage, with_request_worked, sent_on, came_on, begun, class_staged, ending, with_side, acknowledged, with_data, refused, changed};
ghost use Rattle.dwc2_regs.specs.declared.access.TheConstants.{FS4};
ghost use Rattle.device_relation.specs.Relation.{IsAddress};
ghost use Rattle.usbd_core.specs.Device.{core_of, seen, machinery, port_in, address_of, Rests, Agrees};
ghost use Rattle.usbd_core.specs.Task.{IsFree, IsFreeFor, Needs, Leaves};

use crate::DevStack;
use crate::port::{arm, bring, halt, stall, start};
use crate::transfer::Transfer;
use device_machine::Stage;
use dwc2_access::Regs;
use usb_control::{Effect, Found, find};
use usb_packet::{Owner, Packet, Setup, setup_of};
use usb_pipe::{Decision, DevClasses};

impl<R: Regs + Drop> DevStack<R> {
    /// Goes on after the stage that finished, where one did.
    pub(crate) fn work_stage<C: DevClasses>(&mut self, classes: &mut C)
        requires needs { Needs FS4 2 self.old }
        requires rests { Rests (port_in self.old) self.old.finished self.old.request }
        ensures seen { seen self.new (C.states classes.new) ≡ work_stage (machinery C.rules self.old.set (C.states classes.old)) (seen self.old (C.states classes.old)) self.old.finished }
        ensures finished { self.new.finished ≡ None }
        ensures free { IsFreeFor self.new.request (port_in self.new) }
        ensures leaves { Leaves FS4 2 self.old self.new }
    {
        match self.finished.take() {
            None => {}
            Some(Stage::Sent) => self.send(),
            Some(Stage::Came(packet)) => self.take_data(&packet, classes),
        }
    }

    /// Hands over the next packet of a data stage for the host. Where none is left, or no data stage runs, the transfer
    /// is over.
    fn send(&mut self)
        requires needs { Needs FS4 2 self.old }
        requires free { IsFree (port_in self.old) }
        ensures core { core_of self.new ≡ sent_on (core_of self.old) self.old.transfer }
        ensures finished { self.new.finished ≡ self.old.finished }
        ensures free { IsFree (port_in self.new) }
        ensures leaves { Leaves FS4 2 self.old self.new }
    {
        match self.transfer {
            Transfer::Data => match self.stage.take_packet() {
                Some(packet) => {
                    let last = self.stage.is_over();
                    start(&mut self.port, &self.rings, &packet, last);
                }
                None => self.transfer = Transfer::Idle,
            },
            _ => self.transfer = Transfer::Idle,
        }
    }

    /// A packet came. Where it is the data of a request, its class takes it or refuses it.
    fn take_data<C: DevClasses>(&mut self, packet: &Packet, classes: &mut C)
        requires needs { Needs FS4 2 self.old }
        requires free { IsFree (port_in self.old) }
        ensures seen { seen self.new (C.states classes.new) ≡ came_on (machinery C.rules self.old.set (C.states classes.old)) (seen self.old (C.states classes.old)) self.old.transfer packet.now }
        ensures finished { self.new.finished ≡ self.old.finished }
        ensures free { IsFree (port_in self.new) }
        ensures leaves { Leaves FS4 2 self.old self.new }
    {
        match self.transfer {
            Transfer::Take(owner, setup) => {
                if classes.data(owner, &setup, packet.bytes()) {
                    self.give_status();
                } else {
                    self.refuse();
                }
            }
            _ => self.transfer = Transfer::Idle,
        }
    }

    /// Begins the transfer of the SETUP that was noted, where one was.
    pub(crate) fn work_request<C: DevClasses>(&mut self, classes: &mut C)
        requires needs { Needs FS4 28 self.old }
        requires finished { self.old.finished ≡ None }
        requires free { IsFreeFor self.old.request (port_in self.old) }
        ensures seen { seen self.new (C.states classes.new) ≡ with_request_worked (machinery C.rules self.old.set (C.states classes.old)) (seen self.old (C.states classes.old)) }
        ensures agrees { Agrees FS4 self.new }
        ensures leaves { Leaves FS4 28 self.old self.new }
    {
        match self.request.take() {
            Some(bytes) => self.begin(&setup_of(&bytes), classes),
            None => {}
        }
    }

    /// Begins the transfer of a request.
    fn begin<C: DevClasses>(&mut self, setup: &Setup, classes: &mut C)
        requires needs { Needs FS4 28 self.old }
        requires free { IsFree (port_in self.old) }
        ensures seen { seen self.new (C.states classes.new) ≡ begun (machinery C.rules self.old.set (C.states classes.old)) (seen self.old (C.states classes.old)) setup.now (choice self.old.set (core_state (core_of self.old)) setup.now) }
        ensures leaves { Leaves FS4 28 self.old self.new }
    {
        let state = self.core_state();
        match find(&self.set, &state, setup) {
            Found::Data(bytes) => {
                if setup.length == 0 {
                    self.give_status();
                } else {
                    self.stage.begin(bytes, setup.length);
                    self.transfer = Transfer::Data;
                    self.send();
                }
            }
            Found::Status(effect) => {
                self.acknowledge(effect);
                self.change(effect, classes);
            }
            Found::Stall => self.refuse(),
            Found::Class(owner) => {
                let decision = classes.setup(owner, setup);
                self.begin_class(owner, setup, &decision);
            }
        }
    }

    /// Begins the transfer of a request that a class decides in this way.
    fn begin_class(&mut self, owner: Owner, setup: &Setup, decision: &Decision)
        requires needs { Needs FS4 4 self.old }
        requires free { IsFree (port_in self.old) }
        ensures core { core_of self.new ≡ class_staged (core_of self.old) owner setup.now decision.now }
        ensures leaves { Leaves FS4 4 self.old self.new }
    {
        match decision {
            Decision::Data(bytes) => self.give_data(bytes.as_slice(), setup.length),
            Decision::Take(_) => self.await_data(owner, setup),
            Decision::Status => self.give_status(),
            Decision::Stall => self.refuse(),
        }
    }

    /// A data stage for the host; where the host allows no byte, its status stage.
    fn give_data(&mut self, bytes: &[u8], allowed: u16)
        requires needs { Needs FS4 2 self.old }
        requires free { IsFree (port_in self.old) }
        requires few { length bytes.now ≤ 512 }
        ensures core { core_of self.new ≡ with_data (core_of self.old) bytes.now allowed }
        ensures leaves { Leaves FS4 2 self.old self.new }
    {
        if allowed == 0 {
            self.give_status();
        } else {
            self.stage.begin(bytes, allowed);
            self.transfer = Transfer::Data;
            self.send();
        }
    }

    /// A data stage from the host.
    fn await_data(&mut self, owner: Owner, setup: &Setup)
        requires needs { Needs FS4 4 self.old }
        requires free { IsFree (port_in self.old) }
        ensures core { core_of self.new ≡ with_side (core_of self.old) Armed (Taking owner setup.now) }
        ensures leaves { Leaves FS4 4 self.old self.new }
    {
        arm(&mut self.port, &self.rings);
        self.transfer = Transfer::Take(owner, *setup);
    }

    /// The status stage of a request without data.
    fn acknowledge(&mut self, effect: Effect)
        requires needs { Needs FS4 2 self.old }
        requires free { IsFree (port_in self.old) }
        requires address { IsAddress (address_of (ending effect)) }
        ensures core { core_of self.new ≡ with_side (core_of self.old) (Wait [] false) (ending effect) }
        ensures leaves { Leaves FS4 2 self.old self.new }
    {
        match effect {
            Effect::Address(address) => self.give_address(address),
            _ => self.give_status(),
        }
    }

    /// The status stage for the host of SET_ADDRESS, with the address that it brings (USB 2.0, 9.4.6).
    fn give_address(&mut self, address: u8)
        requires needs { Needs FS4 2 self.old }
        requires free { IsFree (port_in self.old) }
        requires address { address < 128 }
        ensures core { core_of self.new ≡ with_side (core_of self.old) (Wait [] false) (Addressing address) }
        ensures leaves { Leaves FS4 2 self.old self.new }
    {
        start(&mut self.port, &self.rings, &Packet::empty(), false);
        bring(&mut self.port, &self.rings, address);
        self.transfer = Transfer::Address(address);
    }

    /// The status stage for the host of another request (USB 2.0, 8.5.3).
    fn give_status(&mut self)
        requires needs { Needs FS4 2 self.old }
        requires free { IsFree (port_in self.old) }
        ensures core { core_of self.new ≡ acknowledged (core_of self.old) }
        ensures leaves { Leaves FS4 2 self.old self.new }
    {
        start(&mut self.port, &self.rings, &Packet::empty(), false);
        self.transfer = Transfer::Status;
    }

    /// Refuses a request.
    fn refuse(&mut self)
        requires needs { Needs FS4 2 self.old }
        requires free { IsFree (port_in self.old) }
        ensures core { core_of self.new ≡ refused (core_of self.old) }
        ensures free { IsFree (port_in self.new) }
        ensures leaves { Leaves FS4 2 self.old self.new }
    {
        stall(&mut self.port, &self.rings);
        self.transfer = Transfer::Idle;
    }

    /// What a request changes in this task: all but the address.
    fn change<C: DevClasses>(&mut self, effect: Effect, classes: &mut C)
        requires needs { Needs FS4 24 self.old }
        ensures seen { seen self.new (C.states classes.new) ≡ changed (machinery C.rules self.old.set (C.states classes.old)) (seen self.old (C.states classes.old)) effect }
        ensures leaves { Leaves FS4 24 self.old self.new }
    {
        match effect {
            Effect::None | Effect::Address(_) => {}
            Effect::Configure(begins) => self.configure(begins, classes),
            Effect::Halt(addr) => halt(&mut self.port, &self.rings, addr),
            Effect::Clear(addr) => self.clear(addr, classes),
            Effect::ClearInterface(number) => self.clear_interface(number, classes),
        }
    }
}
