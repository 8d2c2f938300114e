//! What a request changes beyond endpoint 0: sessions, and the halts that end.
ghost use Rattle.std.specs.Prelude.{◌≡◌, ◌≤◌, [], length, Some, None, if◌then◌else◌};
ghost use Rattle.usb_control.specs.declared.state.Effect.TheVariants as effect;
ghost use Rattle.usb_descriptor.specs.Set.{has_endpoint, endpoints_of};
ghost use Rattle.usb_descriptor.specs.Served.{AreServed};
ghost use Rattle.usb_pipe.specs.Classes.{told_each, class_owners};
ghost use Rattle.device_machine.specs.Laws.{AreOf};
ghost use Rattle.device_owners.specs.Device.{changed, configured, classes_closed, told_cleared, told_cleared_each};
ghost use Rattle.dwc2_regs.specs.declared.access.TheConstants.{FS4};
ghost use Rattle.device_rings.specs.Capacities.{capacities_of};
ghost use Rattle.device_relation.specs.PipeRelation.{IsSound, pipes_of};
ghost use Rattle.device_relation.specs.Port.{port_of};
ghost use Rattle.dwc2_device.specs.Driver.{joint, Has, Spends};
ghost use Rattle.usbd_core.specs.Device.{core_of, seen, machinery, tops};
ghost use Rattle.usbd_core.specs.Task.{Holds, Needs, Leaves, GoesInOrder, with_session, with_endpoints, with_halts_ended, with_halt_ended_if, open_endpoint};

use crate::DevStack;
use crate::numbers::{IN, pipe_of};
use crate::port::open_one;
use device_rings::DevRings;
use dwc2_access::Regs;
use dwc2_device::DevPort;
use usb_descriptor::{DescSet, Endpoint};
use usb_packet::Owner;
use usb_pipe::DevClasses;

impl<R: Regs + Drop> DevStack<R> {
    /// Ends the session, and begins a new one where it is told so (USB 2.0, 9.4.7).
    #[tactic(auto, using(crate::proofs::Opens::six))]
    pub(crate) fn configure<C: DevClasses>(&mut self, begins: bool, classes: &mut C)
        requires needs { Needs FS4 24 self.old }
        ensures seen { seen self.new (C.states classes.new) ≡ configured (machinery C.rules self.old.set (C.states classes.old)) (seen self.old (C.states classes.old)) begins }
        ensures leaves { Leaves FS4 24 self.old self.new }
    {
        self.end_classes(classes);
        renew(
            &mut self.port,
            &mut self.rings,
            self.set.endpoints(),
            begins,
        );
        self.state.configured = begins;
        begin_classes(begins, classes);
    }

    /// The classes learn that the session ends, where one stands.
    fn end_classes<C: DevClasses>(&self, classes: &mut C)
        ensures { C.states classes.new ≡ classes_closed (machinery C.rules self.now.set (C.states classes.old)) self.now.state.configured (C.states classes.old) }
    {
        if self.state.configured {
            classes.closed();
        }
    }

    /// Ends the halt of the endpoint at an address, where one is open. Its class learns of it.
    pub(crate) fn clear<C: DevClasses>(&mut self, addr: u8, classes: &mut C)
        requires needs { Needs FS4 24 self.old }
        ensures seen { seen self.new (C.states classes.new) ≡ changed (machinery C.rules self.old.set (C.states classes.old)) (seen self.old (C.states classes.old)) (effect.Clear addr) }
        ensures leaves { Leaves FS4 24 self.old self.new }
    {
        self.tell_cleared(addr, classes);
        self.port.clear_halt(addr, &mut self.rings);
    }

    fn tell_cleared<C: DevClasses>(&self, addr: u8, classes: &mut C)
        requires holds { Holds FS4 self.now }
        ensures { C.states classes.new ≡ told_cleared (machinery C.rules self.now.set (C.states classes.old)) (core_of self.now).pipes addr (C.states classes.old) }
    {
        if let Some(endpoint) = endpoint_at(&self.port, &self.rings, addr) {
            classes.cleared(endpoint.owner, pipe_of(&endpoint));
        }
    }

    /// Ends the halts of the endpoints of an interface (USB 2.0, 9.4.10). Their classes learn of it.
    #[tactic(auto, using(crate::proofs::Opens::six))]
    pub(crate) fn clear_interface<C: DevClasses>(&mut self, number: u8, classes: &mut C)
        requires needs { Needs FS4 24 self.old }
        ensures seen { seen self.new (C.states classes.new) ≡ changed (machinery C.rules self.old.set (C.states classes.old)) (seen self.old (C.states classes.old)) (effect.ClearInterface number) }
        ensures leaves { Leaves FS4 24 self.old self.new }
    {
        self.tell_interface_cleared(number, classes);
        clear_halts(
            &mut self.port,
            &mut self.rings,
            &self.set,
            self.set.endpoints(),
            number,
        );
    }

    fn tell_interface_cleared<C: DevClasses>(&self, number: u8, classes: &mut C)
        requires holds { Holds FS4 self.now }
        ensures { C.states classes.new ≡ told_cleared_each (machinery C.rules self.now.set (C.states classes.old)) (core_of self.now).pipes (has_endpoint self.now.set.config number) (endpoints_of self.now.set.config) (C.states classes.old) }
    {
        for endpoint in self.set.endpoints() {
            if self.set.has_endpoint(number, endpoint.addr) {
                self.tell_cleared(endpoint.addr, classes);
            }
        }
    }
}

/// The classes learn that a session begins, where one does.
fn begin_classes<C: DevClasses>(begins: bool, classes: &mut C)
    ensures { C.states classes.new ≡ (if begins then told_each C.rules class_owners (λ r s. r.after_opened s) (C.states classes.old) else C.states classes.old) }
{
    if begins {
        classes.opened(Owner::Cdc);
        classes.opened(Owner::Hid);
        classes.opened(Owner::Msc);
        classes.opened(Owner::Midi);
    }
}

/// The open endpoint at an address, where there is one.
fn endpoint_at<R: Regs + Drop>(port: &DevPort<R>, rings: &DevRings, addr: u8) -> Option<Endpoint>
    requires sound { IsSound FS4 (joint port.now) rings.now }
    ensures { result ≡ open_endpoint (pipes_of (joint port.now) rings.now) addr }
{
    let _ = rings;
    if !port.is_open_at(addr) {
        return None;
    }
    if addr < IN {
        Some(port.out_at(addr).endpoint)
    } else {
        Some(port.in_at(addr - IN).endpoint)
    }
}

/// Closes all endpoints but endpoint 0, and opens these where a session begins.
fn renew<R: Regs + Drop>(
    port: &mut DevPort<R>,
    rings: &mut DevRings,
    endpoints: &[Endpoint],
    begins: bool,
)
    requires sound { IsSound FS4 (joint port.old) rings.old }
    requires served { AreServed (tops FS4) endpoints.now }
    requires few { length endpoints.now ≤ 6 }
    requires has { Has 24 port.old.bank }
    ensures port { port_of (joint port.new) rings.new ≡ with_session (port_of (joint port.old) rings.old) (if begins then endpoints.now else []) }
    ensures capacities { capacities_of rings.new ≡ capacities_of rings.old }
    ensures sound { IsSound FS4 (joint port.new) rings.new }
    ensures order { GoesInOrder port.old port.new }
    ensures spends { Spends 24 port.old.bank port.new.bank }
{
    port.close_all(rings);
    if begins {
        open_all(port, rings, endpoints);
    }
}

/// Opens these endpoints, where none is open.
fn open_all<R: Regs + Drop>(port: &mut DevPort<R>, rings: &DevRings, endpoints: &[Endpoint])
    requires sound { IsSound FS4 (joint port.old) rings.now }
    requires shut { AreOf [] (port_of (joint port.old) rings.now).pipes }
    requires served { AreServed (tops FS4) endpoints.now }
    requires few { length endpoints.now ≤ 6 }
    requires has { Has 6 port.old.bank }
    ensures port { port_of (joint port.new) rings.now ≡ with_endpoints (port_of (joint port.old) rings.now) endpoints.now }
    ensures sound { IsSound FS4 (joint port.new) rings.now }
    ensures order { GoesInOrder port.old port.new }
    ensures spends { Spends 6 port.old.bank port.new.bank }
{
    for endpoint in endpoints {
        open_one(port, rings, endpoint);
    }
}

/// Ends the halts of those of some endpoints that an interface has (USB 2.0, 9.4.10): at most three accesses for each.
fn clear_halts<R: Regs + Drop>(
    port: &mut DevPort<R>,
    rings: &mut DevRings,
    set: &DescSet,
    endpoints: &[Endpoint],
    number: u8,
)
    requires sound { IsSound FS4 (joint port.old) rings.old }
    requires few { length endpoints.now ≤ 6 }
    requires has { Has 18 port.old.bank }
    ensures port { port_of (joint port.new) rings.new ≡ with_halts_ended (has_endpoint set.now.config number) (port_of (joint port.old) rings.old) endpoints.now }
    ensures capacities { capacities_of rings.new ≡ capacities_of rings.old }
    ensures sound { IsSound FS4 (joint port.new) rings.new }
    ensures order { GoesInOrder port.old port.new }
    ensures spends { Spends 18 port.old.bank port.new.bank }
{
    for endpoint in endpoints {
        let named = set.has_endpoint(number, endpoint.addr);
        clear_if(port, rings, named, endpoint.addr);
    }
}

/// Ends the halt of the endpoint at an address, where it is named.
fn clear_if<R: Regs + Drop>(port: &mut DevPort<R>, rings: &mut DevRings, named: bool, addr: u8)
    requires sound { IsSound FS4 (joint port.old) rings.old }
    requires has { Has 3 port.old.bank }
    ensures port { port_of (joint port.new) rings.new ≡ with_halt_ended_if named (port_of (joint port.old) rings.old) addr }
    ensures capacities { capacities_of rings.new ≡ capacities_of rings.old }
    ensures sound { IsSound FS4 (joint port.new) rings.new }
    ensures order { GoesInOrder port.old port.new }
    ensures spends { Spends 3 port.old.bank port.new.bank }
{
    if named {
        port.clear_halt(addr, rings);
    }
}
