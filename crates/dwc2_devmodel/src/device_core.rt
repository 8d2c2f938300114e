ghost use Rattle.std.specs.Prelude.{◌≡◌, ◌-◌, ◌≤◌, [], ◌∷◌, ◌++◌};
ghost use Rattle.dwc2_regs.specs.declared.access.TheConstants.{FS4};
ghost use Rattle.device_table.specs.State.{first};
ghost use Rattle.device_table.specs.Bank.{most_accesses, counted};
ghost use Rattle.device_table.specs.Bus.{bus_answer, after_bus};

use crate::access_list::AccessList;
use crate::controller::Controller;
use dwc2_access::Regs;
use dwc2_regs::{Access, Profile};
use std::marker::Model;
use usb_packet::{BusAnswer, BusEvent};

/// The controller in device mode. A clause sees it as its state with the accesses made.
#[derive(Drop)]
pub struct DevCore {
    controller: Controller,
    accesses: AccessList,
    made_before: u16,
}

// What is told of the accesses follows from the list and from how many were made before it began.
impl Model for DevCore {
    ghost use Rattle.std.specs.Prelude.{◌+◌, ◌-◌, ◌≤◌, min, [], length};
    ghost use Rattle.device_table.specs.Bank.{Bank, most_accesses, last_made};

    ghost Value = { Bank };

    ghost view = { λ c. record { table = c.controller; spare = most_accesses - length c.accesses; log = c.accesses; due = []; made = min (c.made_before + length c.accesses) last_made; given = [] } };

    ghost invariant = { λ c. (length c.accesses ≤ most_accesses) × (c.made_before ≤ last_made) };
}

impl DevCore {
    /// The controller at its start, of this profile, which has to be `FS4`. 400 accesses may be made, and none was.
    pub fn new(profile: Profile) -> DevCore
        requires { profile ≡ FS4 }
        ensures { result ≡ record { table = first profile; spare = most_accesses; log = []; due = []; made = 0; given = [] } }
    {
        DevCore {
            controller: Controller::new(),
            accesses: AccessList::new(),
            made_before: 0,
        }
    }

    /// What the bus does, and the answer on the bus. No access is made.
    pub fn bus(&mut self, event: &BusEvent) -> BusAnswer
        ensures answer { result ≡ bus_answer self.old.table event.now }
        ensures after { self.new ≡ record self.old { table = after_bus self.old.table event.now } }
    {
        self.controller.bus(event)
    }

    /// The accesses since the last `begin`, the oldest first, at most 400.
    pub fn accesses(&self) -> &[Access]
        ensures { result.now ≡ self.now.log }
    {
        self.accesses.as_slice()
    }

    #[inline(always)]
    fn log(&mut self, access: Access)
        requires { 1 ≤ self.old.spare }
        ensures { self.new ≡ record self.old { spare = self.old.spare - 1; log = self.old.log ++ access ∷ []; made = counted self.old.made } }
    {
        self.accesses.push(access);
    }
}

impl Regs for DevCore {
    ghost bank = { λ c. c };

    fn begin(&mut self) {
        self.made_before = self.made_before.saturating_add(self.accesses.len());
        self.accesses.clear();
    }

    #[inline(always)]
    fn read(&mut self, off: u16) -> u32 {
        let value = self.controller.read(off);
        self.log(Access {
            write: false,
            off,
            value,
        });
        value
    }

    #[inline(always)]
    fn write(&mut self, off: u16, value: u32) {
        self.controller.write(off, value);
        self.log(Access {
            write: true,
            off,
            value,
        });
    }
}
