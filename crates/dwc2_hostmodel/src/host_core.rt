ghost use Rattle.std.specs.Prelude.{◌≡◌, ◌-◌, ◌≤◌, [], ◌∷◌, ◌++◌};
ghost use Rattle.dwc2_regs.specs.declared.access.TheConstants.{FS4};
ghost use Rattle.device_table.specs.Bank.{most_accesses};
ghost use Rattle.host_table.specs.State.{first};
ghost use Rattle.host_table.specs.Read.{read_value};
ghost use Rattle.host_table.specs.Bus.{after_attach, after_detach, reset_asked, after_reset_asked, offer, after_xact};
ghost use Rattle.host_table.specs.Bank.{begun, bank_read, bank_write};

use crate::controller::Controller;
use arrayvec::ArrayVec;
use dwc2_regs::{Access, Profile};
use host_table::HostSent;
use std::marker::Model;
use usb_packet::BusAnswer;

/// The most accesses between two `begin`s.
const MOST_ACCESSES: u16 = 400;

/// The controller in host mode. A clause sees it as its state with the accesses made.
#[derive(Drop)]
pub struct HostCore {
    controller: Controller,
    spare: u16,
    accesses: ArrayVec<Access, 400>,
}

impl Model for HostCore {
    ghost use Rattle.std.specs.Prelude.{◌+◌, ◌≤◌, length};
    ghost use Rattle.device_table.specs.Bank.{most_accesses};
    ghost use Rattle.host_table.specs.Bank.{Bank};

    ghost Value = { Bank };

    ghost view = { λ c. record { table = c.controller; spare = c.spare; log = c.accesses.items } };

    ghost invariant = { λ c. length c.accesses.items + c.spare ≤ most_accesses };
}

impl HostCore {
    /// The controller at its start, of this profile, which has to be `FS4`. 400 accesses may be made, and none was.
    pub fn new(profile: Profile) -> HostCore
        requires { profile ≡ FS4 }
        ensures { result ≡ record { table = first profile; spare = most_accesses; log = [] } }
    {
        HostCore {
            controller: Controller::new(),
            spare: MOST_ACCESSES,
            accesses: ArrayVec::new(),
        }
    }

    /// A device is attached to the port. No access is made.
    pub fn attach(&mut self)
        ensures { self.new ≡ record self.old { table = after_attach self.old.table } }
    {
        self.controller.attach();
    }

    /// The device is detached. No access is made.
    pub fn detach(&mut self)
        ensures { self.new ≡ record self.old { table = after_detach self.old.table } }
    {
        self.controller.detach();
    }

    /// What `xact` would send to that device address and endpoint address.
    pub fn offer(&self, addr: u8, ep: u8) -> HostSent
        ensures { result ≡ offer self.now.table addr ep }
    {
        self.controller.offer(addr, ep)
    }

    /// The transaction with that device address and endpoint address, and what was answered. Gives what was sent. No access
    /// is made.
    pub fn xact(&mut self, addr: u8, ep: u8, answer: &BusAnswer) -> HostSent
        ensures sent { result ≡ offer self.old.table addr ep }
        ensures after { self.new ≡ record self.old { table = after_xact self.old.table addr ep answer.now } }
    {
        self.controller.xact(addr, ep, answer)
    }

    /// Tells whether a port reset was driven since this was last asked. No access is made.
    pub fn take_reset(&mut self) -> bool
        ensures value { result ≡ reset_asked self.old.table }
        ensures after { self.new ≡ record self.old { table = after_reset_asked self.old.table } }
    {
        self.controller.take_reset()
    }

    /// The accesses since the last `begin`, the oldest first, at most 400.
    pub fn accesses(&self) -> &[Access]
        ensures { result.now ≡ self.now.log }
    {
        self.accesses.as_slice()
    }

    /// Begins anew to count accesses: 400 more may be made, and none is listed.
    pub fn begin(&mut self)
        ensures { self.new ≡ begun self.old }
    {
        self.spare = MOST_ACCESSES;
        self.accesses.clear();
    }

    /// Reads the register or FIFO window at an offset in bytes, 0 where there is none. Another access must be allowed.
    #[inline(always)]
    pub fn read(&mut self, off: u16) -> u32
        requires { 1 ≤ self.old.spare }
        ensures value { result ≡ read_value self.old.table off }
        ensures access { self.new ≡ bank_read self.old off }
    {
        let value = self.controller.read(off);
        self.log(Access {
            write: false,
            off,
            value,
        });
        value
    }

    /// Writes a word to the register or FIFO window at an offset in bytes. Another access must be allowed.
    #[inline(always)]
    pub fn write(&mut self, off: u16, value: u32)
        requires { 1 ≤ self.old.spare }
        ensures { self.new ≡ bank_write self.old off value }
    {
        self.controller.write(off, value);
        self.log(Access {
            write: true,
            off,
            value,
        });
    }

    #[inline(always)]
    fn log(&mut self, access: Access)
        requires { 1 ≤ self.old.spare }
        ensures { self.new ≡ record self.old { spare = self.old.spare - 1; log = self.old.log ++ access ∷ [] } }
    {
        self.accesses.push(access);
        self.spare -= 1;
    }
}
