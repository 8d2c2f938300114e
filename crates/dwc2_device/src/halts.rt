//! Which endpoints other than 0 are open, and which are halted (USB 2.0, 9.4.5). No call makes an access.
ghost use Rattle.std.specs.Prelude.{◌≡◌, ◌≤◌, true, filter, length};
ghost use Rattle.dwc2_regs.specs.declared.access.TheConstants.{FS4};
ghost use Rattle.device_machine.specs.Pipes.{halted_addresses};
ghost use Rattle.device_rings.specs.Rings.{Rings};
ghost use Rattle.endpoint_relation.specs.OutRelation.{is_open};
ghost use Rattle.device_relation.specs.Software.{out_kept, in_kept};
ghost use Rattle.device_relation.specs.PipeRelation.{IsSound, pipes_of};
ghost use Rattle.dwc2_device.specs.Driver.{joint};
ghost use Rattle.dwc2_device.specs.Calls.{IsNumbered, is_open_at, is_in_open, is_halted_at};

use crate::DevPort;
use arrayvec::ArrayVec;
use dwc2_access::Regs;
use endpoint_relation::{InEndpoint, InState, OutEndpoint, OutState};

/// Bit 7 of an endpoint's address, which says IN (USB 2.0, 9.6.6).
const IN: u8 = 0x80;

/// The addresses of the endpoints other than 0, ascending.
const ADDRESSES: [u8; 6] = [1, 2, 3, 129, 130, 131];

fn is_out_open(state: OutState) -> bool
    ensures { result ≡ is_open state }
{
    match state {
        OutState::Closed => false,
        OutState::Rest => true,
        OutState::Armed => true,
        OutState::Posted => true,
        OutState::Stale => true,
    }
}

fn is_in_open(state: InState) -> bool
    ensures { result ≡ is_in_open state }
{
    match state {
        InState::Closed => false,
        InState::Rest => true,
        InState::Running => true,
        InState::Posted => true,
    }
}

impl<R: Regs + Drop> DevPort<R> {
    /// The addresses of the halted endpoints, ascending.
    #[tactic(auto, using(crate::proofs::Shut::halted_are))]
    pub fn halted_addresses(&self) -> ArrayVec<u8, 30>
        ensures { (r : Rings) → IsSound FS4 (joint self.now) r → result.items ≡ halted_addresses (pipes_of (joint self.now) r) }
    {
        self.halted_among(&ADDRESSES)
    }

    /// Those of some addresses that are halted, in their order.
    fn halted_among(&self, addresses: &[u8]) -> ArrayVec<u8, 30>
        requires few { length addresses.now ≤ 30 }
        ensures { result.items ≡ filter (is_halted_at self.now.software) addresses.now }
    {
        let mut halted = ArrayVec::new();
        for addr in addresses {
            if self.is_halted(*addr) {
                halted.push(*addr);
            }
        }
        halted
    }

    fn is_halted(&self, addr: u8) -> bool
        ensures { result ≡ is_halted_at self.now.software addr }
    {
        if addr < IN {
            self.out_at(addr).halted
        } else {
            self.in_at(addr - IN).halted
        }
    }

    /// Whether the endpoint at an address is open; then it is one that the controller has.
    pub fn is_open_at(&self, addr: u8) -> bool
        ensures value { result ≡ is_open_at self.now.software addr }
        ensures numbered { result ≡ true → IsNumbered addr }
    {
        if addr < IN {
            self.is_out_open_at(addr)
        } else {
            self.is_in_open_at(addr - IN)
        }
    }

    fn is_out_open_at(&self, number: u8) -> bool
        ensures value { result ≡ is_open (out_kept self.now.software number).state }
        ensures from { result ≡ true → 1 ≤ number }
        ensures to { result ≡ true → number ≤ 3 }
    {
        if number == 0 {
            return false;
        }
        match self.outs.get((number - 1) as usize) {
            Some(kept) => is_out_open(kept.state),
            None => false,
        }
    }

    fn is_in_open_at(&self, number: u8) -> bool
        ensures value { result ≡ is_in_open (in_kept self.now.software number).state }
        ensures from { result ≡ true → 1 ≤ number }
        ensures to { result ≡ true → number ≤ 3 }
    {
        if number == 0 {
            return false;
        }
        match self.ins.get((number - 1) as usize) {
            Some(kept) => is_in_open(kept.state),
            None => false,
        }
    }

    /// What is kept of the OUT endpoint of any number; of one that the controller hasn't there is nothing.
    pub fn out_at(&self, number: u8) -> OutEndpoint
        ensures { result ≡ out_kept self.now.software number }
    {
        if number == 0 {
            return OutEndpoint::unused();
        }
        match self.outs.get((number - 1) as usize) {
            Some(kept) => *kept,
            None => OutEndpoint::unused(),
        }
    }

    /// What is kept of the IN endpoint of any number.
    pub fn in_at(&self, number: u8) -> InEndpoint
        ensures { result ≡ in_kept self.now.software number }
    {
        if number == 0 {
            return InEndpoint::unused();
        }
        match self.ins.get((number - 1) as usize) {
            Some(kept) => *kept,
            None => InEndpoint::unused(),
        }
    }
}
