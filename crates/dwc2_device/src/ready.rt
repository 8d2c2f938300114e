//! Whether a class's endpoint may be armed or started. No call makes an access.
ghost use Rattle.std.specs.Prelude.{◌≡◌, ◌+◌, ◌≤◌, true, length};
ghost use Rattle.device_rings.specs.Rings.{out_ring};
ghost use Rattle.endpoint_relation.specs.declared.out_.OutState.TheVariants as out_state;
ghost use Rattle.endpoint_relation.specs.declared.in_.InState.TheVariants as in_state;
ghost use Rattle.dwc2_device.specs.Calls.{MayArm, MayStart};

use crate::DevPort;
use device_rings::DevRings;
use dwc2_access::Regs;
use endpoint_relation::{InState, OutState};
use usb_descriptor::is_core;

fn out_rests(state: OutState) -> bool
    ensures { result ≡ true → state ≡ out_state.Rest }
{
    match state {
        OutState::Rest => true,
        OutState::Closed => false,
        OutState::Armed => false,
        OutState::Posted => false,
        OutState::Stale => false,
    }
}

fn in_rests(state: InState) -> bool
    ensures { result ≡ true → state ≡ in_state.Rest }
{
    match state {
        InState::Rest => true,
        InState::Closed => false,
        InState::Running => false,
        InState::Posted => false,
    }
}

impl<R: Regs + Drop> DevPort<R> {
    /// Whether [`DevPort::arm_out`] may be called: the OUT endpoint is a class's, at rest and not halted, and its ring has room
    /// for a packet.
    pub fn may_arm(&self, ep: u8, rings: &DevRings) -> bool
        ensures { result ≡ true → MayArm self.now.software rings.now ep }
    {
        if ep == 0 || ep > 3 {
            return false;
        }
        let kept = self.out_kept(ep);
        if !out_rests(kept.state) || kept.halted || is_core(kept.endpoint.owner) {
            return false;
        }
        has_room(rings, ep, kept.endpoint.size)
    }

    /// Whether [`DevPort::start_in`] may be called: the IN endpoint is a class's and at rest.
    pub fn may_start(&self, ep: u8) -> bool
        ensures { result ≡ true → MayStart self.now.software ep }
    {
        if ep == 0 || ep > 3 {
            return false;
        }
        let kept = self.in_kept(ep);
        in_rests(kept.state) && !is_core(kept.endpoint.owner)
    }
}

/// Whether the ring of an OUT endpoint has room for a packet of this size.
#[tactic(auto, using(crate::proofs::Shut::is_out))]
fn has_room(rings: &DevRings, number: u8, size: u8) -> bool
    requires { number ≤ 3 }
    ensures { result ≡ true → length (out_ring rings.now number).bytes + size ≤ (out_ring rings.now number).capacity }
{
    rings.has_ring(number) && rings.room(number) >= size as u16
}
