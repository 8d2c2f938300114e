//! A class's view of a device: the pipes of one owner (USB 2.0, 5.3.2).
ghost use Rattle.std.specs.Prelude.{◌≡◌, ◌==◌, false, if◌then◌else◌};
ghost use Rattle.std.proofs.Common.{◌∙◌, subst, refl};
ghost use Rattle.usb_descriptor.specs.Set.{is_core};
ghost use Rattle.usbd_core.specs.View.{IsWhole, IsView, Beside, own_of};
ghost use Rattle.usbd_core.specs.Beside.{beside_itself, beside_then};

use crate::DevStack;
use crate::numbers::{IN, number_at};
use dwc2_access::Regs;
use usb_packet::Owner;
use usb_pipe::{DevPipes, Phase};

/// The pipes of one owner on a device, with the numbers of their endpoints, 0 where the owner has none.
#[derive(Drop)]
pub struct DevView<'a, R: Regs> {
    stack: &'a mut DevStack<R>,
    owner: Owner,
    sends: u8,
    receives: u8,
    notifies: u8,
}

impl<R: Regs + Drop> DevStack<R> {
    /// The pipes of a class.
    pub fn pipes(&mut self, owner: Owner) -> DevView<'_, R>
        requires whole { IsWhole self.old }
        requires class { is_core owner ≡ false }
        ensures lends { (result.stack.ghost_name ≡ self.entry.ghost_name) × (result.stack.now ≡ self.old) }
        ensures owner { result.owner ≡ owner }
        ensures view { IsView owner result.sends result.receives result.notifies self.old }
    {
        let sends = number_at(self.set.endpoints(), owner, 0);
        let receives = number_at(self.set.endpoints(), owner, 1);
        let notifies = number_at(self.set.endpoints(), owner, 2);
        DevView {
            stack: self,
            owner,
            sends,
            receives,
            notifies,
        }
    }
}

impl<R: Regs> DevView<'_, R> {
    /// The number of the endpoint of a pipe that sends.
    fn sender(&self, pipe: u8) -> u8
        ensures { result ≡ (if pipe == 2 then self.now.notifies else self.now.sends) }
    {
        if pipe == 2 { self.notifies } else { self.sends }
    }
}

impl<R: Regs + Drop> DevPipes for DevView<'_, R> {
    ghost pipes = { λ v. own_of v.owner v.stack.now };

    ghost beside = { λ u v. (v.stack.ghost_name ≡ u.stack.ghost_name) × (v.owner ≡ u.owner) × (v.sends ≡ u.sends) × (v.receives ≡ u.receives) × (v.notifies ≡ u.notifies) × Beside u.owner u.stack.now v.stack.now };

    ghost sound = { λ v. IsView v.owner v.sends v.receives v.notifies v.stack.now };

    ghost spare = { λ v. v.stack.now.port.bank.spare };

    ghost reflexive = { λ v. (refl, refl, refl, refl, refl, beside_itself v.owner v.stack.now) };

    ghost transitive = { λ u v w h k. (k.0 ∙ h.0, k.1 ∙ h.1, k.2 ∙ h.2, k.3 ∙ h.3, k.4 ∙ h.4, beside_then u.owner u.stack.now v.stack.now w.stack.now h.5 (subst (λ o. Beside o v.stack.now w.stack.now) h.1 k.5)) };

    fn phase(&self, pipe: u8) -> Phase {
        if pipe == 1 {
            return self.stack.out_phase(self.receives);
        }
        self.stack.in_phase(self.sender(pipe))
    }

    fn held(&self, pipe: u8) -> u16 {
        if pipe == 1 {
            return self.stack.out_held(self.receives);
        }
        self.stack.in_held(self.sender(pipe))
    }

    fn room(&self, pipe: u8) -> u16 {
        if pipe == 1 {
            return self.stack.out_room(self.receives);
        }
        self.stack.in_room(self.sender(pipe))
    }

    fn write(&mut self, pipe: u8, bytes: &[u8]) -> u16 {
        let number = self.sender(pipe);
        self.stack.write_pipe(number, bytes)
    }

    fn read(&mut self, pipe: u8, buf: &mut [u8]) -> u16 {
        let _ = pipe;
        self.stack.read_pipe(self.receives, buf)
    }

    fn start(&mut self, pipe: u8) {
        let number = self.sender(pipe);
        self.stack.start_pipe(number);
    }

    fn arm(&mut self, pipe: u8) {
        let _ = pipe;
        self.stack.arm_pipe(self.receives);
    }

    fn halt(&mut self, pipe: u8) {
        if pipe == 1 {
            return self.stack.halt_pipe(self.receives);
        }
        let number = self.sender(pipe);
        self.stack.halt_pipe(IN + number)
    }

    fn drop_all(&mut self, pipe: u8) {
        if pipe == 1 {
            return self.stack.drop_out(self.receives);
        }
        let number = self.sender(pipe);
        self.stack.drop_in(number)
    }
}
