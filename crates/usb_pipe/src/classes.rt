ghost use Rattle.std.specs.Prelude.{◌≡◌, ◌+◌, ◌≤◌, ℕ};
ghost use Rattle.usb_packet.specs.declared.bus.Owner.{Owner};
ghost use Rattle.usb_pipe.specs.Own.{work_accesses};
ghost use Rattle.usb_pipe.specs.Rules.{Rules};
ghost use Rattle.usb_pipe.specs.Classes.{Classes, class_owners, class_at, told, told_each};

use crate::decision::Decision;
use crate::pipes::DevPipes;
use usb_packet::{Owner, Setup};

/// The classes of a device, each with its owner's name. A call that names an owner leaves the states of all others. What a class
/// does, the implementation gives as rules.
pub trait DevClasses {
    /// What a class holds.
    ghost State: { Type 0 };

    /// What the class of each owner does.
    ghost rules: { Owner → Rules State };

    /// What each class holds.
    ghost states: { Self → Classes State };

    /// A session begins (USB 2.0, 9.4.7).
    fn opened(&mut self, owner: Owner)
        ensures { states self.new ≡ told rules owner (λ r s. r.after_opened s) (states self.old) };

    /// It ends: each class learns of it.
    fn closed(&mut self)
        ensures { states self.new ≡ told_each rules class_owners (λ r s. r.after_closed s) (states self.old) };

    /// What is done at a request to the class.
    fn setup(&mut self, owner: Owner, setup: &Setup) -> Decision
        ensures decision { result ≡ (rules owner).decides (class_at (states self.old) owner) setup.now }
        ensures states { states self.new ≡ told rules owner (λ r s. r.after_setup s setup.now) (states self.old) };

    /// The data of a request that takes some: whether the class takes it.
    fn data(&mut self, owner: Owner, setup: &Setup, bytes: &[u8]) -> bool
        ensures taken { result ≡ (rules owner).accepts (class_at (states self.old) owner) setup.now bytes.now }
        ensures states { states self.new ≡ told rules owner (λ r s. r.after_data s setup.now bytes.now) (states self.old) };

    /// A packet came on a pipe.
    fn came(&mut self, owner: Owner, pipe: u8)
        ensures { states self.new ≡ told rules owner (λ r s. r.after_came s pipe) (states self.old) };

    /// A transfer of so many bytes ended on a pipe.
    fn ended(&mut self, owner: Owner, pipe: u8, len: u16)
        ensures { states self.new ≡ told rules owner (λ r s. r.after_ended s pipe len) (states self.old) };

    /// The halt of a pipe ended (9.4.5).
    fn cleared(&mut self, owner: Owner, pipe: u8)
        ensures { states self.new ≡ told rules owner (λ r s. r.after_cleared s pipe) (states self.old) };

    /// The class works on its owner's pipes.
    fn work<P: DevPipes>(&mut self, owner: Owner, pipes: &mut P)
        requires sound { P.sound pipes.old }
        requires spare { work_accesses ≤ P.spare pipes.old }
        ensures pipes { P.pipes pipes.new ≡ (rules owner).pipes_after_work (class_at (states self.old) owner) (P.pipes pipes.old) }
        ensures states { states self.new ≡ told rules owner (λ r s. r.after_work s (P.pipes pipes.old)) (states self.old) }
        ensures beside { P.beside pipes.old pipes.new }
        ensures sound { P.sound pipes.new }
        ensures spends { P.spare pipes.old ≤ P.spare pipes.new + work_accesses };
}
