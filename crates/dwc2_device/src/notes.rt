//! What a handler run found.
ghost use Rattle.std.specs.Prelude.{◌≡◌, ◌≤◌, IfSome, None};
ghost use Rattle.dwc2_regs.specs.declared.access.TheConstants.{FS4};
ghost use Rattle.endpoint_relation.specs.OutSteps.{noted_state};
ghost use Rattle.endpoint_relation.specs.InSteps.{in_noted};
ghost use Rattle.device_relation.specs.Run.{run_note_out, run_note_in};
ghost use Rattle.dwc2_device.specs.Driver.{joint};
ghost use Rattle.dwc2_device.specs.Keeps.{Keeps};
ghost use Rattle.access_order.specs.Phase.{serving};
ghost use Rattle.dwc2_device.specs.Order.{Goes};
ghost use Rattle.dwc2_device.specs.Notes.{is_out_posted, is_in_posted, out_posted, in_posted, pipe_note, first_note, first_zero_note, without_zero_note, joint_noted, pipes_noted, NotesKeep};

use crate::DevPort;
use device_machine::Stage;
use dwc2_access::Regs;
use endpoint_relation::{InState, OutState};
use usb_packet::Packet;

/// What a handler run found, for the layer above.
#[derive(Drop)]
pub enum Note {
    /// A reset was served. It stands alone.
    Reset,
    /// The host acknowledged a packet of endpoint 0.
    Ep0In,
    /// A packet came on endpoint 0.
    Ep0Out(Packet),
    /// The eight bytes of a SETUP.
    Setup([u8; 8]),
    /// A packet came on the OUT endpoint of this number.
    Out(u8),
    /// A transfer ended on the IN endpoint of this number.
    In(u8),
}

fn is_out_posted(state: OutState) -> bool
    ensures { result ≡ is_out_posted state }
{
    match state {
        OutState::Posted => true,
        OutState::Closed => false,
        OutState::Rest => false,
        OutState::Armed => false,
        OutState::Stale => false,
    }
}

fn is_in_posted(state: InState) -> bool
    ensures { result ≡ is_in_posted state }
{
    match state {
        InState::Posted => true,
        InState::Closed => false,
        InState::Rest => false,
        InState::Running => false,
    }
}

/// The state of an OUT endpoint whose note was taken.
fn noted_out(state: OutState) -> OutState
    ensures { result ≡ noted_state state }
{
    match state {
        OutState::Posted => OutState::Rest,
        OutState::Closed => OutState::Closed,
        OutState::Rest => OutState::Rest,
        OutState::Armed => OutState::Armed,
        OutState::Stale => OutState::Stale,
    }
}

/// The state of an IN endpoint whose note was taken.
fn noted_in(state: InState) -> InState
    ensures { result ≡ in_noted state }
{
    match state {
        InState::Posted => InState::Rest,
        InState::Closed => InState::Closed,
        InState::Rest => InState::Rest,
        InState::Running => InState::Running,
    }
}

/// A note that is taken makes of the device what the task that takes it does. The function does nothing.
pub fn notes_keep()
    ensures { NotesKeep FS4 }
{}

impl<R: Regs + Drop> DevPort<R> {
    /// Takes the next note, where one is left: that of a reset, of a stage that finished, that of a SETUP, and then those of the
    /// OUT endpoints and of the IN endpoints, each by number.
    #[tactic(auto, using(crate::proofs::Noted::zero_first))]
    pub fn next_note(&mut self) -> Option<Note>
        ensures value { result ≡ first_note FS4 self.old.software }
        ensures after { joint self.new ≡ joint_noted (joint self.old) (first_note FS4 self.old.software) }
        ensures bank { self.new.bank ≡ self.old.bank }
    {
        match self.next_zero_note() {
            Some(note) => Some(note),
            None => self.next_out_note(),
        }
    }

    /// Takes the next note of a reset, of a stage that finished or of a SETUP, where one is left. Those of the other endpoints
    /// stay.
    pub fn next_zero_note(&mut self) -> Option<Note>
        ensures value { result ≡ first_zero_note self.old.software }
        ensures after { self.new ≡ record self.old { software = without_zero_note self.old.software } }
    {
        if self.reset {
            self.reset = false;
            return Some(Note::Reset);
        }
        if self.finished.is_some() {
            return match self.finished.take() {
                Some(Stage::Sent) => Some(Note::Ep0In),
                Some(Stage::Came(packet)) => Some(Note::Ep0Out(packet)),
                None => None,
            };
        }
        match self.request.take() {
            Some(bytes) => Some(Note::Setup(bytes)),
            None => None,
        }
    }

    /// A task takes up what was found on each endpoint other than 0.
    pub fn take_pipe_notes(&mut self)
        ensures keeps { Keeps pipes_noted (joint self.old) (joint self.new) }
        ensures order { Goes (serving 0) (serving 0) self.old self.new }
        ensures bank { self.new.bank ≡ self.old.bank }
    {
        self.take_out_notes();
        self.take_in_notes();
    }

    fn take_out_notes(&mut self)
        ensures joint { joint self.new ≡ run_note_out (run_note_out (run_note_out (joint self.old) 1) 2) 3 }
        ensures order { Goes (serving 0) (serving 0) self.old self.new }
        ensures bank { self.new.bank ≡ self.old.bank }
    {
        self.take_out_note(1);
        self.take_out_note(2);
        self.take_out_note(3);
    }

    fn take_in_notes(&mut self)
        ensures joint { joint self.new ≡ run_note_in (run_note_in (run_note_in (joint self.old) 1) 2) 3 }
        ensures order { Goes (serving 0) (serving 0) self.old self.new }
        ensures bank { self.new.bank ≡ self.old.bank }
    {
        self.take_in_note(1);
        self.take_in_note(2);
        self.take_in_note(3);
    }

    fn next_out_note(&mut self) -> Option<Note>
        ensures value { result ≡ pipe_note (out_posted FS4 self.old.software) (in_posted FS4 self.old.software) }
        ensures after { joint self.new ≡ joint_noted (joint self.old) (pipe_note (out_posted FS4 self.old.software) (in_posted FS4 self.old.software)) }
        ensures bank { self.new.bank ≡ self.old.bank }
    {
        match self.posted_out() {
            Some(number) => {
                self.take_out_note(number);
                Some(Note::Out(number))
            }
            None => self.next_in_note(),
        }
    }

    fn next_in_note(&mut self) -> Option<Note>
        ensures value { result ≡ pipe_note None (in_posted FS4 self.old.software) }
        ensures after { joint self.new ≡ joint_noted (joint self.old) (pipe_note None (in_posted FS4 self.old.software)) }
        ensures bank { self.new.bank ≡ self.old.bank }
    {
        match self.posted_in() {
            Some(number) => {
                self.take_in_note(number);
                Some(Note::In(number))
            }
            None => None,
        }
    }

    /// The first OUT endpoint on which a packet was found.
    fn posted_out(&self) -> Option<u8>
        ensures value { result ≡ out_posted FS4 self.now.software }
        ensures number { IfSome result (λ n. (1 ≤ n) × (n ≤ 3)) }
    {
        if is_out_posted(self.out_kept(1).state) {
            return Some(1);
        }
        if is_out_posted(self.out_kept(2).state) {
            return Some(2);
        }
        if is_out_posted(self.out_kept(3).state) {
            return Some(3);
        }
        None
    }

    /// The first IN endpoint on which a transfer ended.
    fn posted_in(&self) -> Option<u8>
        ensures value { result ≡ in_posted FS4 self.now.software }
        ensures number { IfSome result (λ n. (1 ≤ n) × (n ≤ 3)) }
    {
        if is_in_posted(self.in_kept(1).state) {
            return Some(1);
        }
        if is_in_posted(self.in_kept(2).state) {
            return Some(2);
        }
        if is_in_posted(self.in_kept(3).state) {
            return Some(3);
        }
        None
    }

    #[tactic(auto, using(crate::proofs::NotesOrder::out_noted_goes))]
    fn take_out_note(&mut self, number: u8)
        requires from { 1 ≤ number }
        requires to { number ≤ 3 }
        ensures joint { joint self.new ≡ run_note_out (joint self.old) number }
        ensures order { Goes (serving 0) (serving 0) self.old self.new }
        ensures bank { self.new.bank ≡ self.old.bank }
    {
        let mut kept = self.out_kept(number);
        kept.state = noted_out(kept.state);
        self.keep_out(number, kept);
    }

    #[tactic(auto, using(crate::proofs::NotesOrder::in_noted_goes))]
    fn take_in_note(&mut self, number: u8)
        requires from { 1 ≤ number }
        requires to { number ≤ 3 }
        ensures joint { joint self.new ≡ run_note_in (joint self.old) number }
        ensures order { Goes (serving 0) (serving 0) self.old self.new }
        ensures bank { self.new.bank ≡ self.old.bank }
    {
        let mut kept = self.in_kept(number);
        kept.state = noted_in(kept.state);
        self.keep_in(number, kept);
    }
}
