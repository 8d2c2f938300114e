//! What the core tells a class.
ghost use Rattle.device_world.specs.State.{State};
ghost use Rattle.device_world.specs.World.{rules as class_rules};

use crate::classes::DeviceClasses;
use usb_packet::{Owner, Setup};
use usb_pipe::{Decision, DevClasses, DevPipes};

impl DevClasses for DeviceClasses {
    ghost State = { State };

    ghost rules = { class_rules };

    ghost states = { λ c. c };

    fn opened(&mut self, owner: Owner) {
        match owner {
            Owner::Cdc => self.serial.opened(),
            Owner::Hid => self.human.opened(),
            Owner::Midi => self.music.opened(),
            Owner::Core | Owner::Msc => {}
        }
    }

    fn closed(&mut self) {
        self.serial.closed();
        self.human.closed();
        self.music.closed();
    }

    fn setup(&mut self, owner: Owner, setup: &Setup) -> Decision {
        match owner {
            Owner::Cdc => self.serial.setup(setup),
            Owner::Hid => self.human.setup(setup),
            Owner::Midi => self.music.setup(setup),
            Owner::Core | Owner::Msc => Decision::Stall,
        }
    }

    fn data(&mut self, owner: Owner, setup: &Setup, bytes: &[u8]) -> bool {
        match owner {
            Owner::Cdc => self.serial.data(setup, bytes),
            Owner::Hid => self.human.data(setup, bytes),
            Owner::Midi => self.music.data(setup, bytes),
            Owner::Core | Owner::Msc => false,
        }
    }

    fn came(&mut self, owner: Owner, pipe: u8) {
        match owner {
            Owner::Cdc => self.serial.came(pipe),
            Owner::Hid => self.human.came(pipe),
            Owner::Midi => self.music.came(pipe),
            Owner::Core | Owner::Msc => {}
        }
    }

    fn ended(&mut self, owner: Owner, pipe: u8, len: u16) {
        match owner {
            Owner::Cdc => self.serial.ended(pipe, len),
            Owner::Hid => self.human.ended(pipe, len),
            Owner::Midi => self.music.ended(pipe, len),
            Owner::Core | Owner::Msc => {}
        }
    }

    fn cleared(&mut self, owner: Owner, pipe: u8) {
        match owner {
            Owner::Cdc => self.serial.cleared(pipe),
            Owner::Hid => self.human.cleared(pipe),
            Owner::Midi => self.music.cleared(pipe),
            Owner::Core | Owner::Msc => {}
        }
    }

    fn work<P: DevPipes>(&mut self, owner: Owner, pipes: &mut P) {
        match owner {
            Owner::Cdc => self.serial.work(pipes),
            Owner::Hid => self.human.work(pipes),
            Owner::Midi => self.music.work(pipes),
            Owner::Core | Owner::Msc => {}
        }
    }
}
