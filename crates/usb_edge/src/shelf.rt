ghost use Rattle.std.specs.Prelude.{◌≡◌, ◌≢◌, ℕ, ◌+◌, ◌*◌, ◌≤◌, ◌||◌, Some, None, false, length, refl, IfSome, IfOk, OnOk, OnErr, is_err, is_none, option_map, option_copied, if◌then◌else◌};
ghost use Rattle.usb_edge.specs.Stream.{Rose, last_count, counted};
ghost use Rattle.usb_edge.specs.Disk.{block_at, with_block, is_failing, called, disk_in, named, free, after_attach, faults_after, attached_size};
ghost use Rattle.std.specs.Result.{result_ok};
ghost use Rattle.usb_edge.specs.Memory.{unattached};

use crate::disks::{DiskFault, Disks};
use crate::slots::{MemDisk, SLOTS, attach_disk, bytes_of, read_block, write_block};
use std::marker::Model;

/// Disks in memory.
#[derive(Drop)]
pub struct MemDisks {
    disks: Vec<MemDisk>,
    slots: [Option<usize>; SLOTS],
    calls: u64,
    fails: Vec<u64>,
    faults: u64,
}

impl Model for MemDisks {
    ghost use Rattle.std.specs.Prelude.{length};
    ghost use Rattle.usb_edge.specs.Memory.{Rack, AreInPlace, shelved};

    ghost Value = { Rack };

    ghost view = { λ m. record { shelf = record { disks = shelved m.slots m.disks.items; calls = m.calls; fails = m.fails.items }; faults = m.faults } };

    ghost invariant = { λ m. AreInPlace m.slots (length m.disks.items) };
}

impl MemDisks {
    /// These disks, of which no slot has one. Of disks with one name the first counts. The calls whose numbers are in
    /// `fails`, counted from 1, fail, and so does `attach` at an unknown name and at one whose disk a slot already has.
    pub fn new(disks: Vec<MemDisk>, fails: Vec<u64>) -> MemDisks
        ensures { result ≡ record { shelf = record { disks = unattached disks.items; calls = 0; fails = fails.items }; faults = 0 } }
    {
        MemDisks {
            disks,
            slots: [None; SLOTS],
            calls: 0,
            fails,
            faults: 0,
        }
    }

    /// The bytes of the disk of a name, where there is one.
    pub fn bytes(&self, name: &str) -> Option<&[u8]>
        ensures { option_copied result ≡ named name.now self.now.shelf }
    {
        bytes_of(self.disks.as_slice(), name)
    }

    /// Counts a call: whether it is one that fails.
    fn begin(&mut self) -> bool
        ensures fails { result ≡ is_failing self.old.shelf }
        ensures after { self.new ≡ record { shelf = called self.old.shelf; faults = self.old.faults } }
        ensures last { self.new.faults ≤ last_count }
    {
        let _faults = self.faults;
        self.calls = self.calls.saturating_add(1);
        self.fails.contains(&self.calls)
    }

    /// Counts a fault.
    fn fail(&mut self) -> DiskFault
        ensures after { self.new ≡ record { shelf = self.old.shelf; faults = counted self.old.faults } }
        ensures last { self.new.faults ≤ last_count }
    {
        self.faults = self.faults.saturating_add(1);
        DiskFault
    }
}

impl Disks for MemDisks {
    ghost size = { λ m slot. option_map length (disk_in slot m.shelf) };

    ghost told = { λ m. Some m.shelf };

    ghost faults = { λ m. m.faults };

    fn attach(&mut self, slot: u8, name: &str) -> Result<u64, DiskFault>
        ensures exact { result_ok result ≡ attached_size name.now self.old.shelf }
        ensures after { self.new ≡ record { shelf = after_attach result slot name.now self.old.shelf; faults = faults_after result self.old.faults } }
        ensures size { IfOk result (λ n. option_map length (disk_in slot self.new.shelf) ≡ Some n) }
        ensures others { (other : ℕ) → other ≢ slot → option_map length (disk_in other self.new.shelf) ≡ option_map length (disk_in other self.old.shelf) }
        ensures last { self.new.faults ≤ last_count }
    {
        if self.begin() {
            return Err(self.fail());
        }
        match attach_disk(&self.disks, &mut self.slots, slot, name) {
            Some(size) => Ok(size),
            None => Err(self.fail()),
        }
    }

    fn read(&mut self, slot: u8, lba: u32, buf: &mut [u8; 512]) -> Result<(), DiskFault> {
        if self.begin() {
            return Err(self.fail());
        }
        read_block(&self.disks, &self.slots, slot, lba, buf);
        Ok(())
    }

    fn write(&mut self, slot: u8, lba: u32, block: &[u8; 512]) -> Result<(), DiskFault> {
        if self.begin() {
            return Err(self.fail());
        }
        write_block(&mut self.disks, &self.slots, slot, lba, block);
        Ok(())
    }

    fn sync(&mut self, slot: u8) -> Result<(), DiskFault> {
        let _ = slot;
        if self.begin() {
            return Err(self.fail());
        }
        Ok(())
    }

    ghost sized = { λ m slot. refl };
}

#[cfg(test)]
mod tests;
