ghost use Rattle.std.specs.Prelude.{◌≡◌, ℕ, ◌*◌, ◌≤◌, None, option_map, get_or, OnErr};
ghost use Rattle.std.specs.Result.{result_ok};
ghost use Rattle.usb_edge.specs.Stream.{last_count, counted};
ghost use Rattle.usb_edge.specs.Disk.{faults_after};
ghost use Rattle.usb_edge.specs.System.{block_answer};

use crate::disks::{BLOCK_SIZE, DiskFault, Disks};
use crate::slots::SLOTS;
use std::fs::File;
use std::os::unix::fs::FileExt;
use std::{array, io};

/// A file with a disk's blocks, one behind the other.
#[derive(Drop)]
struct BlockFile {
    file: File,
    size: u64,
}

/// Opens a file for reading and writing in place.
fn open_blocks(rt: &HostRuntime, name: &str) -> io::Result<BlockFile> {
    let file = File::options().read(true).write(true).open(rt, name)?;
    let size = file.metadata()?.len();
    Ok(BlockFile { file, size })
}

/// Disks that are files, whose names are paths. They tell no content, and no file is read whole.
#[derive(Drop)]
pub struct FileDisks {
    rt: HostRuntime,
    slots: [Option<BlockFile>; SLOTS],
    faults: u64,
}

impl FileDisks {
    /// No file is attached, and none has failed. The runtime is that which `main` is given.
    pub fn new(rt: HostRuntime) -> FileDisks
        ensures { result.faults ≡ 0 }
    {
        FileDisks {
            rt,
            slots: array::from_fn(|_| None),
            faults: 0,
        }
    }
}

impl Disks for FileDisks {
    ghost size = { λ disks slot. option_map (λ disk. disk.size) (get_or disks.slots slot None) };

    ghost told = { λ _. None };

    ghost faults = { λ disks. disks.faults };

    fn attach(&mut self, slot: u8, name: &str) -> Result<u64, DiskFault> {
        match answer_to_call(open_blocks(&self.rt, name), &mut self.faults) {
            Ok(disk) => {
                let size = disk.size;
                self.slots[slot as usize] = Some(disk);
                Ok(size)
            }
            Err(fault) => Err(fault),
        }
    }

    fn read(&mut self, slot: u8, lba: u32, buf: &mut [u8; 512]) -> Result<(), DiskFault> {
        match &self.slots[slot as usize] {
            Some(disk) => read_from_file(&disk.file, lba, buf, &mut self.faults),
            None => unreachable!(),
        }
    }

    fn write(&mut self, slot: u8, lba: u32, block: &[u8; 512]) -> Result<(), DiskFault> {
        match &self.slots[slot as usize] {
            Some(disk) => write_to_file(&disk.file, lba, block, &mut self.faults),
            None => unreachable!(),
        }
    }

    fn sync(&mut self, slot: u8) -> Result<(), DiskFault> {
        match &self.slots[slot as usize] {
            Some(disk) => answer_to_call(disk.file.sync_all(), &mut self.faults),
            None => unreachable!(),
        }
    }

    ghost sized = { λ disks slot. tt };
}

/// Where a block begins in its file.
fn block_start(lba: u32) -> u64
    ensures { result ≡ 512 * lba }
{
    BLOCK_SIZE as u64 * u64::from(lba)
}

/// Reads a block of a file into `buf`, which a failing call leaves as it was.
fn read_from_file<F: FileExt>(
    file: &F,
    lba: u32,
    buf: &mut [u8; 512],
    faults: &mut u64,
) -> Result<(), DiskFault>
    ensures unchanged { OnErr result (buf.new ≡ buf.old) }
    ensures exact { faults.new ≡ faults_after result faults.old }
    ensures count { faults.old ≤ faults.new }
    ensures last { faults.new ≤ last_count }
{
    let mut block = [0; BLOCK_SIZE];
    let given = file.read_at(&mut block, block_start(lba));
    let answer = answer_to_block(given, faults);
    if answer.is_ok() {
        *buf = block;
    }
    answer
}

/// Writes a block of a file.
fn write_to_file<F: FileExt>(
    file: &F,
    lba: u32,
    block: &[u8; 512],
    faults: &mut u64,
) -> Result<(), DiskFault>
    ensures exact { faults.new ≡ faults_after result faults.old }
    ensures count { faults.old ≤ faults.new }
    ensures last { faults.new ≤ last_count }
{
    let given = file.write_at(block, block_start(lba));
    answer_to_block(given, faults)
}

/// What a disk answers to a read or a write of a block that moved so many bytes: a short one is a fault.
fn answer_to_block(given: io::Result<usize>, faults: &mut u64) -> Result<(), DiskFault>
    ensures answer { result_ok result ≡ block_answer given }
    ensures exact { faults.new ≡ faults_after result faults.old }
    ensures count { faults.old ≤ faults.new }
    ensures last { faults.new ≤ last_count }
{
    let _faults = *faults;
    match given {
        Ok(BLOCK_SIZE) => Ok(()),
        _ => Err(count_fault(faults)),
    }
}

/// What a disk answers to a call of the system that gave this.
fn answer_to_call<T: Drop>(given: io::Result<T>, faults: &mut u64) -> Result<T, DiskFault>
    ensures answer { result_ok result ≡ result_ok given }
    ensures exact { faults.new ≡ faults_after result faults.old }
    ensures count { faults.old ≤ faults.new }
    ensures last { faults.new ≤ last_count }
{
    let _faults = *faults;
    match given {
        Ok(value) => Ok(value),
        Err(_) => Err(count_fault(faults)),
    }
}

/// Counts a fault.
fn count_fault(faults: &mut u64) -> DiskFault
    ensures after { faults.new ≡ counted faults.old }
    ensures last { faults.new ≤ last_count }
{
    *faults = faults.saturating_add(1);
    DiskFault
}

#[cfg(test)]
mod tests;
