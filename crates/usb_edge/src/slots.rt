ghost use Rattle.std.specs.Prelude.{◌≡◌, ℕ, ◌+◌, ◌*◌, ◌/◌, ◌≤◌, ◌<◌, None, Some, [], length, string_bytes, position, bytes_eq, is_none, OnSome, IfNone, option_map, option_copied, unwrap_or};
ghost use Rattle.std.specs.List.{list_any};
ghost use Rattle.usb_edge.specs.Disk.{HasBlock, is_slot, block_at, with_block, bytes_in, with_written, disk_of, free_bytes, left, given};
ghost use Rattle.usb_edge.specs.Memory.{slot_of, shelved, unattached, AreInPlace, IsFreeIndex};

use crate::disks::BLOCK_SIZE;

/// The slots that there are.
pub const SLOTS: usize = 256;

/// A disk in memory: its name, and its bytes.
#[derive(Debug, Drop)]
pub struct MemDisk {
    /// The name by which it is attached.
    pub name: String,
    /// Its blocks, one behind the other.
    pub bytes: Vec<u8>,
}

/// The index of the first disk of a name.
fn index_of(disks: &[MemDisk], name: &str) -> Option<usize>
    ensures { result ≡ position (λ disk. bytes_eq (string_bytes disk.name) name.now) disks.now }
{
    disks.iter().position(|disk| disk.name.as_str() == name)
}

/// The bytes of the first disk of a name.
#[tactic(auto, using(crate::proofs::ShelfLemmas::disk_of_none))]
pub fn bytes_of<'a>(disks: &'a [MemDisk], name: &str) -> Option<&'a [u8]>
    ensures { option_copied result ≡ option_map (λ held. held.bytes) (disk_of name.now (unattached disks.now)) }
{
    match index_of(disks, name) {
        Some(index) => Some(disks[index].bytes.as_slice()),
        None => None,
    }
}

/// Whether a slot has the disk of an index.
fn has_slot(slots: &[Option<usize>], index: usize) -> bool
    ensures { result ≡ list_any (is_slot index) slots.now }
{
    slots.iter().any(|slot| match slot {
        Some(at) => *at == index,
        None => false,
    })
}

/// The index of the first disk of a name, where no slot has it.
#[tactic(auto, using(crate::proofs::ShelfLemmas::disk_of_none))]
fn free_index(disks: &[MemDisk], slots: &[Option<usize>; SLOTS], name: &str) -> Option<usize>
    ensures { IsFreeIndex name.now slots.now disks.now result }
{
    let Some(index) = index_of(disks, name) else {
        return None;
    };
    if has_slot(slots, index) {
        return None;
    }
    Some(index)
}

/// Puts the first disk of a name into a slot, where no slot has it: its size in bytes.
pub fn attach_disk(
    disks: &[MemDisk],
    slots: &mut [Option<usize>; SLOTS],
    slot: u8,
    name: &str,
) -> Option<u64>
    requires { AreInPlace slots.old (length disks.now) }
    ensures size { result ≡ option_map length (free_bytes (disk_of name.now (shelved slots.old disks.now))) }
    ensures given { OnSome result (shelved slots.new disks.now ≡ given slot name.now (left slot (shelved slots.old disks.now))) }
    ensures unchanged { IfNone result (slots.new ≡ slots.old) }
    ensures in_place { AreInPlace slots.new (length disks.now) }
{
    let Some(index) = free_index(disks, slots, name) else {
        return None;
    };
    slots[slot as usize] = Some(index);
    Some(disks[index].bytes.as_slice().len() as u64)
}

/// Reads a block of the disk that a slot has.
pub fn read_block(
    disks: &[MemDisk],
    slots: &[Option<usize>; SLOTS],
    slot: u8,
    lba: u32,
    buf: &mut [u8; 512],
)
    requires in_place { AreInPlace slots.now (length disks.now) }
    requires block { HasBlock (option_map length (bytes_in slot (shelved slots.now disks.now))) lba }
    ensures { buf.new ≡ block_at lba (unwrap_or (bytes_in slot (shelved slots.now disks.now)) []) }
{
    if let Some(index) = slots[slot as usize] {
        take_block(disks[index].bytes.as_slice(), lba, buf);
    }
}

/// Writes a block of the disk that a slot has.
pub fn write_block(
    disks: &mut Vec<MemDisk>,
    slots: &[Option<usize>; SLOTS],
    slot: u8,
    lba: u32,
    block: &[u8; 512],
)
    requires in_place { AreInPlace slots.now (length disks.old.items) }
    requires block { HasBlock (option_map length (bytes_in slot (shelved slots.now disks.old.items))) lba }
    ensures written { shelved slots.now disks.new.items ≡ with_written slot lba block.now (shelved slots.now disks.old.items) }
    ensures count { length disks.new.items ≡ length disks.old.items }
{
    if let Some(index) = slots[slot as usize] {
        let disk = &mut disks[index];
        put_block(&mut disk.bytes, lba, block);
    }
}

/// Takes a block out of these bytes.
fn take_block(bytes: &[u8], lba: u32, buf: &mut [u8; 512])
    requires { lba < length bytes.now / 512 }
    ensures { buf.new ≡ block_at lba bytes.now }
{
    let at = BLOCK_SIZE * lba as usize;
    buf.copy_from_slice(&bytes[at..at + BLOCK_SIZE]);
}

/// Puts a block into its place in these bytes.
#[tactic(auto, using(crate::proofs::ShelfLemmas::put_mid_block))]
fn put_block(bytes: &mut Vec<u8>, lba: u32, block: &[u8; 512])
    requires { lba < length bytes.old.items / 512 }
    ensures { bytes.new.items ≡ with_block lba block.now bytes.old.items }
{
    let at = BLOCK_SIZE * lba as usize;
    bytes[at..at + BLOCK_SIZE].copy_from_slice(block);
}
