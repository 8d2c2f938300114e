ghost use Rattle.std.specs.Prelude.{◌≡◌, ◌≢◌, ℕ, ◌≤◌, Option, false, length, IsSome, IfSome, IfOk, OnOk, OnErr, is_err, option_map};
ghost use Rattle.usb_edge.specs.Stream.{Rose, last_count};
ghost use Rattle.usb_edge.specs.Disk.{Shelf, HasBlock, is_failing, called, disk_in, read_block, free, after_attach, after_write, faults_after};

/// The bytes of one block of a disk.
pub const BLOCK_SIZE: usize = 512;

/// A disk failed, and the count of faults rose.
#[derive(Clone, Copy, Debug, PartialEq, Eq)]
pub struct DiskFault;

/// Disks of blocks of 512 bytes, each in a slot. A count of faults rises by one at each failing call, and at no other. It
/// stands still at 2^64 - 1.
pub trait Disks {
    /// The size in bytes of the disk that a slot has, where it has one.
    ghost size: { Self → ℕ → Option ℕ };

    /// All disks, where they tell their contents.
    ghost told: { Self → Option Shelf };

    /// How often a call has failed.
    ghost faults: { Self → ℕ };

    /// Puts the disk of a name into a slot: its size in bytes. The disk that the slot had before is then in no slot, with its
    /// bytes as they stand.
    fn attach(&mut self, slot: u8, name: &str) -> Result<u64, DiskFault>
        ensures size { IfOk result (λ n. size self.new slot ≡ Some n) }
        ensures others { (other : ℕ) → other ≢ slot → size self.new other ≡ size self.old other }
        ensures unchanged { OnErr result (size self.new ≡ size self.old) }
        ensures told { told self.new ≡ option_map (after_attach result slot name.now) (told self.old) }
        ensures found { IfOk result (λ n. IfSome (told self.old) (λ shelf. (is_failing shelf ≡ false) × (option_map length (free name.now shelf) ≡ Some n))) }
        ensures failed { OnErr result (Rose (faults self.old) (faults self.new)) }
        ensures exact { faults self.new ≡ faults_after result (faults self.old) }
        ensures count { faults self.old ≤ faults self.new }
        ensures last { faults self.new ≤ last_count };

    /// Reads the block at `lba` into `buf`, which a failing call leaves as it was.
    fn read(&mut self, slot: u8, lba: u32, buf: &mut [u8; 512]) -> Result<(), DiskFault>
        requires { HasBlock (size self.old slot) lba }
        ensures block { OnOk result (IfSome (told self.old) (λ shelf. buf.new ≡ read_block slot lba shelf)) }
        ensures unchanged { OnErr result (buf.new ≡ buf.old) }
        ensures fails { IfSome (told self.old) (λ shelf. is_err result ≡ is_failing shelf) }
        ensures told { told self.new ≡ option_map called (told self.old) }
        ensures size { size self.new ≡ size self.old }
        ensures failed { OnErr result (Rose (faults self.old) (faults self.new)) }
        ensures exact { faults self.new ≡ faults_after result (faults self.old) }
        ensures count { faults self.old ≤ faults self.new }
        ensures last { faults self.new ≤ last_count };

    /// Writes `block` in the place of that at `lba`.
    fn write(&mut self, slot: u8, lba: u32, block: &[u8; 512]) -> Result<(), DiskFault>
        requires { HasBlock (size self.old slot) lba }
        ensures fails { IfSome (told self.old) (λ shelf. is_err result ≡ is_failing shelf) }
        ensures told { told self.new ≡ option_map (after_write result slot lba block.now) (told self.old) }
        ensures size { size self.new ≡ size self.old }
        ensures failed { OnErr result (Rose (faults self.old) (faults self.new)) }
        ensures exact { faults self.new ≡ faults_after result (faults self.old) }
        ensures count { faults self.old ≤ faults self.new }
        ensures last { faults self.new ≤ last_count };

    /// Has all that was written to a disk stay there, where it is one of a system's.
    fn sync(&mut self, slot: u8) -> Result<(), DiskFault>
        requires { IsSome (size self.old slot) }
        ensures fails { IfSome (told self.old) (λ shelf. is_err result ≡ is_failing shelf) }
        ensures told { told self.new ≡ option_map called (told self.old) }
        ensures size { size self.new ≡ size self.old }
        ensures failed { OnErr result (Rose (faults self.old) (faults self.new)) }
        ensures exact { faults self.new ≡ faults_after result (faults self.old) }
        ensures count { faults self.old ≤ faults self.new }
        ensures last { faults self.new ≤ last_count };

    /// Disks that tell their contents have these sizes.
    ghost sized: { (disks : Self) (slot : ℕ) → IfSome (told disks) (λ shelf. size disks slot ≡ option_map length (disk_in slot shelf)) };
}
