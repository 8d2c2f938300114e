//! Laws of disks that tell their contents. The functions do nothing: their clauses are the laws.
ghost use Rattle.usb_edge.specs.DiskLaws.{BlocksAreWhole, WrittenIsRead, OthersStay, AllElseStays, WritesAreOfASlot, AttachesOneDisk, LeavesTheOldDisk, WorkedBlocks, WorkedSlots, WorkedCalls};

/// A block has 512 bytes. One that was written is read back, and every other block, the bytes beside it and their number stay.
pub fn blocks_are_apart()
    ensures whole { BlocksAreWhole }
    ensures written { WrittenIsRead }
    ensures others { OthersStay }
    ensures beside { AllElseStays }
{}

/// A write reaches the disk of its slot and no other one's. A slot takes one disk, which no other slot can take then; the one
/// that it had before is free, and each name keeps its bytes.
pub fn slots_are_apart()
    ensures writes { WritesAreOfASlot }
    ensures attaches { AttachesOneDisk }
    ensures leaves { LeavesTheOldDisk }
{}

/// Two disks worked by hand: their blocks, who has them, and which calls fail.
pub fn disks_worked()
    ensures blocks { WorkedBlocks }
    ensures slots { WorkedSlots }
    ensures calls { WorkedCalls }
{}
