//! The SCSI commands that a disk behind USB mass storage serves: what each command block answers, moves
//! or refuses, and what it leaves of the logical unit's state (SPC-2, SBC-2 and MMC-2 in the
//! choices that this crate states in `specs/Command.antt`).
//!
//! A command block is 16 bytes, of which the commands here read at most ten. Numbers in it are
//! big-endian. No disk is touched: the answer says which blocks are to be read or written.
#![tactic(auto)]

mod data;
pub mod laws;
#[cfg(test)]
mod tests;
mod work;

ghost use Rattle.std.specs.Prelude.{◌≡◌, ◌≢◌, ◌⊎◌, slice_index};
ghost use Rattle.scsi_core.specs.Command.{worked, IsSound};
ghost use Rattle.scsi_core.specs.Laws.{IsMovable, sense_left, FailureKeeps, IsAllowed, TellsSense, HasCause, Refuses};
ghost use Rattle.scsi_core.specs.Sense.{fixed_format, medium_may_have_changed};

use arrayvec::ArrayVec;

/// What the last command that failed left for REQUEST SENSE (SPC-2 7.20): sense key, additional sense
/// code and its qualifier. All three are 0 where nothing is to be told.
#[derive(Clone, Copy, Debug, PartialEq, Eq)]
pub struct Sense {
    pub key: u8,
    pub asc: u8,
    pub ascq: u8,
}

/// The state of a logical unit: its size in blocks of 512 bytes, which is 0 where no disk was given;
/// whether the medium is present, is write-protected and may not be removed; whether the host is still
/// to be told that the medium may have changed; and the sense.
#[derive(Clone, Copy, Debug, PartialEq, Eq)]
pub struct Unit {
    pub blocks: u32,
    pub present: bool,
    pub protected: bool,
    pub prevented: bool,
    pub attention: bool,
    pub sense: Sense,
}

/// What a command wants to be done: nothing; bytes for the host, at least one; blocks to be read or
/// written from `lba` on, at least one; all written blocks to be made durable; or it failed.
#[derive(Debug, PartialEq, Drop)]
pub enum Move {
    None,
    In(ArrayVec<u8, 36>),
    Read { lba: u32, count: u16 },
    Write { lba: u32, count: u16 },
    Sync,
    Fail(Sense),
}

/// Works one command block: byte 0 is the operation code.
///
/// A command block that wants more than the unit allows fails, with the sense as the answer and in the
/// unit. Bytes behind those that the command reads are not looked at.
pub fn command(unit: &mut Unit, cdb: &[u8; 16]) -> Move
    requires { IsSound unit.old }

    // The table of commands, row by row.
    ensures moves { result ≡ (worked unit.old cdb.now).moves }
    ensures leaves { unit.new ≡ (worked unit.old cdb.now).leaves }

    // No command resizes the disk or protects it, or finds a medium where there is no disk.
    ensures size { unit.new.blocks ≡ unit.old.blocks }
    ensures protection { unit.new.protected ≡ unit.old.protected }
    ensures sound { IsSound unit.new }

    // What is to be moved can be moved, and a failure is told once and leaves the medium.
    ensures movable { IsMovable unit.old result }
    ensures sense { unit.new.sense ≡ sense_left result }
    ensures failure { FailureKeeps unit.old unit.new result }

    // A failure has its own cause, and comes in its turn: the medium's change, its absence, the range, the protection.
    ensures cause { HasCause (slice_index cdb.now 0) unit.old cdb.now result }
    ensures refuses { slice_index cdb.now 0 ≢ 3 → Refuses (slice_index cdb.now 0) unit.old result }

    // Data for the host is no more than it has room for.
    ensures allowed { IsAllowed (slice_index cdb.now 0) cdb.now result }

    // REQUEST SENSE tells what is pending first, and the attention stays until it is told.
    ensures told { slice_index cdb.now 0 ≡ 3 → TellsSense unit.old unit.new cdb.now result }

    // REQUEST SENSE aside, the attention ends only with the failure that tells it.
    ensures attention { slice_index cdb.now 0 ≢ 3
        → (unit.new.attention ≡ unit.old.attention) ⊎ (result ≡ Move.Fail medium_may_have_changed) }
{
    work::work(unit, cdb)
}

/// The 18 bytes of fixed-format sense data (SPC-2 7.20.2).
pub fn sense_bytes(sense: &Sense) -> [u8; 18]
    ensures { result ≡ fixed_format sense.now }
{
    [
        0x70, 0, sense.key, 0, 0, 0, 0, 0x0a, 0, 0, 0, 0, sense.asc, sense.ascq, 0, 0, 0, 0,
    ]
}
