//! The commands, one function for each row of the table.
ghost use Rattle.std.specs.Prelude.{◌≡◌};
ghost use Rattle.scsi_core.specs.Command.{byte, number, request_sense as request_sense_of, told, ready, in_range, writable, worked, IsSound};
ghost use Rattle.scsi_core.specs.Steps.{Asks, Works};

use crate::data::{cut, inquiry_bytes};
use crate::{Move, Sense, Unit, sense_bytes};
use byteorder::{BigEndian, ByteOrder};

/// The one command that finds the sense which the command before it left.
const REQUEST_SENSE: u8 = 0x03;

const NO_SENSE: Sense = Sense {
    key: 0,
    asc: 0,
    ascq: 0,
};

const MEDIUM_MAY_HAVE_CHANGED: Sense = Sense {
    key: 6,
    asc: 0x28,
    ascq: 0,
};

const MEDIUM_NOT_PRESENT: Sense = Sense {
    key: 2,
    asc: 0x3a,
    ascq: 0,
};

const ADDRESS_OUT_OF_RANGE: Sense = Sense {
    key: 5,
    asc: 0x21,
    ascq: 0,
};

const WRITE_PROTECTED: Sense = Sense {
    key: 7,
    asc: 0x27,
    ascq: 0,
};

const INVALID_COMMAND: Sense = Sense {
    key: 5,
    asc: 0x20,
    ascq: 0,
};

const INVALID_FIELD: Sense = Sense {
    key: 5,
    asc: 0x24,
    ascq: 0,
};

const REMOVAL_PREVENTED: Sense = Sense {
    key: 5,
    asc: 0x53,
    ascq: 2,
};

/// Works one command block by the table.
pub fn work(unit: &mut Unit, cdb: &[u8; 16]) -> Move
    requires { IsSound unit.old }
    ensures moves { result ≡ (worked unit.old cdb.now).moves }
    ensures leaves { unit.new ≡ (worked unit.old cdb.now).leaves }
{
    if cdb[0] == REQUEST_SENSE {
        return request_sense(unit, cdb);
    }
    unit.sense = NO_SENSE;
    match by_table(unit, cdb) {
        Ok(moves) => moves,
        Err(sense) => {
            unit.sense = sense;
            Move::Fail(sense)
        }
    }
}

/// REQUEST SENSE, which tells the sense that the command before it left.
fn request_sense(unit: &mut Unit, cdb: &[u8; 16]) -> Move
    ensures moves { result ≡ (request_sense_of unit.old cdb.now).moves }
    ensures leaves { unit.new ≡ (request_sense_of unit.old cdb.now).leaves }
{
    let mut sense = unit.sense;
    unit.sense = NO_SENSE;
    if sense == NO_SENSE && unit.attention {
        unit.attention = false;
        sense = MEDIUM_MAY_HAVE_CHANGED;
    }
    cut(&sense_bytes(&sense), cdb[4] as usize)
}

/// Whether the host was told of the last change of the medium. Telling it clears the attention.
fn ask_told(unit: &mut Unit, cdb: &[u8; 16]) -> Result<(), Sense>
    ensures { Asks told unit.old unit.new cdb.now result }
{
    if unit.attention {
        unit.attention = false;
        return Err(MEDIUM_MAY_HAVE_CHANGED);
    }
    Ok(())
}

/// Then whether the medium is there.
fn ask_ready(unit: &mut Unit, cdb: &[u8; 16]) -> Result<(), Sense>
    ensures { Asks ready unit.old unit.new cdb.now result }
{
    ask_told(unit, cdb)?;
    if unit.present {
        Ok(())
    } else {
        Err(MEDIUM_NOT_PRESENT)
    }
}

/// Then whether the blocks lie on the medium.
fn ask_in_range(unit: &mut Unit, cdb: &[u8; 16]) -> Result<(), Sense>
    ensures { Asks in_range unit.old unit.new cdb.now result }
{
    ask_ready(unit, cdb)?;
    let end = first_block(cdb) as u64 + block_count(cdb) as u64;
    if (unit.blocks as u64) < end {
        Err(ADDRESS_OUT_OF_RANGE)
    } else {
        Ok(())
    }
}

/// Then whether the medium may be written.
fn ask_writable(unit: &mut Unit, cdb: &[u8; 16]) -> Result<(), Sense>
    ensures { Asks writable unit.old unit.new cdb.now result }
{
    ask_in_range(unit, cdb)?;
    if unit.protected {
        Err(WRITE_PROTECTED)
    } else {
        Ok(())
    }
}

/// The first block of a transfer.
fn first_block(cdb: &[u8; 16]) -> u32
    ensures { result ≡ number 2 4 cdb.now }
{
    BigEndian::read_u32(&cdb[2..])
}

/// The number of blocks of a transfer, or the allocation length of ten-byte commands.
fn block_count(cdb: &[u8; 16]) -> u16
    ensures { result ≡ number 7 2 cdb.now }
{
    BigEndian::read_u16(&cdb[7..])
}

/// TEST UNIT READY (SPC-2 7.25).
fn test_unit_ready(unit: &mut Unit, cdb: &[u8; 16]) -> Result<Move, Sense>
    ensures { Works 0x00 unit.old unit.new cdb.now result }
{
    ask_ready(unit, cdb)?;
    Ok(Move::None)
}

/// INQUIRY (SPC-2 7.3). Vital product data is refused.
fn inquiry(unit: &mut Unit, cdb: &[u8; 16]) -> Result<Move, Sense>
    ensures { Works 0x12 unit.old unit.new cdb.now result }
{
    if cdb[1] % 2 == 1 {
        return Err(INVALID_FIELD);
    }
    let room = BigEndian::read_u16(&cdb[3..]);
    Ok(cut(&inquiry_bytes(), room as usize))
}

/// MODE SENSE(6) (SPC-2 7.8): a header alone, which tells the protection.
fn mode_sense(unit: &mut Unit, cdb: &[u8; 16]) -> Result<Move, Sense>
    ensures { Works 0x1a unit.old unit.new cdb.now result }
{
    ask_ready(unit, cdb)?;
    let protection = if unit.protected { 0x80 } else { 0 };
    Ok(cut(&[3, 0, protection, 0], cdb[4] as usize))
}

/// START STOP UNIT (SBC-2): ejects the medium, or inserts one where a disk was given.
fn start_stop_unit(unit: &mut Unit, cdb: &[u8; 16]) -> Result<Move, Sense>
    ensures { Works 0x1b unit.old unit.new cdb.now result }
{
    ask_told(unit, cdb)?;
    match cdb[4] {
        2 if unit.prevented => return Err(REMOVAL_PREVENTED),
        2 => unit.present = false,
        3 if unit.blocks != 0 => unit.present = true,
        _ => (),
    }
    Ok(Move::None)
}

/// PREVENT ALLOW MEDIUM REMOVAL (SPC-2 7.12).
fn prevent_allow(unit: &mut Unit, cdb: &[u8; 16]) -> Result<Move, Sense>
    ensures { Works 0x1e unit.old unit.new cdb.now result }
{
    ask_told(unit, cdb)?;
    unit.prevented = cdb[4] % 2 == 1;
    Ok(Move::None)
}

/// READ FORMAT CAPACITIES (MMC-2): one descriptor, of a formatted medium.
fn read_format_capacities(unit: &mut Unit, cdb: &[u8; 16]) -> Result<Move, Sense>
    ensures { Works 0x23 unit.old unit.new cdb.now result }
{
    ask_ready(unit, cdb)?;
    let [b3, b2, b1, b0] = unit.blocks.to_be_bytes();
    let data = [0, 0, 0, 8, b3, b2, b1, b0, 2, 0, 2, 0];
    Ok(cut(&data, block_count(cdb) as usize))
}

/// READ CAPACITY(10) (SBC-2): the last block, and the size of a block.
fn read_capacity(unit: &mut Unit, cdb: &[u8; 16]) -> Result<Move, Sense>
    requires { IsSound unit.old }
    ensures { Works 0x25 unit.old unit.new cdb.now result }
{
    ask_ready(unit, cdb)?;
    let [b3, b2, b1, b0] = (unit.blocks - 1).to_be_bytes();
    Ok(cut(&[b3, b2, b1, b0, 0, 0, 2, 0], 8))
}

/// READ(10) (SBC-2).
fn read(unit: &mut Unit, cdb: &[u8; 16]) -> Result<Move, Sense>
    ensures { Works 0x28 unit.old unit.new cdb.now result }
{
    ask_in_range(unit, cdb)?;
    match block_count(cdb) {
        0 => Ok(Move::None),
        count => Ok(Move::Read {
            lba: first_block(cdb),
            count,
        }),
    }
}

/// WRITE(10) (SBC-2).
fn write(unit: &mut Unit, cdb: &[u8; 16]) -> Result<Move, Sense>
    ensures { Works 0x2a unit.old unit.new cdb.now result }
{
    ask_writable(unit, cdb)?;
    match block_count(cdb) {
        0 => Ok(Move::None),
        count => Ok(Move::Write {
            lba: first_block(cdb),
            count,
        }),
    }
}

/// VERIFY(10) (SBC-2): the blocks are taken to be readable. A comparison of bytes is refused.
fn verify(unit: &mut Unit, cdb: &[u8; 16]) -> Result<Move, Sense>
    ensures { Works 0x2f unit.old unit.new cdb.now result }
{
    ask_in_range(unit, cdb)?;
    if cdb[1] / 2 % 2 == 1 {
        return Err(INVALID_FIELD);
    }
    Ok(Move::None)
}

/// SYNCHRONIZE CACHE(10) (SBC-2).
fn synchronize_cache(unit: &mut Unit, cdb: &[u8; 16]) -> Result<Move, Sense>
    ensures { Works 0x35 unit.old unit.new cdb.now result }
{
    ask_ready(unit, cdb)?;
    Ok(Move::Sync)
}

/// Works any command but REQUEST SENSE: what it answers, or the sense with which it fails.
fn by_table(unit: &mut Unit, cdb: &[u8; 16]) -> Result<Move, Sense>
    requires { IsSound unit.old }
    ensures { Works (byte 0 cdb.now) unit.old unit.new cdb.now result }
{
    match cdb[0] {
        0x00 => test_unit_ready(unit, cdb),
        0x12 => inquiry(unit, cdb),
        0x1a => mode_sense(unit, cdb),
        0x1b => start_stop_unit(unit, cdb),
        0x1e => prevent_allow(unit, cdb),
        0x23 => read_format_capacities(unit, cdb),
        0x25 => read_capacity(unit, cdb),
        0x28 => read(unit, cdb),
        0x2a => write(unit, cdb),
        0x2f => verify(unit, cdb),
        0x35 => synchronize_cache(unit, cdb),
        _ => {
            ask_ready(unit, cdb)?;
            Err(INVALID_COMMAND)
        }
    }
}
