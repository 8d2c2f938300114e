//! Command blocks whose answers are known from the standards.
ghost use Rattle.scsi_core.specs.Command.{IsSound};

use crate::{Move, Sense, Unit, command, sense_bytes};

const NO_SENSE: Sense = Sense {
    key: 0,
    asc: 0,
    ascq: 0,
};

/// A unit of two blocks that was just given its disk.
fn two_blocks() -> Unit
    ensures { IsSound result }
{
    Unit {
        blocks: 2,
        present: true,
        protected: false,
        prevented: false,
        attention: false,
        sense: NO_SENSE,
    }
}

/// Whether the answer is these bytes for the host.
fn is_data(answer: &Move, bytes: &[u8]) -> bool {
    match answer {
        Move::In(data) => data.as_slice() == bytes,
        _ => false,
    }
}

#[test]
fn data_of_commands(rt: HostRuntime) {
    let mut unit = two_blocks();
    let inquiry = command(
        &mut unit,
        &[0x12, 0, 0, 0, 36, 0, 0, 0, 0, 0, 0, 0, 0, 0, 0, 0],
    );
    let text = b"\x00\x80\x02\x02\x1f\x00\x00\x00usbrun  block file      0001";
    assert!(rt; is_data(&inquiry, text));
    let header = command(
        &mut unit,
        &[0x1a, 0, 0x3f, 0, 192, 0, 0, 0, 0, 0, 0, 0, 0, 0, 0, 0],
    );
    assert!(rt; is_data(&header, &[3, 0, 0, 0]));
    let capacity = command(
        &mut unit,
        &[0x25, 0, 0, 0, 0, 0, 0, 0, 0, 0, 0, 0, 0, 0, 0, 0],
    );
    assert!(rt; is_data(&capacity, &[0, 0, 0, 1, 0, 0, 2, 0]));
    let formats = command(
        &mut unit,
        &[0x23, 0, 0, 0, 0, 0, 0, 0, 252, 0, 0, 0, 0, 0, 0, 0],
    );
    assert!(rt; is_data(&formats, &[0, 0, 0, 8, 0, 0, 0, 2, 2, 0, 2, 0]));
}

#[test]
fn blocks_and_refusals(rt: HostRuntime) {
    let mut unit = two_blocks();
    let read = command(
        &mut unit,
        &[0x28, 0, 0, 0, 0, 1, 0, 0, 1, 0, 0, 0, 0, 0, 0, 0],
    );
    assert_eq!(rt; read, Move::Read { lba: 1, count: 1 });
    let write = command(
        &mut unit,
        &[0x2a, 0, 0, 0, 0, 0, 0, 0, 2, 0, 0, 0, 0, 0, 0, 0],
    );
    assert_eq!(rt; write, Move::Write { lba: 0, count: 2 });
    let nothing = command(
        &mut unit,
        &[0x28, 0, 0, 0, 0, 2, 0, 0, 0, 0, 0, 0, 0, 0, 0, 0],
    );
    assert_eq!(rt; nothing, Move::None);
    let past = command(
        &mut unit,
        &[0x28, 0, 0, 0, 0, 2, 0, 0, 1, 0, 0, 0, 0, 0, 0, 0],
    );
    assert_eq!(rt;
        past,
        Move::Fail(Sense {
            key: 5,
            asc: 0x21,
            ascq: 0
        })
    );
    assert_eq!(rt;
        sense_bytes(&unit.sense),
        [0x70, 0, 5, 0, 0, 0, 0, 10, 0, 0, 0, 0, 0x21, 0, 0, 0, 0, 0]
    );
    let sense = command(
        &mut unit,
        &[0x03, 0, 0, 0, 18, 0, 0, 0, 0, 0, 0, 0, 0, 0, 0, 0],
    );
    assert!(rt;
        is_data(
            &sense,
            &[0x70, 0, 5, 0, 0, 0, 0, 10, 0, 0, 0, 0, 0x21, 0, 0, 0, 0, 0]
        )
    );
    assert_eq!(rt; unit.sense, NO_SENSE);
}

#[test]
fn medium(rt: HostRuntime) {
    let mut unit = two_blocks();
    let prevent = command(
        &mut unit,
        &[0x1e, 0, 0, 0, 1, 0, 0, 0, 0, 0, 0, 0, 0, 0, 0, 0],
    );
    assert_eq!(rt; prevent, Move::None);
    let eject = command(
        &mut unit,
        &[0x1b, 0, 0, 0, 2, 0, 0, 0, 0, 0, 0, 0, 0, 0, 0, 0],
    );
    assert_eq!(rt;
        eject,
        Move::Fail(Sense {
            key: 5,
            asc: 0x53,
            ascq: 2
        })
    );
    unit.attention = true;
    let ready = command(&mut unit, &[0; 16]);
    assert_eq!(rt;
        ready,
        Move::Fail(Sense {
            key: 6,
            asc: 0x28,
            ascq: 0
        })
    );
    assert!(rt; !unit.attention);
    let sync = command(
        &mut unit,
        &[0x35, 0, 0, 0, 0, 0, 0, 0, 0, 0, 0, 0, 0, 0, 0, 0],
    );
    assert_eq!(rt; sync, Move::Sync);
}
