use crate::{Side, access_text, push_access_line};
use arrayvec::ArrayVec;
use dwc2_regs::Access;

/// Accesses to registers, with the digits worked by hand.
#[test]
fn accesses(rt: HostRuntime) {
    for (write, off, value, side, text) in [
        (false, 0x14, 4096, Side::Plain, "r 0014 00001000"),
        (true, 0x804, 0, Side::Plain, "w 0804 00000000"),
        (true, 0xb00, 0x8408_8040, Side::Device, "dw 0b00 84088040"),
        (false, 0x20, 0x0004_0012, Side::Device, "dr 0020 00040012"),
        (false, 0x440, 0x0000_100d, Side::Host, "hr 0440 0000100d"),
        (true, 65535, 4294967295, Side::Host, "hw ffff ffffffff"),
    ] {
        let access = Access { write, off, value };
        assert_eq!(rt; access_text(&access, side).as_slice(), text.as_bytes());
    }
    let read = Access {
        write: false,
        off: 0x14,
        value: 4096,
    };
    let mut lines: ArrayVec<u8, 64> = ArrayVec::new();
    push_access_line(&mut lines, &read, Side::Plain);
    push_access_line(&mut lines, &read, Side::Host);
    assert_eq!(rt;
        lines.as_slice(),
        b"r 0014 00001000\nhr 0014 00001000\n".as_slice()
    );
}
