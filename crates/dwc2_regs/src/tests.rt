//! Words and offsets as drivers of this controller write them.
use crate::{
    CoreInterrupts, DCFG_ADDRESS, DIEPCTL_TXFNUM, DOEPCTL_CNAK, DOEPCTL_EPENA, FS4, GRXSTSP_BYTES,
    GRXSTSP_STATUS, HCTSIZ_PID, diepctl, dieptxf, doepctl, fifo_window, get_field, hcchar,
    pack_word, put_field, unpack_word,
};
use bitflags::Flags;

#[test]
fn fields(rt: HostRuntime) {
    let setup_data = 0x000c_0080;
    assert_eq!(rt; get_field(setup_data, GRXSTSP_STATUS), 6);
    assert_eq!(rt; get_field(setup_data, GRXSTSP_BYTES), 8);
    assert_eq!(rt; put_field(0, DCFG_ADDRESS, 5), 0x50);
    assert_eq!(rt; put_field(0xffff_ffff, DIEPCTL_TXFNUM, 0), 0xfc3f_ffff);
    assert_eq!(rt; put_field(0x0008_0008, HCTSIZ_PID, 3), 0x6008_0008);
    let enabled = put_field(0, DOEPCTL_EPENA, 1);
    assert_eq!(rt; put_field(enabled, DOEPCTL_CNAK, 1), 0x8400_0000);
}

#[test]
fn words(rt: HostRuntime) {
    assert_eq!(rt; pack_word(&[0x12, 0x01, 0x00, 0x02]), 0x0200_0112);
    assert_eq!(rt; pack_word(&[0x80]), 0x80);
    let bytes = unpack_word(0x0200_0112, 3);
    assert_eq!(rt; bytes.as_slice(), [0x12, 0x01, 0x00].as_slice());
}

#[test]
fn places(rt: HostRuntime) {
    assert_eq!(rt; diepctl(1), 0x920);
    assert_eq!(rt; doepctl(3), 0xb60);
    assert_eq!(rt; hcchar(7), 0x5e0);
    assert_eq!(rt; dieptxf(1), 0x104);
    assert_eq!(rt; fifo_window(2), 0x3000);
    assert_eq!(rt; FS4.ram_words, 320);
    let reset = CoreInterrupts::USBRST.union(CoreInterrupts::ENUMDNE);
    assert_eq!(rt; reset.bits(), 0x3000);
}
