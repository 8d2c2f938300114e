//! The data that commands answer with.
ghost use Rattle.std.specs.Prelude.{◌≡◌, ◌≤◌, length};
ghost use Rattle.scsi_core.specs.Command.{data_in, inquiry_data};

use crate::Move;
use arrayvec::ArrayVec;

/// What INQUIRY tells of this disk (SPC-2 7.3.2).
pub fn inquiry_bytes() -> [u8; 36]
    ensures { result ≡ inquiry_data }
{
    *b"\x00\x80\x02\x02\x1f\x00\x00\x00usbrun  block file      0001"
}

/// The bytes for the host, no more than it has room for.
pub fn cut(bytes: &[u8], room: usize) -> Move
    requires { length bytes.now ≤ 36 }
    ensures { result ≡ data_in bytes.now room }
{
    let count = bytes.len().min(room);
    if count == 0 {
        return Move::None;
    }
    let mut data = ArrayVec::new();
    let _ = data.try_extend_from_slice(&bytes[..count]);
    Move::In(data)
}
