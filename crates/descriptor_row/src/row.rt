ghost use Rattle.std.specs.Prelude.{◌≡◌, ℕ, List, ◌+◌, ◌*◌, ◌<◌, ◌≤◌, length};
ghost use Rattle.descriptor_row.specs.Row.{row_of, row_end};
ghost use Rattle.descriptor_row.specs.Cut.{IsOnlyRow};

use crate::descriptor::{Descriptor, begins_at, descriptor_at};
use arrayvec::ArrayVec;

/// The row of descriptors after the configuration descriptor, and where it ends: at the end of the configuration, or where no
/// whole descriptor begins. The bytes can be cut in no other way (USB 2.0, 9.5).
pub fn read_row(config: &[u8]) -> (ArrayVec<Descriptor, 251>, usize)
    requires low { 9 ≤ length config.now }
    requires high { length config.now ≤ 512 }
    ensures row { result.0.items ≡ row_of config.now }
    ensures ends { result.1 ≡ row_end config.now }
    ensures only { IsOnlyRow config.now result.0.items result.1 }
    ensures within { result.1 ≤ length config.now }
{
    let mut row = ArrayVec::new();
    let mut at = 9;
    while begins_at(config, at) {
        row.push(descriptor_at(config, at as u16));
        at += usize::from(config[at]);
    }
    (row, at)
}
