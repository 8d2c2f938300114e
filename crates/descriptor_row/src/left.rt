ghost use Rattle.std.specs.Prelude.{◌≡◌, ◌<◌, ◌≤◌, [], length};
ghost use Rattle.descriptor_row.specs.Kinds.{setting_at, left_of};
ghost use Rattle.descriptor_row.specs.Left.{kept_behind};

use crate::descriptor::Descriptor;
use arrayvec::ArrayVec;

/// What is left of a row once every alternate setting but 0 is passed over with all that belongs to it: a descriptor is kept
/// exactly where the last interface up to it, itself included, has alternate setting 0 or there is none (USB 2.0, 9.2.3 and
/// 9.6.5).
pub fn left_of(row: &[Descriptor]) -> ArrayVec<Descriptor, 251>
    requires { length row.now ≤ 251 }
    ensures left { result.items ≡ left_of row.now }
    ensures kept { result.items ≡ kept_behind [] row.now }
{
    let mut left = ArrayVec::new();
    let mut setting = 0;
    for d in row {
        setting = setting_at(setting, d);
        if setting == 0 {
            left.push(*d);
        }
    }
    left
}

/// The alternate setting that a descriptor belongs to, where the one before it belongs to `before`.
fn setting_at(before: u8, d: &Descriptor) -> u8
    ensures { result ≡ setting_at before d.now }
{
    if d.is_interface() { d.head[3] } else { before }
}
