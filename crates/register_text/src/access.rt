ghost use Rattle.std.specs.Prelude.{◌≡◌, ◌≤◌, ◌+◌, [], ◌∷◌, ◌++◌, length};
ghost use Rattle.arrayvec.specs.ArrayVec.{array_vec_len};
ghost use Rattle.dwc2_regs.specs.declared.access.Access.{Access};
ghost use Rattle.usb_words.specs.Field.{newline};
ghost use Rattle.register_text.specs.declared.access.Side.{Side};
ghost use Rattle.register_text.specs.Access.{digits, mark, access_text};

use arrayvec::ArrayVec;
use dwc2_regs::Access;
use usb_words::{hex_digit, push_text};

/// Whose registers an access is to: those of the one controller of a job, or in a job of both sides those of
/// the device or of the host.
#[derive(Clone, Copy, PartialEq, Eq, Debug)]
pub enum Side {
    Plain,
    Device,
    Host,
}

/// The most bytes that a register line has, with its newline.
pub const MOST_ACCESS: usize = 17;

/// The text of an access, without the newline that ends its line: `r` or `w`, the offset in bytes in four
/// hexadecimal digits, and the word that was read or written in eight. In a job of both sides `d` or `h`
/// stands in front.
pub fn access_text(access: &Access, side: Side) -> ArrayVec<u8, 32>
    ensures { result.items ≡ access_text access.now side }
{
    let mut out = ArrayVec::new();
    push_access(&mut out, access, side);
    out
}

/// Appends the line of an access, with its newline.
pub fn push_access_line<const N: usize>(out: &mut ArrayVec<u8, N>, access: &Access, side: Side)
    requires { array_vec_len out.old + MOST_ACCESS ≤ N }
    ensures items { out.new.items ≡ out.old.items ++ (access_text access.now side ++ newline ∷ []) }
    ensures length { array_vec_len out.new ≤ array_vec_len out.old + MOST_ACCESS }
{
    push_access(out, access, side);
    out.push(b'\n');
}

fn push_access<const N: usize>(out: &mut ArrayVec<u8, N>, access: &Access, side: Side)
    requires { array_vec_len out.old + 16 ≤ N }
    ensures items { out.new.items ≡ out.old.items ++ access_text access.now side }
    ensures length { array_vec_len out.new ≤ array_vec_len out.old + 16 }
{
    push_text(out, mark(side, access.write));
    push_text(out, digits(access).as_slice());
}

/// The offset and the word, each behind a space: all digits at once, since a run prints many of these lines.
fn digits(access: &Access) -> [u8; 14]
    ensures { result ≡ 32 ∷ (digits 4 access.now.off ++ 32 ∷ digits 8 access.now.value) }
{
    let [a, b] = access.off.to_be_bytes();
    let [c, d, e, f] = access.value.to_be_bytes();
    [
        b' ',
        hex_digit(a / 16),
        hex_digit(a % 16),
        hex_digit(b / 16),
        hex_digit(b % 16),
        b' ',
        hex_digit(c / 16),
        hex_digit(c % 16),
        hex_digit(d / 16),
        hex_digit(d % 16),
        hex_digit(e / 16),
        hex_digit(e % 16),
        hex_digit(f / 16),
        hex_digit(f % 16),
    ]
}

fn mark(side: Side, write: bool) -> &'static [u8]
    ensures word { result.now ≡ mark side write }
    ensures short { length result.now ≤ 2 }
{
    match (side, write) {
        (Side::Plain, false) => b"r",
        (Side::Plain, true) => b"w",
        (Side::Device, false) => b"dr",
        (Side::Device, true) => b"dw",
        (Side::Host, false) => b"hr",
        (Side::Host, true) => b"hw",
    }
}
