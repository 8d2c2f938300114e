// Single bits of words, and the parts of a status word.
ghost use Rattle.std.specs.Prelude.{◌≡◌, ℕ, ◌+◌, ◌≤◌};
ghost use Rattle.usb_packet.specs.Toggles.{flipped, same_toggle};
ghost use Rattle.device_table.specs.Words.{flag, with_flag, pid_of};
ghost use Rattle.device_table.specs.Read.{bit_at};

use dwc2_regs::{Field, get_field, put_field};
use usb_packet::Toggle;

/// Whether a field of one bit is 1.
#[inline(always)]
pub fn flag(word: u32, field: Field) -> bool
    requires width { 1 ≤ field.width }
    requires within { field.low + field.width ≤ 32 }
    ensures { result ≡ flag word field }
{
    get_field(word, field) == 1
}

/// The word with that bit.
#[inline(always)]
pub fn with_flag(word: u32, field: Field, bit: bool) -> u32
    requires width { field.width ≡ 1 }
    requires within { field.low + 1 ≤ 32 }
    ensures { result ≡ with_flag word field bit }
{
    put_field(word, field, if bit { 1 } else { 0 })
}

/// Whether the bit of that number is 1.
#[inline(always)]
pub fn bit_at(word: u32, number: u8) -> bool
    requires { number ≤ 31 }
    ensures { result ≡ bit_at word number }
{
    let bit = Field {
        low: number,
        width: 1,
    };
    flag(word, bit)
}

/// The other toggle.
pub fn flipped(toggle: Toggle) -> Toggle
    ensures { result ≡ flipped toggle }
{
    match toggle {
        Toggle::D0 => Toggle::D1,
        Toggle::D1 => Toggle::D0,
    }
}

/// Whether both are DATA0 or both DATA1.
pub fn same_toggle(one: Toggle, other: Toggle) -> bool
    ensures { result ≡ same_toggle one other }
{
    one == other
}

/// The PID of a data packet in a status word: 0 for DATA0 and 2 for DATA1.
pub fn pid_of(toggle: Toggle) -> u32
    ensures { result ≡ pid_of toggle }
{
    match toggle {
        Toggle::D0 => 0,
        Toggle::D1 => 2,
    }
}
