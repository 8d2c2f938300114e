//! Fields of registers.
ghost use Rattle.std.specs.Prelude.{◌≡◌, ◌+◌, ◌^◌, ◌<◌, ◌≤◌};
ghost use Rattle.dwc2_regs.specs.Field.{field_of, with_field, IsApart};
ghost use Rattle.dwc2_regs.specs.declared.bits.Field.{Field};

/// `width` neighbouring bits of a word, of which `low` is the lowest. The lowest bit of a word is bit 0.
#[derive(Clone, Copy, Debug, PartialEq, Eq)]
pub struct Field {
    pub low: u8,
    pub width: u8,
}

/// Reads a field: the number in its bits.
#[inline(always)]
pub fn get_field(word: u32, field: Field) -> u32
    requires width { 1 ≤ field.width }
    requires within { field.low + field.width ≤ 32 }
    ensures value { result ≡ field_of word field }
    ensures fits { result < 2 ^ field.width }
{
    ((word as u64 >> field.low) % (1u64 << field.width)) as u32
}

/// Writes a field: puts the number into its bits, and leaves all other bits.
#[inline(always)]
pub fn put_field(word: u32, field: Field, value: u32) -> u32
    requires width { 1 ≤ field.width }
    requires within { field.low + field.width ≤ 32 }
    requires fits { value < 2 ^ field.width }
    ensures value { result ≡ with_field word field value }
    ensures reads_back { field_of result field ≡ value }
    ensures others { (other : Field) → IsApart field other → field_of result other ≡ field_of word other }
{
    let unit = worth(field.low);
    let above = worth(field.low + field.width);
    let word = word as u64;
    (word / above * above + value as u64 * unit + word % unit) as u32
}

/// What a bit is worth.
#[inline(always)]
fn worth(bit: u8) -> u64
    requires { bit ≤ 32 }
    ensures { result ≡ 2 ^ bit }
{
    1 << bit
}
