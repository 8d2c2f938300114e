ghost use Rattle.std.specs.Prelude.{◌≡◌, ◌≤◌, length};
ghost use Rattle.hid_items.specs.Item.{data_size, little_endian, main_item, global_item, item_of, item_at};

use crate::ItemFault;

/// The three kinds of report (HID 1.11, 6.2.2.5).
#[derive(Clone, Copy)]
pub(crate) enum ReportKind {
    Input,
    Output,
    Feature,
}

/// What a short item says of reports and collections.
#[derive(Clone, Copy)]
pub(crate) enum Item {
    /// An Input, Output or Feature.
    Field(ReportKind),
    Collection,
    EndCollection,
    /// The size of a field, in bits.
    ReportSize(u32),
    ReportId(u32),
    ReportCount(u32),
    Push,
    Pop,
    /// An item that tells nothing of lengths.
    Other,
}

/// How many bytes of data follow a prefix.
pub(crate) fn data_size(prefix: u8) -> usize
    ensures value { result ≡ data_size prefix }
    ensures bound { result ≤ 4 }
{
    match prefix % 4 {
        3 => 4,
        size => usize::from(size),
    }
}

/// The unsigned number in an item's data, the lowest byte first.
fn value_of(bytes: &[u8]) -> u32
    requires { length bytes.now ≤ 4 }
    ensures { result ≡ little_endian bytes.now }
{
    match bytes {
        [] => 0,
        [a] => u32::from(*a),
        [a, b] => u32::from(*a) + 0x100 * u32::from(*b),
        [a, b, c] => u32::from(*a) + 0x100 * u32::from(*b) + 0x1_0000 * u32::from(*c),
        [a, b, c, d] => {
            u32::from(*a)
                + 0x100 * u32::from(*b)
                + 0x1_0000 * u32::from(*c)
                + 0x100_0000 * u32::from(*d)
        }
        _ => unreachable!(),
    }
}

fn main_item(tag: u8) -> Item
    ensures { result ≡ main_item tag }
{
    match tag {
        8 => Item::Field(ReportKind::Input),
        9 => Item::Field(ReportKind::Output),
        11 => Item::Field(ReportKind::Feature),
        10 => Item::Collection,
        12 => Item::EndCollection,
        _ => Item::Other,
    }
}

fn global_item(tag: u8, value: u32) -> Item
    ensures { result ≡ global_item tag value }
{
    match tag {
        7 => Item::ReportSize(value),
        8 => Item::ReportId(value),
        9 => Item::ReportCount(value),
        10 => Item::Push,
        11 => Item::Pop,
        _ => Item::Other,
    }
}

fn item_of(prefix: u8, value: u32) -> Item
    ensures { result ≡ item_of prefix value }
{
    match prefix / 4 % 4 {
        0 => main_item(prefix / 16),
        1 => global_item(prefix / 16, value),
        _ => Item::Other,
    }
}

/// The prefix of a long item (HID 1.11, 6.2.2.3).
const LONG_ITEM: u8 = 0xfe;

/// Reads the item at `place`, which has a prefix and then the bytes `behind` it.
pub(crate) fn item_at(place: u16, prefix: u8, behind: &[u8]) -> Result<Item, ItemFault>
    ensures { result ≡ item_at place prefix behind.now }
{
    if prefix == LONG_ITEM {
        return Err(ItemFault::Long(place));
    }
    let size = data_size(prefix);
    if behind.len() < size {
        return Err(ItemFault::Truncated(place));
    }
    let (data, _) = behind.split_at(size);
    Ok(item_of(prefix, value_of(data)))
}
