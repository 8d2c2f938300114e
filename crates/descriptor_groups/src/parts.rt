ghost use Rattle.std.specs.Prelude.{◌≡◌, ◌<◌, ◌≤◌, ◌+◌, length, count_by, position, find};
ghost use Rattle.std.specs.List.{list_any};
ghost use Rattle.descriptor_row.specs.Kinds.{is_endpoint, is_in_of, is_out_of, following_place};
ghost use Rattle.descriptor_groups.specs.Parts.{is_bulk_pair, is_serial, is_data, is_union, has_data_pair, is_serial_group, has_wrong_serial, is_hid, is_hid_descriptor, is_hid_group, has_wrong_hid, is_storage, is_midi, has_wrong_pair};

use descriptor_row::{BULK, Descriptor, INTERRUPT, following};

/// Whether this is a serial port's communications interface: class 02, subclass 02 (CDC 1.2, 4.2 and 4.3).
pub fn is_serial(d: &Descriptor) -> bool
    ensures { result ≡ is_serial d.now }
{
    d.is_of_subclass(2, 2)
}

/// Whether this is the data interface, class 0a, with this number (CDC 1.2, 4.5).
fn is_data(d: &Descriptor, number: u8) -> bool
    ensures { result ≡ is_data number d.now }
{
    d.is_of_class(10) && d.head[2] == number
}

/// Whether this is a HID interface: class 03 (HID 1.11, 4.1).
pub fn is_hid(d: &Descriptor) -> bool
    ensures { result ≡ is_hid d.now }
{
    d.is_of_class(3)
}

/// Whether this is a HID descriptor, type 21, of a report descriptor, type 22, with 1 to 512 bytes
/// (HID 1.11, 6.2.1).
pub fn is_hid_descriptor(d: &Descriptor) -> bool
    ensures { result ≡ is_hid_descriptor d.now }
{
    let bytes = d.word(7);
    d.head[1] == 0x21 && d.head[0] >= 9 && d.head[6] == 0x22 && bytes >= 1 && bytes <= 512
}

/// Whether this is mass storage: class 08, subclass 06, protocol 50 (Bulk-Only 1.0, 4.3).
pub fn is_storage(d: &Descriptor) -> bool
    ensures { result ≡ is_storage d.now }
{
    d.is_of_protocol(8, 6, 0x50)
}

/// Whether this is MIDI streaming: class 01, subclass 03 (USB MIDI 1.0, 6.1.1).
pub fn is_midi(d: &Descriptor) -> bool
    ensures { result ≡ is_midi d.now }
{
    d.is_of_subclass(1, 3)
}

/// How many endpoints there are.
pub fn endpoints(row: &[Descriptor]) -> usize
    ensures { result ≡ count_by is_endpoint row.now }
{
    row.iter().filter(|d| d.is_endpoint()).count()
}

/// How many IN endpoints of a transfer type there are.
fn ins_of(transfer: u8, row: &[Descriptor]) -> usize
    ensures { result ≡ count_by (is_in_of transfer) row.now }
{
    row.iter().filter(|d| d.is_in_of(transfer)).count()
}

/// How many OUT endpoints of a transfer type there are.
fn outs_of(transfer: u8, row: &[Descriptor]) -> usize
    ensures { result ≡ count_by (is_out_of transfer) row.now }
{
    row.iter().filter(|d| d.is_out_of(transfer)).count()
}

/// Whether there are one bulk IN and one bulk OUT endpoint, and no other.
fn is_bulk_pair(after: &[Descriptor]) -> bool
    ensures { result ≡ is_bulk_pair after.now }
{
    endpoints(after) == 2 && ins_of(BULK, after) == 1 && outs_of(BULK, after) == 1
}

/// Where the data interface with a number stands.
fn data_place(row: &[Descriptor], number: u8) -> Option<usize>
    ensures { result ≡ position (is_data number) row.now }
{
    row.iter().position(|d| is_data(d, number))
}

/// Whether there is a data interface with a number.
fn any_data(row: &[Descriptor], number: u8) -> bool
    ensures { result ≡ list_any (is_data number) row.now }
{
    row.iter().any(|d| is_data(d, number))
}

/// Whether this is a union descriptor, type 24 and subtype 06, of this controlling interface and of a data
/// interface that is there (CDC 1.2, 5.2.3.2).
fn is_union(row: &[Descriptor], controlling: u8, d: &Descriptor) -> bool
    ensures { result ≡ is_union row.now controlling d.now }
{
    d.head[1] == 0x24
        && d.head[2] == 6
        && d.head[0] >= 5
        && d.head[3] == controlling
        && any_data(row, d.head[4])
}

/// The first union descriptor of a controlling interface.
pub fn union_of(row: &[Descriptor], controlling: u8, after: &[Descriptor]) -> Option<Descriptor>
    ensures { result ≡ find (is_union row.now controlling) after.now }
{
    for d in after {
        if is_union(row, controlling, d) {
            return Some(*d);
        }
    }
    None
}

/// What follows the descriptor at a place, up to the next interface.
pub fn following_place(place: Option<usize>, row: &[Descriptor]) -> &[Descriptor]
    ensures { result.now ≡ following_place place row.now }
{
    match place {
        Some(place) if place < row.len() => following(&row[place + 1..]),
        _ => &[],
    }
}

/// Whether the data interface that a union descriptor names has a bulk pair.
fn has_data_pair(row: &[Descriptor], union: Option<Descriptor>) -> bool
    ensures { result ≡ has_data_pair row.now union }
{
    match union {
        None => false,
        Some(union) => is_bulk_pair(following_place(data_place(row, union.head[4]), row)),
    }
}

/// Whether a serial interface has one endpoint, interrupt IN, and a data interface with a bulk pair.
fn is_serial_group(row: &[Descriptor], d: &Descriptor, after: &[Descriptor]) -> bool
    ensures { result ≡ is_serial_group row.now d.now after.now }
{
    endpoints(after) == 1
        && ins_of(INTERRUPT, after) == 1
        && has_data_pair(row, union_of(row, d.head[2], after))
}

/// Whether there is a serial interface.
fn any_serial(row: &[Descriptor]) -> bool
    ensures { result ≡ list_any is_serial row.now }
{
    row.iter().any(|d| is_serial(d))
}

/// The first serial interface has its whole group.
pub fn has_wrong_serial(
    row: &[Descriptor],
    before: &[Descriptor],
    d: &Descriptor,
    after: &[Descriptor],
) -> bool
    ensures { result ≡ has_wrong_serial row.now before.now d.now after.now }
{
    is_serial(d) && !any_serial(before) && !is_serial_group(row, d, following(after))
}

/// Whether there is a HID descriptor of a report descriptor.
fn any_hid_descriptor(row: &[Descriptor]) -> bool
    ensures { result ≡ list_any is_hid_descriptor row.now }
{
    row.iter().any(|d| is_hid_descriptor(d))
}

/// Whether a HID interface has its descriptor, one interrupt IN endpoint, at most one interrupt OUT, and no
/// other (HID 1.11, 4.4).
fn is_hid_group(after: &[Descriptor]) -> bool
    ensures { result ≡ is_hid_group after.now }
{
    let outs = outs_of(INTERRUPT, after);
    any_hid_descriptor(after)
        && ins_of(INTERRUPT, after) == 1
        && outs <= 1
        && endpoints(after) == 1 + outs
}

/// Whether there is a HID interface.
pub fn any_hid(row: &[Descriptor]) -> bool
    ensures { result ≡ list_any is_hid row.now }
{
    row.iter().any(|d| is_hid(d))
}

/// The first HID interface has its whole group.
pub fn has_wrong_hid(before: &[Descriptor], d: &Descriptor, after: &[Descriptor]) -> bool
    ensures { result ≡ has_wrong_hid before.now d.now after.now }
{
    is_hid(d) && !any_hid(before) && !is_hid_group(following(after))
}

/// Whether there is mass storage.
fn any_storage(row: &[Descriptor]) -> bool
    ensures { result ≡ list_any is_storage row.now }
{
    row.iter().any(|d| is_storage(d))
}

/// Whether there is MIDI streaming.
fn any_midi(row: &[Descriptor]) -> bool
    ensures { result ≡ list_any is_midi row.now }
{
    row.iter().any(|d| is_midi(d))
}

/// The first mass storage and the first MIDI streaming interface have each a bulk pair.
pub fn has_wrong_pair(before: &[Descriptor], d: &Descriptor, after: &[Descriptor]) -> bool
    ensures { result ≡ has_wrong_pair before.now d.now after.now }
{
    let first = is_storage(d) && !any_storage(before) || is_midi(d) && !any_midi(before);
    first && !is_bulk_pair(following(after))
}
