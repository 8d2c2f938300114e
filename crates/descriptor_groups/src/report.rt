ghost use Rattle.std.specs.Prelude.{◌≡◌, ◌≤◌, length, position, IfSome};
ghost use Rattle.std.specs.List.{list_all};
ghost use Rattle.std.specs.Option.{option_map};
ghost use Rattle.hid_items.specs.Lengths.{lengths_of, id_bytes};
ghost use Rattle.descriptor_groups.specs.Parts.{is_hid};
ghost use Rattle.descriptor_groups.specs.Reports.{hid_part, hid_descriptor, report_in, report_out, declares, carries, are_carried, all_carried, is_report, has_wrong_report};

use crate::parts::{any_hid, following_place, is_hid, is_hid_descriptor};
use descriptor_row::{Descriptor, INTERRUPT};
use hid_items::{ReportLen, report_lengths};

/// Where the first HID interface stands.
fn hid_place(row: &[Descriptor]) -> Option<usize>
    ensures { result ≡ position is_hid row.now }
{
    row.iter().position(|d| is_hid(d))
}

/// What stands behind the first HID interface, up to the next interface.
fn hid_part(row: &[Descriptor]) -> &[Descriptor]
    ensures { result.now ≡ hid_part row.now }
{
    following_place(hid_place(row), row)
}

/// The HID descriptor of the first HID interface: the first of a report descriptor with 1 to 512 bytes (HID 1.11, 6.2.1).
pub fn hid_descriptor(row: &[Descriptor]) -> Option<Descriptor>
    ensures { result ≡ hid_descriptor row.now }
{
    let part = hid_part(row);
    for d in part {
        if is_hid_descriptor(d) {
            return Some(*d);
        }
    }
    None
}

/// The interrupt IN endpoint of the first HID interface (HID 1.11, 4.4).
fn report_in(row: &[Descriptor]) -> Option<Descriptor>
    ensures { result ≡ report_in row.now }
{
    let part = hid_part(row);
    for d in part {
        if d.is_in_of(INTERRUPT) {
            return Some(*d);
        }
    }
    None
}

/// Its interrupt OUT endpoint, where it has one (HID 1.11, 4.4).
fn report_out(row: &[Descriptor]) -> Option<Descriptor>
    ensures { result ≡ report_out row.now }
{
    let part = hid_part(row);
    for d in part {
        if d.is_out_of(INTERRUPT) {
            return Some(*d);
        }
    }
    None
}

/// Whether wDescriptorLength of a HID descriptor is this many bytes (HID 1.11, 6.2.1).
fn declares(hid: Option<Descriptor>, bytes: usize) -> bool
    ensures { result ≡ declares hid bytes }
{
    match hid {
        None => false,
        Some(d) => usize::from(d.word(7)) == bytes,
    }
}

/// The bytes that a report's id takes in front of it (HID 1.11, 5.6).
fn id_bytes(id: u8) -> u16
    ensures value { result ≡ id_bytes id }
    ensures bound { result ≤ 1 }
{
    if id == 0 { 0 } else { 1 }
}

/// Whether a report of so many bytes, with its id, is no longer than the packets of an endpoint. A report of no bytes isn't
/// there, and one without an endpoint goes over endpoint 0 (HID 1.11, 4.4).
fn carries(endpoint: Option<Descriptor>, id: u8, bytes: u8) -> bool
    ensures { result ≡ carries endpoint id bytes }
{
    match endpoint {
        None => true,
        Some(e) => bytes == 0 || id_bytes(id) + u16::from(bytes) <= e.word(4),
    }
}

/// Whether the input and the output report of an id fit their endpoints.
fn are_carried(row: &[Descriptor], lengths: &ReportLen) -> bool
    ensures { result ≡ are_carried row.now lengths.now }
{
    carries(report_in(row), lengths.id, lengths.input)
        && carries(report_out(row), lengths.id, lengths.output)
}

/// Whether those of each id do.
fn each_carried(row: &[Descriptor], lengths: &[ReportLen]) -> bool
    ensures { result ≡ list_all (are_carried row.now) lengths.now }
{
    lengths.iter().all(|l| are_carried(row, l))
}

/// Whether the lengths of a report descriptor's reports can be told, and each report fits its endpoint.
fn all_carried(row: &[Descriptor], bytes: &[u8]) -> bool
    requires { length bytes.now ≤ 512 }
    ensures { result ≡ all_carried row.now (lengths_of bytes.now) }
{
    match report_lengths(bytes) {
        Ok(lengths) => each_carried(row, lengths.as_slice()),
        Err(_) => false,
    }
}

/// Whether these bytes are the report descriptor that the first HID interface declares.
fn is_report(row: &[Descriptor], bytes: &[u8]) -> bool
    requires { length bytes.now ≤ 512 }
    ensures { result ≡ is_report row.now bytes.now }
{
    declares(hid_descriptor(row), bytes.len()) && all_carried(row, bytes)
}

/// A report descriptor is given exactly where there is a HID interface, and it is the one that this interface declares.
pub fn has_wrong_report(row: &[Descriptor], report: Option<&[u8]>) -> bool
    requires { IfSome report (λ r. length r.now ≤ 512) }
    ensures { result ≡ has_wrong_report row.now (option_map (λ r. r.now) report.entry) }
{
    match report {
        None => any_hid(row),
        Some(bytes) => !is_report(row, bytes),
    }
}
