// Its reports by type and id.
ghost use Rattle.std.specs.Prelude.{◌≡◌, ◌≤◌, ◌++◌, Some, length, replicate};
ghost use Rattle.std.specs.Option.{option_map, IfSome};
ghost use Rattle.hid_items.specs.Lengths.{id_bytes};
ghost use Rattle.hid_device_machine.specs.Reports.{length_in, has_ids, id_of, is_input_report, wire_size, with_input, blank, id_prefix, type_of, length_as, type_number, last_input, last_set_as};
ghost use Rattle.hid_device_machine.specs.Device.{last_bytes, bytes_told};
ghost use Rattle.hid_class.specs.Rows.{place_in};

use crate::device::HidDevice;
use arrayvec::ArrayVec;
use hid_device_machine::{IdReports, ReportType, SetReport};
use hid_items::ReportLen;

/// The most zeros that a report has.
const ZEROS: [u8; 255] = [0; 255];

/// The type of a number, which is the high byte of wValue (HID 1.11, 7.2.1).
pub(crate) fn type_of(number: u8) -> Option<ReportType>
    ensures { result ≡ type_of number }
{
    match number {
        1 => Some(ReportType::Input),
        2 => Some(ReportType::Output),
        3 => Some(ReportType::Feature),
        _ => None,
    }
}

/// The number of a type.
pub(crate) fn type_number(report_type: ReportType) -> u8
    ensures { result ≡ type_number report_type }
{
    match report_type {
        ReportType::Input => 1,
        ReportType::Output => 2,
        ReportType::Feature => 3,
    }
}

/// The length of the report of a type.
fn length_as(lengths: ReportLen, report_type: ReportType) -> u8
    ensures { result ≡ length_as report_type lengths }
{
    match report_type {
        ReportType::Input => lengths.input,
        ReportType::Output => lengths.output,
        ReportType::Feature => lengths.feature,
    }
}

/// How many bytes an id takes in front of a report (HID 1.11, 5.6).
fn id_bytes(id: u8) -> u16
    ensures { result ≡ id_bytes id }
{
    if id == 0 { 0 } else { 1 }
}

impl HidDevice {
    /// The place of the reports of an id, if it has any.
    fn place_of(&self, id: u8) -> Option<usize>
        ensures { result ≡ place_in id self.now.rows }
    {
        self.rows
            .as_slice()
            .iter()
            .position(|row| row.lengths.id == id)
    }

    /// The length of the report of a type and id, without the byte of its id. It is 0 where there is no such report.
    #[tactic(auto, using(crate::proofs::Rows::length_rules))]
    pub(crate) fn length(&self, report_type: ReportType, id: u8) -> u8
        ensures { result ≡ length_in self.now.rows report_type id }
    {
        match self.place_of(id) {
            Some(place) => length_as(self.rows[place].lengths, report_type),
            None => 0,
        }
    }

    /// How many bytes that report has, with the one of its id.
    pub(crate) fn wire_size(&self, report_type: ReportType, id: u8) -> u16
        ensures { result ≡ wire_size self.now.rows report_type id }
    {
        id_bytes(id) + u16::from(self.length(report_type, id))
    }

    /// Whether reports begin with their ids (HID 1.11, 6.2.2.7).
    fn has_ids(&self) -> bool
        ensures { result ≡ has_ids self.now.rows }
    {
        self.rows.as_slice().iter().any(|row| row.lengths.id != 0)
    }

    /// The id of an input report.
    fn id_of(&self, bytes: &[u8]) -> u8
        ensures { result ≡ id_of self.now.rows bytes.now }
    {
        match bytes {
            [] => 0,
            [id, ..] => { if self.has_ids() { *id } else { 0 } }
        }
    }

    /// Whether bytes have exactly the length of the input report of their id.
    pub(crate) fn is_input_report(&self, bytes: &[u8]) -> bool
        ensures { result ≡ is_input_report self.now.rows bytes.now }
    {
        let id = self.id_of(bytes);
        self.length(ReportType::Input, id) >= 1
            && bytes.len() == usize::from(self.wire_size(ReportType::Input, id))
    }

    /// An input report was queued.
    pub(crate) fn keep_input(&mut self, bytes: &ArrayVec<u8, 64>)
        ensures { self.new ≡ record self.old { rows = with_input (id_of self.old.rows bytes.now.items) bytes.now.items self.old.rows } }
    {
        let id = self.id_of(bytes.as_slice());
        self.put_input(id, copy_of(bytes.as_slice()));
    }

    /// The input report of an id was queued.
    #[tactic(auto, using(crate::proofs::Rows::put_rules))]
    fn put_input(&mut self, id: u8, bytes: ArrayVec<u8, 64>)
        ensures { self.new ≡ record self.old { rows = with_input id bytes.items self.old.rows } }
    {
        if let Some(place) = self.place_of(id) {
            let lengths = self.rows[place].lengths;
            self.rows[place] = IdReports {
                lengths,
                last_input: Some(bytes),
            };
        }
    }

    /// The input report of an id that was queued last.
    #[tactic(auto, using(crate::proofs::Rows::input_rules))]
    fn last_input(&self, id: u8) -> Option<&[u8]>
        ensures bytes { option_map (λ r. r.now) result ≡ last_input self.now.rows id }
        ensures size { IfSome result (λ r. length r.now ≤ 64) }
    {
        match self.place_of(id) {
            Some(place) => bytes_in(&self.rows[place]),
            None => None,
        }
    }

    /// What the last SET_REPORT gave, where it has this type and id.
    fn last_set_as(&self, report_type: ReportType, id: u8) -> Option<&[u8]>
        ensures bytes { option_map (λ r. r.now) result ≡ last_set_as self.now.last_set report_type id }
        ensures size { IfSome result (λ r. length r.now ≤ 64) }
    {
        match &self.last_set {
            Some(report) => bytes_as(report, report_type, id),
            None => None,
        }
    }

    /// The report of a type and id as it was sent last in the session.
    fn last_bytes(&self, report_type: ReportType, id: u8) -> Option<&[u8]>
        ensures bytes { option_map (λ r. r.now) result ≡ last_bytes self.now report_type id }
        ensures size { IfSome result (λ r. length r.now ≤ 64) }
    {
        match report_type {
            ReportType::Input => self.last_input(id),
            ReportType::Output => self.last_set_as(ReportType::Output, id),
            ReportType::Feature => self.last_set_as(ReportType::Feature, id),
        }
    }

    /// What GET_REPORT gives (HID 1.11, 7.2.1): the report of a type and id that was sent last, zeros behind its id before one.
    pub(crate) fn bytes_told(&self, report_type: ReportType, id: u8) -> ArrayVec<u8, 512>
        ensures { result.items ≡ bytes_told self.now report_type id }
    {
        match self.last_bytes(report_type, id) {
            Some(bytes) => copy_of(bytes),
            None => self.blank(report_type, id),
        }
    }

    /// A report of zeros, behind its id.
    fn blank(&self, report_type: ReportType, id: u8) -> ArrayVec<u8, 512>
        ensures { result.items ≡ blank self.now.rows report_type id }
    {
        let mut bytes = id_prefix(id);
        push_zeros(&mut bytes, self.length(report_type, id));
        bytes
    }
}

/// The input report of an id that was queued last.
fn bytes_in(row: &IdReports) -> Option<&[u8]>
    ensures bytes { option_map (λ r. r.now) result ≡ option_map (λ r. r.items) row.now.last_input }
    ensures size { IfSome result (λ r. length r.now ≤ 64) }
{
    match &row.last_input {
        Some(bytes) => Some(bytes.as_slice()),
        None => None,
    }
}

/// What SET_REPORT gave, where it has this type and id.
fn bytes_as(report: &SetReport, report_type: ReportType, id: u8) -> Option<&[u8]>
    ensures bytes { option_map (λ r. r.now) result ≡ last_set_as (Some report.now) report_type id }
    ensures size { IfSome result (λ r. length r.now ≤ 64) }
{
    if report.report_type == report_type && report.id == id {
        return Some(report.bytes.as_slice());
    }
    None
}

/// The same bytes.
pub(crate) fn copy_of<const N: usize>(bytes: &[u8]) -> ArrayVec<u8, N>
    requires { length bytes.now ≤ N }
    ensures { result.items ≡ bytes.now }
{
    let mut copy = ArrayVec::new();
    let _ = copy.try_extend_from_slice(bytes);
    copy
}

/// The byte of an id. Reports without one have the id 0.
fn id_prefix(id: u8) -> ArrayVec<u8, 512>
    ensures bytes { result.items ≡ id_prefix id }
    ensures few { length result.items ≤ 1 }
{
    let mut bytes = ArrayVec::new();
    if id != 0 {
        bytes.push(id);
    }
    bytes
}

/// Puts so many zeros behind a byte at most.
fn push_zeros(bytes: &mut ArrayVec<u8, 512>, count: u8)
    requires { length bytes.old.items ≤ 1 }
    ensures { bytes.new.items ≡ bytes.old.items ++ replicate count 0 }
{
    let _ = bytes.try_extend_from_slice(zeros(count));
}

/// So many zeros.
fn zeros(count: u8) -> &'static [u8]
    ensures zeros { result.now ≡ replicate count 0 }
    ensures few { length result.now ≤ 255 }
{
    &ZEROS[..usize::from(count)]
}
