use arrayvec::ArrayVec;
use hid_items::ReportLen;

/// The type of a report (HID 1.11, 7.2.1).
#[derive(Clone, Copy, PartialEq, Eq, Debug)]
pub enum ReportType {
    Input,
    Output,
    Feature,
}

/// The reports of one id (HID 1.11, 6.2.2.7). The id 0 stands for those that have none.
#[derive(Drop, Default)]
pub struct IdReports {
    /// Their lengths in bytes, without the byte of the id.
    pub lengths: ReportLen,
    /// The input report that was queued last in the session, with the byte of its id where it has one.
    pub last_input: Option<ArrayVec<u8, 64>>,
}

/// What SET_REPORT gave (HID 1.11, 7.2.2).
#[derive(Drop)]
pub struct SetReport {
    /// Its type, by the high byte of wValue: output or feature.
    pub report_type: ReportType,
    /// Its id, by the low byte of wValue.
    pub id: u8,
    /// Its data, with the byte of its id where it has one.
    pub bytes: ArrayVec<u8, 64>,
}
