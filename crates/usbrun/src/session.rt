use crate::texts::Texts;
use device_run::DeviceRun;
use job_reader::Lines;

/// A run between two lines of its schedule.
#[derive(Drop)]
pub struct Session {
    /// The lines of its source.
    pub lines: Lines,
    /// What waits to be written.
    pub texts: Texts,
    /// The device.
    pub run: DeviceRun,
}

/// Why a run ended.
#[derive(Clone, Copy, PartialEq, Eq, Debug)]
pub enum Stop {
    /// Its job ended.
    End,
    /// The next line breaks this rule, of 1 to 7.
    Refused(u8),
    /// The source ended.
    Short,
    /// The next line passes the limit of bytes.
    TooLong,
    /// The source failed.
    ReadFault,
    /// The output's sink failed.
    OutFault,
    /// The trace's sink failed, before it had all of the last line's text.
    TraceFault,
}
