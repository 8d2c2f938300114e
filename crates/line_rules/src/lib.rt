//! Which of the rules 1 to 7 a line of a job breaks, and what its first words name.
#![tactic(auto)]

mod kinds;
mod rules;

pub use kinds::{
    CdcKind, Class, HeadKind, HidKind, Kind, MidiKind, MscKind, cdc_kind_of, head_kind_of,
    hid_kind_of, kind_of, midi_kind_of, msc_kind_of,
};
pub use rules::{Choice, Field, LineFault, MOST_LINE, Mode, Place, lowest_of, lowest_rule};

#[cfg(test)]
mod tests;
