ghost use Rattle.std.specs.Prelude.{◌≡◌, ◌+◌, ◌≤◌, ◌==◌, not, [], IsTrue, false, length, map};
ghost use Rattle.std.specs.List.{list_any};
ghost use Rattle.hid_items.specs.Lengths.{bytes_for, bit_limit};

use crate::ReportLen;
use crate::item::ReportKind;
use arrayvec::ArrayVec;
use std::marker::Model;

/// The bits so far of the reports of one id.
#[derive(Clone, Copy, Default)]
pub(crate) struct Report {
    pub id: u8,
    pub input: u16,
    pub output: u16,
    pub feature: u16,
}

/// How many ids a descriptor may have.
const ID_LIMIT: usize = 8;

/// A row for each id that has a field, in the order in which they first got one.
#[derive(Drop)]
pub(crate) struct Reports {
    rows: ArrayVec<Report, ID_LIMIT>,
}

impl Model for Reports {
    ghost use Rattle.std.specs.Prelude.{List, IsTrue};
    ghost use Rattle.hid_items.specs.declared.reports.Report.{Report};
    ghost use Rattle.hid_items.specs.Reports.{all_small};

    ghost Value = { List Report };

    ghost view = { λ r. r.rows.items };

    ghost invariant = { λ r. IsTrue (all_small r.rows.items) };
}

impl Report {
    ghost use Rattle.hid_items.specs.Reports.{bits_in, grown, length_in, is_small, new_row};

    fn new(id: u8) -> Self
        ensures { result ≡ new_row id }
    {
        Report {
            id,
            input: 0,
            output: 0,
            feature: 0,
        }
    }

    fn bits(&self, kind: ReportKind) -> u16
        ensures { result ≡ bits_in kind self.now }
    {
        match kind {
            ReportKind::Input => self.input,
            ReportKind::Output => self.output,
            ReportKind::Feature => self.feature,
        }
    }

    fn grown(self, kind: ReportKind, bits: u16) -> Self
        requires { bits_in kind self + bits ≤ bit_limit }
        ensures { result ≡ grown kind bits self }
    {
        match kind {
            ReportKind::Input => Report {
                input: self.input + bits,
                ..self
            },
            ReportKind::Output => Report {
                output: self.output + bits,
                ..self
            },
            ReportKind::Feature => Report {
                feature: self.feature + bits,
                ..self
            },
        }
    }

    fn lengths(&self) -> ReportLen
        requires { IsTrue (is_small self.now) }
        ensures { result ≡ length_in self.now }
    {
        ReportLen {
            id: self.id,
            input: bytes_for(self.input),
            output: bytes_for(self.output),
            feature: bytes_for(self.feature),
        }
    }
}

/// Bits in bytes, rounded up.
fn bytes_for(bits: u16) -> u8
    requires { bits ≤ bit_limit }
    ensures { result ≡ bytes_for bits }
{
    ((bits + 7) / 8) as u8
}

impl Reports {
    ghost use Rattle.hid_items.specs.declared.reports.Report.{Report};
    ghost use Rattle.hid_items.specs.Lengths.{refuses_field};
    ghost use Rattle.hid_items.specs.Reports.{added, ids_in, bits_among, length_in, place_in};

    pub(crate) fn new() -> Self
        ensures { result ≡ [] }
    {
        Reports {
            rows: ArrayVec::new(),
        }
    }

    /// The place of an id's row, if it has one.
    fn place_of(&self, id: u8) -> Option<usize>
        ensures { result ≡ place_in id self.now }
    {
        self.rows.as_slice().iter().position(|row| row.id == id)
    }

    /// Whether there are fields of an id, 0 for those that have none.
    #[tactic(auto, using(crate::proofs::Rows::place_rules))]
    pub(crate) fn has(&self, id: u8) -> bool
        ensures { result ≡ list_any (λ x. x == id) (ids_in self.now) }
    {
        self.place_of(id).is_some()
    }

    /// Whether there are fields that have an id.
    fn has_ids(&self) -> bool
        ensures { result ≡ list_any (λ (row : Report). not (row.id == 0)) self.now }
    {
        self.rows.as_slice().iter().any(|row| row.id != 0)
    }

    /// Whether a field may not have an id: it would be one too many, or it is none where others have one.
    #[tactic(auto, using(crate::proofs::Rows::any_other))]
    pub(crate) fn refuses(&self, id: u8) -> bool
        ensures { result ≡ refuses_field id (ids_in self.now) }
    {
        (!self.has(id) && self.rows.is_full()) || (id == 0 && self.has_ids())
    }

    /// The bits so far of one report.
    #[tactic(auto, using(crate::proofs::Rows::bits_rules))]
    pub(crate) fn bits(&self, id: u8, kind: ReportKind) -> u16
        ensures value { result ≡ bits_among id self.now kind }
        ensures bound { result ≤ bit_limit }
    {
        match self.place_of(id) {
            Some(place) => self.rows[place].bits(kind),
            None => 0,
        }
    }

    /// Adds the bits of a field to its report.
    #[tactic(auto, using(crate::proofs::Rows::add_rules))]
    pub(crate) fn add(&mut self, kind: ReportKind, id: u8, bits: u16)
        requires allowed { refuses_field id (ids_in self.old) ≡ false }
        requires fits { bits_among id self.old kind + bits ≤ bit_limit }
        ensures { self.new ≡ added (record { kind = kind; id = id; bits = bits }) self.old }
    {
        match self.place_of(id) {
            Some(place) => {
                let row = self.rows[place];
                self.rows[place] = row.grown(kind, bits);
            }
            None => self.rows.push(Report::new(id).grown(kind, bits)),
        }
    }

    /// The lengths, in the order of the rows.
    pub(crate) fn lengths(&self) -> ArrayVec<ReportLen, ID_LIMIT>
        ensures { result.items ≡ map length_in self.now }
    {
        let mut lengths = ArrayVec::new();
        for row in self.rows.as_slice() {
            lengths.push(row.lengths());
        }
        lengths
    }
}
