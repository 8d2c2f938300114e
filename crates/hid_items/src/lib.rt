//! The lengths of the reports that a HID report descriptor describes (HID 1.11, 6.2.2), read in one
//! pass over its bytes.
#![tactic(auto)]

ghost use Rattle.std.specs.Prelude.{◌≡◌, ◌≤◌, length, Ok, Err, MatchResult, IfOk};
ghost use Rattle.hid_items.specs.Lengths.{lengths_of, AreReportLengths};
ghost use Rattle.hid_items.specs.Item.{IsOnlyCut, items_of};

mod item;
pub mod laws;
mod pass;
mod reports;
mod state;
#[cfg(test)]
mod tests;

use arrayvec::ArrayVec;
use pass::Pass;

/// The lengths of the reports of one id, in bytes without the byte of the id itself. `id` is 0 where the
/// descriptor has no Report ID.
#[derive(Clone, Copy, Debug, Default, PartialEq, Eq)]
pub struct ReportLen {
    pub id: u8,
    pub input: u8,
    pub output: u8,
    pub feature: u8,
}

/// Why a descriptor's lengths can't be told, with the place of the item where it stands: how many bytes
/// there are in front of it.
#[derive(Clone, Copy, Debug, PartialEq, Eq)]
pub enum ItemFault {
    /// The item's data passes the end of the descriptor.
    Truncated(u16),
    /// A long item (prefix fe).
    Long(u16),
    /// A Pop with nothing pushed, or a Push with four pushed already.
    Stack(u16),
    /// An End Collection with none open, or the end of the descriptor with one open.
    Nest(u16),
    /// A Report ID of 0 or above 255, a ninth id, or fields with and without an id in one descriptor.
    Ids(u16),
    /// A report, with its id, of more than 512 bits.
    Size(u16),
}

/// The lengths of the reports that a report descriptor of at most 512 bytes describes, in the order in
/// which their ids first get an Input, Output or Feature; or the fault of the first item at which one
/// stands (HID 1.11, 6.2.2).
#[tactic(auto, using(crate::proofs::Fields::lengths_of_pass))]
pub fn report_lengths(bytes: &[u8]) -> Result<ArrayVec<ReportLen, 8>, ItemFault>
    requires { length bytes.now ≤ 512 }
    ensures exact { MatchResult result (λ lengths. lengths_of bytes.now ≡ Ok lengths.items) (λ fault. lengths_of bytes.now ≡ Err fault) }

    // The items that the definition speaks of are what the grammar of items cuts the descriptor into.
    ensures items { IsOnlyCut bytes.now (items_of bytes.now) }

    // No id comes twice, the id 0 stands alone, and a report fits 64 bytes with the byte of its id.
    ensures lengths { IfOk result (λ lengths. AreReportLengths lengths.items) }
{
    let mut pass = Pass::new();
    let mut place: u16 = 0;
    let mut rest = bytes;
    while let Some((prefix, behind)) = rest.split_first() {
        let size = pass.step(place, *prefix, behind)?;
        rest = behind.split_at(size).1;
        place += 1 + size as u16;
    }
    pass.finish(place)
}
