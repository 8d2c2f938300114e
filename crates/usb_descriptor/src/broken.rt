ghost use Rattle.std.specs.Prelude.{◌≡◌, ◌<◌, ◌≤◌, ◌+◌, [], take, drop, length};
ghost use Rattle.usb_descriptor.specs.Rules.{breaks, first_broken};

use crate::limits::EpLimits;
use crate::rule::{
    Rule, has_wrong_address, has_wrong_count, has_wrong_number, has_wrong_packets, has_wrong_size,
    has_wrong_span, has_wrong_top,
};
use descriptor_groups::{has_wrong_hid, has_wrong_pair, has_wrong_serial};
use descriptor_row::Descriptor;

/// Whether a descriptor breaks a rule, among those before it and after it in a row. The rule on report descriptors is one of
/// the whole set, which no descriptor breaks by itself.
fn breaks(
    limits: EpLimits,
    rule: Rule,
    row: &[Descriptor],
    before: &[Descriptor],
    d: &Descriptor,
    after: &[Descriptor],
) -> bool
    ensures { result ≡ breaks limits rule row.now before.now d.now after.now }
{
    match rule {
        Rule::Sizes => has_wrong_size(d),
        Rule::Numbers => has_wrong_number(before, d),
        Rule::Counts => has_wrong_count(before, d, after),
        Rule::Addresses => has_wrong_address(before, d),
        Rule::Packets => has_wrong_packets(d),
        Rule::Tops => has_wrong_top(limits, d),
        Rule::Spans => has_wrong_span(row, d),
        Rule::Serial => has_wrong_serial(row, before, d, after),
        Rule::Hid => has_wrong_hid(before, d, after),
        Rule::Reports => false,
        Rule::Pairs => has_wrong_pair(before, d, after),
    }
}

/// The place of the first descriptor that breaks a rule.
pub fn first_broken(limits: EpLimits, rule: Rule, row: &[Descriptor]) -> Option<u16>
    ensures { result ≡ first_broken limits rule row.now }
{
    for i in 0..row.len() {
        if breaks(limits, rule, row, &row[..i], &row[i], &row[i + 1..]) {
            return Some(row[i].at);
        }
    }
    None
}
