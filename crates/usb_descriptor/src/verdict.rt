ghost use Rattle.std.specs.Prelude.{◌≡◌, ◌<◌, ◌≤◌, ◌+◌, length, filter, IfNone, IfSome, slice_index};
ghost use Rattle.std.specs.Option.{option_map};
ghost use Rattle.usb_packet.specs.Setup.{word_at};
ghost use Rattle.usb_descriptor.specs.Verdict.{fault_if, fault_at, device_fault, config_fault, row_fault, rule_fault, has_bad_report, rules, first_fault, verdict};
ghost use Rattle.descriptor_row.specs.Row.{row_of, row_end};
ghost use Rattle.descriptor_row.specs.Kinds.{is_endpoint, left_of};

use crate::broken::first_broken;
use crate::limits::{EpLimits, SetFault};
use crate::rule::{Rule, interfaces};
use descriptor_groups::has_wrong_report;
use descriptor_row::{Descriptor, left_of, read_row};

/// The rules A8 to A18, in their order.
const RULES: [Rule; 11] = [
    Rule::Sizes,
    Rule::Numbers,
    Rule::Counts,
    Rule::Addresses,
    Rule::Packets,
    Rule::Tops,
    Rule::Spans,
    Rule::Serial,
    Rule::Hid,
    Rule::Reports,
    Rule::Pairs,
];

/// The fault of a rule that is broken as a whole, with the place 0.
fn fault_if(rule: u8, broken: bool) -> Option<SetFault>
    ensures { result ≡ fault_if rule broken }
{
    if broken {
        Some(SetFault { rule, at: 0 })
    } else {
        None
    }
}

/// The fault of a rule that a descriptor breaks, with its place.
fn fault_at(rule: u8, place: Option<u16>) -> Option<SetFault>
    ensures { result ≡ fault_at rule place }
{
    match place {
        None => None,
        Some(at) => Some(SetFault { rule, at }),
    }
}

/// The fault of a device descriptor: rules 1 to 3.
fn device_fault(device: &[u8]) -> Option<SetFault>
    ensures value { result ≡ device_fault device.now }
    ensures fits { IfNone result (length device.now ≤ 18) }
{
    if device.len() != 18 || device[0] != 18 || device[1] != 1 {
        return fault_if(1, true);
    }
    if device[7] != 64 {
        return fault_if(2, true);
    }
    fault_if(3, device[17] == 0)
}

/// Two bytes, the lower one first.
fn word_at(bytes: &[u8], at: usize) -> u16
    requires { at + 1 < length bytes.now }
    ensures { result ≡ word_at bytes.now at }
{
    u16::from(bytes[at]) + 256 * u16::from(bytes[at + 1])
}

/// The fault of a configuration's own descriptor: rules 4 to 6.
fn config_fault(config: &[u8]) -> Option<SetFault>
    ensures value { result ≡ config_fault config.now }
    ensures holds { IfNone result (9 ≤ length config.now) }
    ensures fits { IfNone result (length config.now ≤ 512) }
{
    let size = config.len();
    if size < 9 || size > 512 || config[0] != 9 || config[1] != 2 {
        return fault_if(4, true);
    }
    if usize::from(word_at(config, 2)) != size {
        return fault_if(5, true);
    }
    fault_if(6, config[5] == 0)
}

/// Whether a set's report descriptor is wrong, where such descriptors are known.
fn has_bad_report(limits: EpLimits, left: &[Descriptor], report: Option<&[u8]>) -> bool
    requires { IfSome report (λ r. length r.now ≤ 512) }
    ensures { result ≡ has_bad_report limits left.now (option_map (λ r. r.now) report.entry) }
{
    limits.report_known && has_wrong_report(left, report)
}

/// The fault of one of the rules A8 to A18.
fn rule_fault(
    limits: EpLimits,
    row: &[Descriptor],
    left: &[Descriptor],
    claimed: u8,
    wrong_report: bool,
    rule: Rule,
) -> Option<SetFault>
    ensures { result ≡ rule_fault limits row.now left.now claimed wrong_report rule }
{
    match rule {
        Rule::Sizes => fault_at(8, first_broken(limits, rule, row)),
        Rule::Numbers => fault_if(
            9,
            first_broken(limits, rule, left).is_some() || interfaces(left) != usize::from(claimed),
        ),
        Rule::Counts => fault_at(10, first_broken(limits, rule, left)),
        Rule::Addresses => fault_at(11, first_broken(limits, rule, left)),
        Rule::Packets => fault_at(12, first_broken(limits, rule, left)),
        Rule::Tops => fault_at(13, first_broken(limits, rule, left)),
        Rule::Spans => fault_at(14, first_broken(limits, rule, left)),
        Rule::Serial => fault_if(15, first_broken(limits, rule, left).is_some()),
        Rule::Hid => fault_if(16, first_broken(limits, rule, left).is_some()),
        Rule::Reports => fault_if(17, wrong_report),
        Rule::Pairs => fault_if(18, first_broken(limits, rule, left).is_some()),
    }
}

/// The fault of the first of the rules A8 to A18 that is broken.
fn first_fault(
    limits: EpLimits,
    row: &[Descriptor],
    left: &[Descriptor],
    claimed: u8,
    wrong_report: bool,
) -> Option<SetFault>
    ensures { result ≡ first_fault (rule_fault limits row.now left.now claimed wrong_report) rules }
{
    for rule in RULES {
        let fault = rule_fault(limits, row, left, claimed, wrong_report, rule);
        if fault.is_some() {
            return fault;
        }
    }
    None
}

/// The fault of the lowest rule that a set breaks.
pub fn verdict(
    device: &[u8],
    config: &[u8],
    report: Option<&[u8]>,
    limits: EpLimits,
) -> Option<SetFault>
    requires { IfSome report (λ r. length r.now ≤ 512) }
    ensures value { result ≡ verdict device.now config.now (option_map (λ r. r.now) report.entry) limits }
    ensures device { IfNone result (length device.now ≤ 18) }
    ensures low { IfNone result (9 ≤ length config.now) }
    ensures high { IfNone result (length config.now ≤ 512) }
    ensures few { IfNone result (length (filter is_endpoint (left_of (row_of config.now))) ≤ 30) }
{
    if let Some(fault) = device_fault(device) {
        return Some(fault);
    }
    if let Some(fault) = config_fault(config) {
        return Some(fault);
    }
    let (row, end) = read_row(config);
    if end != config.len() {
        return fault_at(7, Some(end as u16));
    }
    let left = left_of(row.as_slice());
    let wrong_report = has_bad_report(limits, left.as_slice(), report);
    first_fault(
        limits,
        row.as_slice(),
        left.as_slice(),
        config[4],
        wrong_report,
    )
}
