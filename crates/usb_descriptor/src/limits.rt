/// What a controller has for the endpoints of a set, and what is known of its reports.
#[derive(Clone, Copy)]
pub struct EpLimits {
    /// The highest number of an IN endpoint.
    pub in_top: u8,
    /// The highest number of an OUT endpoint.
    pub out_top: u8,
    /// Whether the report descriptor of a HID interface is at hand. Where it isn't, rule 17 asks nothing.
    pub report_known: bool,
}

/// Why a set isn't accepted: the lowest rule that it breaks.
#[derive(Clone, Copy, Debug, PartialEq, Eq)]
pub struct SetFault {
    /// The rule's number, from 1 to 18.
    pub rule: u8,
    /// The place in the configuration, in bytes, of the first descriptor that breaks rule 7, 8 or one of 10
    /// to 14. It is 0 for all other rules.
    pub at: u16,
}
