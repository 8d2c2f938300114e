//! A device's schedule, who answers each of its lines, and the accesses made for them, as definitions that the code above
//! cites.
#![tactic(auto)]
