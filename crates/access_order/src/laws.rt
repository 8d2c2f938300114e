//! Laws of the order of accesses. The functions do nothing.
ghost use Rattle.access_order.specs.Laws.{Splits, WakesLast, EnablingsWantSizes, WordsWantEnabling, AnsweringWantsClear};
ghost use Rattle.access_order.specs.Examples.{InOrderLists, Unsized, StrayWords, StaleXfrc, BehindCnak, EndedReset, EmptiedEarly};

/// A list of accesses is in order exactly where its front is, and the rest is behind it.
pub fn lists_split()
    ensures { Splits }
{}

/// Nothing follows the write that clears USBRST.
pub fn waking_is_last()
    ensures { WakesLast }
{}

/// An endpoint's size is written between two of its enablings, whatever else is accessed between them.
pub fn sizes_come_between()
    ensures { EnablingsWantSizes }
{}

/// Words come to an endpoint that wasn't enabled only where its control register was written.
pub fn words_want_enabling()
    ensures { WordsWantEnabling }
{}

/// An enabled IN endpoint whose XFRC isn't known to be 0 is let answer, by CNAK, only where DIEPINTx was written.
pub fn answering_wants_clear()
    ensures { AnsweringWantsClear }
{}

/// Worked lists that are in order: endpoint 0 through resets, SETUPs and both data stages, an OUT pipe and an IN pipe of two
/// packets that are armed, loaded, closed and cleared.
pub fn worked_lists()
    ensures { InOrderLists }
{}

/// Lists that aren't: an endpoint is enabled without a size of its own.
pub fn enabling_wants_size()
    ensures { Unsized }
{}

/// Words are written where no load goes on.
pub fn words_want_load()
    ensures { StrayWords }
{}

/// XFRC is left set, or cleared while a packet may be acknowledged.
pub fn xfrc_is_cleared_before()
    ensures { StaleXfrc }
{}

/// An access follows the CNAK of a load at its endpoint.
pub fn cnak_is_last()
    ensures { BehindCnak }
{}

/// A reset is ended while an endpoint is enabled, not by the last access, unread, or not at all.
pub fn reset_ends_last()
    ensures { EndedReset }
{}

/// A transmit FIFO is emptied while its endpoint is enabled.
pub fn fifos_empty_behind_disabling()
    ensures { EmptiedEarly }
{}
