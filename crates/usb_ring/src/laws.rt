//! Laws over several calls of a ring, which the clauses of the calls give. The functions do nothing.
ghost use Rattle.usb_ring.specs.Laws.{PeekedStays, CommitMoves, WordKeepsBytes};

/// What the handler peeked in a [`TxRing`](crate::TxRing) stays in its place until it commits, whatever the task
/// pushes. A commit then leaves what lies behind it.
pub fn peeked_until_committed()
    ensures stays { PeekedStays }
    ensures moves { CommitMoves }
{}

/// Up to four bytes that are peeked as a word, or packed into one, are that word's bytes when it is pushed.
pub fn words_keep_their_bytes()
    ensures { WordKeepsBytes }
{}
