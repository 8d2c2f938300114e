//! Laws over several calls of a FIFO, which the clauses of the calls give. The functions do nothing.
ghost use Rattle.dwc2_fifo.specs.Laws.{PacketComesOut};

/// A packet that is begun with its length and given the words of its bytes is whole, and has those bytes.
pub fn packets_come_out()
    ensures { PacketComesOut }
{}
