//! Laws of the controller's steps. The functions do nothing.
ghost use Rattle.host_table.specs.Laws.{PlainReadsBack, ChannelReadsBack, CountsAreKept, BeyondReadsNothing, OthersStay, BusLeavesOthers, LowestTakes, LowestIsTaker, NobodyTakes, IdleWhere, DisabledIsSilent, DetachDisables, AttachTells, NakLeaves, OnePacketEach, EndsHalt, WrittenStands, SetupsAreEight, LandingComesOut, ResetEnables, KeptBits};
ghost use Rattle.host_table.specs.AnswerLaws.{AnswersAct};
ghost use Rattle.host_table.specs.AccessLaws.{ReadsLeave, ReadsTake, StatusStays, SizesAreKept, ControlActs, PrstResets, CountsStay, AccessesAreListed};
ghost use Rattle.host_table.specs.AnswerExamples.{EachType, SentWords};
ghost use Rattle.host_table.specs.RegisterExamples.{StartWords, KeptWords, PortWords, ChannelWords, Flushes, ReceivedWords, DetachLeaves, EndWords};
ghost use Rattle.host_table.specs.TransferExamples.{BulkComes, TwoChannels};
ghost use Rattle.host_table.specs.Examples.{PortReset, SetupSent, OtherPackets, SetupAnswered, DescriptorComes, InAnswered, Detached, PacketsStand, FullFifo, DeviceRegisters, OpenedWords, LargeWords};

/// A register that keeps what is written reads as it was written: masks, sizes of FIFOs, configurations, and the mask and
/// the transfer size of each channel that there is.
pub fn kept_registers_read_back()
    ensures plain { PlainReadsBack }
    ensures channels { ChannelReadsBack }
{}

/// At the start and once opened, a controller has the endpoints and channels of its profile. The registers of channels
/// beyond them read 0.
pub fn profile_counts()
    ensures counts { CountsAreKept }
    ensures stay { CountsStay }
    ensures beyond { BeyondReadsNothing }
{}

/// A write to one channel's registers or FIFO window leaves all other channels with their packets, the port and the
/// receive FIFO.
pub fn other_channels_stay()
    ensures { OthersStay }
{}

/// A read changes nothing but for GRXSTSP and window 0, which take from the receive FIFO: an entry, or a word of it. The end
/// of a channel's data sets ACK, XFRC and CHH of that channel as it is popped.
pub fn reads_take_entries()
    ensures leave { ReadsLeave }
    ensures take { ReadsTake }
{}

/// Status registers aren't written, and the sizes that endpoints keep are read back.
pub fn writes_are_kept()
    ensures status { StatusStays }
    ensures sizes { SizesAreKept }
{}

/// What a write of HCCHARx does, with CHENA, with CHDIS, with both and with neither.
pub fn channel_control_acts()
    ensures { ControlActs }
{}

/// PRST written 1 and then 0 drives a reset exactly where a device is attached.
pub fn prst_drives_reset()
    ensures { PrstResets }
{}

/// Each access is a step of the table, is listed with its value, and is one of 400.
pub fn accesses_are_listed()
    ensures { AccessesAreListed }
{}

/// What each answer does to the channel that took the bus: its interrupts, CHENA, its packet and the receive FIFO.
pub fn answers_act()
    ensures { AnswersAct }
{}

/// An answer changes the channel that took the bus, and what lies in the receive FIFO, and nothing else.
pub fn bus_leaves_others()
    ensures { BusLeavesOthers }
{}

/// The channel that takes the bus is the lowest one that is enabled, speaks to that address and endpoint and has what it
/// needs, on an enabled port; where there is one it takes the bus, and else none does and the host is idle. A channel that isn't
/// enabled gets no answer.
pub fn lowest_channel_takes()
    ensures lowest { LowestTakes }
    ensures taken { LowestIsTaker }
    ensures nobody { NobodyTakes }
    ensures idle { IdleWhere }
    ensures disabled { DisabledIsSilent }
{}

/// A detach disables all channels and the port, and leaves all else.
pub fn detach_disables()
    ensures { DetachDisables }
{}

/// An attach sets PCSTS and PCDET where no device is attached, and else changes nothing.
pub fn attach_tells()
    ensures { AttachTells }
{}

/// A NAK leaves the packet, which is sent again.
pub fn nak_leaves_packet()
    ensures { NakLeaves }
{}

/// An answer that ends a transaction sets CHH beside XFRC, STALL or TXERR and leaves no packet of the channel, or the end of
/// its data sets CHH once it is popped.
pub fn ends_halt()
    ensures { EndsHalt }
{}

/// A channel has one packet at a time in a transmit FIFO.
pub fn one_packet_each()
    ensures { OnePacketEach }
{}

/// A packet that is written word by word through a channel's window stands in the FIFO of its type, byte for byte. A SETUP
/// that is sent has eight bytes.
pub fn written_packets_stand()
    ensures packet { WrittenStands }
    ensures setup { SetupsAreEight }
{}

/// Data that landed in an empty receive FIFO is read byte for byte.
pub fn landed_data_comes_out()
    ensures { LandingComesOut }
{}

/// The port is enabled by the end of a driven reset, and by no other write, read or answer.
pub fn reset_enables_port()
    ensures { ResetEnables }
{}

/// Which bits of HCCHARx and HPRT are kept as written.
pub fn registers_keep_bits()
    ensures { KeptBits }
{}

/// A port reset, a SETUP that is sent, data that comes in, each other answer to both, and a detach, word by word as a driver
/// writes and reads them; packets in both transmit FIFOs; full FIFOs; the device's registers.
pub fn worked_answers()
    ensures reset { PortReset }
    ensures setup { SetupSent }
    ensures others { OtherPackets }
    ensures answers { SetupAnswered }
    ensures comes { DescriptorComes }
    ensures in_answers { InAnswered }
    ensures detached { Detached }
    ensures packets { PacketsStand }
    ensures full { FullFifo }
    ensures device { DeviceRegisters }
{}

/// The opened state of an `FS4`: its plan of 144, 128 and 48 words, masks and PPWR. The plan of a larger controller.
pub fn worked_profiles()
    ensures words { OpenedWords }
    ensures large { LargeWords }
{}

/// What every register of an `FS4` reads at the start, once opened, and once each has a word of its own.
pub fn worked_registers()
    ensures start { StartWords }
    ensures kept { KeptWords }
{}

/// Which bits of HPRT and HCINTx a 1 clears, and which interrupts HCINTMSKx and HAINTMSK let through.
pub fn worked_bits()
    ensures port { PortWords }
    ensures channels { ChannelWords }
{}

/// What a flush, a pop and a detach empty and leave, and the device's registers.
pub fn worked_fifos()
    ensures flushes { Flushes }
    ensures received { ReceivedWords }
    ensures detach { DetachLeaves }
    ensures ends { EndWords }
{}

/// Each answer on OUT, SETUP and IN channels of each type, and what is sent to whom.
pub fn worked_types()
    ensures types { EachType }
    ensures sent { SentWords }
{}

/// Bulk data from device 5, from the attach to the popped words, and three channels to one device.
pub fn worked_transfers()
    ensures bulk { BulkComes }
    ensures two { TwoChannels }
{}
