//! Laws of the relation, and of what its definitions ask of events and packets. The functions do nothing.
ghost use Rattle.std.specs.Prelude.{ℕ, ◌<◌, slice_index};
ghost use Rattle.dwc2_regs.specs.declared.access.TheConstants.{FS4};
ghost use Rattle.device_relation.specs.Laws.{BusKeeps, AllStart, IsEvent};
ghost use Rattle.device_relation.specs.CallLaws.{AreOne, RunServes, ServesZero, ServesOut, ServesIn, Closes};
ghost use Rattle.device_relation.specs.Relation.{IsSetup, IsPacket};

use usb_packet::{BusEvent, Packet};

/// Where controller and software agree, the controller's answer to each bus event is that of the device that they are; what
/// the event leaves is that device's next state, and they agree again.
pub fn bus_keeps()
    ensures { BusKeeps FS4 }
{}

/// At the start controller and software agree, and are the device at its start.
pub fn starts()
    ensures { AllStart FS4 }
{}

/// A controller, its driver's software and the rings are one device at most.
pub fn are_one_device()
    ensures { AreOne FS4 }
{}

/// A handler run is the device's, with all its endpoints and its notes: what came is taken, each packet to the ring of its
/// endpoint, the next packets are loaded, and a reset empties everything.
pub fn handler_run_serves()
    ensures { RunServes FS4 }
{}

/// Each call is the device's step: on endpoint 0 where nothing is on its way there, on an OUT endpoint, on an IN endpoint, and
/// at the end of a session. It leaves all other endpoints, with their rings, as they are.
pub fn calls_serve()
    ensures zero { ServesZero FS4 }
    ensures outs { ServesOut FS4 }
    ensures ins { ServesIn FS4 }
    ensures session { Closes FS4 }
{}

/// Each event has the bytes that one has: eight in a SETUP, and at most 64 in a packet.
pub fn event_fits(event: &BusEvent)
    ensures { IsEvent event.now }
{
    match event {
        BusEvent::Reset => {}
        BusEvent::Setup { bytes, .. } => setup_fits(bytes),
        BusEvent::Out { packet, .. } => packet_fits(packet),
        BusEvent::In { .. } => {}
    }
}

fn setup_fits(bytes: &[u8; 8])
    ensures { IsSetup bytes.now }
{
    below(bytes.as_slice());
}

/// A packet has at most 64 bytes.
pub fn packet_fits(packet: &Packet)
    ensures { IsPacket packet.now }
{
    below(packet.bytes());
}

/// Bytes are numbers below 256.
fn below(bytes: &[u8])
    ensures { (i : ℕ) → slice_index bytes.now i < 256 }
{
    let _ = bytes;
}
