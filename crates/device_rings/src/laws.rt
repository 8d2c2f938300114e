//! Laws of the rings, which the clauses of the calls give. The functions do nothing.
ghost use Rattle.std.specs.Prelude.{List};
ghost use Rattle.usb_descriptor.specs.declared.endpoint.Endpoint.{Endpoint};
ghost use Rattle.usb_descriptor.specs.declared.limits.EpLimits.{EpLimits};
ghost use Rattle.usb_descriptor.specs.Served.{AreServed};
ghost use Rattle.device_rings.specs.Laws.{AreApart, AreApartByAddress, AreEmptied, HaveRings, three};
ghost use Rattle.device_rings.specs.Examples.{AreSized};

/// A ring that is put in a place is there, and all others are as they were, by number and by address.
pub fn rings_are_apart()
    ensures by_number { AreApart }
    ensures by_address { AreApartByAddress }
    ensures emptied { AreEmptied }
{}

/// Of the endpoints of an accepted set each has at its address the empty ring of its size, and no other address has one.
pub fn endpoints_have_rings()
    ensures { (limits : EpLimits) (endpoints : List Endpoint) → three limits → AreServed limits endpoints → HaveRings endpoints }
{}

/// A serial port beside a disk, and a keyboard beside music, with the sizes of their rings.
pub fn worked_sizes()
    ensures { AreSized }
{}
