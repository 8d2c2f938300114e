//! Laws of the device: what a data stage carries, and what the bus does.
ghost use Rattle.std.specs.Prelude.{◌≡◌, ℕ, List, take};
ghost use Rattle.std.specs.List.{concat};
ghost use Rattle.device_machine.specs.Packets.{data_packets};
ghost use Rattle.dwc2_regs.specs.declared.access.TheConstants.{FS4};
ghost use Rattle.usb_packet.specs.declared.bus.BusEvent.{BusEvent};
ghost use Rattle.device_relation.specs.Laws.{IsEvent};
ghost use Rattle.usbd_core.specs.Device.{Device};
ghost use Rattle.usbd_core.specs.Laws.{BusKeeps, after_event};
ghost use Rattle.usbd_core.specs.View.{IsWhole};

/// The packets of a data stage for the host, joined in order, are the data cut to what the host allows.
pub fn data_is_whole()
    ensures { (bytes : List ℕ) (allowed : ℕ) → concat (data_packets bytes allowed) ≡ take allowed bytes }
{}

/// Where controller, driver, rings and software agree, the controller's answer to each bus event is that of the core that they are;
/// what the event leaves is that core's next state, and they agree again.
pub fn bus_keeps()
    ensures { BusKeeps FS4 }
{}

/// A bus event leaves what holds between two tasks: all agrees, the endpoints that are open are the session's, and the rings have
/// the sizes of the set's endpoints.
pub fn events_keep_whole()
    ensures { (d : Device) (e : BusEvent) → IsWhole d → IsEvent e → IsWhole (after_event d e) }
{}
