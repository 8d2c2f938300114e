// Which register stands at an offset.
ghost use Rattle.std.specs.Prelude.{◌≡◌, ◌<◌, ◌≤◌, option_map};
ghost use Rattle.dwc2_regs.specs.Register.{register_at};
ghost use Rattle.dwc2_state.specs.Place.{register_of};

use dwc2_regs::{
    DAINT, DAINTMSK, DCFG, DCTL, DIEPEMPMSK, DIEPMSK, DIEPTXF0, DOEPMSK, DSTS, GINTMSK, GINTSTS,
    GRSTCTL, GRXFSIZ, GRXSTSP, GRXSTSR, HAINT, HAINTMSK, HCFG, HPRT, HPTXFSIZ, diepctl, diepint,
    dieptsiz, dieptxf, doepctl, doepint, doeptsiz, dtxfsts, fifo_window, hcchar, hcint, hcintmsk,
    hctsiz,
};

/// GRSTCTL, GINTSTS, GINTMSK, GRXSTSR, GRXSTSP and the sizes of the shared FIFOs.
#[derive(Clone, Copy)]
pub enum CoreRegister {
    Reset,
    Interrupts,
    Mask,
    Status,
    Pop,
    RxSize,
    TxSize,
    PeriodicSize,
}

/// HCFG, HAINT, HAINTMSK and HPRT.
#[derive(Clone, Copy)]
pub enum HostRegister {
    Configuration,
    Interrupts,
    Mask,
    Port,
}

/// DCFG, DCTL, DSTS, DIEPMSK, DOEPMSK, DAINT, DAINTMSK and DIEPEMPMSK.
#[derive(Clone, Copy)]
pub enum DeviceRegister {
    Configuration,
    Control,
    Status,
    InMask,
    OutMask,
    Interrupts,
    Mask,
    EmptyMask,
}

/// HCCHARx, HCINTx, HCINTMSKx and HCTSIZx.
#[derive(Clone, Copy)]
pub enum ChannelRegister {
    Control,
    Interrupts,
    Mask,
    Size,
}

/// DIEPCTLx, DIEPINTx, DIEPTSIZx and DTXFSTSx.
#[derive(Clone, Copy)]
pub enum InRegister {
    Control,
    Interrupts,
    Size,
    Space,
}

/// DOEPCTLx, DOEPINTx and DOEPTSIZx.
#[derive(Clone, Copy)]
pub enum OutRegister {
    Control,
    Interrupts,
    Size,
}

/// A register, with its number where there is one for each endpoint or channel. `TxSize` is DIEPTXFx.
#[derive(Clone, Copy)]
pub enum Place {
    Core(CoreRegister),
    TxSize(u8),
    Host(HostRegister),
    Channel(u8, ChannelRegister),
    Device(DeviceRegister),
    In(u8, InRegister),
    Out(u8, OutRegister),
    Window(u8),
}

/// The register at an offset, if there is one.
#[inline(always)]
pub fn place_at(off: u16) -> Option<Place>
    ensures { option_map register_of result ≡ register_at off }
{
    if off < 0x104 {
        return core_place(off);
    }
    if off < 0x130 {
        return size_place(off);
    }
    if off < 0x500 {
        return host_place(off);
    }
    if off < 0x680 {
        return channel_place(off);
    }
    if off < 0x900 {
        return device_place(off);
    }
    if off < 0xa80 {
        return in_place(off);
    }
    if off < 0xb00 {
        return None;
    }
    if off < 0xc80 {
        return out_place(off);
    }
    window_place(off)
}

#[inline(always)]
fn core_place(off: u16) -> Option<Place>
    requires { off < 0x104 }
    ensures { option_map register_of result ≡ register_at off }
{
    match off {
        GRSTCTL => Some(Place::Core(CoreRegister::Reset)),
        GINTSTS => Some(Place::Core(CoreRegister::Interrupts)),
        GINTMSK => Some(Place::Core(CoreRegister::Mask)),
        GRXSTSR => Some(Place::Core(CoreRegister::Status)),
        GRXSTSP => Some(Place::Core(CoreRegister::Pop)),
        GRXFSIZ => Some(Place::Core(CoreRegister::RxSize)),
        DIEPTXF0 => Some(Place::Core(CoreRegister::TxSize)),
        HPTXFSIZ => Some(Place::Core(CoreRegister::PeriodicSize)),
        _ => None,
    }
}

#[inline(always)]
fn size_place(off: u16) -> Option<Place>
    requires from { 0x104 ≤ off }
    requires to { off < 0x130 }
    ensures { option_map register_of result ≡ register_at off }
{
    let x = ((off - 0x104) / 4 + 1) as u8;
    if off == dieptxf(x) {
        Some(Place::TxSize(x))
    } else {
        None
    }
}

#[inline(always)]
fn host_place(off: u16) -> Option<Place>
    requires from { 0x130 ≤ off }
    requires to { off < 0x500 }
    ensures { option_map register_of result ≡ register_at off }
{
    match off {
        HCFG => Some(Place::Host(HostRegister::Configuration)),
        HAINT => Some(Place::Host(HostRegister::Interrupts)),
        HAINTMSK => Some(Place::Host(HostRegister::Mask)),
        HPRT => Some(Place::Host(HostRegister::Port)),
        _ => None,
    }
}

#[inline(always)]
fn channel_place(off: u16) -> Option<Place>
    requires from { 0x500 ≤ off }
    requires to { off < 0x680 }
    ensures { option_map register_of result ≡ register_at off }
{
    let x = ((off - 0x500) / 0x20) as u8;
    if off == hcchar(x) {
        return Some(Place::Channel(x, ChannelRegister::Control));
    }
    if off == hcint(x) {
        return Some(Place::Channel(x, ChannelRegister::Interrupts));
    }
    if off == hcintmsk(x) {
        return Some(Place::Channel(x, ChannelRegister::Mask));
    }
    if off == hctsiz(x) {
        return Some(Place::Channel(x, ChannelRegister::Size));
    }
    None
}

#[inline(always)]
fn device_place(off: u16) -> Option<Place>
    requires from { 0x680 ≤ off }
    requires to { off < 0x900 }
    ensures { option_map register_of result ≡ register_at off }
{
    match off {
        DCFG => Some(Place::Device(DeviceRegister::Configuration)),
        DCTL => Some(Place::Device(DeviceRegister::Control)),
        DSTS => Some(Place::Device(DeviceRegister::Status)),
        DIEPMSK => Some(Place::Device(DeviceRegister::InMask)),
        DOEPMSK => Some(Place::Device(DeviceRegister::OutMask)),
        DAINT => Some(Place::Device(DeviceRegister::Interrupts)),
        DAINTMSK => Some(Place::Device(DeviceRegister::Mask)),
        DIEPEMPMSK => Some(Place::Device(DeviceRegister::EmptyMask)),
        _ => None,
    }
}

#[inline(always)]
fn in_place(off: u16) -> Option<Place>
    requires from { 0x900 ≤ off }
    requires to { off < 0xa80 }
    ensures { option_map register_of result ≡ register_at off }
{
    let x = ((off - 0x900) / 0x20) as u8;
    if off == diepctl(x) {
        return Some(Place::In(x, InRegister::Control));
    }
    if off == diepint(x) {
        return Some(Place::In(x, InRegister::Interrupts));
    }
    if off == dieptsiz(x) {
        return Some(Place::In(x, InRegister::Size));
    }
    if off == dtxfsts(x) {
        return Some(Place::In(x, InRegister::Space));
    }
    None
}

#[inline(always)]
fn out_place(off: u16) -> Option<Place>
    requires from { 0xb00 ≤ off }
    requires to { off < 0xc80 }
    ensures { option_map register_of result ≡ register_at off }
{
    let x = ((off - 0xb00) / 0x20) as u8;
    if off == doepctl(x) {
        return Some(Place::Out(x, OutRegister::Control));
    }
    if off == doepint(x) {
        return Some(Place::Out(x, OutRegister::Interrupts));
    }
    if off == doeptsiz(x) {
        return Some(Place::Out(x, OutRegister::Size));
    }
    None
}

#[inline(always)]
fn window_place(off: u16) -> Option<Place>
    requires { 0xc80 ≤ off }
    ensures { option_map register_of result ≡ register_at off }
{
    if off < 0x1000 || 0xd000 <= off {
        return None;
    }
    let x = ((off - 0x1000) / 0x1000) as u8;
    if off == fifo_window(x) {
        Some(Place::Window(x))
    } else {
        None
    }
}
