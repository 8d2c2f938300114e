ghost use Rattle.std.specs.Prelude.{◌≡◌, ◌≤◌, ◌∷◌, [], ◌==◌, ◌&&◌, ◌||◌, not, length, if◌then◌else◌, IfSome};
ghost use Rattle.std.specs.List.{list_any};
ghost use Rattle.std.specs.Option.{option_map};
ghost use Rattle.usb_descriptor.specs.Set.{is_addressed};
ghost use Rattle.usb_control.specs.Table.{choice, owner_of, named, has_interface, is_zero, has_endpoint, is_halted, descriptor_of, given, gives, status, stalled, only, hid_descriptor_of, class_descriptor, handed, unless_zero, self_powered, configuration_value};
ghost use Rattle.usb_control.specs.Found.{choice_of, IsShort};
ghost use Rattle.usb_control.specs.declared.state.Effect.TheVariants.{Configure, ClearInterface};

use crate::found::Found;
use crate::state::{Choice, CoreState, Effect};
use arrayvec::ArrayVec;
use std::slice;
use usb_descriptor::{DescSet, Endpoint, is_core};
use usb_packet::{Owner, Setup};
use usb_pipe::Decision;

/// What is done at a request (USB 2.0, 9.4). Its data is whole: the core cuts it to wLength.
pub fn decide(set: &DescSet, state: &CoreState, setup: &Setup) -> Choice
    ensures { result ≡ choice set.now state.now setup.now }
{
    match find(set, state, setup) {
        Found::Data(bytes) => gives(bytes),
        Found::Status(effect) => Choice::Own(Decision::Status, effect),
        Found::Stall => Choice::Own(Decision::Stall, Effect::None),
        Found::Class(owner) => Choice::Class(owner),
    }
}

/// The same with the data where it lies, in the set for the most part.
pub fn find<'a>(set: &'a DescSet, state: &CoreState, setup: &Setup) -> Found<'a>
    ensures value { choice_of result ≡ choice set.now state.now setup.now }
    ensures short { IsShort result }
{
    match (setup.request_type, setup.request) {
        (0x80, 0) => device_status(set),
        (0x81, 0) => interface_status(set, state, setup),
        (0x82, 0) => endpoint_status(set, state, setup),
        (0x02, 1) => feature(set, state, setup, Effect::Clear(named(setup))),
        (0x02, 3) => feature(set, state, setup, Effect::Halt(named(setup))),
        (0x00, 5) if setup.value <= 127 => Found::Status(Effect::Address(setup.value as u8)),
        (0x80, 6) => descriptor(set, setup.value),
        (0x81, 6) if state.configured => {
            class_descriptor(owner_of(set, setup), set, setup.value)
        }
        (0x80, 8) => configuration(set, state),
        (0x00, 9) => configure(set, setup),
        (0x81, 0x0a) => alternate_setting(set, state, setup),
        (0x01, 0x0b) => set_interface(set, state, setup),
        (0x21, _) | (0xa1, _) if state.configured => handed(set, setup),
        _ => Found::Stall,
    }
}

/// The owner of a request: that of the interface or of the endpoint that it names, else the core.
pub fn owner_of(set: &DescSet, setup: &Setup) -> Owner
    ensures { result ≡ owner_of set.now setup.now }
{
    match setup.request_type % 32 {
        1 => set.owner_of_interface(named(setup)),
        2 => set.owner_of_endpoint(named(setup)),
        _ => Owner::Core,
    }
}

/// The low byte of wIndex, which names the interface or the endpoint (USB 2.0, 9.3.4).
fn named(setup: &Setup) -> u8
    ensures { result ≡ named setup.now }
{
    (setup.index % 256) as u8
}

/// The core gives these bytes.
fn gives(bytes: &[u8]) -> Choice
    requires { length bytes.now ≤ 512 }
    ensures { result ≡ gives bytes.now }
{
    let mut copy = ArrayVec::new();
    let _ = copy.try_extend_from_slice(bytes);
    Choice::Own(Decision::Data(copy), Effect::None)
}

/// Whether a session stands and the set has the interface.
fn has_interface(set: &DescSet, state: &CoreState, setup: &Setup) -> bool
    ensures { result ≡ has_interface set.now state.now setup.now }
{
    state.configured && set.is_interface(named(setup))
}

/// Whether a request names endpoint 0.
fn is_zero(setup: &Setup) -> bool
    ensures { result ≡ is_zero setup.now }
{
    let addr = named(setup);
    addr == 0 || addr == 0x80
}

/// Whether a request names endpoint 0, or in a session an endpoint of the set.
fn has_endpoint(set: &DescSet, state: &CoreState, setup: &Setup) -> bool
    ensures { result ≡ has_endpoint set.now state.now setup.now }
{
    is_zero(setup) || state.configured && any_addressed(set.endpoints(), named(setup))
}

/// Whether one of these endpoints is at an address.
fn any_addressed(endpoints: &[Endpoint], addr: u8) -> bool
    ensures { result ≡ list_any (is_addressed addr) endpoints.now }
{
    endpoints.iter().any(|e| e.addr == addr)
}

fn is_halted(state: &CoreState, addr: u8) -> bool
    ensures { result ≡ is_halted state.now addr }
{
    state.halted.as_slice().iter().any(|halted| *halted == addr)
}

/// 1 where the device has power of its own: bit 6 of bmAttributes (USB 2.0, 9.6.3).
fn self_powered(set: &DescSet) -> u8
    ensures { result ≡ self_powered set.now }
{
    set.config()[7] / 64 % 2
}

/// bConfigurationValue (USB 2.0, 9.6.3).
fn configuration_value(set: &DescSet) -> u8
    ensures { result ≡ configuration_value set.now }
{
    set.config()[5]
}

/// The byte of bConfigurationValue.
fn value_byte(set: &DescSet) -> &[u8]
    ensures value { result.now ≡ configuration_value set.now ∷ [] }
    ensures size { length result.now ≤ 512 }
{
    slice::from_ref(&set.config()[5])
}

/// The descriptor that wValue asks for (USB 2.0, 9.4.3).
fn descriptor_of(set: &DescSet, value: u16) -> Option<&[u8]>
    ensures bytes { option_map (λ d. d.now) result ≡ descriptor_of set.now value }
    ensures size { IfSome result (λ d. length d.now ≤ 512) }
{
    match value {
        0x0100 => Some(set.device()),
        0x0200 => Some(set.config()),
        _ if value / 256 == 3 => set.string((value % 256) as u8),
        _ => None,
    }
}

/// GET_DESCRIPTOR (USB 2.0, 9.4.3).
fn descriptor<'a>(set: &'a DescSet, value: u16) -> Found<'a>
    ensures value { choice_of result ≡ given (descriptor_of set.now value) }
    ensures short { IsShort result }
{
    given(descriptor_of(set, value))
}

fn given<'a>(descriptor: Option<&'a [u8]>) -> Found<'a>
    requires { IfSome descriptor (λ d. length d.now ≤ 512) }
    ensures value { choice_of result ≡ given (option_map (λ d. d.now) descriptor.entry) }
    ensures short { IsShort result }
{
    match descriptor {
        Some(bytes) => Found::Data(bytes),
        None => Found::Stall,
    }
}

/// GET_STATUS of the device (USB 2.0, 9.4.5).
fn device_status<'a>(set: &'a DescSet) -> Found<'a>
    ensures value { choice_of result ≡ gives (self_powered set.now ∷ 0 ∷ []) }
    ensures short { IsShort result }
{
    if self_powered(set) == 1 {
        Found::Data(b"\x01\0")
    } else {
        Found::Data(b"\0\0")
    }
}

/// GET_STATUS of an interface (USB 2.0, 9.4.5).
fn interface_status<'a>(set: &'a DescSet, state: &CoreState, setup: &Setup) -> Found<'a>
    ensures value { choice_of result ≡ only (has_interface set.now state.now setup.now) (gives (0 ∷ 0 ∷ [])) }
    ensures short { IsShort result }
{
    if has_interface(set, state, setup) {
        Found::Data(b"\0\0")
    } else {
        Found::Stall
    }
}

/// GET_INTERFACE (USB 2.0, 9.4.4).
fn alternate_setting<'a>(set: &'a DescSet, state: &CoreState, setup: &Setup) -> Found<'a>
    ensures value { choice_of result ≡ only (has_interface set.now state.now setup.now) (gives (0 ∷ [])) }
    ensures short { IsShort result }
{
    if has_interface(set, state, setup) {
        Found::Data(b"\0")
    } else {
        Found::Stall
    }
}

/// GET_CONFIGURATION (USB 2.0, 9.4.2).
fn configuration<'a>(set: &'a DescSet, state: &CoreState) -> Found<'a>
    ensures value { choice_of result ≡ gives ((if state.now.configured then configuration_value set.now else 0) ∷ []) }
    ensures short { IsShort result }
{
    if state.configured {
        Found::Data(value_byte(set))
    } else {
        Found::Data(b"\0")
    }
}

/// GET_STATUS of an endpoint (USB 2.0, 9.4.5).
fn endpoint_status<'a>(set: &'a DescSet, state: &CoreState, setup: &Setup) -> Found<'a>
    ensures value { choice_of result ≡ only (has_endpoint set.now state.now setup.now) (gives ((if is_halted state.now (named setup.now) then 1 else 0) ∷ 0 ∷ [])) }
    ensures short { IsShort result }
{
    if !has_endpoint(set, state, setup) {
        Found::Stall
    } else if is_halted(state, named(setup)) {
        Found::Data(b"\x01\0")
    } else {
        Found::Data(b"\0\0")
    }
}

/// CLEAR_FEATURE and SET_FEATURE of ENDPOINT_HALT (USB 2.0, 9.4.1 and 9.4.9): of endpoint 0 it isn't changed.
fn feature<'a>(set: &'a DescSet, state: &CoreState, setup: &Setup, effect: Effect) -> Found<'a>
    ensures value { choice_of result ≡ only ((setup.now.value == 0) && has_endpoint set.now state.now setup.now) (status (unless_zero setup.now effect)) }
    ensures short { IsShort result }
{
    if setup.value != 0 || !has_endpoint(set, state, setup) {
        Found::Stall
    } else if is_zero(setup) {
        Found::Status(Effect::None)
    } else {
        Found::Status(effect)
    }
}

/// SET_CONFIGURATION (USB 2.0, 9.4.7).
fn configure<'a>(set: &'a DescSet, setup: &Setup) -> Found<'a>
    ensures value { choice_of result ≡ only ((setup.now.value == 0) || (setup.now.value == configuration_value set.now)) (status (Configure (not (setup.now.value == 0)))) }
    ensures short { IsShort result }
{
    let value = setup.value;
    if value == 0 || value == u16::from(configuration_value(set)) {
        Found::Status(Effect::Configure(value != 0))
    } else {
        Found::Stall
    }
}

/// SET_INTERFACE (USB 2.0, 9.4.10).
fn set_interface<'a>(set: &'a DescSet, state: &CoreState, setup: &Setup) -> Found<'a>
    ensures value { choice_of result ≡ only (has_interface set.now state.now setup.now && (setup.now.value == 0)) (status (ClearInterface (named setup.now))) }
    ensures short { IsShort result }
{
    if has_interface(set, state, setup) && setup.value == 0 {
        Found::Status(Effect::ClearInterface(named(setup)))
    } else {
        Found::Stall
    }
}

/// The descriptor of HID that wValue asks for: its own, whole, or that of its reports (HID 1.11, 7.1.1).
fn hid_descriptor_of(set: &DescSet, value: u16) -> Option<&[u8]>
    ensures bytes { option_map (λ d. d.now) result ≡ hid_descriptor_of set.now value }
    ensures size { IfSome result (λ d. length d.now ≤ 512) }
{
    match value {
        0x2100 => set.hid_descriptor(),
        0x2200 => set.report(),
        _ => None,
    }
}

/// The descriptors that the class of an interface gives: HID alone gives any.
fn class_descriptor<'a>(owner: Owner, set: &'a DescSet, value: u16) -> Found<'a>
    ensures value { choice_of result ≡ class_descriptor owner set.now value }
    ensures short { IsShort result }
{
    match owner {
        Owner::Hid => given(hid_descriptor_of(set, value)),
        Owner::Core | Owner::Cdc | Owner::Msc | Owner::Midi => Found::Stall,
    }
}

/// A class request to an interface, which its owner decides.
fn handed<'a>(set: &'a DescSet, setup: &Setup) -> Found<'a>
    ensures value { choice_of result ≡ handed (owner_of set.now setup.now) }
    ensures short { IsShort result }
{
    let owner = owner_of(set, setup);
    if is_core(owner) {
        Found::Stall
    } else {
        Found::Class(owner)
    }
}
