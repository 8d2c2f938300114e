//! Where the registers stand: offsets in bytes from the controller's base (RM0090, OTG_FS memory map).
ghost use Rattle.std.specs.Prelude.{◌≡◌, ◌≤◌, Some};
ghost use Rattle.dwc2_regs.specs.Register.{offset_of, register_at, dieptxf, hcchar, hcint, hcintmsk, hctsiz, diepctl, diepint, dieptsiz, dtxfsts, doepctl, doepint, doeptsiz, fifo};

/// Size of the transmit FIFO of IN endpoint `x`, from 1 on.
#[tactic(auto, using(crate::proofs::OffsetLemmas::dieptxf_named))]
pub const fn dieptxf(x: u8) -> u16
    requires from { 1 ≤ x }
    requires to { x ≤ 11 }
    ensures value { result ≡ offset_of (dieptxf x) }
    ensures named { register_at result ≡ Some (dieptxf x) }
{
    0x104 + 4 * (x as u16 - 1)
}

/// Channel `x`.
#[tactic(auto, using(crate::proofs::OffsetLemmas::hcchar_named))]
pub const fn hcchar(x: u8) -> u16
    requires { x ≤ 11 }
    ensures value { result ≡ offset_of (hcchar x) }
    ensures named { register_at result ≡ Some (hcchar x) }
{
    0x500 + 0x20 * x as u16
}

/// Interrupts of channel `x`.
#[tactic(auto, using(crate::proofs::OffsetLemmas::hcint_named))]
pub const fn hcint(x: u8) -> u16
    requires { x ≤ 11 }
    ensures value { result ≡ offset_of (hcint x) }
    ensures named { register_at result ≡ Some (hcint x) }
{
    0x508 + 0x20 * x as u16
}

/// Interrupt mask of channel `x`.
#[tactic(auto, using(crate::proofs::OffsetLemmas::hcintmsk_named))]
pub const fn hcintmsk(x: u8) -> u16
    requires { x ≤ 11 }
    ensures value { result ≡ offset_of (hcintmsk x) }
    ensures named { register_at result ≡ Some (hcintmsk x) }
{
    0x50c + 0x20 * x as u16
}

/// Transfer size of channel `x`.
#[tactic(auto, using(crate::proofs::OffsetLemmas::hctsiz_named))]
pub const fn hctsiz(x: u8) -> u16
    requires { x ≤ 11 }
    ensures value { result ≡ offset_of (hctsiz x) }
    ensures named { register_at result ≡ Some (hctsiz x) }
{
    0x510 + 0x20 * x as u16
}

/// IN endpoint `x`.
#[tactic(auto, using(crate::proofs::OffsetLemmas::diepctl_named))]
pub const fn diepctl(x: u8) -> u16
    requires { x ≤ 11 }
    ensures value { result ≡ offset_of (diepctl x) }
    ensures named { register_at result ≡ Some (diepctl x) }
{
    0x900 + 0x20 * x as u16
}

/// Interrupts of IN endpoint `x`.
#[tactic(auto, using(crate::proofs::OffsetLemmas::diepint_named))]
pub const fn diepint(x: u8) -> u16
    requires { x ≤ 11 }
    ensures value { result ≡ offset_of (diepint x) }
    ensures named { register_at result ≡ Some (diepint x) }
{
    0x908 + 0x20 * x as u16
}

/// Transfer size of IN endpoint `x`.
#[tactic(auto, using(crate::proofs::OffsetLemmas::dieptsiz_named))]
pub const fn dieptsiz(x: u8) -> u16
    requires { x ≤ 11 }
    ensures value { result ≡ offset_of (dieptsiz x) }
    ensures named { register_at result ≡ Some (dieptsiz x) }
{
    0x910 + 0x20 * x as u16
}

/// Free words of the transmit FIFO of IN endpoint `x`.
#[tactic(auto, using(crate::proofs::OffsetLemmas::dtxfsts_named))]
pub const fn dtxfsts(x: u8) -> u16
    requires { x ≤ 11 }
    ensures value { result ≡ offset_of (dtxfsts x) }
    ensures named { register_at result ≡ Some (dtxfsts x) }
{
    0x918 + 0x20 * x as u16
}

/// OUT endpoint `x`.
#[tactic(auto, using(crate::proofs::OffsetLemmas::doepctl_named))]
pub const fn doepctl(x: u8) -> u16
    requires { x ≤ 11 }
    ensures value { result ≡ offset_of (doepctl x) }
    ensures named { register_at result ≡ Some (doepctl x) }
{
    0xb00 + 0x20 * x as u16
}

/// Interrupts of OUT endpoint `x`.
#[tactic(auto, using(crate::proofs::OffsetLemmas::doepint_named))]
pub const fn doepint(x: u8) -> u16
    requires { x ≤ 11 }
    ensures value { result ≡ offset_of (doepint x) }
    ensures named { register_at result ≡ Some (doepint x) }
{
    0xb08 + 0x20 * x as u16
}

/// Transfer size of OUT endpoint `x`.
#[tactic(auto, using(crate::proofs::OffsetLemmas::doeptsiz_named))]
pub const fn doeptsiz(x: u8) -> u16
    requires { x ≤ 11 }
    ensures value { result ≡ offset_of (doeptsiz x) }
    ensures named { register_at result ≡ Some (doeptsiz x) }
{
    0xb10 + 0x20 * x as u16
}

/// The window of FIFO `x`.
#[tactic(auto, using(crate::proofs::OffsetLemmas::fifo_named))]
pub const fn fifo_window(x: u8) -> u16
    requires { x ≤ 11 }
    ensures value { result ≡ offset_of (fifo x) }
    ensures named { register_at result ≡ Some (fifo x) }
{
    0x1000 + 0x1000 * x as u16
}
