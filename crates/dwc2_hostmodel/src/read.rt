// What a read of each register gives, and what it changes.
ghost use Rattle.std.specs.Prelude.{◌≡◌, ◌+◌, ◌^◌, ◌<◌, ◌≤◌, length};
ghost use Rattle.dwc2_regs.specs.Register.{fifo, dieptxf};
ghost use Rattle.dwc2_fifo.specs.Rx.{first_status};
ghost use Rattle.device_table.specs.Read.{number_of_bits, any_under};
ghost use Rattle.dwc2_state.specs.Place.{register_of, of_core, of_host, of_device, of_channel, of_in, of_out};
ghost use Rattle.host_table.specs.State.{channel_at, with_channel};
ghost use Rattle.host_table.specs.Read.{channel_bits, haint_word, channels_interrupt, end_bits, daint_word, gintsts_word, value_read, received_all, end_popped, entry_popped, after_read, read_value, read_table};

use crate::controller::Controller;
use dwc2_hoststate::{ChannelState, EndRegisters};
use dwc2_regs::{
    DAINT_IN, DAINT_OUT, DIEPINT_EPDISD, GINTSTS_DISCINT, GINTSTS_HCINT, GINTSTS_HPRTINT,
    GINTSTS_IEPINT, GINTSTS_OEPINT, GINTSTS_RXFLVL, GRXSTSP_NUMBER, GRXSTSP_STATUS, HAINT_CHANNELS,
    OUT_DONE, get_field, put_field,
};
use dwc2_state::{
    ChannelRegister, CoreRegister, DeviceRegister, HostRegister, InRegister, OutRegister, Place,
    bit_at, flag, place_at, with_flag,
};

// The channels' bits of HAINT.
fn bits_of_channels(channels: &[ChannelState]) -> u32
    requires { length channels.now ≤ 12 }
    ensures value { result ≡ number_of_bits (channel_bits channels.now) }
    ensures fits { result < 2 ^ length channels.now }
{
    match channels {
        [] => 0,
        [channel, rest @ ..] => {
            channel.interrupts_under_mask() as u32 + 2 * bits_of_channels(rest)
        }
    }
}

// Whether one of them is 1 under the mask, whose bits begin at `number`.
fn any_channel(channels: &[ChannelState], mask: u32, number: u8) -> bool
    requires { number + length channels.now ≤ 12 }
    ensures { result ≡ any_under (channel_bits channels.now) mask number }
{
    match channels {
        [] => false,
        [channel, rest @ ..] => {
            (channel.interrupts_under_mask() && bit_at(mask, number))
                || any_channel(rest, mask, number + 1)
        }
    }
}

// The endpoints' bits of a half of DAINT.
fn bits_of_ends(ends: &[EndRegisters], mask: u32) -> u32
    requires { length ends.now ≤ 12 }
    ensures value { result ≡ number_of_bits (end_bits mask ends.now) }
    ensures fits { result < 2 ^ length ends.now }
{
    match ends {
        [] => 0,
        [end, rest @ ..] => {
            (end.epdisd && flag(mask, DIEPINT_EPDISD)) as u32 + 2 * bits_of_ends(rest, mask)
        }
    }
}

// Whether one of them is 1 under DAINTMSK, whose bits for this half begin at `number`.
fn any_end(ends: &[EndRegisters], mask: u32, all_mask: u32, number: u8) -> bool
    requires { number + length ends.now ≤ 28 }
    ensures { result ≡ any_under (end_bits mask ends.now) all_mask number }
{
    match ends {
        [] => false,
        [end, rest @ ..] => {
            (end.epdisd && flag(mask, DIEPINT_EPDISD) && bit_at(all_mask, number))
                || any_end(rest, mask, all_mask, number + 1)
        }
    }
}

impl Controller {
    /// The word read at an offset, 0 where no register stands there. What is read of the receive FIFO is taken.
    #[inline(always)]
    pub fn read(&mut self, off: u16) -> u32
        ensures value { result ≡ read_value self.old off }
        ensures after { self.new ≡ read_table self.old off }
    {
        match place_at(off) {
            Some(place) => self.read_place(place),
            None => 0,
        }
    }

    #[tactic(auto, using(crate::proofs::ReadLemmas::host_stays, crate::proofs::ReadLemmas::device_stays, crate::proofs::ReadLemmas::channel_stays, crate::proofs::ReadLemmas::in_stays, crate::proofs::ReadLemmas::out_stays))]
    #[inline(always)]
    fn read_place(&mut self, place: Place) -> u32
        ensures value { result ≡ value_read self.old (register_of place) }
        ensures after { self.new ≡ after_read self.old (register_of place) }
    {
        match place {
            Place::Core(register) => self.read_core(register),
            Place::TxSize(x) => self.size_value(x),
            Place::Host(register) => self.host_value(register),
            Place::Channel(x, register) => self.channel_value(x, register),
            Place::Device(register) => self.device_value(register),
            Place::In(x, register) => self.in_value(x, register),
            Place::Out(x, register) => self.out_value(x, register),
            Place::Window(x) => self.read_window(x),
        }
    }

    #[inline(always)]
    fn read_core(&mut self, register: CoreRegister) -> u32
        ensures value { result ≡ value_read self.old (of_core register) }
        ensures after { self.new ≡ after_read self.old (of_core register) }
    {
        match register {
            CoreRegister::Reset => self.kept.grstctl,
            CoreRegister::Interrupts => self.interrupts(),
            CoreRegister::Mask => self.kept.gintmsk,
            CoreRegister::Status => self.rx.peek_status(),
            CoreRegister::Pop => self.pop_entry(),
            CoreRegister::RxSize => self.kept.grxfsiz,
            CoreRegister::TxSize => self.kept.dieptxf0,
            CoreRegister::PeriodicSize => self.hptxfsiz,
        }
    }

    // Window 0 gives the words of the popped entry one by one.
    fn read_window(&mut self, x: u8) -> u32
        ensures value { result ≡ value_read self.old (fifo x) }
        ensures after { self.new ≡ after_read self.old (fifo x) }
    {
        match x {
            0 => self.rx.pop_word(),
            _ => 0,
        }
    }

    fn size_value(&self, x: u8) -> u32
        ensures { result ≡ value_read self.now (dieptxf x) }
    {
        match self.kept.dieptxfs.get((x as usize).saturating_sub(1)) {
            Some(size) => *size,
            None => 0,
        }
    }

    fn host_value(&self, register: HostRegister) -> u32
        ensures { result ≡ value_read self.now (of_host register) }
    {
        match register {
            HostRegister::Configuration => self.hcfg,
            HostRegister::Interrupts => self.channel_interrupts(),
            HostRegister::Mask => self.haintmsk,
            HostRegister::Port => self.port.word(),
        }
    }

    fn channel_value(&self, x: u8, register: ChannelRegister) -> u32
        ensures { result ≡ value_read self.now (of_channel x register) }
    {
        let Some(channel) = self.channels.get(x as usize) else {
            return 0;
        };
        match register {
            ChannelRegister::Control => channel.word(),
            ChannelRegister::Interrupts => channel.interrupts(),
            ChannelRegister::Mask => channel.hcintmsk,
            ChannelRegister::Size => channel.hctsiz,
        }
    }

    fn device_value(&self, register: DeviceRegister) -> u32
        ensures { result ≡ value_read self.now (of_device register) }
    {
        match register {
            DeviceRegister::Configuration => self.kept.dcfg,
            DeviceRegister::Control => self.kept.dctl,
            DeviceRegister::Status => 0,
            DeviceRegister::InMask => self.kept.diepmsk,
            DeviceRegister::OutMask => self.kept.doepmsk,
            DeviceRegister::Interrupts => self.endpoint_interrupts(),
            DeviceRegister::Mask => self.kept.daintmsk,
            DeviceRegister::EmptyMask => self.kept.diepempmsk,
        }
    }

    fn in_value(&self, x: u8, register: InRegister) -> u32
        ensures { result ≡ value_read self.now (of_in x register) }
    {
        let Some(end) = self.ins.get(x as usize) else {
            return 0;
        };
        match register {
            InRegister::Control => end.control_word(),
            InRegister::Interrupts => end.interrupts(),
            InRegister::Size => end.tsiz,
            InRegister::Space => 0,
        }
    }

    fn out_value(&self, x: u8, register: OutRegister) -> u32
        ensures { result ≡ value_read self.now (of_out x register) }
    {
        let Some(end) = self.outs.get(x as usize) else {
            return 0;
        };
        match register {
            OutRegister::Control => end.control_word(),
            OutRegister::Interrupts => end.interrupts(),
            OutRegister::Size => end.tsiz,
        }
    }

    // GINTSTS. The device's USBRST and ENUMDNE don't come in host mode.
    fn interrupts(&self) -> u32
        ensures { result ≡ gintsts_word self.now }
    {
        let word = with_flag(0, GINTSTS_RXFLVL, self.rx.is_ready());
        let word = with_flag(word, GINTSTS_IEPINT, self.any_in());
        let word = with_flag(word, GINTSTS_OEPINT, self.any_out());
        let word = with_flag(word, GINTSTS_HPRTINT, self.port.interrupts());
        let word = with_flag(word, GINTSTS_HCINT, self.any_channel());
        with_flag(word, GINTSTS_DISCINT, self.port.discint)
    }

    fn any_in(&self) -> bool
        ensures { result ≡ any_under (end_bits self.now.kept.diepmsk self.now.device.ins) self.now.kept.daintmsk 0 }
    {
        any_end(
            self.ins.as_slice(),
            self.kept.diepmsk,
            self.kept.daintmsk,
            0,
        )
    }

    fn any_out(&self) -> bool
        ensures { result ≡ any_under (end_bits self.now.kept.doepmsk self.now.device.outs) self.now.kept.daintmsk 16 }
    {
        any_end(
            self.outs.as_slice(),
            self.kept.doepmsk,
            self.kept.daintmsk,
            16,
        )
    }

    fn any_channel(&self) -> bool
        ensures { result ≡ channels_interrupt self.now }
    {
        any_channel(self.channels.as_slice(), self.haintmsk, 0)
    }

    // HAINT.
    fn channel_interrupts(&self) -> u32
        ensures { result ≡ haint_word self.now }
    {
        put_field(
            0,
            HAINT_CHANNELS,
            bits_of_channels(self.channels.as_slice()),
        )
    }

    // DAINT.
    fn endpoint_interrupts(&self) -> u32
        ensures { result ≡ daint_word self.now }
    {
        let ins = bits_of_ends(self.ins.as_slice(), self.kept.diepmsk);
        let outs = bits_of_ends(self.outs.as_slice(), self.kept.doepmsk);
        put_field(put_field(0, DAINT_IN, ins), DAINT_OUT, outs)
    }

    // GRXSTSP: takes the front entry, where there is one.
    #[tactic(auto, using(crate::proofs::ReadLemmas::entry_popped_is))]
    #[inline(always)]
    fn pop_entry(&mut self) -> u32
        ensures value { result ≡ first_status self.old.rx.entries }
        ensures after { self.new ≡ entry_popped self.old self.old.rx.entries }
    {
        let status = self.rx.pop_status();
        self.end_popped(status);
        status
    }

    // What the end of a channel's data sets once it is popped.
    #[inline(always)]
    fn end_popped(&mut self, status: u32)
        ensures { self.new ≡ end_popped self.old status }
    {
        if get_field(status, GRXSTSP_STATUS) == OUT_DONE {
            self.receive_all(get_field(status, GRXSTSP_NUMBER) as u8);
        }
    }

    fn receive_all(&mut self, x: u8)
        ensures { self.new ≡ with_channel self.old x (received_all (channel_at self.old x)) }
    {
        if (x as usize) < self.channels.len() {
            self.channels[x as usize].receive_all();
        }
    }
}
