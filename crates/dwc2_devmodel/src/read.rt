// What a read of each register gives, and what it changes.
ghost use Rattle.std.specs.Prelude.{◌≡◌, ℕ, ◌+◌, ◌^◌, ◌<◌, ◌≤◌, ◌∷◌, ◌&&◌, true, length};
ghost use Rattle.dwc2_regs.specs.Register.{fifo, dieptxf};
ghost use Rattle.dwc2_fifo.specs.Rx.{first_status};
ghost use Rattle.device_table.specs.Words.{kind_of, number_of};
ghost use Rattle.device_table.specs.Read.{in_interrupts, out_interrupts, in_bits, out_bits, number_of_bits, any_under, iepint, oepint, daint_word, gintsts_word, rxflvl, bit_at, value_read, after_read, entry_popped, end_popped, read_value, read_table};
ghost use Rattle.device_table.specs.State.{out_end, with_out};
ghost use Rattle.dwc2_state.specs.Place.{register_of, of_core, of_host, of_device, of_channel, of_in, of_out};

use crate::controller::Controller;
use bitflags::Flags;
use dwc2_regs::{
    DAINT_IN, DAINT_OUT, EndpointInterrupts, GINTSTS_ENUMDNE, GINTSTS_IEPINT, GINTSTS_OEPINT,
    GINTSTS_RXFLVL, GINTSTS_USBRST, GRXSTSP_NUMBER, GRXSTSP_STATUS, OUT_DONE, SETUP_DATA,
    SETUP_DONE, get_field, put_field,
};
use dwc2_state::{
    ChannelRegister, CoreRegister, DeviceRegister, HostRegister, InEndpoint, InRegister,
    OutEndpoint, OutRegister, Place, bit_at, place_at, with_flag,
};

impl Controller {
    /// The word read at an offset, 0 where no register stands there. What is read of the receive FIFO is taken.
    #[inline(always)]
    pub fn read(&mut self, off: u16) -> u32
        ensures value { result ≡ read_value self.old off }
        ensures after { self.new ≡ read_table self.old off }
    {
        match place_at(off) {
            Some(place) => self.read_place(place),
            None => 0,
        }
    }

    #[tactic(auto, using(crate::proofs::ReadLemmas::host_stays, crate::proofs::ReadLemmas::device_stays, crate::proofs::ReadLemmas::channel_stays, crate::proofs::ReadLemmas::in_stays, crate::proofs::ReadLemmas::out_stays))]
    #[inline(always)]
    fn read_place(&mut self, place: Place) -> u32
        ensures value { result ≡ value_read self.old (register_of place) }
        ensures after { self.new ≡ after_read self.old (register_of place) }
    {
        match place {
            Place::Core(register) => self.read_core(register),
            Place::TxSize(x) => self.size_value(x),
            Place::Host(register) => self.host_value(register),
            Place::Channel(x, register) => self.channel_value(x, register),
            Place::Device(register) => self.device_value(register),
            Place::In(x, register) => self.in_value(x, register),
            Place::Out(x, register) => self.out_value(x, register),
            Place::Window(x) => self.read_window(x),
        }
    }

    #[inline(always)]
    fn read_core(&mut self, register: CoreRegister) -> u32
        ensures value { result ≡ value_read self.old (of_core register) }
        ensures after { self.new ≡ after_read self.old (of_core register) }
    {
        match register {
            CoreRegister::Reset => self.kept.grstctl,
            CoreRegister::Interrupts => self.interrupts(),
            CoreRegister::Mask => self.kept.gintmsk,
            CoreRegister::Status => self.rx.peek_status(),
            CoreRegister::Pop => self.pop_entry(),
            CoreRegister::RxSize => self.kept.grxfsiz,
            CoreRegister::TxSize => self.kept.dieptxf0,
            CoreRegister::PeriodicSize => self.host.hptxfsiz,
        }
    }

    // Window 0 gives the words of the popped entry one by one.
    fn read_window(&mut self, x: u8) -> u32
        ensures value { result ≡ value_read self.old (fifo x) }
        ensures after { self.new ≡ after_read self.old (fifo x) }
    {
        match x {
            0 => self.rx.pop_word(),
            _ => 0,
        }
    }

    fn size_value(&self, x: u8) -> u32
        ensures { result ≡ value_read self.now (dieptxf x) }
    {
        match self.kept.dieptxfs.get((x as usize).saturating_sub(1)) {
            Some(size) => *size,
            None => 0,
        }
    }

    fn host_value(&self, register: HostRegister) -> u32
        ensures { result ≡ value_read self.now (of_host register) }
    {
        match register {
            HostRegister::Configuration => self.host.hcfg,
            HostRegister::Interrupts => 0,
            HostRegister::Mask => self.host.haintmsk,
            HostRegister::Port => self.host.hprt,
        }
    }

    fn channel_value(&self, x: u8, register: ChannelRegister) -> u32
        ensures { result ≡ value_read self.now (of_channel x register) }
    {
        let Some(channel) = self.host.channels.get(x as usize) else {
            return 0;
        };
        match register {
            ChannelRegister::Control => channel.hcchar,
            ChannelRegister::Interrupts => 0,
            ChannelRegister::Mask => channel.hcintmsk,
            ChannelRegister::Size => channel.hctsiz,
        }
    }

    fn device_value(&self, register: DeviceRegister) -> u32
        ensures { result ≡ value_read self.now (of_device register) }
    {
        match register {
            DeviceRegister::Configuration => self.kept.dcfg,
            DeviceRegister::Control => self.kept.dctl,
            DeviceRegister::Status => 0,
            DeviceRegister::InMask => self.kept.diepmsk,
            DeviceRegister::OutMask => self.kept.doepmsk,
            DeviceRegister::Interrupts => self.endpoint_interrupts(),
            DeviceRegister::Mask => self.kept.daintmsk,
            DeviceRegister::EmptyMask => self.kept.diepempmsk,
        }
    }

    #[tactic(auto, using(crate::proofs::ReadLemmas::no_interrupts))]
    fn in_value(&self, x: u8, register: InRegister) -> u32
        ensures { result ≡ value_read self.now (of_in x register) }
    {
        let Some(end) = self.in_end(x) else {
            return 0;
        };
        match register {
            InRegister::Control => end.control().word(),
            InRegister::Interrupts => end.interrupts(x),
            InRegister::Size => end.size(),
            InRegister::Space => end.space() as u32,
        }
    }

    fn out_value(&self, x: u8, register: OutRegister) -> u32
        ensures { result ≡ value_read self.now (of_out x register) }
    {
        let Some(end) = self.out_end(x) else {
            return 0;
        };
        match register {
            OutRegister::Control => end.control().word(),
            OutRegister::Interrupts => end.interrupts(),
            OutRegister::Size => end.size(),
        }
    }

    // GINTSTS. The host's interrupts don't come in device mode.
    fn interrupts(&self) -> u32
        ensures { result ≡ gintsts_word self.now }
    {
        let word = with_flag(0, GINTSTS_RXFLVL, self.rx.is_ready());
        let word = with_flag(word, GINTSTS_USBRST, self.core.usbrst);
        let word = with_flag(word, GINTSTS_ENUMDNE, self.core.enumdne);
        let word = with_flag(word, GINTSTS_IEPINT, self.any_in());
        with_flag(word, GINTSTS_OEPINT, self.any_out())
    }

    // DAINT.
    fn endpoint_interrupts(&self) -> u32
        ensures { result ≡ daint_word self.now }
    {
        let word = put_field(0, DAINT_IN, self.in_bits());
        put_field(word, DAINT_OUT, self.out_bits())
    }

    // An IN endpoint's bit of DAINT.
    #[tactic(auto, using(dwc2_regs::proofs::SetLemmas::interrupt_bits))]
    fn in_interrupts(&self, number: u8, end: &InEndpoint) -> bool
        requires { number ≤ 31 }
        ensures { result ≡ in_interrupts self.now number end.now }
    {
        let mask = EndpointInterrupts::from_bits_retain(self.kept.diepmsk);
        (end.is_complete() && mask.contains(EndpointInterrupts::XFRC))
            || (end.was_disabled() && mask.contains(EndpointInterrupts::EPDISD))
            || (bit_at(self.kept.diepempmsk, number) && end.has_room(number))
    }

    // An OUT endpoint's bit of DAINT.
    #[tactic(auto, using(crate::proofs::ReadLemmas::none_raised))]
    fn out_interrupts(&self, end: &OutEndpoint) -> bool
        ensures { result ≡ out_interrupts self.now end.now }
    {
        end.is_raised() && self.raised_under_mask(end)
    }

    #[tactic(auto, using(dwc2_regs::proofs::SetLemmas::interrupt_bits))]
    fn raised_under_mask(&self, end: &OutEndpoint) -> bool
        ensures { result ≡ out_interrupts self.now end.now }
    {
        let mask = EndpointInterrupts::from_bits_retain(self.kept.doepmsk);
        (end.is_complete() && mask.contains(EndpointInterrupts::XFRC))
            || (end.was_disabled() && mask.contains(EndpointInterrupts::EPDISD))
            || (end.has_setup() && mask.contains(EndpointInterrupts::STUP))
    }

    fn in_bits(&self) -> u32
        ensures value { result ≡ number_of_bits (in_bits self.now 0 (self.now.in0 ∷ self.now.ins)) }
        ensures fits { result < 2 ^ 16 }
    {
        self.in_interrupts(0, &self.in0) as u32 + 2 * self.in_bits_from(1, self.ins.as_slice())
    }

    fn in_bits_from(&self, number: u8, ends: &[InEndpoint]) -> u32
        requires { number + length ends.now ≤ 12 }
        ensures value { result ≡ number_of_bits (in_bits self.now number ends.now) }
        ensures fits { result < 2 ^ length ends.now }
    {
        match ends {
            [] => 0,
            [end, rest @ ..] => {
                self.in_interrupts(number, end) as u32 + 2 * self.in_bits_from(number + 1, rest)
            }
        }
    }

    fn out_bits(&self) -> u32
        ensures value { result ≡ number_of_bits (out_bits self.now (self.now.out0 ∷ self.now.outs)) }
        ensures fits { result < 2 ^ 16 }
    {
        self.out_interrupts(&self.out0) as u32 + 2 * self.out_bits_from(self.outs.as_slice())
    }

    fn out_bits_from(&self, ends: &[OutEndpoint]) -> u32
        requires { length ends.now ≤ 12 }
        ensures value { result ≡ number_of_bits (out_bits self.now ends.now) }
        ensures fits { result < 2 ^ length ends.now }
    {
        match ends {
            [] => 0,
            [end, rest @ ..] => self.out_interrupts(end) as u32 + 2 * self.out_bits_from(rest),
        }
    }

    fn any_in(&self) -> bool
        ensures { result ≡ iepint self.now }
    {
        (bit_at(self.kept.daintmsk, 0) && self.in_interrupts(0, &self.in0))
            || self.any_in_from(1, self.ins.as_slice())
    }

    // Whether an IN endpoint's bit of DAINT is 1 under DAINTMSK, of which most bits are 0.
    fn in_asks(&self, number: u8, end: &InEndpoint) -> bool
        requires { number ≤ 31 }
        ensures { result ≡ (in_interrupts self.now number end.now && bit_at self.now.kept.daintmsk number) }
    {
        bit_at(self.kept.daintmsk, number) && self.in_interrupts(number, end)
    }

    fn any_in_from(&self, number: u8, ends: &[InEndpoint]) -> bool
        requires { number + length ends.now ≤ 12 }
        ensures { result ≡ any_under (in_bits self.now number ends.now) self.now.kept.daintmsk number }
    {
        match ends {
            [] => false,
            [end, rest @ ..] => { self.in_asks(number, end) || self.any_in_from(number + 1, rest) }
        }
    }

    fn any_out(&self) -> bool
        ensures { result ≡ oepint self.now }
    {
        (self.out_interrupts(&self.out0) && bit_at(self.kept.daintmsk, 16))
            || self.any_out_from(17, self.outs.as_slice())
    }

    fn any_out_from(&self, number: u8, ends: &[OutEndpoint]) -> bool
        requires { number + length ends.now ≤ 28 }
        ensures { result ≡ any_under (out_bits self.now ends.now) self.now.kept.daintmsk number }
    {
        match ends {
            [] => false,
            [end, rest @ ..] => {
                (self.out_interrupts(end) && bit_at(self.kept.daintmsk, number))
                    || self.any_out_from(number + 1, rest)
            }
        }
    }

    // GRXSTSP: takes the front entry, where there is one.
    #[inline(always)]
    fn pop_entry(&mut self) -> u32
        ensures value { result ≡ first_status self.old.rx.entries }
        ensures after { self.new ≡ entry_popped self.old self.old.rx.entries }
    {
        let status = self.rx.pop_status();
        let kind = get_field(status, GRXSTSP_STATUS);
        if kind == SETUP_DATA || kind == SETUP_DONE {
            self.setups = self.setups.saturating_sub(1);
        }
        self.end_popped(status);
        status
    }

    // What the end of a SETUP or of an OUT packet sets once it is popped.
    #[inline(always)]
    fn end_popped(&mut self, status: u32)
        ensures { self.new ≡ end_popped self.old status }
    {
        match get_field(status, GRXSTSP_STATUS) {
            SETUP_DONE => {
                self.out0.end_setup();
                self.core.unserved = self.core.unserved.saturating_sub(1);
            }
            OUT_DONE => self.complete_out(get_field(status, GRXSTSP_NUMBER) as u8),
            _ => {}
        }
    }

    fn complete_out(&mut self, x: u8)
        ensures { self.new ≡ with_out self.old x (record (out_end self.old x) { xfrc = true }) }
    {
        match x {
            0 => self.out0.complete(),
            _ if x as usize <= self.outs.len() => self.outs[x as usize - 1].complete(),
            _ => {}
        }
    }
}
