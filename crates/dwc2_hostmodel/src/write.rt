// What a write of each register changes.
ghost use Rattle.std.specs.Prelude.{◌≡◌, ◌≤◌, true};
ghost use Rattle.dwc2_regs.specs.Register.{fifo, dieptxf, hcchar, hcint, hcintmsk, hctsiz};
ghost use Rattle.dwc2_state.specs.Place.{register_of, of_core, of_host, of_device, of_channel, of_in, of_out};
ghost use Rattle.host_table.specs.State.{channel_at, with_channel};
ghost use Rattle.host_table.specs.Write.{rx_flushed, tx_flushed, grstctl_written, channel_written, after_write, write_table};

use crate::controller::Controller;
use dwc2_hoststate::{ChannelState, push_word};
use dwc2_regs::{
    GRSTCTL_RXFFLSH, GRSTCTL_TXFFLSH, GRSTCTL_TXFNUM, HCCHAR_CHDIS, get_field, put_field,
};
use dwc2_state::{
    ChannelRegister, CoreRegister, DeviceRegister, HostRegister, InRegister, OutRegister, Place,
    flag, place_at,
};

/// What TXFNUM of GRSTCTL names: the non-periodic FIFO, the periodic one, or both.
const NONPERIODIC_FIFO: u32 = 0;

const PERIODIC_FIFO: u32 = 1;

const ALL_FIFOS: u32 = 16;

impl Controller {
    /// Writes a word at an offset. Where no register stands nothing changes.
    #[inline(always)]
    pub fn write(&mut self, off: u16, word: u32)
        ensures { self.new ≡ write_table self.old off word }
    {
        match place_at(off) {
            Some(place) => self.write_place(place, word),
            None => {}
        }
    }

    #[inline(always)]
    fn write_place(&mut self, place: Place, word: u32)
        ensures { self.new ≡ after_write self.old (register_of place) word }
    {
        match place {
            Place::Core(register) => self.write_core(register, word),
            Place::TxSize(x) => self.write_size(x, word),
            Place::Host(register) => self.write_host(register, word),
            Place::Channel(x, register) => self.write_channel(x, register, word),
            Place::Device(register) => self.write_device(register, word),
            Place::In(x, register) => self.write_in(x, register, word),
            Place::Out(x, register) => self.write_out(x, register, word),
            Place::Window(x) => self.write_window(x, word),
        }
    }

    #[inline(always)]
    fn write_core(&mut self, register: CoreRegister, word: u32)
        ensures { self.new ≡ after_write self.old (of_core register) word }
    {
        match register {
            CoreRegister::Reset => self.write_reset(word),
            CoreRegister::Interrupts => self.port.write_interrupts(word),
            CoreRegister::Mask => self.kept.gintmsk = word,
            CoreRegister::Status => {}
            CoreRegister::Pop => {}
            CoreRegister::RxSize => self.kept.grxfsiz = word,
            CoreRegister::TxSize => self.kept.dieptxf0 = word,
            CoreRegister::PeriodicSize => self.hptxfsiz = word,
        }
    }

    // GRSTCTL. RXFFLSH and TXFFLSH act and aren't kept.
    fn write_reset(&mut self, word: u32)
        ensures { self.new ≡ grstctl_written self.old word }
    {
        self.kept.grstctl = put_field(put_field(word, GRSTCTL_RXFFLSH, 0), GRSTCTL_TXFFLSH, 0);
        if flag(word, GRSTCTL_RXFFLSH) {
            self.flush_rx();
        }
        if flag(word, GRSTCTL_TXFFLSH) {
            self.flush_tx(get_field(word, GRSTCTL_TXFNUM));
        }
    }

    fn flush_rx(&mut self)
        ensures { self.new ≡ rx_flushed self.old true }
    {
        self.rx.flush();
    }

    fn flush_tx(&mut self, number: u32)
        ensures { self.new ≡ tx_flushed self.old true number }
    {
        if number == NONPERIODIC_FIFO || number == ALL_FIFOS {
            self.nonperiodic.flush();
        }
        if number == PERIODIC_FIFO || number == ALL_FIFOS {
            self.periodic.flush();
        }
    }

    fn write_size(&mut self, x: u8, word: u32)
        ensures { self.new ≡ after_write self.old (dieptxf x) word }
    {
        let index = (x as usize).saturating_sub(1);
        if index < self.kept.dieptxfs.len() {
            self.kept.dieptxfs[index] = word;
        }
    }

    fn write_host(&mut self, register: HostRegister, word: u32)
        ensures { self.new ≡ after_write self.old (of_host register) word }
    {
        match register {
            HostRegister::Configuration => self.hcfg = word,
            HostRegister::Interrupts => {}
            HostRegister::Mask => self.haintmsk = word,
            HostRegister::Port => self.port.write(word),
        }
    }

    #[inline(always)]
    fn write_channel(&mut self, x: u8, register: ChannelRegister, word: u32)
        ensures { self.new ≡ after_write self.old (of_channel x register) word }
    {
        match register {
            ChannelRegister::Control => self.write_channel_control(x, word),
            ChannelRegister::Interrupts => self.write_channel_interrupts(x, word),
            ChannelRegister::Mask => self.write_channel_mask(x, word),
            ChannelRegister::Size => self.write_channel_size(x, word),
        }
    }

    // CHDIS removes the channel's packet.
    fn write_channel_control(&mut self, x: u8, word: u32)
        ensures { self.new ≡ after_write self.old (hcchar x) word }
    {
        if flag(word, HCCHAR_CHDIS) {
            self.remove_packets(x);
        }
        self.write_channel_bits(x, word);
    }

    fn write_channel_bits(&mut self, x: u8, word: u32)
        ensures { self.new ≡ with_channel self.old x (channel_written (channel_at self.old x) word) }
    {
        if (x as usize) < self.channels.len() {
            self.channels[x as usize].write_control(word);
        }
    }

    fn write_channel_interrupts(&mut self, x: u8, word: u32)
        ensures { self.new ≡ after_write self.old (hcint x) word }
    {
        if (x as usize) < self.channels.len() {
            self.channels[x as usize].write_interrupts(word);
        }
    }

    fn write_channel_mask(&mut self, x: u8, word: u32)
        ensures { self.new ≡ after_write self.old (hcintmsk x) word }
    {
        if (x as usize) < self.channels.len() {
            self.channels[x as usize].write_mask(word);
        }
    }

    fn write_channel_size(&mut self, x: u8, word: u32)
        ensures { self.new ≡ after_write self.old (hctsiz x) word }
    {
        if (x as usize) < self.channels.len() {
            self.channels[x as usize].write_size(word);
        }
    }

    #[inline(always)]
    fn write_device(&mut self, register: DeviceRegister, word: u32)
        ensures { self.new ≡ after_write self.old (of_device register) word }
    {
        match register {
            DeviceRegister::Configuration => self.kept.dcfg = word,
            DeviceRegister::Control => self.kept.dctl = word,
            DeviceRegister::Status => {}
            DeviceRegister::InMask => self.kept.diepmsk = word,
            DeviceRegister::OutMask => self.kept.doepmsk = word,
            DeviceRegister::Interrupts => {}
            DeviceRegister::Mask => self.kept.daintmsk = word,
            DeviceRegister::EmptyMask => self.kept.diepempmsk = word,
        }
    }

    fn write_in(&mut self, x: u8, register: InRegister, word: u32)
        ensures { self.new ≡ after_write self.old (of_in x register) word }
    {
        if (x as usize) < self.ins.len() {
            match register {
                InRegister::Control => self.ins[x as usize].write_control(word),
                InRegister::Interrupts => self.ins[x as usize].write_interrupts(word),
                InRegister::Size => self.ins[x as usize].write_size(word),
                InRegister::Space => {}
            }
        }
    }

    fn write_out(&mut self, x: u8, register: OutRegister, word: u32)
        ensures { self.new ≡ after_write self.old (of_out x register) word }
    {
        if (x as usize) < self.outs.len() {
            match register {
                OutRegister::Control => self.outs[x as usize].write_control(word),
                OutRegister::Interrupts => self.outs[x as usize].write_interrupts(word),
                OutRegister::Size => self.outs[x as usize].write_size(word),
            }
        }
    }

    // A word goes to the FIFO of the channel's type. One that there isn't has all 0, so no packet of it begins.
    fn write_window(&mut self, x: u8, word: u32)
        ensures { self.new ≡ after_write self.old (fifo x) word }
    {
        match self.channels.get(x as usize) {
            Some(channel) => {
                if channel.is_periodic() {
                    push_word(&mut self.periodic, channel, x, word);
                } else if channel.is_nonperiodic() {
                    push_word(&mut self.nonperiodic, channel, x, word);
                }
            }
            None => push_word(&mut self.nonperiodic, &ChannelState::new(), x, word),
        }
    }
}
