// What a write of each register changes.
ghost use Rattle.std.specs.Prelude.{◌≡◌, ◌≤◌, true, map, slice_set};
ghost use Rattle.dwc2_regs.specs.Register.{fifo, dieptxf};
ghost use Rattle.device_table.specs.State.{in_end, with_in, out_end, with_out};
ghost use Rattle.device_table.specs.Write.{cnak_acts, emptied, rx_flushed, tx_flushed, grstctl_written, after_write, write_table};
ghost use Rattle.dwc2_state.specs.Place.{register_of, of_core, of_host, of_device, of_channel, of_in, of_out};
ghost use Rattle.dwc2_state.specs.Ends.{in_written, out_written};

use crate::controller::Controller;
use dwc2_regs::{GRSTCTL_RXFFLSH, GRSTCTL_TXFFLSH, GRSTCTL_TXFNUM, get_field, put_field};
use dwc2_state::{
    ChannelRegister, CoreRegister, DeviceRegister, HostRegister, InEndpoint, InRegister,
    OutRegister, Place, flag, place_at,
};

/// TXFNUM of GRSTCTL names all transmit FIFOs.
const ALL_FIFOS: u32 = 16;

fn flush_each(ends: &mut [InEndpoint])
    ensures { ends.new ≡ map emptied ends.old }
{
    for end in ends {
        end.flush();
    }
}

impl Controller {
    /// Writes a word at an offset. Where no register stands nothing changes.
    #[inline(always)]
    pub fn write(&mut self, off: u16, word: u32)
        ensures { self.new ≡ write_table self.old off word }
    {
        match place_at(off) {
            Some(place) => self.write_place(place, word),
            None => {}
        }
    }

    #[inline(always)]
    fn write_place(&mut self, place: Place, word: u32)
        ensures { self.new ≡ after_write self.old (register_of place) word }
    {
        match place {
            Place::Core(register) => self.write_core(register, word),
            Place::TxSize(x) => self.write_size(x, word),
            Place::Host(register) => self.write_host(register, word),
            Place::Channel(x, register) => self.write_channel(x, register, word),
            Place::Device(register) => self.write_device(register, word),
            Place::In(x, register) => self.write_in(x, register, word),
            Place::Out(x, register) => self.write_out(x, register, word),
            Place::Window(x) => self.write_window(x, word),
        }
    }

    #[inline(always)]
    fn write_core(&mut self, register: CoreRegister, word: u32)
        ensures { self.new ≡ after_write self.old (of_core register) word }
    {
        match register {
            CoreRegister::Reset => self.write_reset(word),
            CoreRegister::Interrupts => self.core.write_interrupts(word),
            CoreRegister::Mask => self.kept.gintmsk = word,
            CoreRegister::Status => {}
            CoreRegister::Pop => {}
            CoreRegister::RxSize => self.kept.grxfsiz = word,
            CoreRegister::TxSize => self.kept.dieptxf0 = word,
            CoreRegister::PeriodicSize => self.host.hptxfsiz = word,
        }
    }

    // GRSTCTL. RXFFLSH and TXFFLSH act and aren't kept.
    fn write_reset(&mut self, word: u32)
        ensures { self.new ≡ grstctl_written self.old word }
    {
        self.kept.grstctl = put_field(put_field(word, GRSTCTL_RXFFLSH, 0), GRSTCTL_TXFFLSH, 0);
        if flag(word, GRSTCTL_RXFFLSH) {
            self.flush_rx();
        }
        if flag(word, GRSTCTL_TXFFLSH) {
            self.flush_tx(get_field(word, GRSTCTL_TXFNUM));
        }
    }

    fn flush_rx(&mut self)
        ensures { self.new ≡ rx_flushed self.old true }
    {
        self.rx.flush();
        self.setups = 0;
    }

    fn flush_tx(&mut self, number: u32)
        requires { number ≤ 31 }
        ensures { self.new ≡ tx_flushed self.old true number }
    {
        if number == ALL_FIFOS {
            self.in0.flush();
            flush_each(&mut self.ins);
        } else {
            self.flush_one(number as u8);
        }
    }

    fn flush_one(&mut self, x: u8)
        ensures { self.new ≡ with_in self.old x (emptied (in_end self.old x)) }
    {
        match x {
            0 => self.in0.flush(),
            _ if x as usize <= self.ins.len() => self.ins[x as usize - 1].flush(),
            _ => {}
        }
    }

    fn write_size(&mut self, x: u8, word: u32)
        ensures { self.new ≡ after_write self.old (dieptxf x) word }
    {
        let index = (x as usize).saturating_sub(1);
        if index < self.kept.dieptxfs.len() {
            self.kept.dieptxfs[index] = word;
        }
    }

    fn write_host(&mut self, register: HostRegister, word: u32)
        ensures { self.new ≡ after_write self.old (of_host register) word }
    {
        match register {
            HostRegister::Configuration => self.host.hcfg = word,
            HostRegister::Interrupts => {}
            HostRegister::Mask => self.host.haintmsk = word,
            HostRegister::Port => self.host.write_hprt(word),
        }
    }

    #[tactic(auto, using(crate::proofs::WriteLemmas::channel_written_is))]
    fn write_channel(&mut self, x: u8, register: ChannelRegister, word: u32)
        ensures { self.new ≡ after_write self.old (of_channel x register) word }
    {
        if (x as usize) < self.host.channels.len() {
            self.host.channels[x as usize].write(register, word);
        }
    }

    #[inline(always)]
    fn write_device(&mut self, register: DeviceRegister, word: u32)
        ensures { self.new ≡ after_write self.old (of_device register) word }
    {
        match register {
            DeviceRegister::Configuration => self.kept.dcfg = word,
            DeviceRegister::Control => self.kept.dctl = word,
            DeviceRegister::Status => {}
            DeviceRegister::InMask => self.kept.diepmsk = word,
            DeviceRegister::OutMask => self.kept.doepmsk = word,
            DeviceRegister::Interrupts => {}
            DeviceRegister::Mask => self.kept.daintmsk = word,
            DeviceRegister::EmptyMask => self.kept.diepempmsk = word,
        }
    }

    #[tactic(auto, using(crate::proofs::WriteLemmas::in_written_is))]
    #[inline(always)]
    fn write_in(&mut self, x: u8, register: InRegister, word: u32)
        ensures { self.new ≡ after_write self.old (of_in x register) word }
    {
        let acts = self.cnak_acts(x);
        self.write_in_end(x, acts, register, word);
    }

    #[inline(always)]
    fn write_in_end(&mut self, x: u8, acts: bool, register: InRegister, word: u32)
        ensures { self.new ≡ with_in self.old x (in_written x acts register word (in_end self.old x)) }
    {
        match x {
            0 => self.in0.write(0, acts, register, word),
            _ if x as usize <= self.ins.len() => {
                self.ins[x as usize - 1].write(x, acts, register, word);
            }
            _ => {}
        }
    }

    #[tactic(auto, using(crate::proofs::WriteLemmas::out_written_is))]
    #[inline(always)]
    fn write_out(&mut self, x: u8, register: OutRegister, word: u32)
        ensures { self.new ≡ after_write self.old (of_out x register) word }
    {
        let acts = self.cnak_acts(x);
        self.write_out_end(x, acts, register, word);
    }

    #[inline(always)]
    fn write_out_end(&mut self, x: u8, acts: bool, register: OutRegister, word: u32)
        ensures { self.new ≡ with_out self.old x (out_written acts register word (out_end self.old x)) }
    {
        match x {
            0 => self.out0.write(acts, register, word),
            _ if x as usize <= self.outs.len() => {
                self.outs[x as usize - 1].write(acts, register, word);
            }
            _ => {}
        }
    }

    #[inline(always)]
    fn write_window(&mut self, x: u8, word: u32)
        ensures { self.new ≡ after_write self.old (fifo x) word }
    {
        match x {
            0 => self.in0.push_word(0, word),
            _ if x as usize <= self.ins.len() => self.ins[x as usize - 1].push_word(x, word),
            _ => {}
        }
    }
}
