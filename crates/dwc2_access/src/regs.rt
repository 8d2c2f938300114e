ghost use Rattle.std.specs.Prelude.{◌≡◌, ◌≤◌};
ghost use Rattle.device_table.specs.Bank.{Bank, begun, bank_read, bank_write};
ghost use Rattle.device_table.specs.Read.{read_value};
ghost use Rattle.dwc2_access.specs.Registers.{IsRegister};

/// The registers and FIFO windows of one controller.
pub trait Regs {
    /// The controller's state, how many more accesses may be made, and those made since the last `begin`.
    ghost bank: { Self → Bank };

    /// Begins anew to count accesses: 400 more may be made, and none is listed. The controller's state stays.
    fn begin(&mut self)
        ensures { bank self.new ≡ begun (bank self.old) };

    /// Reads the register or FIFO window at an offset in bytes. There must be one, with a number of at most 11, and
    /// another access must be allowed. What is due on the bus comes behind the access.
    fn read(&mut self, off: u16) -> u32
        requires known { IsRegister off }
        requires spare { 1 ≤ (bank self.old).spare }
        ensures value { result ≡ read_value (bank self.old).table off }
        ensures access { bank self.new ≡ bank_read (bank self.old) off };

    /// Writes a word to the register or FIFO window at an offset in bytes. There must be one, with a number of at most
    /// 11, and another access must be allowed. What is due on the bus comes behind the access.
    fn write(&mut self, off: u16, value: u32)
        requires known { IsRegister off }
        requires spare { 1 ≤ (bank self.old).spare }
        ensures access { bank self.new ≡ bank_write (bank self.old) off value };
}
