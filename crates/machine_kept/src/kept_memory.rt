//! Registers and memory of the machine that is kept.

ghost use Rattle.std.specs.Prelude.{◌≡◌};
ghost use Rattle.machine_kept.specs.Kept.{register_shown, byte_shown, SetsRegister, Writes};

use crate::kept::Kept;
use rv32::instr::Five;

/// The number of the pc among those of the registers.
const PC: u64 = 32;

impl Kept {
    /// The value of a register; of the pc for 32, and 0 for a greater number.
    pub fn register(&self, number: u64) -> u64
        ensures { result ≡ register_shown number self.now }
    {
        if number < PC {
            return u64::from(self.state.read(Five::new(number as u8)));
        }
        if number == PC {
            u64::from(self.state.pc)
        } else {
            0
        }
    }

    /// Gives a register, or the pc, a value, modulo 2^32; a machine that had stopped goes on. Returns 0, or 1 where there is no such register.
    pub fn set_register(&mut self, number: u64, value: u64) -> u64
        ensures { SetsRegister number value self.old result self.new }
    {
        let value = (value % 0x1_0000_0000) as u32;
        if number < PC {
            self.state.write(Five::new(number as u8), value);
            self.stopped = None;
            return 0;
        }
        if number == PC {
            self.state.pc = value;
            self.stopped = None;
            return 0;
        }
        1
    }

    /// The byte at an address, 0 where the program can't read it.
    pub fn read(&self, address: u64) -> u64
        ensures { result ≡ byte_shown address self.now }
    {
        if address >= 0x1_0000_0000 {
            return 0;
        }
        match self.state.memory.load_byte(address as u32) {
            Some(byte) => u64::from(byte),
            None => 0,
        }
    }

    /// Writes a byte, modulo 256, where the program may write one; returns 1 where it was written, and 0 where not.
    pub fn write(&mut self, address: u64, byte: u64) -> u64
        ensures { Writes address byte self.old result self.new }
    {
        if address >= 0x1_0000_0000 {
            return 0;
        }
        if self
            .state
            .memory
            .store_byte(address as u32, (byte % 0x100) as u8)
        {
            1
        } else {
            0
        }
    }
}
