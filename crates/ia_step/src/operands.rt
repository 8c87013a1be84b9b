//! Operands: registers, and places in memory.

ghost use Rattle.std.specs.Prelude.{◌≡◌, ◌≤◌, ◌<◌, ◌+◌, ◌*◌, ◌/◌, ◌%◌, ◌^◌, ℕ, is_some, IfNone, slice_index};
ghost use Rattle.machines.specs.Prelude.{Program, IsOperand, Core, place_of, address_in, byte_for, reads, puts, rights_of};
ghost use Rattle.machines.specs.Host.{Memory};
ghost use Rattle.ia_step.specs.Shown.{IsCore, Led};

use crate::parts::Parts;
use access::{load_little, store_little};
use ia_codec::Operand;

/// How many addresses there are.
const ADDRESSES: u64 = 0x1_0000_0000;

impl Parts {
    /// The address of an operand in memory, and 0 for a register.
    pub(crate) fn address(&self, of: Operand) -> u32
        requires { IsOperand of }
        ensures { (p : Program) (core : Core) → IsCore p self.now core
            → (size : ℕ) → result ≡ address_in (place_of size of core.regs) }
    {
        match of {
            Operand::Reg(_) => 0,
            Operand::Abs(displacement) => displacement,
            Operand::Base(base, displacement) => self.reg(base).wrapping_add(displacement),
            Operand::Pair(base, index, scale, displacement) => {
                let sum = u64::from(self.reg(base))
                    + u64::from(self.reg(index)) * (1 << scale)
                    + u64::from(displacement);
                (sum % ADDRESSES) as u32
            }
        }
    }

    /// The value of an operand of `size` bytes; of a register all of it. None where one of the bytes isn't held.
    pub(crate) fn read(&self, size: u8, from: Operand) -> Option<u32>
        requires size { size ≤ 4 }
        requires operand { IsOperand from }
        ensures { (p : Program) (core : Core) → IsCore p self.now core
            → result ≡ reads (rights_of p) core (place_of size from core.regs) }
    {
        match from {
            Operand::Reg(r) => Some(self.reg(r)),
            _ => load_little(&self.space, self.address(from), size),
        }
    }

    /// Puts a value into an operand of `size` bytes; into a register all of it. None, and nothing is changed, where one
    /// of the bytes may not be written.
    pub(crate) fn write(&mut self, size: u8, to: Operand, value: u32) -> Option<()>
        requires size { size ≤ 4 }
        requires operand { IsOperand to }
        ensures leads { (p : Program) (core : Core) → IsCore p self.old core
            → Led p (is_some result) self.new (puts (rights_of p) core (place_of size to core.regs) value) }
        ensures kept { IfNone result (self.new ≡ self.old) }
    {
        match to {
            Operand::Reg(r) => {
                self.regs[r as usize] = value;
                Some(())
            }
            _ => self.store(size, self.address(to), value),
        }
    }

    fn store(&mut self, size: u8, at: u32, value: u32) -> Option<()>
        requires { size ≤ 4 }
        ensures leads { (p : Program) (core : Core) → IsCore p self.old core
            → Led p (is_some result) self.new (puts (rights_of p) core (Memory size at) value) }
        ensures kept { IfNone result (self.new ≡ self.old) }
    {
        if store_little(&mut self.space, at, size, value) {
            Some(())
        } else {
            None
        }
    }

    /// The value of a register in which this byte is the lowest and the others are as they were; in memory the byte.
    pub(crate) fn with_byte(&self, to: Operand, byte: u8) -> u32
        requires { IsOperand to }
        ensures { (p : Program) (core : Core) → IsCore p self.now core → result ≡ byte_for to core byte }
    {
        match to {
            Operand::Reg(r) => self.reg(r) / 256 * 256 + u32::from(byte),
            _ => u32::from(byte),
        }
    }
}
