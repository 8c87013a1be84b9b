//! The registers.

ghost use Rattle.std.specs.Prelude.{◌≡◌, ◌<◌, ◌%◌, ◌/◌, ℕ, cond, slice_index};
ghost use Rattle.machines.specs.Prelude.{update, cr_word, xer_word, put_cr, put_xer, stack_start, without_so, with_so};
ghost use Rattle.ppc_registers.specs.Held.{locs_of};

use std::marker::Model;

/// Where r1 stands at the start: 64 bytes below the end of the stack.
const STACK_START: u32 = 0x7F0F_FFC0;

/// SO of CR's first field.
const FIRST_SO: u32 = 1 << 28;

/// CA of XER. OV and SO stand above it.
const CA: u32 = 1 << 29;

/// The bits of XER's count are below this one.
const COUNT: u32 = 1 << 7;

/// The GPRs, LR and CTR, CR as a word with its first field in the highest bits, and XER as a word with SO, OV and CA in its
/// highest bits and the count in the lowest seven; its other bits are 0 (Power ISA Book I, 2.3 and 3.2). Contracts see
/// them as the values of the locations by number.
#[derive(Drop)]
pub struct Registers {
    pub(crate) gprs: [u32; 32],
    pub(crate) lr: u32,
    pub(crate) ctr: u32,
    pub(crate) cr: u32,
    pub(crate) xer: u32,
}

impl Model for Registers {
    ghost use Rattle.std.specs.Prelude.{ℕ, List};
    ghost use Rattle.ppc_registers.specs.Held.{values_of_all, HasNoMore};

    ghost Value = { List ℕ };

    ghost view = { λ r. values_of_all r };

    ghost invariant = { λ r. HasNoMore r };
}

impl Registers {
    /// Before the first step: r1 points into the stack, and all else is 0.
    pub fn at_start() -> Registers
        ensures { locs_of result ≡ update (λ x. 0) 1 stack_start }
    {
        let mut registers = Registers {
            gprs: [0; 32],
            lr: 0,
            ctr: 0,
            cr: 0,
            xer: 0,
        };
        registers.put_gpr(1, STACK_START);
        registers
    }

    /// The value of GPR `g`.
    pub fn gpr(&self, g: u8) -> u32
        requires { g < 32 }
        ensures { result ≡ locs_of self.now g }
    {
        self.gprs[usize::from(g)]
    }

    pub fn lr(&self) -> u32
        ensures { result ≡ locs_of self.now 32 }
    {
        self.lr
    }

    pub fn ctr(&self) -> u32
        ensures { result ≡ locs_of self.now 33 }
    {
        self.ctr
    }

    /// CR as a word.
    pub(crate) fn cr(&self) -> u32
        ensures { result ≡ cr_word (locs_of self.now) }
    {
        self.cr
    }

    /// XER as a word.
    pub(crate) fn xer(&self) -> u32
        ensures { result ≡ xer_word (locs_of self.now) }
    {
        self.xer
    }

    pub fn put_gpr(&mut self, g: u8, value: u32)
        requires { g < 32 }
        ensures { locs_of self.new ≡ update (locs_of self.old) g value }
    {
        self.gprs[usize::from(g)] = value;
    }

    /// Puts LR, if that is asked.
    pub fn put_lr(&mut self, asked: bool, value: u32)
        ensures { locs_of self.new ≡ cond asked (update (locs_of self.old) 32 value) (locs_of self.old) }
    {
        if asked {
            self.lr = value;
        }
    }

    pub fn put_ctr(&mut self, value: u32)
        ensures { locs_of self.new ≡ update (locs_of self.old) 33 value }
    {
        self.ctr = value;
    }

    /// Puts CR, if that is asked.
    pub fn put_cr(&mut self, asked: bool, cr: u32)
        ensures { locs_of self.new ≡ cond asked (put_cr cr (locs_of self.old)) (locs_of self.old) }
    {
        if asked {
            self.cr = cr;
        }
    }

    /// Puts SO, OV, CA and the count of XER, if that is asked.
    pub fn put_xer(&mut self, asked: bool, xer: u32)
        ensures { locs_of self.new ≡ cond asked (put_xer xer (locs_of self.old)) (locs_of self.old) }
    {
        if asked {
            self.xer = xer / CA * CA + xer % COUNT;
        }
    }

    /// Clears SO of CR's first field.
    pub fn clear_so(&mut self)
        ensures { locs_of self.new ≡ update (locs_of self.old) 34 (without_so (locs_of self.old 34)) }
    {
        self.cr = self.cr / (2 * FIRST_SO) * (2 * FIRST_SO) + self.cr % FIRST_SO;
    }

    /// Sets SO of CR's first field.
    pub fn set_so(&mut self)
        ensures { locs_of self.new ≡ update (locs_of self.old) 34 (with_so (locs_of self.old 34)) }
    {
        self.cr = self.cr / (2 * FIRST_SO) * (2 * FIRST_SO) + FIRST_SO + self.cr % FIRST_SO;
    }
}
