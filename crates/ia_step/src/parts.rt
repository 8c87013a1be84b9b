//! Registers, flags and memory.

ghost use Rattle.std.specs.Prelude.{◌≡◌, ◌<◌, ℕ, slice_index};
ghost use Rattle.machines.specs.Prelude.{Program, Core, update};
ghost use Rattle.ia_step.specs.Shown.{IsCore, with_reg};

use space::Space;

/// Carry, zero, sign and overflow.
#[derive(Clone, Copy)]
pub(crate) struct Flags {
    pub(crate) cf: bool,
    pub(crate) zf: bool,
    pub(crate) sf: bool,
    pub(crate) of: bool,
}

/// Registers by number, flags and memory.
#[derive(Drop)]
pub(crate) struct Parts {
    pub(crate) regs: [u32; 8],
    pub(crate) flags: Flags,
    pub(crate) space: Space,
}

impl Parts {
    pub(crate) fn reg(&self, r: u8) -> u32
        requires { r < 8 }
        ensures { result ≡ slice_index self.now.regs r }
    {
        self.regs[r as usize]
    }

    pub(crate) fn put_reg(&mut self, r: u8, value: u32)
        requires { r < 8 }
        ensures { (p : Program) (core : Core) → IsCore p self.old core
            → IsCore p self.new (with_reg core r value) }
    {
        self.regs[r as usize] = value;
    }
}
