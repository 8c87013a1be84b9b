//! The effect of an instruction in a state.

ghost use Rattle.std.specs.Prelude.{◌≡◌, true, false};
ghost use Rattle.machines.specs.Prelude.{Program, IsLegal, GuestValues, guest_row, Guest, effect_of};
ghost use Rattle.ppc_registers.specs.Held.{numbers};
ghost use Rattle.ppc_step.specs.Shown.{IsState, IsLoaded, told, is_load};

use crate::State;
use access::load_big;
use ppc_alu::effect;
use ppc_isa::Instr;
use ppc_parts::{Effect, GuestIn};
use word_kit::Plain;

// What an instruction makes of the values that it reads.
fn row(instr: &Instr, from: GuestIn<Plain>) -> Effect<Plain>
    requires { IsLegal instr.now }
    ensures { told result ≡ guest_row instr.now (numbers from) }
{
    match effect(&mut Plain, instr, &from) {
        Ok(made) => made,
        Err(_) => unreachable!(),
    }
}

impl State {
    /// The effect of an instruction that loads no number.
    pub(crate) fn effect(&self, instr: &Instr) -> Effect<Plain>
        requires legal { IsLegal instr.now }
        requires other { is_load instr.now ≡ false }
        ensures row { (v : GuestValues) × (told result ≡ guest_row instr.now v) }
        ensures effect { (p : Program) (g : Guest) → IsState p self.now g → told result ≡ effect_of instr.now g }
    {
        row(instr, self.registers.values(instr, 0))
    }

    /// The effect of a load, or None where a byte of what it loads isn't held. Where it loads doesn't depend on what it
    /// loads.
    pub(crate) fn loaded(&self, instr: &Instr) -> Option<Effect<Plain>>
        requires legal { IsLegal instr.now }
        requires load { is_load instr.now ≡ true }
        ensures { (p : Program) (g : Guest) → IsState p self.now g → IsLoaded p (effect_of instr.now g) result }
    {
        let access = row(instr, self.registers.values(instr, 0));
        let loaded = load_big(&self.memory, access.address, access.width)?;
        Some(row(instr, self.registers.values(instr, loaded)))
    }
}
