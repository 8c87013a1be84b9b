//! Instructions that change registers alone.

ghost use Rattle.std.specs.Prelude.{◌≡◌, ◌<◌, ℕ, false};
ghost use Rattle.machines.specs.Prelude.{Program, IsLegal, Guest, effect_of, at_next, results, put_cr, put_special};
ghost use Rattle.ppc_registers.specs.Held.{locs_of};
ghost use Rattle.ppc_step.specs.Shown.{IsState, told, is_load};

use crate::State;
use crate::forms::Form;
use ppc_isa::Instr;
use ppc_parts::Effect;
use ppc_registers::Registers;
use space::Event;
use word_kit::Plain;

// One result, and what the form puts beside it.
fn put_results(registers: &mut Registers, form: Form, x: u8, value: u32, effect: &Effect<Plain>)
    requires { x < 32 }
    ensures { locs_of registers.new ≡ results form.carries form.records x value (told effect.now) (locs_of registers.old) }
{
    registers.put_gpr(x, value);
    registers.put_cr(form.records, effect.cr);
    registers.put_xer(form.carries, effect.xer);
}

// Puts the special register of this number.
fn put_special(registers: &mut Registers, spr: u16, effect: &Effect<Plain>)
    ensures { locs_of registers.new ≡ put_special spr (told effect.now) (locs_of registers.old) }
{
    match spr {
        1 => registers.put_xer(true, effect.xer),
        8 => registers.put_lr(true, effect.lr),
        _ => registers.put_ctr(effect.ctr),
    }
}

impl State {
    /// An instruction with its result in rD.
    pub(crate) fn give_d(&mut self, instr: &Instr, form: Form, d: u8) -> Event
        requires legal { IsLegal instr.now }
        requires other { is_load instr.now ≡ false }
        requires register { d < 32 }
        ensures event { result ≡ Event.Went }
        ensures state { (p : Program) (g : Guest) → IsState p self.old g
            → IsState p self.new (at_next (results form.carries form.records d (effect_of instr.now g).d (effect_of instr.now g) g.locs) g) }
    {
        let effect = self.effect(instr);
        put_results(&mut self.registers, form, d, effect.d, &effect);
        self.go_on()
    }

    /// An instruction with its result in rA.
    pub(crate) fn give_a(&mut self, instr: &Instr, form: Form, a: u8) -> Event
        requires legal { IsLegal instr.now }
        requires other { is_load instr.now ≡ false }
        requires register { a < 32 }
        ensures event { result ≡ Event.Went }
        ensures state { (p : Program) (g : Guest) → IsState p self.old g
            → IsState p self.new (at_next (results form.carries form.records a (effect_of instr.now g).a (effect_of instr.now g) g.locs) g) }
    {
        let effect = self.effect(instr);
        put_results(&mut self.registers, form, a, effect.a, &effect);
        self.go_on()
    }

    /// An instruction whose result is CR.
    pub(crate) fn give_cr(&mut self, instr: &Instr) -> Event
        requires legal { IsLegal instr.now }
        requires other { is_load instr.now ≡ false }
        ensures event { result ≡ Event.Went }
        ensures state { (p : Program) (g : Guest) → IsState p self.old g → IsState p self.new (at_next (put_cr (effect_of instr.now g).cr g.locs) g) }
    {
        let effect = self.effect(instr);
        self.registers.put_cr(true, effect.cr);
        self.go_on()
    }

    /// mtspr.
    pub(crate) fn give_special(&mut self, instr: &Instr, spr: u16) -> Event
        requires legal { IsLegal instr.now }
        requires other { is_load instr.now ≡ false }
        ensures event { result ≡ Event.Went }
        ensures state { (p : Program) (g : Guest) → IsState p self.old g → IsState p self.new (at_next (put_special spr (effect_of instr.now g) g.locs) g) }
    {
        let effect = self.effect(instr);
        put_special(&mut self.registers, spr, &effect);
        self.go_on()
    }
}
