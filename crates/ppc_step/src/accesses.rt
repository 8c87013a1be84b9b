//! Loads and stores.

ghost use Rattle.std.specs.Prelude.{◌≡◌, ◌<◌, ◌-◌, ◌*◌, true, false};
ghost use Rattle.machines.specs.Prelude.{Program, IsLegal, update, each_byte, load_big as big_number, store_big as big_stored, rights_of, Guest, effect_of, load_outcome, store_outcome, put_loaded, store_registers};
ghost use Rattle.ppc_step.specs.Shown.{IsState, is_load, is_store};
ghost use Rattle.ppc_step.specs.Steps.{Leads, IsDone};

use crate::State;
use access::{holds, load_big, store_big};
use ppc_isa::Instr;
use space::{End, Event};

impl State {
    /// A load into rD.
    pub(crate) fn load(&mut self, instr: &Instr, d: u8) -> Event
        requires legal { IsLegal instr.now }
        requires load { is_load instr.now ≡ true }
        requires register { d < 32 }
        ensures leads { (p : Program) (g : Guest) → IsState p self.old g → Leads p result self.new (load_outcome (rights_of p) (update g.locs d (effect_of instr.now g).d) (effect_of instr.now g) g) }
        ensures done { IsDone result self.old self.new }
    {
        let Some(effect) = self.loaded(instr) else {
            return Event::Ended(End::Outside);
        };
        self.registers.put_gpr(d, effect.d);
        self.go_on()
    }

    /// A load into rD with the address in rA.
    pub(crate) fn load_update(&mut self, instr: &Instr, d: u8, a: u8) -> Event
        requires legal { IsLegal instr.now }
        requires load { is_load instr.now ≡ true }
        requires d_in { d < 32 }
        requires a_in { a < 32 }
        ensures leads { (p : Program) (g : Guest) → IsState p self.old g
            → Leads p result self.new (load_outcome (rights_of p) (update (update g.locs d (effect_of instr.now g).d) a (effect_of instr.now g).a) (effect_of instr.now g) g) }
        ensures done { IsDone result self.old self.new }
    {
        let Some(effect) = self.loaded(instr) else {
            return Event::Ended(End::Outside);
        };
        self.registers.put_gpr(d, effect.d);
        self.registers.put_gpr(a, effect.a);
        self.go_on()
    }

    /// A store.
    pub(crate) fn store(&mut self, instr: &Instr) -> Event
        requires legal { IsLegal instr.now }
        requires store { is_store instr.now ≡ true }
        ensures leads { (p : Program) (g : Guest) → IsState p self.old g
            → Leads p result self.new (store_outcome (rights_of p) (big_stored (effect_of instr.now g).width (effect_of instr.now g).address (effect_of instr.now g).stored g.bytes) g.locs (effect_of instr.now g) g) }
        ensures done { IsDone result self.old self.new }
    {
        let effect = self.effect(instr);
        if !store_big(
            &mut self.memory,
            effect.address,
            effect.width,
            effect.stored,
        ) {
            return Event::Ended(End::Outside);
        }
        self.go_on()
    }

    /// A store with the address in rA.
    pub(crate) fn store_update(&mut self, instr: &Instr, a: u8) -> Event
        requires legal { IsLegal instr.now }
        requires store { is_store instr.now ≡ true }
        requires register { a < 32 }
        ensures leads { (p : Program) (g : Guest) → IsState p self.old g
            → Leads p result self.new (store_outcome (rights_of p) (big_stored (effect_of instr.now g).width (effect_of instr.now g).address (effect_of instr.now g).stored g.bytes) (update g.locs a (effect_of instr.now g).a) (effect_of instr.now g) g) }
        ensures done { IsDone result self.old self.new }
    {
        let effect = self.effect(instr);
        if !store_big(
            &mut self.memory,
            effect.address,
            effect.width,
            effect.stored,
        ) {
            return Event::Ended(End::Outside);
        }
        self.registers.put_gpr(a, effect.a);
        self.go_on()
    }

    /// lmw: the registers from `d` on, once all their bytes were found inside.
    pub(crate) fn load_multiple(&mut self, instr: &Instr, d: u8) -> Event
        requires legal { IsLegal instr.now }
        requires other { is_load instr.now ≡ false }
        requires register { d < 32 }
        ensures leads { (p : Program) (g : Guest) → IsState p self.old g
            → (effect_of instr.now g).width ≡ 4 * (32 - d)
            → Leads p result self.new (load_outcome (rights_of p) (put_loaded d (effect_of instr.now g).address g.bytes g.locs) (effect_of instr.now g) g) }
        ensures done { IsDone result self.old self.new }
    {
        let effect = self.effect(instr);
        if !holds(&self.memory, effect.address, u32::from(effect.width), false) {
            return Event::Ended(End::Outside);
        }
        self.load_words(d, effect.address);
        self.go_on()
    }

    /// stmw: the registers from `s` on, once all their bytes were found inside.
    pub(crate) fn store_multiple(&mut self, instr: &Instr, s: u8) -> Event
        requires legal { IsLegal instr.now }
        requires other { is_load instr.now ≡ false }
        requires register { s < 32 }
        ensures leads { (p : Program) (g : Guest) → IsState p self.old g
            → (effect_of instr.now g).width ≡ 4 * (32 - s)
            → Leads p result self.new (store_outcome (rights_of p) (store_registers (32 - s) s (effect_of instr.now g).address g.locs g.bytes) g.locs (effect_of instr.now g) g) }
        ensures done { IsDone result self.old self.new }
    {
        let effect = self.effect(instr);
        if !holds(&self.memory, effect.address, u32::from(effect.width), true) {
            return Event::Ended(End::Outside);
        }
        self.store_words(s, effect.address);
        self.go_on()
    }

    // Loads a register with the word at an address, which is inside.
    fn load_word(&mut self, x: u8, at: u32)
        requires { x < 32 }
        ensures { (p : Program) (g : Guest) → IsState p self.old g → each_byte (rights_of p).held 4 at ≡ true
            → IsState p self.new (record g { locs = update g.locs x (big_number 4 at g.bytes) }) }
    {
        match load_big(&self.memory, at, 4) {
            Some(word) => self.registers.put_gpr(x, word),
            None => {}
        }
    }

    // Puts a register at an address, where that may be written.
    fn store_word(&mut self, x: u8, at: u32)
        requires { x < 32 }
        ensures { (p : Program) (g : Guest) → IsState p self.old g → each_byte (rights_of p).writable 4 at ≡ true
            → IsState p self.new (record g { bytes = big_stored 4 at (g.locs x) g.bytes }) }
    {
        let word = self.registers.gpr(x);
        store_big(&mut self.memory, at, 4, word);
    }

    // Loads the registers from `d` on with the words from an address on, each of which is inside.
    fn load_words(&mut self, d: u8, at: u32)
        requires { d < 32 }
        ensures { (p : Program) (g : Guest) → IsState p self.old g → each_byte (rights_of p).held (4 * (32 - d)) at ≡ true
            → IsState p self.new (record g { locs = put_loaded d at g.bytes g.locs }) }
    {
        let mut address = at;
        for x in d..32 {
            self.load_word(x, address);
            address = address.wrapping_add(4);
        }
    }

    // Puts the registers from `s` on at an address and behind it, where all may be written.
    fn store_words(&mut self, s: u8, at: u32)
        requires { s < 32 }
        ensures { (p : Program) (g : Guest) → IsState p self.old g → each_byte (rights_of p).writable (4 * (32 - s)) at ≡ true
            → IsState p self.new (record g { bytes = store_registers (32 - s) s at g.locs g.bytes }) }
    {
        let mut address = at;
        for x in s..32 {
            self.store_word(x, address);
            address = address.wrapping_add(4);
        }
    }
}
