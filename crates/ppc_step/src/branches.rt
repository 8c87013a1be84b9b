//! Branches and traps.

ghost use Rattle.std.specs.Prelude.{◌≡◌, ◌<◌, ◌+◌, ◌%◌, ◌^◌, ℕ, true, false, cond};
ghost use Rattle.machines.specs.Prelude.{Trap as Trapped, Program, Goes, Ends, IsLegal, update, Guest, effect_of, at_next, branches, linked, branch_target, register_target};
ghost use Rattle.ppc_registers.specs.Held.{locs_of};
ghost use Rattle.ppc_step.specs.Shown.{IsState, is_load};
ghost use Rattle.ppc_step.specs.Steps.{Leads, IsDone};

use crate::State;
use ppc_isa::{BranchRegisterOp, Instr};
use ppc_registers::Registers;
use space::{End, Event};

/// The field of a branch with two zeros behind it, read as signed: b.
fn displacement(field: u32) -> u32
    requires { field < 2 ^ 24 }
    ensures { (at : ℕ) → result ≡ branch_target 24 field true at }
{
    if field < 0x80_0000 {
        field * 4
    } else {
        field * 4 + 0xFC00_0000
    }
}

/// The same of a conditional branch.
fn short_displacement(field: u16) -> u32
    requires { field < 2 ^ 14 }
    ensures { (at : ℕ) → result ≡ branch_target 14 field true at }
{
    if field < 0x2000 {
        u32::from(field) * 4
    } else {
        u32::from(field) * 4 + 0xFFFF_0000
    }
}

fn target(at: u32, displacement: u32, absolute: bool) -> u32
    ensures { result ≡ cond absolute displacement ((at + displacement) % 2 ^ 32) }
{
    if absolute {
        displacement
    } else {
        at.wrapping_add(displacement)
    }
}

fn next_of(taken: bool, target: u32, behind: u32) -> u32
    ensures { result ≡ cond taken target behind }
{
    if taken { target } else { behind }
}

// Where bclr and bcctr go.
fn register_target(op: BranchRegisterOp, registers: &Registers) -> u32
    ensures { result ≡ register_target op (locs_of registers.now) }
{
    match op {
        BranchRegisterOp::Bclr => registers.lr() / 4 * 4,
        BranchRegisterOp::Bcctr => registers.ctr() / 4 * 4,
    }
}

impl State {
    // Puts LR where that is asked, and goes on at the target where the branch is taken.
    fn jump(&mut self, link: bool, taken: bool, target: u32) -> Event
        ensures event { result ≡ Event.Went }
        ensures state { (p : Program) (g : Guest) → IsState p self.old g → IsState p self.new (branches (linked link g.next g.locs) taken target g) }
    {
        let behind = self.behind();
        self.registers.put_lr(link, behind);
        self.next = next_of(taken, target, behind);
        Event::Went
    }

    /// b.
    pub(crate) fn branch(&mut self, instr: &Instr, field: u32, absolute: bool, link: bool) -> Event
        requires legal { IsLegal instr.now }
        requires other { is_load instr.now ≡ false }
        requires fits { field < 2 ^ 24 }
        ensures event { result ≡ Event.Went }
        ensures state { (p : Program) (g : Guest) → IsState p self.old g
            → IsState p self.new (branches (linked link g.next g.locs) (effect_of instr.now g).taken (branch_target 24 field absolute g.next) g) }
    {
        let effect = self.effect(instr);
        let target = target(self.next, displacement(field), absolute);
        self.jump(link, effect.taken, target)
    }

    /// bc.
    pub(crate) fn branch_conditional(
        &mut self,
        instr: &Instr,
        field: u16,
        absolute: bool,
        link: bool,
    ) -> Event
        requires legal { IsLegal instr.now }
        requires other { is_load instr.now ≡ false }
        requires fits { field < 2 ^ 14 }
        ensures event { result ≡ Event.Went }
        ensures state { (p : Program) (g : Guest) → IsState p self.old g
            → IsState p self.new (branches (linked link g.next (update g.locs 33 (effect_of instr.now g).ctr)) (effect_of instr.now g).taken (branch_target 14 field absolute g.next) g) }
    {
        let effect = self.effect(instr);
        let target = target(self.next, short_displacement(field), absolute);
        self.registers.put_ctr(effect.ctr);
        self.jump(link, effect.taken, target)
    }

    /// bclr and bcctr, whose target is read before LR is written.
    pub(crate) fn branch_register(
        &mut self,
        instr: &Instr,
        op: BranchRegisterOp,
        link: bool,
    ) -> Event
        requires legal { IsLegal instr.now }
        requires other { is_load instr.now ≡ false }
        ensures event { result ≡ Event.Went }
        ensures state { (p : Program) (g : Guest) → IsState p self.old g
            → IsState p self.new (branches (linked link g.next (update g.locs 33 (effect_of instr.now g).ctr)) (effect_of instr.now g).taken (register_target op g.locs) g) }
    {
        let effect = self.effect(instr);
        let target = register_target(op, &self.registers);
        self.registers.put_ctr(effect.ctr);
        self.jump(link, effect.taken, target)
    }

    /// tw and twi.
    pub(crate) fn trap(&mut self, instr: &Instr) -> Event
        requires legal { IsLegal instr.now }
        requires other { is_load instr.now ≡ false }
        ensures leads { (p : Program) (g : Guest) → IsState p self.old g → Leads p result self.new (cond (effect_of instr.now g).taken (Ends Trapped) (Goes (at_next g.locs g))) }
        ensures done { IsDone result self.old self.new }
    {
        if self.effect(instr).taken {
            return Event::Ended(End::Trap);
        }
        self.go_on()
    }
}
