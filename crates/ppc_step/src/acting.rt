//! One instruction.

ghost use Rattle.std.specs.Prelude.{◌≡◌, ℕ, Option};
ghost use Rattle.machines.specs.Prelude.{Program, Instr as Instruction, IsLegal, rights_of, ReadsWords, Guest, effect_of, guest_acts, guest_machine};
ghost use Rattle.ppc_step.specs.Shown.{IsState};
ghost use Rattle.ppc_step.specs.Steps.{IsDone, Leads};

use crate::State;
use crate::forms::{
    Form, PLAIN, arithmetic_form, arithmetic_unary_form, immediate_form, logic_form,
    logic_immediate_form,
};
use ppc_isa::{Instr, MultipleOp, decode};
use space::{End, Event};

impl State {
    // What the machine does with a legal instruction.
    fn act(&mut self, instr: &Instr) -> Event
        requires { IsLegal instr.now }
        ensures leads { (p : Program) (g : Guest) → IsState p self.old g → Leads p result self.new (guest_acts (rights_of p) instr.now (effect_of instr.now g) g) }
        ensures done { IsDone result self.old self.new }
    {
        match *instr {
            Instr::Immediate { op, d, .. } => self.give_d(instr, immediate_form(op), d),
            Instr::LogicImmediate { op, a, .. } => self.give_a(instr, logic_immediate_form(op), a),
            Instr::Load { d, .. } => self.load(instr, d),
            Instr::Store { .. } => self.store(instr),
            Instr::LoadUpdate { d, a, .. } => self.load_update(instr, d, a),
            Instr::StoreUpdate { a, .. } => self.store_update(instr, a),
            Instr::Multiple { op, d, .. } => match op {
                MultipleOp::Lmw => self.load_multiple(instr, d),
                MultipleOp::Stmw => self.store_multiple(instr, d),
            },
            Instr::TrapImmediate { .. } => self.trap(instr),
            Instr::CompareImmediate { .. } => self.give_cr(instr),
            Instr::Rotate { a, records, .. } => self.give_a(
                instr,
                Form {
                    carries: false,
                    records,
                },
                a,
            ),
            Instr::Branch {
                target,
                absolute,
                link,
            } => self.branch(instr, target, absolute, link),
            Instr::BranchConditional {
                target,
                absolute,
                link,
                ..
            } => { self.branch_conditional(instr, target, absolute, link) }
            Instr::SystemCall => self.system_call(),
            Instr::Arithmetic { op, d, records, .. } => self.give_d(
                instr,
                arithmetic_form(op, records),
                d,
            ),
            Instr::ArithmeticUnary { op, d, records, .. } => self.give_d(
                instr,
                arithmetic_unary_form(op, records),
                d,
            ),
            Instr::Logic { op, a, records, .. } => self.give_a(instr, logic_form(op, records), a),
            Instr::ShiftImmediate { a, records, .. } => self.give_a(
                instr,
                Form {
                    carries: true,
                    records,
                },
                a,
            ),
            Instr::LogicUnary { a, records, .. } => self.give_a(
                instr,
                Form {
                    carries: false,
                    records,
                },
                a,
            ),
            Instr::Compare { .. } => self.give_cr(instr),
            Instr::Trap { .. } => self.trap(instr),
            Instr::MoveFromCr { d } => self.give_d(instr, PLAIN, d),
            Instr::MoveToCr { .. } => self.give_cr(instr),
            Instr::MoveFromSpr { d, .. } => self.give_d(instr, PLAIN, d),
            Instr::MoveToSpr { spr, .. } => self.give_special(instr, spr),
            Instr::Sync | Instr::Isync => self.go_on(),
            Instr::LoadIndexed { d, .. } => self.load(instr, d),
            Instr::StoreIndexed { .. } => self.store(instr),
            Instr::LoadIndexedUpdate { d, a, .. } => self.load_update(instr, d, a),
            Instr::StoreIndexedUpdate { a, .. } => self.store_update(instr, a),
            Instr::MoveCrField { .. } => self.give_cr(instr),
            Instr::CrLogic { .. } => self.give_cr(instr),
            Instr::BranchRegister { op, link, .. } => self.branch_register(instr, op, link),
        }
    }

    /// One step. An end changes nothing.
    pub(crate) fn step(&mut self) -> Event
        ensures leads { (words : ℕ → Option Instruction) → ReadsWords words → (p : Program) (g : Guest) → IsState p self.old g → Leads p result self.new (guest_machine words p g) }
        ensures done { IsDone result self.old self.new }
    {
        let Some(word) = self.memory.fetch(self.next) else {
            return Event::Ended(End::Outside);
        };
        match decode(word) {
            Some(instr) => self.act(&instr),
            None => Event::Ended(End::Illegal),
        }
    }
}
