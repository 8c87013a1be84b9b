//! One step.

ghost use Rattle.std.specs.Prelude.{◌≡◌, ℕ, List, Option, drop, IfOk};
ghost use Rattle.std.specs.Result.{IfErr};
ghost use Rattle.machines.specs.Prelude.{Program, IsInProfile, IsOperand, rights_of, Fetched, ReadsOps, Host, place_of, reads, plain, jumps, jumps_to, divides, unary_acts, host_acts, host_machine, faults_on, choice_at};
ghost use Rattle.ia_step.specs.Shown.{IsState};
ghost use Rattle.machine_calls.specs.Phases.{IsEnd};
ghost use Rattle.ia_step.specs.Steps.{Fetches, IsDone, Leads};

use crate::choices::Choices;
use crate::parts::Parts;
use ia_codec::{Op, Operand, UnaryOp, decode};
use reg_map::EAX;
use space::{End, Event};

/// The most bytes of an op.
const LONGEST: usize = 12;

/// What a machine goes on from: registers, flags and memory, the address of the next op, and the choices of the steps
/// still to come.
#[derive(Drop)]
pub(crate) struct State {
    pub(crate) parts: Parts,
    pub(crate) eip: u32,
    pub(crate) choices: Choices,
}

impl State {
    // The next op, and the address behind it.
    fn fetch(&self) -> Result<(Op, u32), End>
        ensures profile { IfOk result (λ x. IsInProfile x.0) }
        ensures end { IfErr result IsEnd }
        ensures fetches { (ops : List ℕ → Option Fetched) → ReadsOps ops → (p : Program) (h : Host) → IsState p self.now h → Fetches ops p h result }
    {
        let Some(bytes) = self.parts.space.code_from(self.eip) else {
            return Err(End::Outside);
        };
        let Some((op, len)) = decode(&bytes[..bytes.len().min(LONGEST)]) else {
            return Err(End::Illegal);
        };
        Ok((op, self.eip.wrapping_add(len as u32)))
    }

    /// The op is done, and the next one stands at an address.
    pub(crate) fn go_on(&mut self, next: u32) -> Event
        ensures event { result ≡ Event.Went }
        ensures state { self.new ≡ record self.old { eip = next; choices = drop 1 self.old.choices } }
    {
        self.eip = next;
        self.choices.advance();
        Event::Went
    }

    // An op that is no jump and no call.
    fn plain(&mut self, op: Op, next: u32) -> Event
        requires { IsInProfile op }
        ensures leads { (p : Program) (h : Host) → IsState p self.old h → Leads p result self.new (plain (rights_of p) op next h) }
        ensures done { IsDone result self.old self.new }
    {
        let choice = self.choices.first();
        match self.parts.does(op, choice) {
            Some(()) => self.go_on(next),
            None => Event::Ended(End::Outside),
        }
    }

    // A jump is counted from the next op's address.
    fn jump(&mut self, op: Op, rel: u32, next: u32) -> Event
        requires { IsInProfile op }
        ensures leads { (p : Program) (h : Host) → IsState p self.old h → Leads p result self.new (jumps (rights_of p) op rel next h) }
        ensures done { IsDone result self.old self.new }
    {
        let choice = self.choices.first();
        if self.parts.effect(op, choice, 0, 0).holds {
            self.go_on(next.wrapping_add(rel))
        } else {
            self.go_on(next)
        }
    }

    fn jump_to(&mut self, to: Operand) -> Event
        requires { IsOperand to }
        ensures leads { (p : Program) (h : Host) → IsState p self.old h → Leads p result self.new (jumps_to (rights_of p) (reads (rights_of p) h.core (place_of 4 to h.core.regs)) h) }
        ensures done { IsDone result self.old self.new }
    {
        match self.parts.read(4, to) {
            Some(target) => self.go_on(target),
            None => Event::Ended(End::Outside),
        }
    }

    // Whether a division faults on its operand, which is read before.
    fn faults(&self, op: Op, on: Operand) -> bool
        requires profile { IsInProfile op }
        requires operand { IsOperand on }
        ensures { (p : Program) (h : Host) → IsState p self.now h
            → result ≡ faults_on (rights_of p) op (choice_at h.choices 0) h.core (reads (rights_of p) h.core (place_of 4 on h.core.regs)) }
    {
        match self.parts.read(4, on) {
            Some(y) => {
                let x = self.parts.reg(EAX);
                self.parts.effect(op, self.choices.first(), x, y).faults
            }
            None => false,
        }
    }

    // A division that faults ends the run.
    fn divide(&mut self, op: Op, on: Operand, next: u32) -> Event
        requires profile { IsInProfile op }
        requires operand { IsOperand on }
        ensures leads { (p : Program) (h : Host) → IsState p self.old h → Leads p result self.new (divides (rights_of p) op on next h) }
        ensures done { IsDone result self.old self.new }
    {
        if self.faults(op, on) {
            Event::Ended(End::DivideFault)
        } else {
            self.plain(op, next)
        }
    }

    fn unary(&mut self, single: UnaryOp, on: Operand, next: u32) -> Event
        requires { IsOperand on }
        ensures leads { (p : Program) (h : Host) → IsState p self.old h → Leads p result self.new (unary_acts (rights_of p) single on next h) }
        ensures done { IsDone result self.old self.new }
    {
        let op = Op::Unary { op: single, on };
        match single {
            UnaryOp::Div | UnaryOp::Idiv => self.divide(op, on, next),
            UnaryOp::Not | UnaryOp::Neg | UnaryOp::Mul | UnaryOp::Imul1 => self.plain(op, next),
        }
    }

    // What the machine does with an op, where the next one stands at `next`.
    fn act(&mut self, op: Op, next: u32) -> Event
        requires { IsInProfile op }
        ensures leads { (p : Program) (h : Host) → IsState p self.old h → Leads p result self.new (host_acts (rights_of p) op next h) }
        ensures done { IsDone result self.old self.new }
    {
        match op {
            Op::Unary { op: single, on } => self.unary(single, on, next),
            Op::Jcc { rel, .. } => self.jump(op, rel, next),
            Op::Jmp { rel } => self.jump(op, rel, next),
            Op::JmpTo { to } => self.jump_to(to),
            Op::Int80 => self.system_call(next),
            Op::Int3 => Event::Ended(End::Trap),
            Op::Ud2 => Event::Ended(End::Illegal),
            _ => self.plain(op, next),
        }
    }

    /// One step. An end changes nothing.
    pub(crate) fn step(&mut self) -> Event
        ensures leads { (ops : List ℕ → Option Fetched) → ReadsOps ops → (p : Program) (h : Host) → IsState p self.old h → Leads p result self.new (host_machine ops p h) }
        ensures done { IsDone result self.old self.new }
    {
        match self.fetch() {
            Ok((op, next)) => self.act(op, next),
            Err(end) => Event::Ended(end),
        }
    }
}
