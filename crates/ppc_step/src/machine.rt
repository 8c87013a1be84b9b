//! The machine.

ghost use Rattle.std.specs.Prelude.{◌≡◌, ◌<◌, ℕ, Option, IfOk};
ghost use Rattle.machines.specs.Prelude.{End as Ending, Program as OfProgram, ListedCall, AnswerValue, answer_value, Outcome, Goes, Asks, Instr, ReadsWords, Guest, guest_machine, guest_start};
ghost use Rattle.space.specs.Memory.{AreApart};
ghost use Rattle.access.specs.Kept.{HasClosedCode};
ghost use Rattle.ppc_registers.specs.Held.{locs_of};
ghost use Rattle.machine_calls.specs.Phases.{IsWaiting, Tells, stepped};
ghost use Rattle.ppc_step.specs.Steps.{Shows, IsTold};

use crate::State;
use access::{first_memory, own_memory};
use machine_calls::{Phase, phase_after};
use ppc_registers::Registers;
use space::{Answer, Event, Program, Space};
use std::alloc::Global;
use std::marker::Model;
use word_kit::NoMemory;

/// A PowerPC machine that runs a program.
#[derive(Drop)]
pub struct Machine {
    state: State,
    phase: Phase,
}

impl Model for Machine {
    ghost use Rattle.machine_calls.specs.Phases.{IsReady};
    ghost use Rattle.ppc_step.specs.Steps.{Seen};

    ghost Value = { Seen };

    ghost view = { λ m. record { state = m.state; phase = m.phase } };

    ghost invariant = { λ m. IsReady m.phase m.state.memory };
}

impl Machine {
    /// The machine before its first step. No two segments of the program share an address, and its code may not be
    /// written, as in every program that a file gives.
    pub fn boot(alloc: Global, program: &Program) -> Result<Machine, NoMemory>
        requires apart { AreApart program.now.segments }
        requires closed { HasClosedCode program.now }
        ensures { IfOk result (λ machine. Shows program.now machine (Goes (guest_start program.now))) }
    {
        Ok(Machine {
            state: State {
                registers: Registers::at_start(),
                next: program.entry,
                memory: first_memory(alloc, program)?,
            },
            phase: Phase::Going,
        })
    }

    /// The same machine, whose memory is the program's own. Takes no memory.
    pub fn start(program: Program) -> Machine
        requires apart { AreApart program.segments }
        requires closed { HasClosedCode program }
        ensures { Shows program result (Goes (guest_start program)) }
    {
        Machine {
            state: State {
                registers: Registers::at_start(),
                next: program.entry,
                memory: own_memory(program),
            },
            phase: Phase::Going,
        }
    }

    /// One step, which takes no memory. No call waits for its answer. Behind an end, each step answers the same end and
    /// changes nothing.
    pub fn step(&mut self) -> Event
        requires { IsWaiting self.old.phase → ⊥ }
        ensures shows { (words : ℕ → Option Instr) → ReadsWords words → (p : OfProgram) (o : Outcome Guest) → Shows p self.old o → Shows p self.new (stepped (guest_machine words p) o) }
        ensures tells { (words : ℕ → Option Instr) → ReadsWords words → (p : OfProgram) (o : Outcome Guest) → Shows p self.old o → Tells result (stepped (guest_machine words p) o) }
        ensures told { IsTold result self.old self.new }
        ensures over { (e : Ending) → self.old.phase ≡ Phase.Over e → (result ≡ Event.Ended e) × (self.new ≡ self.old) }
    {
        match self.phase {
            Phase::Going => {
                let event = self.state.step();
                self.phase = phase_after(event);
                event
            }
            Phase::Over(end) => Event::Ended(end),
            Phase::Waiting(_) => unreachable!(),
        }
    }

    /// Answers the call that waits, and takes no memory.
    pub fn answer(&mut self, answer: Answer<'_>)
        requires { IsWaiting self.old.phase }
        ensures going { self.new.phase ≡ Phase.Going }
        ensures shows { (p : OfProgram) (call : ListedCall) (next : AnswerValue → Guest) → Shows p self.old (Asks call next) → Shows p self.new (Goes (next (answer_value answer.entry))) }
    {
        match self.phase {
            Phase::Waiting(call) => {
                self.state.resume(&call, answer);
                self.phase = Phase::Going;
            }
            Phase::Going | Phase::Over(_) => unreachable!(),
        }
    }

    /// The memory as it stands.
    pub fn space(&self) -> &Space
        ensures { result.now ≡ self.now.state.memory }
    {
        &self.state.memory
    }

    /// The value of GPR `g`, which is that of the run where the machine goes on.
    pub fn gpr(&self, g: u8) -> u32
        requires { g < 32 }
        ensures kept { result ≡ locs_of self.now.state.registers g }
        ensures run { (p : OfProgram) (s : Guest) → Shows p self.now (Goes s) → result ≡ s.locs g }
    {
        self.state.registers.gpr(g)
    }
}
