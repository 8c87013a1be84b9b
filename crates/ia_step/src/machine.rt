//! The machine.

ghost use Rattle.std.specs.Prelude.{◌≡◌, ℕ, List, Option, map, IfOk, slice_index};
ghost use Rattle.machines.specs.Prelude.{End as Ending, Program as OfProgram, ListedCall, AnswerValue, answer_value, Outcome, Goes, Asks, IsReg, first_bytes, Fetched, ReadsOps, Host, host_machine, host_start};
ghost use Rattle.space.specs.Memory.{AreApart};
ghost use Rattle.access.specs.Kept.{HasClosedCode, Keeps};
ghost use Rattle.ia_step.specs.Values.{choice_of};
ghost use Rattle.machine_calls.specs.Phases.{IsWaiting, Tells, stepped};
ghost use Rattle.ia_step.specs.Steps.{Shows, IsTold, memory_of};

use crate::choices::{Choice, Choices};
use crate::parts::{Flags, Parts};
use crate::state::State;
use access::{first_memory, own_memory};
use machine_calls::{Phase, phase_after};
use space::{Answer, Event, Program, Space};
use std::alloc::Global;
use std::marker::Model;
use word_kit::NoMemory;

/// An IA-32 machine that runs a program.
#[derive(Drop)]
pub struct Machine {
    state: State,
    phase: Phase,
}

impl Model for Machine {
    ghost use Rattle.machine_calls.specs.Phases.{IsReady};
    ghost use Rattle.ia_step.specs.Steps.{Seen};

    ghost Value = { Seen };

    ghost view = { λ m. record { state = m.state; phase = m.phase } };

    ghost invariant = { λ m. IsReady m.phase m.state.parts.space };
}

impl Machine {
    // The machine that starts with this memory, at this address.
    fn at_start(space: Space, entry: u32, choices: Vec<Choice>) -> Machine
        ensures { (p : OfProgram) → Keeps p (first_bytes p.segments) space → p.entry ≡ entry
            → Shows p result (Goes (host_start p (map choice_of choices.items))) }
    {
        let mut choices = Choices::from_start(choices);
        let regs = [
            choices.next_word(),
            choices.next_word(),
            choices.next_word(),
            choices.next_word(),
            choices.next_word(),
            choices.next_word(),
            choices.next_word(),
            choices.next_word(),
        ];
        let flags = choices.first().flags();
        choices.advance();
        Machine {
            state: State {
                parts: Parts { regs, flags, space },
                eip: entry,
                choices,
            },
            phase: Phase::Going,
        }
    }

    /// The machine before its first step. Choices 0 to 7 are the registers by number, the flags of choice 8 the flags,
    /// and choice 9 + k serves step k. Past the list's end each is 0. No two segments share an address, and the code may not
    /// be written. NoMemory comes where there is none for the bytes of the segments.
    pub fn boot(alloc: Global, program: &Program, choices: Vec<Choice>) -> Result<Machine, NoMemory>
        requires apart { AreApart program.now.segments }
        requires closed { HasClosedCode program.now }
        ensures { IfOk result (λ machine. Shows program.now machine (Goes (host_start program.now (map choice_of choices.items)))) }
    {
        let space = first_memory(alloc, program)?;
        Ok(Machine::at_start(space, program.entry, choices))
    }

    /// The same machine, whose memory is the program's own. Takes no memory.
    pub fn start(program: Program, choices: Vec<Choice>) -> Machine
        requires apart { AreApart program.segments }
        requires closed { HasClosedCode program }
        ensures { Shows program result (Goes (host_start program (map choice_of choices.items))) }
    {
        let entry = program.entry;
        Machine::at_start(own_memory(program), entry, choices)
    }

    /// One step of the host machine (docs/machines.md): Went where it goes on, Asked where it makes a call, whose answer
    /// then has to come before the next step, and Ended where the run is over; never with Running or Dry. An end changes
    /// nothing else, and every later step answers the same. A step takes no memory.
    pub fn step(&mut self) -> Event
        requires { IsWaiting self.old.phase → ⊥ }
        ensures shows { (ops : List ℕ → Option Fetched) → ReadsOps ops → (p : OfProgram) (o : Outcome Host) → Shows p self.old o → Shows p self.new (stepped (host_machine ops p) o) }
        ensures tells { (ops : List ℕ → Option Fetched) → ReadsOps ops → (p : OfProgram) (o : Outcome Host) → Shows p self.old o → Tells result (stepped (host_machine ops p) o) }
        ensures told { IsTold result self.old self.new }
        ensures over { (e : Ending) → self.old.phase ≡ Phase.Over e → (result ≡ Event.Ended e) × (self.new ≡ self.old) }
    {
        match self.phase {
            Phase::Going => {
                let event = self.state.step();
                self.phase = phase_after(event);
                event
            }
            Phase::Over(end) => Event::Ended(end),
            Phase::Waiting(_) => unreachable!(),
        }
    }

    /// Answers the call that waits: eax gets the result, or 2^32 - e for an error e, and a read's bytes go to its buffer.
    /// What an answer gives that doesn't suit its call stands with `given`. It takes no memory.
    pub fn answer(&mut self, answer: Answer<'_>)
        requires { IsWaiting self.old.phase }
        ensures going { self.new.phase ≡ Phase.Going }
        ensures shows { (p : OfProgram) (call : ListedCall) (next : AnswerValue → Host) → Shows p self.old (Asks call next) → Shows p self.new (Goes (next (answer_value answer.entry))) }
    {
        match self.phase {
            Phase::Waiting(call) => {
                self.state.resume(&call, answer);
                self.phase = Phase::Going;
            }
            Phase::Going | Phase::Over(_) => unreachable!(),
        }
    }

    /// The memory as it stands now.
    pub fn space(&self) -> &Space
        ensures { result.now ≡ memory_of self.now }
    {
        &self.state.parts.space
    }

    /// The value of a register, which is that of the run where the machine goes on: 0 is eax, 1 ecx, 2 edx, 3 ebx, 6 esi,
    /// 7 edi.
    pub fn reg(&self, r: u8) -> u32
        requires { IsReg r }
        ensures kept { result ≡ slice_index self.now.state.parts.regs r }
        ensures run { (p : OfProgram) (h : Host) → Shows p self.now (Goes h) → result ≡ h.core.regs r }
    {
        self.state.parts.reg(r)
    }
}
