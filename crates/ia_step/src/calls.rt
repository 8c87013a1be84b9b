//! System calls and their answers.

ghost use Rattle.std.specs.Prelude.{◌≡◌, ◌≤◌, ◌-◌, ◌^◌};
ghost use Rattle.machines.specs.Prelude.{Program, ListedCall, AnswerValue, answer_value, rights_of, Host, host_system_call};
ghost use Rattle.machine_calls.specs.Calls.{HasBuffer};
ghost use Rattle.ia_step.specs.Shown.{IsState};
ghost use Rattle.ia_step.specs.Calls.{IsAsking, asks_for};
ghost use Rattle.ia_step.specs.Steps.{IsDone, Leads};

use crate::state::State;
use machine_calls::{NO_SUCH_CALL, give, has_buffer};
use reg_map::{EAX, EBX, ECX, EDX};
use space::{Answer, Call, CallKind, End, Event};

/// The numbers of calls: exit, exit_group, read, write and close.
const EXIT: u32 = 1;

const EXIT_GROUP: u32 = 252;

const READ: u32 = 3;

const WRITE: u32 = 4;

const CLOSE: u32 = 6;

// An error as Linux gives it in eax.
fn negated(error: u16) -> u32
    requires { 1 ≤ error }
    ensures { result ≡ 2 ^ 32 - error }
{
    u32::MAX - (u32::from(error) - 1)
}

impl State {
    // Asks for an answer to a call of this kind, where its buffer is held.
    fn ask(&mut self, kind: CallKind, next: u32) -> Event
        ensures leads { (p : Program) (h : Host) → IsState p self.old h → Leads p result self.new (asks_for p kind next h) }
        ensures done { IsDone result self.old self.new }
    {
        let call = Call {
            kind,
            fd: self.parts.reg(EBX),
            at: self.parts.reg(ECX),
            count: self.parts.reg(EDX),
        };
        if has_buffer(&self.parts.space, &call) {
            self.go_on(next);
            Event::Asked(call)
        } else {
            Event::Ended(End::Outside)
        }
    }

    /// int 0x80.
    pub(crate) fn system_call(&mut self, next: u32) -> Event
        ensures leads { (p : Program) (h : Host) → IsState p self.old h → Leads p result self.new (host_system_call (rights_of p) next h) }
        ensures done { IsDone result self.old self.new }
    {
        let number = self.parts.reg(EAX);
        if number == EXIT || number == EXIT_GROUP {
            Event::Ended(End::Exit(self.parts.reg(EBX)))
        } else if number == READ {
            self.ask(CallKind::Read, next)
        } else if number == WRITE {
            self.ask(CallKind::Write, next)
        } else if number == CLOSE {
            self.ask(CallKind::Close, next)
        } else {
            self.parts.put_reg(EAX, negated(NO_SUCH_CALL));
            self.go_on(next)
        }
    }

    /// Goes on behind a call with its answer.
    pub(crate) fn resume(&mut self, call: &Call, answer: Answer<'_>)
        requires { HasBuffer call.now self.old.parts.space }
        ensures { (p : Program) (listed : ListedCall) (next : AnswerValue → Host) → IsAsking p self.old call.now listed next
            → IsState p self.new (next (answer_value answer.entry)) }
    {
        match give(&mut self.parts.space, call, answer) {
            Ok(value) => self.parts.put_reg(EAX, value),
            Err(error) => self.parts.put_reg(EAX, negated(error)),
        }
    }
}
