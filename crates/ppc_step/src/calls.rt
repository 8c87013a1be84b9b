//! System calls and their answers.

ghost use Rattle.std.specs.Prelude.{◌≡◌, []};
ghost use Rattle.machines.specs.Prelude.{Program, ListedCall, AnswerValue, Gives, Fails, answer_value, rights_of, Guest, after_guest_call, guest_system_call};
ghost use Rattle.machine_calls.specs.Calls.{HasBuffer};
ghost use Rattle.ppc_step.specs.Shown.{IsState};
ghost use Rattle.ppc_step.specs.Calls.{IsAsking, asks_for};
ghost use Rattle.ppc_step.specs.Steps.{IsDone, Leads};

use crate::State;
use machine_calls::{NO_SUCH_CALL, give, has_buffer};
use space::{Answer, Call, CallKind, End, Event};

impl State {
    // Asks for an answer to a call of this kind, where its buffer is held.
    fn ask(&mut self, kind: CallKind) -> Event
        ensures leads { (p : Program) (g : Guest) → IsState p self.old g → Leads p result self.new (asks_for p kind g) }
        ensures done { IsDone result self.old self.new }
    {
        let call = Call {
            kind,
            fd: self.registers.gpr(3),
            at: self.registers.gpr(4),
            count: self.registers.gpr(5),
        };
        if has_buffer(&self.memory, &call) {
            Event::Asked(call)
        } else {
            Event::Ended(End::Outside)
        }
    }

    // A call's result.
    fn succeed(&mut self, given: u32) -> Event
        ensures event { result ≡ Event.Went }
        ensures state { (p : Program) (g : Guest) → IsState p self.old g → IsState p self.new (after_guest_call (Gives given []) g) }
    {
        self.registers.put_gpr(3, given);
        self.registers.clear_so();
        self.go_on()
    }

    // A call's error.
    fn fail(&mut self, error: u16) -> Event
        ensures event { result ≡ Event.Went }
        ensures state { (p : Program) (g : Guest) → IsState p self.old g → IsState p self.new (after_guest_call (Fails error) g) }
    {
        self.registers.put_gpr(3, u32::from(error));
        self.registers.set_so();
        self.go_on()
    }

    /// sc.
    pub(crate) fn system_call(&mut self) -> Event
        ensures leads { (p : Program) (g : Guest) → IsState p self.old g → Leads p result self.new (guest_system_call (rights_of p) g) }
        ensures done { IsDone result self.old self.new }
    {
        match self.registers.gpr(0) {
            1 | 234 => Event::Ended(End::Exit(self.registers.gpr(3))),
            3 => self.ask(CallKind::Read),
            4 => self.ask(CallKind::Write),
            6 => self.ask(CallKind::Close),
            _ => self.fail(NO_SUCH_CALL),
        }
    }

    /// Goes on behind a call with its answer.
    pub(crate) fn resume(&mut self, call: &Call, answer: Answer<'_>) -> Event
        requires { HasBuffer call.now self.old.memory }
        ensures { (p : Program) (listed : ListedCall) (next : AnswerValue → Guest) → IsAsking p self.old call.now listed next
            → IsState p self.new (next (answer_value answer.entry)) }
    {
        match give(&mut self.memory, call, answer) {
            Ok(value) => self.succeed(value),
            Err(error) => self.fail(error),
        }
    }
}
