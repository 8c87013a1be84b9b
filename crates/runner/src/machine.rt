//! A machine that makes steps.

ghost use Rattle.std.specs.Prelude.{◌≡◌, Bool, true, false};
ghost use Rattle.space.specs.Memory.{Memory};
ghost use Rattle.machines.specs.Prelude.{ListedCall, AnswerValue, answer_value, Outcome, Goes, Asks};
ghost use Rattle.machine_calls.specs.Phases.{stepped};
ghost use Rattle.runner.specs.Stepping.{Stands, Tells, HasBuffer, is_asked};

use space::{Answer, Event, Space};

/// A machine with a program, which shows where the program's run stands.
pub trait Machine {
    /// The states of the runs that it shows.
    ghost State: { Type 0 };

    /// Whether it shows that the run of this step function stands so.
    ghost shows: { Self → (State → Outcome State) → Outcome State → Type 0 };

    ghost memory: { Self → Memory };

    /// Whether a call waits for its answer.
    ghost waits: { Self → Bool };

    /// Makes a step of the run, if it isn't over.
    fn step(&mut self) -> Event
        requires free { waits self.old ≡ false }
        requires stands { Stands (shows self.old) }
        ensures steps { (step : State → Outcome State) (o : Outcome State) → shows self.old step o
            → shows self.new step (stepped step o) × Tells (memory self.new) result (stepped step o) }
        ensures buffer { HasBuffer (memory self.new) result }
        ensures waits { waits self.new ≡ is_asked result };

    /// Answers the call that waits.
    fn answer(&mut self, answer: Answer<'_>)
        requires { waits self.old ≡ true }
        ensures goes { (step : State → Outcome State) (call : ListedCall) (next : AnswerValue → State) → shows self.old step (Asks call next)
            → shows self.new step (Goes (next (answer_value answer.entry))) }
        ensures waits { waits self.new ≡ false };

    /// The memory as it stands now.
    fn space(&self) -> &Space
        ensures { result.now ≡ memory self.now };
}
