//! How a machine stands between its steps.

ghost use Rattle.std.specs.Prelude.{◌≡◌};
ghost use Rattle.machine_calls.specs.Phases.{phase_of};

use space::{Call, End, Event};

/// How a machine stands.
#[derive(Clone, Copy)]
pub enum Phase {
    /// It makes the next step.
    Going,
    /// A call waits for its answer.
    Waiting(Call),
    /// The run is over.
    Over(End),
}

/// How a machine stands behind a step.
pub fn phase_after(event: Event) -> Phase
    ensures { result ≡ phase_of event }
{
    match event {
        Event::Went => Phase::Going,
        Event::Asked(call) => Phase::Waiting(call),
        Event::Ended(end) => Phase::Over(end),
    }
}
